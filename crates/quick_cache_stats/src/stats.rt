//! What a cache counts.
ghost use Rattle.std.specs.Prelude.{◌≡◌, ◌+◌, ◌-◌, ◌*◌, ◌/◌, ◌<◌, ◌^◌, min, Some, SomeIff};
ghost use Rattle.quick_cache_stats.specs.Stats.{stats_text};

use std::fmt::{self, Display, Formatter, Write};

/// What a cache holds, and what its looks found. Each number is at most the greatest `u64`.
///
/// It is shown as lines for a page of metrics, a name and a number each, as Prometheus reads them.
#[derive(Debug, Clone, Copy, Default, PartialEq, Eq)]
pub struct Stats {
    /// How many entries there are, those that are over too.
    pub entries: u64,
    /// What they weigh.
    pub weight: u64,
    /// The weight that the cache may hold.
    pub capacity: u64,
    /// How many looks found an entry that serves.
    pub hits: u64,
    /// How many looks found none.
    pub misses: u64,
    /// How many of these found one that was over. A cache whose entries have no end counts none.
    pub expired: u64,
    /// How often the cache asked its loader. A cache that is handed a loader by each call counts
    /// none.
    pub loads: u64,
    /// How many of these loads failed.
    pub failed_loads: u64,
}

impl Stats {
    /// How many looks there were.
    pub fn looks(&self) -> u64
        ensures { result ≡ min (self.now.hits + self.now.misses) (2 ^ 64 - 1) }
    {
        self.hits.saturating_add(self.misses)
    }

    /// Of a million looks so many were hits, rounded down, or nothing where there was no look.
    pub fn hits_of_a_million(&self) -> Option<u64>
        ensures { SomeIff result (0 < self.now.hits + self.now.misses)
            (self.now.hits * 1000000 / (self.now.hits + self.now.misses)) }
    {
        let hits = self.hits as u128 * 1_000_000;
        let share = hits.checked_div(self.hits as u128 + self.misses as u128)?;
        Some(share as u64)
    }
}

impl Display for Stats {
    ghost output = { λ stats. Some (stats_text stats) };

    fn fmt<W: Write>(&self, f: &mut Formatter<W>) -> fmt::Result {
        write!(
            f,
            "cache_entries {}\ncache_weight {}\ncache_capacity {}\ncache_hits_total {}\n\
            cache_misses_total {}\ncache_expired_total {}\ncache_loads_total {}\n\
            cache_failed_loads_total {}",
            self.entries,
            self.weight,
            self.capacity,
            self.hits,
            self.misses,
            self.expired,
            self.loads,
            self.failed_loads,
        )
    }
}
