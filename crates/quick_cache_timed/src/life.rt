//! How long entries live.
ghost use Rattle.std.specs.Prelude.{◌≡◌, ◌≤◌, ◌*◌, ◌-◌};
ghost use Rattle.std.specs.Duration.{as_nanos};
ghost use Rattle.quick_cache_timed.specs.Lives.{life_by, millis_of, shortened};

use quick_cache_model::{DefaultHashBuilder, hash_of};
use std::hash::Hash;
use std::time::Duration;

/// So many whole milliseconds, up to the greatest `u64`.
pub fn millis_of(duration: Duration) -> u64
    ensures { result ≡ millis_of (as_nanos duration) }
{
    let millis = duration.as_millis();
    if millis < u128::from(u64::MAX) {
        millis as u64
    } else {
        u64::MAX
    }
}

/// How long the entries of a cache live.
#[derive(Debug, Clone, Copy, PartialEq)]
pub struct Life {
    /// So many milliseconds. What lives for the greatest `u64` is never over.
    pub millis: u64,
    /// Whether a look renews it.
    pub slides: bool,
    /// By how many parts per million it may be less.
    pub jitter: u32,
}

impl Life {
    /// The life of an entry under this key, or under a query that stands for it. It is a function of
    /// the hash that the default builder makes of it, and so the same at each call.
    pub fn of<Q: Hash>(&self, query: &Q) -> u64
        ensures life { result ≡ life_by self.now (Q.hash_input query.now) }
        // It is never more than it was to be; without jitter it is that, and else not much less.
        ensures most { result ≤ self.now.millis }
        ensures exact { self.now.jitter ≡ 0 → result ≡ self.now.millis }
        ensures least { self.now.millis * (1_000_000 - self.now.jitter) ≤ result * 1_000_000 }
    {
        if self.jitter == 0 {
            return self.millis;
        }
        self.shortened(hash_of(&DefaultHashBuilder::new(), query))
    }

    /// The life that this hash picks.
    fn shortened(&self, hash: u64) -> u64
        ensures { result ≡ shortened self.now hash }
    {
        let parts = hash % (u64::from(self.jitter) + 1);
        let less = u128::from(self.millis) * u128::from(parts) / 1_000_000;
        if less < u128::from(self.millis) {
            self.millis - less as u64
        } else {
            0
        }
    }
}
