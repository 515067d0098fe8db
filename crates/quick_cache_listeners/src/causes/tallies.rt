//! How many pairs left, and their weight, by their cause.
ghost use Rattle.std.specs.Prelude.{◌≡◌, Some};
ghost use Rattle.std.specs.Fmt.{WritesOnOk};
ghost use Rattle.quick_cache_listeners.specs.Tallies.{counted, tallies_text, taken_text, tally_of, tally_text, victims_text, with_pair, written_text};

use crate::causes::cause::Cause;
use std::fmt::{self, Display, Formatter, Write};
use std::sync::atomic::{AtomicU64, Ordering};

/// How many pairs left for one cause and what they weighed together, each up to the greatest `u64`.
#[derive(Debug, Clone, Copy, Default, PartialEq, Eq)]
pub struct Tally {
    /// How many pairs.
    pub pairs: u64,
    /// Their weight.
    pub weight: u64,
}

impl Tally {
    // One pair more.
    fn count(&mut self, weight: u64)
        ensures { self.new ≡ with_pair weight self.old }
    {
        self.pairs = self.pairs.saturating_add(1);
        self.weight = self.weight.saturating_add(weight);
    }
}

// Writes two lines for a cause, a name and a number each.
fn write_tally<W: Write>(f: &mut Formatter<W>, cause: &str, tally: Tally) -> fmt::Result
    ensures { WritesOnOk W.write_str_gives f.old result (tally_text cause.now tally) f.new }
{
    write!(
        f,
        "cache_{cause}_total {}\ncache_{cause}_weight_total {}\n",
        tally.pairs, tally.weight
    )
}

/// What left, by its cause.
///
/// It is shown as lines for a page of metrics, a name and a number each, as Prometheus reads them.
#[derive(Debug, Clone, Copy, Default, PartialEq, Eq)]
pub struct Tallies {
    /// Victims of the hot ring.
    pub evicted_hot: Tally,
    /// Victims of the cold ring.
    pub evicted_cold: Tally,
    /// Pairs whose place a write took.
    pub replaced: Tally,
    /// Pairs that were too heavy to come in.
    pub turned_away: Tally,
    /// Pairs whose life was over, as who took them out tells.
    pub expired: Tally,
    /// Pairs that were removed by their keys, as who took them out tells.
    pub removed: Tally,
    /// Pairs that were taken out together, as who took them out tells.
    pub cleared: Tally,
    /// Pairs that a test did not retain, as who took them out tells.
    pub retained: Tally,
}

impl Tallies {
    /// What left for that cause.
    pub fn of(&self, cause: Cause) -> Tally
        ensures { result ≡ tally_of cause self.now }
    {
        match cause {
            Cause::EvictedHot => self.evicted_hot,
            Cause::EvictedCold => self.evicted_cold,
            Cause::Replaced => self.replaced,
            Cause::TurnedAway => self.turned_away,
            Cause::Expired => self.expired,
            Cause::Removed => self.removed,
            Cause::Cleared => self.cleared,
            Cause::Retained => self.retained,
        }
    }

    /// Counts a pair of that weight.
    pub fn count(&mut self, cause: Cause, weight: u64)
        ensures { self.new ≡ counted cause weight self.old }
    {
        match cause {
            Cause::EvictedHot => self.evicted_hot.count(weight),
            Cause::EvictedCold => self.evicted_cold.count(weight),
            Cause::Replaced => self.replaced.count(weight),
            Cause::TurnedAway => self.turned_away.count(weight),
            Cause::Expired => self.expired.count(weight),
            Cause::Removed => self.removed.count(weight),
            Cause::Cleared => self.cleared.count(weight),
            Cause::Retained => self.retained.count(weight),
        }
    }

    // Writes what made room.
    fn write_victims<W: Write>(&self, f: &mut Formatter<W>) -> fmt::Result
        ensures { WritesOnOk W.write_str_gives f.old result (victims_text self.now) f.new }
    {
        write_tally(f, "evicted_hot", self.evicted_hot)?;
        write_tally(f, "evicted_cold", self.evicted_cold)
    }

    // Writes what a write replaced or turned away.
    fn write_written<W: Write>(&self, f: &mut Formatter<W>) -> fmt::Result
        ensures { WritesOnOk W.write_str_gives f.old result (written_text self.now) f.new }
    {
        write_tally(f, "replaced", self.replaced)?;
        write_tally(f, "turned_away", self.turned_away)
    }

    // Writes what callers told.
    fn write_taken<W: Write>(&self, f: &mut Formatter<W>) -> fmt::Result
        ensures { WritesOnOk W.write_str_gives f.old result (taken_text self.now) f.new }
    {
        write_tally(f, "expired", self.expired)?;
        write_tally(f, "removed", self.removed)?;
        write_tally(f, "cleared", self.cleared)?;
        write_tally(f, "retained", self.retained)
    }
}

impl Display for Tallies {
    ghost output = { λ tallies. Some (tallies_text tallies) };

    fn fmt<W: Write>(&self, f: &mut Formatter<W>) -> fmt::Result {
        self.write_victims(f)?;
        self.write_written(f)?;
        self.write_taken(f)
    }
}

// What left for one cause, as threads count it. Past the greatest `u64` a count begins again at 0.
#[derive(Drop)]
struct SharedTally {
    pairs: AtomicU64,
    weight: AtomicU64,
}

impl SharedTally {
    fn new() -> Self {
        SharedTally {
            pairs: AtomicU64::new(0),
            weight: AtomicU64::new(0),
        }
    }

    fn count(&self, weight: u64) {
        self.pairs.fetch_add(1, Ordering::Relaxed);
        self.weight.fetch_add(weight, Ordering::Relaxed);
    }

    fn tally(&self) -> Tally {
        Tally {
            pairs: self.pairs.load(Ordering::Relaxed),
            weight: self.weight.load(Ordering::Relaxed),
        }
    }
}

/// What left, by its cause, as threads count it beside each other. It takes no lock. Past the
/// greatest `u64` a count begins again at 0, and a look beside a count may see the pair and not yet
/// its weight.
#[derive(Drop)]
pub struct SharedTallies {
    evicted_hot: SharedTally,
    evicted_cold: SharedTally,
    replaced: SharedTally,
    turned_away: SharedTally,
    expired: SharedTally,
    removed: SharedTally,
    cleared: SharedTally,
    retained: SharedTally,
}

impl SharedTallies {
    /// Nothing has left.
    pub fn new() -> Self {
        SharedTallies {
            evicted_hot: SharedTally::new(),
            evicted_cold: SharedTally::new(),
            replaced: SharedTally::new(),
            turned_away: SharedTally::new(),
            expired: SharedTally::new(),
            removed: SharedTally::new(),
            cleared: SharedTally::new(),
            retained: SharedTally::new(),
        }
    }

    /// What left by now.
    pub fn seen(&self) -> Tallies {
        Tallies {
            evicted_hot: self.evicted_hot.tally(),
            evicted_cold: self.evicted_cold.tally(),
            replaced: self.replaced.tally(),
            turned_away: self.turned_away.tally(),
            expired: self.expired.tally(),
            removed: self.removed.tally(),
            cleared: self.cleared.tally(),
            retained: self.retained.tally(),
        }
    }

    /// Counts a pair of that weight.
    pub fn count(&self, cause: Cause, weight: u64) {
        match cause {
            Cause::EvictedHot => self.evicted_hot.count(weight),
            Cause::EvictedCold => self.evicted_cold.count(weight),
            Cause::Replaced => self.replaced.count(weight),
            Cause::TurnedAway => self.turned_away.count(weight),
            Cause::Expired => self.expired.count(weight),
            Cause::Removed => self.removed.count(weight),
            Cause::Cleared => self.cleared.count(weight),
            Cause::Retained => self.retained.count(weight),
        }
    }
}
