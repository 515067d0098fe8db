//! Counters of touches that begin with a number of a test's choice.
ghost use Rattle.std.specs.Prelude.{⊤};

use quick_cache_shard::Touches;
use std::mem::replace;

/// As if so many readers had touched an item as soon as it came.
#[derive(Drop)]
pub struct Touched<const COUNT: u64> {
    count: u64,
}

impl<const COUNT: u64> Default for Touched<COUNT> {
    fn default() -> Self {
        Touched { count: COUNT }
    }
}

impl<const COUNT: u64> Touches for Touched<COUNT> {
    ghost may_count = { λ _. ⊤ };

    ghost none_counted = { tt };

    fn counts() -> bool {
        true
    }

    fn add(&self) {}

    fn add_all(&self, _count: u64) {}

    fn seen(&self) -> u64 {
        self.count
    }

    fn take(&mut self) -> u64 {
        replace(&mut self.count, 0)
    }
}
