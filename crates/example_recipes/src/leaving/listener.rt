//! An eviction listener: it keeps what it is told of.
use quick_cache_listeners::{Listener, OnLeave};
use quick_cache_unsync::{Cache, DefaultHashBuilder, Refusal, UnitWeighter};
use std::alloc::Global;

/// Keeps the pair that left last, and how many left.
#[derive(Clone, Drop)]
pub struct Last;

/// What a call told the listener.
#[derive(Debug, Default, PartialEq, Eq, Drop)]
pub struct Left {
    pub last: Option<(u64, u64)>,
    pub count: u64,
}

impl Listener<u64, u64> for Last {
    type State = Left;

    fn tell(&self, left: &mut Left, key: u64, val: u64) {
        left.last = Some((key, val));
        left.count = left.count.saturating_add(1);
    }
}

/// A cache that tells a listener what leaves.
pub type ToldCache = Cache<u64, u64, UnitWeighter, DefaultHashBuilder, OnLeave<Last>>;

/// A cache for two items, whose listener is told of each that leaves.
pub fn two_items(alloc: Global) -> Result<ToldCache, Refusal> {
    Cache::with(
        alloc,
        2,
        2,
        UnitWeighter,
        DefaultHashBuilder::new(),
        OnLeave(Last),
    )
}

#[cfg(test)]
mod tests {
    use super::*;
    use test_tools::{expect_eq, expect_ok};

    #[test]
    fn the_listener_is_told_what_leaves(rt: HostRuntime) {
        let mut cache = expect_ok!(rt; two_items(rt.alloc()));
        let mut left = Left::default();
        for (key, value, last, count) in [
            (1, 10, None, 0),
            (2, 20, None, 0),
            (3, 30, Some((2, 20)), 1),
        ] {
            expect_ok!(rt; cache.insert_with_lifecycle(key, value, &mut left));
            expect_eq!(rt; (left.last, left.count), (last, count));
        }
        // A removal hands its pair to the caller, and tells no hook.
        expect_eq!(rt; cache.remove(&1), Some((1, 10)));
        expect_eq!(rt; left.count, 1);
    }
}
