//! The hottest of seventy thousand items, and all of them saved and restored.
use quick_cache_unsync::{
    Cache, DefaultHashBuilder, DefaultLifecycle, OptionsBuilder, Queue, UnitWeighter,
};
use std::alloc::Global;
use std::process::Abort;
use test_tools::{expect_eq, expect_ok};

/// How many items there are.
const MANY: usize = 70000;

/// A cache of the numbers below that one, each with itself, as they were saved.
fn restored(rt: &impl Abort, alloc: Global) -> Cache<u64, u64> {
    let mut options = OptionsBuilder::new();
    options.estimated_items_capacity(MANY);
    options.weight_capacity(MANY as u64);
    let options = expect_ok!(rt; options.build());
    let (builder, lifecycle) = (DefaultHashBuilder::new(), DefaultLifecycle::new());
    let mut list = Vec::new(alloc);
    for key in 0..MANY as u64 {
        expect_ok!(rt; list.push((key, key, Queue::Cold, (key % 3) as u8)));
    }
    let pairs = list.iter().copied();
    expect_ok!(rt; Cache::restored(alloc, options, UnitWeighter, builder, lifecycle, pairs))
}

/// How many items are saved, up to the first that is not the next number with its mark.
fn count_in_order(cache: &Cache<u64, u64>) -> u64 {
    let mut next = 0u64;
    for (key, value, queue, mark) in cache.saved() {
        if (*key, *value, queue, u64::from(mark)) != (next, next, Queue::Cold, next % 3) {
            return next;
        }
        next = next.saturating_add(1);
    }
    next
}

#[test]
fn seventy_thousand_items_are_restored_saved_and_listed(rt: HostRuntime) {
    let cache = restored(&rt, rt.alloc());
    expect_eq!(rt; (cache.len(), count_in_order(&cache)), (MANY, MANY as u64));
    let list = expect_ok!(rt; cache.hottest(rt.alloc(), MANY));
    // Those of the greatest mark come first, and of these the first in the ring.
    let first = list.first().map(|pair| *pair.0);
    let last = list.last().map(|pair| *pair.0);
    expect_eq!(rt; (list.len(), first, last), (MANY, Some(2), Some(69999)));
}
