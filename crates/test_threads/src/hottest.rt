//! The hottest items of a cache that threads share.
use crate::shards::divided;
use quick_cache::Queue;
use quick_cache::sync::{Cache, Heated};
use std::alloc::Global;
use std::process::Abort;
use std::sync::Wait;
use test_tools::{expect, expect_eq, expect_ok};

/// Writes each of these keys, with itself as the value.
fn put_all<R: Wait + Abort>(rt: &R, cache: &Cache<u64, u64>, keys: &[u64]) {
    for key in keys {
        expect_ok!(rt; cache.put(rt, *key, *key));
    }
}

/// The keys of so many that are shown and their marks, each as the digits of a number.
fn shown<R: Wait + Abort>(
    rt: &R,
    alloc: Global,
    cache: &Cache<u64, u64>,
    count: usize,
) -> (u64, u64) {
    let (mut keys, mut marks) = (0u64, 0u64);
    for item in &expect_ok!(rt; cache.hottest(rt, alloc, count)) {
        keys = keys.wrapping_mul(10).wrapping_add(item.key);
        marks = marks.wrapping_mul(10).wrapping_add(item.mark as u64);
    }
    (keys, marks)
}

#[test]
fn what_was_written_again_is_hotter(rt: HostRuntime) {
    let cache: Cache<u64, u64> = expect_ok!(rt; Cache::new(rt.alloc(), 100));
    // Each write over an item is a mark more, up to 2.
    put_all(&rt, &cache, &[1, 2, 3, 2, 3, 2, 2]);
    // A look-up leaves its touch at the item, which is no mark yet.
    expect_eq!(rt; cache.get(&rt, &1), Ok(Some(1)));
    for (count, keys, marks) in [
        (0, 0, 0),
        (1, 2, 2),
        (2, 23, 21),
        (3, 231, 210),
        (9, 231, 210),
    ] {
        expect_eq!(rt; shown(&rt, rt.alloc(), &cache, count), (keys, marks));
    }
    // It is no use of the items.
    expect_eq!(rt; (cache.hits(&rt), cache.misses(&rt)), (1, 0));
}

/// How cool the last of these items is: each is in the cache, and none is hotter than those before.
fn last_coolness<R: Wait + Abort>(
    rt: &R,
    cache: &Cache<u64, u64>,
    list: &[Heated<u64, u64>],
) -> u8 {
    let mut coolest = 0u8;
    for item in list {
        expect!(rt; coolest <= item.coolness());
        expect!(rt; cache.contains_key(rt, &item.key));
        coolest = item.coolness();
    }
    coolest
}

/// How many of these items are in a hot ring.
fn count_of_hot(list: &[Heated<u64, u64>]) -> usize {
    let mut count = 0usize;
    for item in list {
        count = count.wrapping_add(usize::from(item.queue == Queue::Hot));
    }
    count
}

#[test]
fn hot_rings_of_all_shards_come_first(rt: HostRuntime) {
    let cache = expect_ok!(rt; divided(rt.alloc(), 4, 200).ok_or("there is memory"));
    for key in 0u64..200 {
        put_all(&rt, &cache, &[key]);
    }
    let all = expect_ok!(rt; cache.hottest(&rt, rt.alloc(), 200));
    expect_eq!(rt; all.len(), cache.len(&rt));
    // The last is of a cold ring, and the first so many are the hottest of all.
    expect_eq!(rt; last_coolness(&rt, &cache, &all), 7);
    let few = expect_ok!(rt; cache.hottest(&rt, rt.alloc(), 100));
    expect_eq!(rt; (few.len(), count_of_hot(&few)), (100, 100));
}
