//! How often an eviction asks whether an item is pinned, and how often predicates are asked: no
//! contract counts it.
use crate::hard::{Counting, pinning, put};
use quick_cache_model::UnitWeighter;
use quick_cache_options::options::DEFAULT_HOT_ALLOCATION;
use quick_cache_sync as sync;
use quick_cache_unsync as unsync;
use std::alloc::Global;
use std::cell::Cell;
use std::sync::atomic::{AtomicU64, Ordering};
use std::test::Fail;
use test_tools::{expect_eq, expect_ok};

/// How often pins are asked where a fifth key comes to four, of which so many have the mark 2: three
/// are hot and the fourth is cold. All are pinned or none, as the first number is odd or even.
fn asked_by_a_fifth(alloc: Global, pinned: u64, marked: u64) -> Result<u64, Fail> {
    let asked = Cell::new(pinned);
    let pins = Counting {
        asked: &asked,
        adds: 2,
    };
    let mut cache = pinning(alloc, 4, 4, DEFAULT_HOT_ALLOCATION, UnitWeighter, pins)?;
    for key in 0..4 {
        put(&mut cache, key, key);
    }
    for key in 0..marked {
        cache.get(&key);
        cache.get(&key);
    }
    let before = asked.get();
    put(&mut cache, 4, 4);
    Ok(asked.get().wrapping_sub(before) / 2)
}

#[test]
fn each_visit_asks_once_whether_the_item_is_pinned(rt: HostRuntime) -> Result<(), Fail> {
    for (pinned, marked, wanted) in [
        // The cold item leaves.
        (0, 0, 1),
        (0, 3, 1),
        // It is promoted unasked, and each of four hot ones is visited twice.
        (0, 4, 8),
        // The cold one is asked, and then the three hot ones.
        (1, 0, 4),
        // It is promoted; four hot ones are visited for the target, and again for the capacity.
        (1, 4, 8),
    ] {
        let asked = asked_by_a_fifth(rt.alloc(), pinned, marked)?;
        assert_eq!(rt; asked, wanted, "at {pinned} and {marked}");
    }
    Ok(())
}

#[test]
fn a_predicate_is_asked_once_of_each_item(rt: HostRuntime) {
    let asked = Cell::new(0u64);
    let is_even = |key: &u64| {
        asked.set(asked.get().wrapping_add(1));
        *key % 2 == 0
    };
    let mut cache: unsync::Cache<u64, u64> = expect_ok!(rt; unsync::Cache::new(rt.alloc(), 9));
    for key in 0..7 {
        expect_eq!(rt; cache.insert(key, key), Ok(()));
    }
    cache.retain(|key, _| is_even(key));
    let first = asked.get();
    cache.retain(|key, _| is_even(key));
    let second = asked.get();
    cache.remove_if(&2, |value| is_even(value));
    // An odd one left before, and is not there to be asked of.
    cache.remove_if(&3, |value| is_even(value));
    expect_eq!(rt; ([first, second, asked.get()], cache.len()), ([7, 11, 12], 3));
}

#[test]
fn so_it_is_in_the_shared_cache(rt: HostRuntime) {
    let asked = AtomicU64::new(0);
    let is_even = |key: &u64| {
        asked.fetch_add(1, Ordering::SeqCst);
        *key % 2 == 0
    };
    let cache: sync::Cache<u64, u64> = expect_ok!(rt; sync::Cache::new(rt.alloc(), 100));
    for key in 0..7 {
        expect_eq!(rt; cache.insert(&rt, key, key), Ok(()));
    }
    cache.retain(&rt, |key, _| is_even(key));
    let first = asked.load(Ordering::SeqCst);
    cache.retain(&rt, |key, _| is_even(key));
    let second = asked.load(Ordering::SeqCst);
    cache.remove_if(&rt, &2, |value| is_even(value));
    cache.remove_if(&rt, &3, |value| is_even(value));
    let all = asked.load(Ordering::SeqCst);
    expect_eq!(rt; ([first, second, all], cache.len(&rt)), ([7, 11, 12], 3));
}
