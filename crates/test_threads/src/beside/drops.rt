//! A value that leaves a cache is dropped once, whatever makes it leave.
use quick_cache::{Weighter, sync, unsync};
use std::cell::Cell;
use std::sync::Wait;
use test_tools::{expect_eq, expect_ok};

/// A value of some weight, which counts how many values were dropped.
struct Counted<'a> {
    drops: &'a Cell<u64>,
    weight: u64,
}

impl Drop for Counted<'_> {
    fn drop(self) {
        let Counted { drops, weight: _ } = self;
        drops.set(drops.get().saturating_add(1));
    }
}

/// Weighs each entry by its value.
#[derive(Clone, Drop)]
struct ByValue;

impl<'a> Weighter<u64, Counted<'a>> for ByValue {
    ghost weight_of = { λ _ _ value. value.weight };

    fn weight(&self, _key: &u64, val: &Counted<'a>) -> u64 {
        val.weight
    }
}

/// Inserts into a cache that may weigh 10: the keys, the weights, and how many values were dropped
/// then. The fourth evicts two hot items and a cold one, the fifth writes over an item, and the
/// sixth is turned away.
const INSERTS: [(u64, u64, u64); 9] = [
    (1, 4, 0),
    (2, 3, 0),
    (3, 3, 0),
    (4, 9, 3),
    (4, 2, 4),
    (5, 20, 5),
    (6, 1, 5),
    (7, 1, 5),
    (8, 1, 5),
];

type OneThread<'a> = unsync::Cache<u64, Counted<'a>, ByValue>;

/// Inserts a value of this weight, and tells how many were dropped since the first insert.
fn put<'a>(cache: &mut OneThread<'a>, drops: &'a Cell<u64>, key: u64, weight: u64) -> u64 {
    drop(cache.insert(key, Counted { drops, weight }));
    drops.get()
}

#[test]
fn one_thread_drops_what_leaves_once(rt: HostRuntime) {
    let drops = Cell::new(0);
    let mut cache: OneThread<'_> =
        expect_ok!(rt; unsync::Cache::with_weighter(rt.alloc(), 10, 10, ByValue));
    for (key, weight, dropped) in INSERTS {
        assert_eq!(rt; put(&mut cache, &drops, key, weight), dropped, "at {key}");
    }
    drop(cache.remove(&4));
    let removed = drops.get();
    cache.retain(|key, _| *key != 6);
    let kept = drops.get();
    cache.clear();
    let cleared = put(&mut cache, &drops, 1, 1);
    let again = put(&mut cache, &drops, 2, 1);
    let mut drain = cache.drain();
    drop(drain.next());
    let given = drops.get();
    drop(drain);
    let drained = put(&mut cache, &drops, 1, 1);
    drop(cache);
    expect_eq!(rt;
        [removed, kept, cleared, again, given, drained, drops.get()],
        [6, 7, 9, 9, 10, 11, 12]
    );
}

type Shared<'a> = sync::Cache<u64, Counted<'a>, ByValue>;

/// Inserts a value of this weight, and tells how many were dropped since the first insert.
fn put_shared<'a, R: Wait>(
    rt: &R,
    cache: &Shared<'a>,
    drops: &'a Cell<u64>,
    key: u64,
    weight: u64,
) -> u64 {
    drop(cache.insert(rt, key, Counted { drops, weight }));
    drops.get()
}

#[test]
fn a_shared_cache_drops_what_leaves_once(rt: HostRuntime) {
    let drops = Cell::new(0);
    let cache: Shared<'_> = expect_ok!(rt; sync::Cache::with_weighter(rt.alloc(), 10, 10, ByValue));
    for (key, weight, dropped) in INSERTS {
        assert_eq!(rt;
            put_shared(&rt, &cache, &drops, key, weight),
            dropped,
            "at {key}"
        );
    }
    drop(cache.remove(&rt, &4));
    let removed = drops.get();
    cache.retain(&rt, |key, _| *key != 6);
    let kept = drops.get();
    cache.clear(&rt);
    let cleared = put_shared(&rt, &cache, &drops, 1, 1);
    drop(cache);
    expect_eq!(rt; [removed, kept, cleared, drops.get()], [6, 7, 9, 10]);
}
