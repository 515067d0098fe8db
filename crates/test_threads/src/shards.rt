//! The shards of a cache: how many there are, how much each may hold, and which one a key has.
use crate::asked::{Ask, Said, answers};
use quick_cache::sync::{Cache, DefaultLifecycle};
use quick_cache::{DefaultHashBuilder, Options, OptionsBuilder, UnitWeighter};
use std::alloc::Global;
use test_parts::upper::Upper;
use test_tools::{expect_eq, expect_ok};

/// The options of so many items and so much weight, and of so many shards where that is told.
fn options(shards: Option<usize>, items: usize, weight: u64) -> Option<Options> {
    let mut options = OptionsBuilder::new();
    options
        .estimated_items_capacity(items)
        .weight_capacity(weight);
    if let Some(shards) = shards {
        options.shards(shards);
    }
    options.build().ok()
}

/// A cache of so many items of weight 1, divided into so many shards.
pub(crate) fn divided(alloc: Global, shards: usize, items: usize) -> Option<Cache<u64, u64>> {
    Cache::with_options(
        alloc,
        options(Some(shards), items, items as u64)?,
        UnitWeighter,
        DefaultHashBuilder::new(),
        DefaultLifecycle::new(),
    )
    .ok()
}

#[test]
fn the_options_tell_how_a_cache_is_divided(rt: HostRuntime) {
    let rows: [(Option<usize>, usize, u64, usize, u64, u64); 7] = [
        (Some(0), 1000, 10, 1, 10, 10),
        (Some(3), 1000, 10, 4, 3, 12),
        (Some(16), 512, 1, 16, 1, 16),
        (Some(16), 496, 8, 8, 1, 8),
        (Some(16), 100, 100, 2, 50, 100),
        (None, 0, 0, 1, 0, 0),
        (None, 100, 100, 2, 50, 100),
    ];
    for (asked, items, weight, shards, shard_capacity, capacity) in rows {
        let Some(options) = options(asked, items, weight) else {
            panic!(rt; "the options are in range");
        };
        let cache: Cache<u64, u64> = expect_ok!(rt; Cache::with_options(
            rt.alloc(),
            options,
            UnitWeighter,
            DefaultHashBuilder::new(),
            DefaultLifecycle::new(),
        ));
        let told = (
            cache.num_shards(),
            cache.shard_capacity(&rt),
            cache.capacity(&rt),
        );
        expect_eq!(rt; told, (shards, shard_capacity, capacity));
    }
}

#[test]
fn the_greatest_mark_decides_who_leaves(rt: HostRuntime) {
    // The greatest mark, and which of two keys stays: one read once, and one read three times.
    for (cut, stays) in [(1, 1), (2, 2), (3, 2)] {
        let options = expect_ok!(rt; OptionsBuilder::new()
            .estimated_items_capacity(2)
            .weight_capacity(2)
            .mark_cut(cut)
            .build());
        let cache: Cache<u64, u64> = expect_ok!(rt; Cache::with_options(
            rt.alloc(),
            options,
            UnitWeighter,
            DefaultHashBuilder::new(),
            DefaultLifecycle::new(),
        ));
        answers(
            &rt,
            &cache,
            &[
                (Ask::Insert(1, 10), Said::Done),
                (Ask::Get(1), Said::Value(10)),
                (Ask::Insert(2, 20), Said::Done),
                (Ask::Get(2), Said::Value(20)),
                (Ask::Get(2), Said::Value(20)),
                (Ask::Get(2), Said::Value(20)),
                (Ask::Insert(3, 30), Said::Done),
                (Ask::Contains(1), Said::Is(stays == 1)),
                (Ask::Contains(2), Said::Is(stays == 2)),
            ],
        );
    }
}

#[test]
fn too_many_shards_are_refused(rt: HostRuntime) {
    let mut options = OptionsBuilder::new();
    options
        .estimated_items_capacity(100)
        .weight_capacity(100)
        .shards(9223372036854775809);
    let Err(error) = options.build() else {
        panic!(rt; "there are too many");
    };
    let text = expect_ok!(rt; format!(in rt.alloc(); "{error}"));
    expect_eq!(rt; text.as_str(), "shards is out of range");
}

/// A cache whose shards a test can foresee.
type UpperCache = Cache<u64, u64, UnitWeighter, Upper, DefaultLifecycle<u64, u64>, Global>;

#[test]
fn calls_reach_the_shard_that_the_hash_tells(rt: HostRuntime) {
    let Some(options) = options(Some(4), 1000, 1000) else {
        panic!(rt; "the options are in range");
    };
    let cache: UpperCache = expect_ok!(rt; Cache::with_options(
        rt.alloc(),
        options,
        UnitWeighter,
        Upper,
        DefaultLifecycle::new(),
    ));
    expect_eq!(rt; cache.num_shards(), 4);
    for key in 0..8 {
        expect_eq!(rt; cache.shard_index(&key), key as usize % 4);
        answers(&rt, &cache, &[(Ask::Insert(key, key + 1), Said::Done)]);
    }
    for key in 0..8 {
        answers(&rt, &cache, &[(Ask::Get(key), Said::Value(key + 1))]);
    }
    // Of the keys below 4 one lies in each shard, and of those above too.
    answers(&rt, &cache, &[(Ask::KeepBelow(4), Said::Count(4))]);
    for key in 0..8 {
        answers(&rt, &cache, &[(Ask::Contains(key), Said::Is(key < 4))]);
    }
    answers(&rt, &cache, &[(Ask::Clear, Said::Done)]);
    for key in 0..8 {
        answers(&rt, &cache, &[(Ask::Contains(key), Said::Is(false))]);
    }
}
