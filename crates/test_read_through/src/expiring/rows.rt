//! What serves at which moment, and what is renewed, purged and loaded.
use quick_cache_expiring::{
    DefaultHashBuilder, DefaultLifecycle, Expiring, LoadError, OptionsBuilder, Stats, UnitWeighter,
};
use std::convert::Infallible;
use test_tools::{expect_eq, expect_ok};

/// The moments of a store, its life, and gets: the moment, and whether it serves.
pub const LIVES: [(u64, u64, &[(u64, bool)]); 6] = [
    (5, 10, &[(5, true), (14, true), (15, false), (14, false)]),
    // A clock that goes back.
    (5, 10, &[(14, true), (0, true)]),
    (5, 0, &[(5, false), (4, false)]),
    (5, u64::MAX, &[(5, true), (u64::MAX, true)]),
    (u64::MAX, 1, &[(u64::MAX, true)]),
    (u64::MAX, 0, &[(u64::MAX, true)]),
];

#[test]
fn an_entry_serves_below_its_end(rt: HostRuntime) {
    for (stored, life, gets) in LIVES {
        let mut entries: Expiring<u64, u64> = expect_ok!(rt; Expiring::new(rt.alloc(), 8));
        expect_eq!(rt; entries.insert(1, 100, stored, life).is_ok(), true);
        for (now, serves) in gets {
            let found = entries.get(&1, *now).copied();
            expect_eq!(rt; (life, *now, found), (life, *now, serves.then_some(100)));
        }
    }
}

#[test]
fn what_lives_is_renewed_and_what_is_over_is_purged(rt: HostRuntime) {
    let mut entries: Expiring<u64, u64> = expect_ok!(rt; Expiring::new(rt.alloc(), 8));
    for key in 0..4 {
        expect_eq!(rt; entries.insert(key, key, key, 10).is_ok(), true);
    }
    // A key, whether it is renewed at 10, and its end then.
    for (key, renewed, end) in [(1, true, Some(15)), (0, false, None), (9, false, None)] {
        let found = (entries.touch(&key, 10, 5), entries.expires_at(&key));
        expect_eq!(rt; found, (renewed, end));
    }
    // The third is over at 12, and the fourth at 13.
    for (now, gone, left) in [(11, 0, 3), (12, 1, 2), (13, 1, 1), (14, 0, 1), (15, 1, 0)] {
        expect_eq!(rt; (now, entries.purge(now), entries.len()), (now, gone, left));
    }
    let stats = Stats {
        entries: 0,
        weight: 0,
        capacity: 8,
        hits: 1,
        misses: 2,
        expired: 1,
        loads: 0,
        failed_loads: 0,
    };
    expect_eq!(rt; entries.stats(), stats);
}

/// How many of the entries 0 to 5, stored at 0 for so many moments as their key, go in turn by
/// `purge_some` at 3, in which only the keys below 4 are over.
pub const PURGED_IN_PARTS: [(usize, [usize; 4]); 5] = [
    (0, [0, 0, 0, 0]),
    (1, [1, 1, 1, 1]),
    (2, [2, 2, 0, 0]),
    (5, [4, 0, 0, 0]),
    (usize::MAX, [4, 0, 0, 0]),
];

#[test]
fn a_purge_of_some_goes_on_where_it_stopped(rt: HostRuntime) {
    for (at_most, purged) in PURGED_IN_PARTS {
        let mut entries: Expiring<u64, u64> = expect_ok!(rt; Expiring::new(rt.alloc(), 8));
        for key in 0..6 {
            expect_eq!(rt; entries.insert(key, key, 0, key).is_ok(), true);
        }
        for gone in purged {
            expect_eq!(rt; entries.purge_some(3, at_most), gone);
        }
    }
}

#[test]
fn what_comes_behind_a_purge_of_some_is_purged_by_the_next_round(rt: HostRuntime) {
    let mut entries: Expiring<u64, u64> = expect_ok!(rt; Expiring::new(rt.alloc(), 8));
    for key in 0..6 {
        expect_eq!(rt; entries.insert(key, key, 0, key).is_ok(), true);
    }
    expect_eq!(rt; entries.purge_some(3, 3), 3);
    // It takes a slot that is free, and those that are lie behind.
    expect_eq!(rt; entries.insert(9, 9, 0, 1).is_ok(), true);
    for (gone, left) in [(1, 3), (1, 2), (0, 2)] {
        expect_eq!(rt; (entries.purge_some(3, 8), entries.len()), (gone, left));
    }
}

#[test]
fn what_is_over_is_loaded_anew(rt: HostRuntime) {
    let mut entries: Expiring<u64, u64> = expect_ok!(rt; Expiring::new(rt.alloc(), 8));
    // A moment, and the value then, which is the moment of its load.
    for (now, value) in [(5, 5), (14, 5), (15, 15), (24, 15), (25, 25)] {
        let loader = || -> Result<u64, Infallible> { Ok(now) };
        expect_eq!(rt; entries.load(&1, now, 10, loader), Ok(Ok(true)));
        expect_eq!(rt; (now, entries.peek(&1, now).copied()), (now, Some(value)));
    }
    let failed: Result<u64, u64> = Err(7);
    expect_eq!(rt; entries.load(&2, 5, 10, || failed), Ok(Err(7)));
    expect_eq!(rt; (entries.len(), entries.peek(&2, 5).copied()), (1, None));
    let stats = Stats {
        entries: 1,
        weight: 1,
        capacity: 8,
        hits: 2,
        misses: 4,
        expired: 2,
        loads: 0,
        failed_loads: 0,
    };
    expect_eq!(rt; entries.stats(), stats);
}

#[test]
fn a_load_of_what_is_over_counts_as_a_get_of_it(rt: HostRuntime) {
    let mut entries: Expiring<u64, u64> = expect_ok!(rt; Expiring::new(rt.alloc(), 8));
    expect_eq!(rt; entries.insert(1, 0, 0, 10).is_ok(), true);
    // The moment of a load for ten moments, and the hits, the misses and what had expired then.
    for (now, counts) in [
        (9, [1, 0, 0]),
        (10, [1, 1, 1]),
        (19, [2, 1, 1]),
        (20, [2, 2, 2]),
    ] {
        let loader = || -> Result<u64, Infallible> { Ok(now) };
        expect_eq!(rt; entries.load(&1, now, 10, loader), Ok(Ok(true)));
        let stats = entries.stats();
        expect_eq!(rt; [stats.hits, stats.misses, stats.expired], counts);
    }
    expect_eq!(rt; (entries.get(&1, 30).copied(), entries.stats().misses), (None, 3));
}

#[test]
fn a_capacity_counts_what_is_over(rt: HostRuntime) {
    let options = expect_ok!(rt; OptionsBuilder::new()
        .estimated_items_capacity(4)
        .weight_capacity(4)
        .build());
    let mut entries: Expiring<u64, u64> = expect_ok!(rt; Expiring::with_options(
        rt.alloc(),
        options,
        UnitWeighter,
        DefaultHashBuilder::new(),
        DefaultLifecycle::new(),
    ));
    for key in 0..4 {
        expect_eq!(rt; entries.put(key, key, 0, 1), Ok(()));
    }
    entries.set_capacity(2);
    expect_eq!(rt; entries.len(), 2);
    entries.clear();
    expect_eq!(rt; (entries.len(), entries.cache().capacity()), (0, 2));
}

#[test]
fn a_load_gives_its_value(rt: HostRuntime) {
    let mut entries: Expiring<u64, u64> = expect_ok!(rt; Expiring::new(rt.alloc(), 8));
    // A moment, what the loader gives for five moments, and what is answered.
    let rows = [
        (0, Ok(100), Ok(100)),
        (4, Ok(200), Ok(100)),
        (5, Ok(300), Ok(300)),
        (10, Err(7), Err(LoadError::Failed(7))),
        (10, Ok(400), Ok(400)),
    ];
    for (now, given, answer) in rows {
        let got: Result<u64, LoadError<u8>> = entries.get_or_load(&1, now, 5, || given);
        expect_eq!(rt; (now, got), (now, answer));
    }
    let stats = Stats {
        entries: 1,
        weight: 1,
        capacity: 8,
        hits: 1,
        misses: 4,
        expired: 2,
        loads: 0,
        failed_loads: 0,
    };
    expect_eq!(rt; entries.stats(), stats);
}

#[test]
fn what_is_over_is_taken_and_given(rt: HostRuntime) {
    let mut entries: Expiring<u64, u64> = expect_ok!(rt; Expiring::new(rt.alloc(), 8));
    for key in 0..6 {
        expect_eq!(rt; entries.put(key, key, 0, key), Ok(()));
    }
    // One step takes one entry: at 3 four are over.
    let first = entries.take_over(3).next().map(|pair| pair.0);
    expect_eq!(rt; (first, entries.len()), (Some(0), 5));
    let mut keys: u64 = 0;
    for (key, lasting) in entries.take_over(3) {
        keys = keys
            .wrapping_mul(100)
            .wrapping_add(key.wrapping_add(lasting.until));
    }
    expect_eq!(rt; (keys, entries.len(), entries.stats().expired), (20406, 2, 0));
}
