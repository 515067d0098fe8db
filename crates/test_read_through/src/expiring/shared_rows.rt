//! The rows of the cache that threads share.
use crate::expiring::rows::{LIVES, PURGED_IN_PARTS};
use quick_cache_expiring_sync::{
    DefaultHashBuilder, DefaultLifecycle, OptionsBuilder, SharedExpiring, Stats, UnitWeighter,
};
use std::convert::Infallible;
use test_tools::{expect_eq, expect_ok};

#[test]
fn a_shared_entry_serves_below_its_end(rt: HostRuntime) {
    for (stored, life, gets) in LIVES {
        let entries: SharedExpiring<u64, u64> = expect_ok!(rt; SharedExpiring::new(rt.alloc(), 8));
        expect_eq!(rt; entries.insert(&rt, 1, 100, stored, life).is_ok(), true);
        for (now, serves) in gets {
            let value = serves.then_some(100);
            let seen = entries.peek(&rt, &1, *now);
            expect_eq!(rt; (life, *now, seen), (life, *now, Ok(value)));
            expect_eq!(rt; entries.get(&rt, &1, *now), Ok(value));
        }
    }
}

#[test]
fn what_lives_is_renewed_by_threads_and_what_is_over_is_purged(rt: HostRuntime) {
    let entries: SharedExpiring<u64, u64> = expect_ok!(rt; SharedExpiring::new(rt.alloc(), 8));
    for key in 0..4 {
        expect_eq!(rt; entries.insert(&rt, key, key, key, 10).is_ok(), true);
    }
    // A key, whether it is renewed at 10, and its end then.
    for (key, renewed, end) in [(1, true, Some(15)), (0, false, None), (9, false, None)] {
        let found = (
            entries.touch(&rt, &key, 10, 5),
            entries.expires_at(&rt, &key),
        );
        expect_eq!(rt; found, (renewed, Ok(end)));
    }
    // The third is over at 12, and the fourth at 13.
    for (now, gone, left) in [(11, 0, 3), (12, 1, 2), (13, 1, 1), (14, 0, 1), (15, 1, 0)] {
        expect_eq!(rt; (now, entries.purge(&rt, now), entries.len(&rt)), (now, gone, left));
    }
    let stats = Stats {
        hits: 1,
        misses: 2,
        expired: 1,
        ..entries.cache().stats(&rt)
    };
    expect_eq!(rt; entries.stats(&rt), stats);
}

#[test]
fn a_look_renews_what_lives(rt: HostRuntime) {
    let entries: SharedExpiring<u64, u64> = expect_ok!(rt; SharedExpiring::new(rt.alloc(), 8));
    expect_eq!(rt; entries.insert(&rt, 1, 100, 0, 10).is_ok(), true);
    // A moment, and what is found then. Each look lets it live for ten more.
    for (now, found) in [(9, Some(100)), (18, Some(100)), (28, None)] {
        let looked = entries.get_and_touch(&rt, &1, now, 10);
        expect_eq!(rt; (now, looked), (now, Ok(found)));
    }
}

#[test]
fn a_shared_purge_of_some_goes_on_where_it_stopped(rt: HostRuntime) {
    // One shard, since each is made for 32 entries at least.
    for (at_most, purged) in PURGED_IN_PARTS {
        let entries: SharedExpiring<u64, u64> = expect_ok!(rt; SharedExpiring::new(rt.alloc(), 8));
        for key in 0..6 {
            expect_eq!(rt; entries.insert(&rt, key, key, 0, key).is_ok(), true);
        }
        for gone in purged {
            expect_eq!(rt; entries.purge_some(&rt, 3, at_most), gone);
        }
    }
}

#[test]
fn purges_of_some_go_round_the_shards(rt: HostRuntime) {
    let entries: SharedExpiring<u64, u64> = expect_ok!(rt; SharedExpiring::new(rt.alloc(), 1000));
    for key in 0..100 {
        expect_eq!(rt; entries.insert(&rt, key, key, 0, key).is_ok(), true);
    }
    let mut gone = 0usize;
    for _ in 0..entries.cache().num_shards() {
        gone = gone.saturating_add(entries.purge_some(&rt, 49, 1000));
    }
    expect_eq!(rt; (gone, entries.len(&rt)), (50, 50));
}

#[test]
fn what_is_over_gives_its_place_to_a_load(rt: HostRuntime) {
    let entries: SharedExpiring<u64, u64> = expect_ok!(rt; SharedExpiring::new(rt.alloc(), 8));
    // A key, a moment, a life, and the value then, which is the moment of its load. What lives for
    // no time is answered by its load alone.
    for (key, now, life, value) in [
        (1, 5, 10, 5),
        (1, 14, 10, 5),
        (1, 15, 10, 15),
        (1, 24, 10, 15),
        (1, 25, 10, 25),
        (2, 5, 0, 5),
    ] {
        let loader = || -> Result<u64, Infallible> { Ok(now) };
        let found = entries.get_or_insert_with(&rt, &key, now, life, loader);
        expect_eq!(rt; (key, now, found), (key, now, Ok(Ok(value))));
    }
    let stats = Stats {
        hits: 2,
        misses: 4,
        expired: 2,
        ..entries.cache().stats(&rt)
    };
    expect_eq!(rt; entries.stats(&rt), stats);
    expect_eq!(rt; entries.get(&rt, &2, 5), Ok(None));
    let failed: Result<u64, u64> = Err(7);
    expect_eq!(rt; entries.get_or_insert_with(&rt, &1, 35, 10, || failed), Ok(Err(7)));
    let left = (
        entries.len(&rt),
        entries.cache().weight(&rt),
        entries.expires_at(&rt, &1),
    );
    expect_eq!(rt; left, (0, 0, Ok(None)));
    expect_eq!(rt; entries.insert(&rt, 3, 9, 5, 10).is_ok(), true);
    let removed = entries
        .remove(&rt, &3)
        .map(|pair| (pair.0, pair.1.value, pair.1.until));
    expect_eq!(rt; removed, Some((3, 9, 15)));
}

#[test]
fn what_serves_of_many_is_shown(rt: HostRuntime) {
    let entries: SharedExpiring<u64, u64> = expect_ok!(rt; SharedExpiring::new(rt.alloc(), 1000));
    for key in 0..4 {
        expect_eq!(rt; entries.put(&rt, key, key, key, 10), Ok(()));
    }
    // At 12 the first three are over.
    let seen = entries.get_many(&rt, rt.alloc(), &[3, 9, 0, 3], 12);
    let seen = expect_ok!(rt; seen);
    expect_eq!(rt; seen.as_slice(), &[Some(3), None, None, Some(3)]);
    // It has taken the one that is over out, and a look that does not wait leaves it.
    let tried = [
        entries.try_get(&1, 12),
        entries.try_get(&3, 12),
        entries.try_peek(&2, 12),
        entries.try_peek(&3, 12),
        entries.try_get(&9, 12),
    ];
    expect_eq!(rt; tried, [Ok(None), Ok(Some(3)), Ok(None), Ok(Some(3)), Ok(None)]);
    let stats = Stats {
        entries: 3,
        hits: 3,
        misses: 4,
        expired: 2,
        ..entries.cache().stats(&rt)
    };
    expect_eq!(rt; entries.stats(&rt), stats);
}

#[test]
fn a_shared_capacity_counts_what_is_over(rt: HostRuntime) {
    let options = expect_ok!(rt; OptionsBuilder::new()
        .estimated_items_capacity(4)
        .weight_capacity(4)
        .build());
    let entries: SharedExpiring<u64, u64> = expect_ok!(rt; SharedExpiring::with_options(
        rt.alloc(),
        options,
        UnitWeighter,
        DefaultHashBuilder::new(),
        DefaultLifecycle::new(),
    ));
    for key in 0..4 {
        expect_eq!(rt; entries.put(&rt, key, key, 0, 1), Ok(()));
    }
    entries.set_capacity(&rt, 2);
    expect_eq!(rt; entries.len(&rt), 2);
    entries.clear(&rt);
    expect_eq!(rt; (entries.len(&rt), entries.cache().capacity(&rt)), (0, 2));
}
