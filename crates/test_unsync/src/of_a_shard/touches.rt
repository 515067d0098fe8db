//! Touches that readers left at an item become marks of it, each one.
use crate::of_a_shard::rows::{Tested, counts, empty, put, shows_hot};
use quick_cache_base::Refusal;
use quick_cache_shard::{InsertStrategy, Touches};
use std::alloc::Global;
use std::process::Abort;
use test_parts::counting::Told;
use test_parts::touched::Touched;
use test_parts::walks::{shows, shows_ghosts};
use test_tools::{expect, expect_eq, expect_ok};

/// Writes over the one item, and tells whether it then has this mark.
fn overwrites<T: Touches>(
    shard: &mut Tested<u64, u64, T>,
    told: &mut Told,
    value: u64,
    mark: u8,
) -> bool {
    let (hash, soft) = (shard.hash(&1u64), InsertStrategy::Replace { soft: true });
    let is_written = shard.insert(told, hash, 1, value, soft).is_ok();
    is_written && shows_hot(shard, &[(1, mark)])
}

/// Writes over an item that was touched, and checks the mark that it then has.
fn check_mark<T: Touches>(rt: &impl Abort, alloc: Global, mark: u8) {
    let mut shard: Tested<u64, u64, T> = expect_ok!(rt; empty(alloc, 4));
    let mut told = Told::default();
    put(rt, &mut shard, &mut told, &[(1, 10)]);
    let is_unmarked = shows_hot(&shard, &[(1, 0)]);
    // They are taken by the first, so they count once.
    let first = overwrites(&mut shard, &mut told, 11, mark);
    let second = overwrites(&mut shard, &mut told, 12, mark);
    expect_eq!(rt; (mark, is_unmarked, first, second), (mark, true, true, true));
}

#[test]
fn an_overwrite_takes_touches_in_up_to_two(rt: HostRuntime) {
    check_mark::<Touched<0>>(&rt, rt.alloc(), 0);
    check_mark::<Touched<1>>(&rt, rt.alloc(), 1);
    check_mark::<Touched<2>>(&rt, rt.alloc(), 2);
    check_mark::<Touched<18446744073709551615>>(&rt, rt.alloc(), 2);
}

#[test]
fn touched_items_outlive_an_eviction(rt: HostRuntime) {
    let mut shard: Tested<u64, u64, Touched<1>> = expect_ok!(rt; empty(rt.alloc(), 2));
    let mut told = Told::default();
    put(&rt, &mut shard, &mut told, &[(1, 1), (2, 2), (3, 3)]);
    // The cold item 2 was touched, so it is promoted. Then the hot item 1, touched too, outlives
    // it.
    expect!(rt; shows_hot(&shard, &[(1, 0)]));
    expect!(rt; shows(shard.iter_cold(), &[(3, 0)]));
    expect!(rt; shows_ghosts(shard.iter_ghosts(), &[]));
    expect_eq!(rt; (told.hot, told.cold), (1, 0));
}

/// What two shared look-ups find.
fn shared(shard: &Tested<u64, u64>, key: u64) -> (Option<u64>, Result<Option<u64>, Refusal>) {
    let hash = shard.hash(&key);
    (
        shard.get_shared(hash, &key).copied(),
        shard.get_clone(hash, &key),
    )
}

#[test]
fn a_shared_look_up_finds_an_item_and_leaves_its_mark(rt: HostRuntime) {
    let mut shard: Tested<u64, u64> = expect_ok!(rt; empty(rt.alloc(), 4));
    put(&rt, &mut shard, &mut Told::default(), &[(1, 10)]);
    let found = [shared(&shard, 1), shared(&shard, 2)];
    expect_eq!(rt; found, [(Some(10), Ok(Some(10))), (None, Ok(None))]);
    expect!(rt; shows_hot(&shard, &[(1, 0)]));
    // Touches of one thread count nothing.
    expect_eq!(rt; counts(&shard), [0, 0, 1]);
}
