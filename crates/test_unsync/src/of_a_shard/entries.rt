//! Entry calls of one shard: an item is shown to a callback, and what that chooses is done.
ghost use Rattle.std.specs.Cmp.Rules.{comparing, hashing};
ghost use Rattle.std.proofs.Common.{rules};

use crate::of_a_shard::rows::{Tested, counts, empty, put, seen};
use quick_cache_shard::{EntryAction, EntryOrPlaceholder, Plainly};
use test_parts::counting::Told;
use test_tools::{expect_eq, expect_ok};

/// What a callback chooses.
#[derive(Drop)]
enum Choice {
    Keep,
    Remove,
    Replace,
}

/// What came of an entry call.
#[derive(PartialEq, Drop)]
enum Came {
    Kept(u64),
    Removed(u64, u64),
    Replaced(u64),
    Met,
    Made,
    Refused,
}

/// An entry call whose callback writes a value, chooses so, and tells the value where it is kept.
fn enter(shard: &mut Tested<u64, u64>, key: u64, written: u64, choice: Choice) -> Came {
    let hash = shard.hash(&key);
    let mut callback = |_key: &u64, value: &mut u64| -> EntryAction<u64> {
        *value = written;
        match choice {
            Choice::Keep => EntryAction::Retain(written),
            Choice::Remove => EntryAction::Remove,
            Choice::Replace => EntryAction::ReplaceWithGuard,
        }
    };
    match shard.entry_or_placeholder(&Plainly, hash, &key, &mut callback) {
        Ok(EntryOrPlaceholder::Kept(told)) => Came::Kept(told),
        Ok(EntryOrPlaceholder::Removed(key, value)) => Came::Removed(key, value),
        Ok(EntryOrPlaceholder::Replaced(_, value)) => Came::Replaced(value),
        Ok(EntryOrPlaceholder::ExistingPlaceholder(_)) => Came::Met,
        Ok(EntryOrPlaceholder::NewPlaceholder(_)) => Came::Made,
        Err(_) => Came::Refused,
    }
}

#[test]
fn an_entry_call_keeps_removes_and_replaces(rt: HostRuntime) {
    let mut shard: Tested<u64, u64> = expect_ok!(rt; empty(rt.alloc(), 4));
    put(
        &rt,
        &mut shard,
        &mut Told::default(),
        &[(1, 1), (2, 2), (3, 3)],
    );
    // The key, what is written and chosen, what comes of it; and hits, misses and items then.
    let rows = [
        (1, 11, Choice::Keep, Came::Kept(11), [1, 0, 3]),
        (2, 21, Choice::Remove, Came::Removed(2, 21), [1, 0, 2]),
        (3, 31, Choice::Replace, Came::Replaced(31), [1, 0, 1]),
        (3, 32, Choice::Replace, Came::Met, [2, 0, 1]),
        (4, 41, Choice::Keep, Came::Made, [2, 1, 1]),
    ];
    for (key, written, choice, came, told) in rows {
        let is_right = enter(&mut shard, key, written, choice) == came;
        expect_eq!(rt; (key, is_right, counts(&shard)), (key, true, told));
    }
    expect_eq!(rt; seen(&shard, 1), (Some(11), true));
}
