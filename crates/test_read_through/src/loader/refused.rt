//! Gets without memory for an entry, or for a clone.
ghost use Rattle.std.specs.Prelude.{◌≡◌};

use crate::loader::hundreds::hundreds;
use read_through::{AnySource, ReadThrough, Refusal, Stats};
use std::alloc::{AllocError, Global};
use std::sync::atomic::{AtomicU64, Ordering};
use test_tools::{Rationed, expect_eq, expect_ok};

#[test]
fn without_an_entry_nothing_is_loaded(rt: HostRuntime) {
    let ration = Rationed::new(rt.alloc(), 1000);
    let calls = AtomicU64::new(0);
    let loaded: ReadThrough<u64, u64, _, AnySource, &Rationed<Global>> =
        expect_ok!(rt; ReadThrough::new(
        &ration,
        8,
        10,
        |key: &u64, now: u64| {
            calls.fetch_add(1, Ordering::SeqCst);
            hundreds(*key, now)
        },
    ));
    ration.allow(0);
    expect_eq!(rt; loaded.get(&rt, &1, 5), Err(Refusal::Memory));
    ration.allow(1000);
    let before = calls.load(Ordering::SeqCst);
    expect_eq!(rt; (before, loaded.get(&rt, &1, 5)), (0, Ok(105)));
}

/// A number of which so many clones can be made.
#[derive(Drop)]
struct Fragile<'a> {
    number: u64,
    left: &'a AtomicU64,
}

impl Clone for Fragile<'_> {
    ghost is_clone = { λ old new. new.number ≡ old.number };

    ghost is_infallible = { λ _. ⊥ };

    fn clone(&self) -> Result<Self, AllocError> {
        let left = self.left.load(Ordering::SeqCst);
        if left == 0 {
            return Err(AllocError);
        }
        self.left.store(left.wrapping_sub(1), Ordering::SeqCst);
        Ok(Fragile {
            number: self.number,
            left: self.left,
        })
    }
}

/// The number that was answered, or 0 where there was no memory.
fn number(answer: Result<Fragile<'_>, Refusal>) -> Option<u64> {
    match answer {
        Ok(value) => Some(value.number),
        Err(Refusal::Memory) => Some(0),
        Err(_) => None,
    }
}

#[test]
fn what_cannot_be_stored_is_answered(rt: HostRuntime) {
    let left = AtomicU64::new(0);
    let loaded: ReadThrough<u64, Fragile<'_>, _> = expect_ok!(rt; ReadThrough::new(
        rt.alloc(),
        8,
        10,
        |key: &u64, now: u64| Fragile {
            number: hundreds(*key, now),
            left: &left,
        },
    ));
    // The clones that can be made, a moment, the answer, 0 where there is no memory for one, and how
    // many are stored then.
    let rows = [
        (0, 5, 105, 0),
        (1, 6, 106, 0),
        (2, 7, 107, 1),
        (0, 8, 0, 1),
        (1, 9, 107, 1),
        // What is too old needs no clone to give its place.
        (0, 17, 117, 0),
    ];
    for (clones, now, answer, len) in rows {
        left.store(clones, Ordering::SeqCst);
        let got = number(loaded.get(&rt, &1, now));
        expect_eq!(rt; (now, got, loaded.len(&rt)), (now, Some(answer), len));
    }
    // A get that was refused counts as nothing.
    let stats = Stats {
        entries: 0,
        weight: 0,
        capacity: 8,
        hits: 1,
        misses: 4,
        expired: 1,
        loads: 4,
        failed_loads: 0,
    };
    expect_eq!(rt; loaded.stats(&rt), stats);
}
