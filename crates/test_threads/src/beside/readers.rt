//! Readers of one shard: they look keys up side by side, and what they count is shown and taken in.
ghost use Rattle.std.specs.Prelude.{⊤};

use crate::asked::{Ask, Said, answers};
use quick_cache::sync::Cache;
use std::alloc::AllocError;
use std::sync::atomic::AtomicU64;
use std::thread::join;
use test_parts::meeting::raise_and_meet;
use test_tools::{expect, expect_ok};

/// A value whose clone raises a flag, and waits for another one's.
#[derive(Drop)]
struct Guest<'a> {
    flags: &'a AtomicU64,
    has_met: bool,
}

impl<'a> Clone for Guest<'a> {
    ghost is_clone = { λ _ _. ⊤ };

    fn clone(&self) -> Result<Self, AllocError> {
        Ok(Guest {
            flags: self.flags,
            has_met: raise_and_meet(self.flags),
        })
    }
}

/// Whether the value that was found met another.
fn met(guest: Option<Guest<'_>>) -> bool {
    match guest {
        Some(guest) => guest.has_met,
        None => false,
    }
}

#[test]
fn readers_of_one_shard_overlap(rt: HostRuntime) {
    // Where look-ups took turns, the first of two would see no flag but its own.
    for _ in 0..50 {
        let flags = AtomicU64::new(0);
        let cache: Cache<u64, Guest<'_>> = expect_ok!(rt; Cache::new(rt.alloc(), 100));
        let guest = Guest {
            flags: &flags,
            has_met: false,
        };
        expect!(rt; cache.insert(&rt, 1, guest).is_ok());
        let shared = &cache;
        let (first, second) = join(&rt, || shared.get(&rt, &1), || shared.get(&rt, &1));
        expect!(rt; met(expect_ok!(rt; first)) && met(expect_ok!(rt; second)));
    }
}

/// Ten pairs fill a cache. The last is the only cold one, so it is the first that goes where nobody reads
/// it.
const TEN_PAIRS: [(Ask, Said); 10] = [
    (Ask::Insert(1, 1), Said::Done),
    (Ask::Insert(2, 2), Said::Done),
    (Ask::Insert(3, 3), Said::Done),
    (Ask::Insert(4, 4), Said::Done),
    (Ask::Insert(5, 5), Said::Done),
    (Ask::Insert(6, 6), Said::Done),
    (Ask::Insert(7, 7), Said::Done),
    (Ask::Insert(8, 8), Said::Done),
    (Ask::Insert(9, 9), Said::Done),
    (Ask::Insert(10, 10), Said::Done),
];

#[test]
fn what_readers_count_is_shown_and_taken_in(rt: HostRuntime) {
    let cache: Cache<u64, u64> = expect_ok!(rt; Cache::new(rt.alloc(), 10));
    let unread: Cache<u64, u64> = expect_ok!(rt; Cache::new(rt.alloc(), 10));
    answers(&rt, &unread, &TEN_PAIRS);
    let eleventh = [
        (Ask::Insert(11, 11), Said::Done),
        (Ask::Contains(10), Said::Is(false)),
    ];
    answers(&rt, &unread, &eleventh);
    answers(&rt, &cache, &TEN_PAIRS);
    let shared = &cache;
    let (first, second) = join(
        &rt,
        || (0..50).all(|_| matches!(shared.get(&rt, &10), Ok(Some(10)))),
        || (0..50).all(|_| matches!(shared.get(&rt, &12), Ok(None)))
            && shared.get(&rt, &10).is_ok(),
    );
    expect!(rt; first && second);
    answers(
        &rt,
        &cache,
        &[
            (Ask::Reads(10), Said::Count(51)),
            (Ask::Hits, Said::Count(51)),
            (Ask::Misses, Said::Count(50)),
            // Where it was read it is promoted, and the first hot one, which was not read, goes.
            (Ask::Insert(11, 11), Said::Done),
            (Ask::Peek(10), Said::Value(10)),
            (Ask::Contains(1), Said::Is(false)),
            (Ask::Contains(11), Said::Is(true)),
            // What was taken in is counted once.
            (Ask::Reads(10), Said::Count(51)),
            (Ask::Hits, Said::Count(51)),
            (Ask::Misses, Said::Count(50)),
        ],
    );
}
