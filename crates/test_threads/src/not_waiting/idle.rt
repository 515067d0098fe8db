//! The calls that do not wait, where no other call has a lock.
use crate::asked::{Ask, Said, answers};
use quick_cache::sync::{Cache, LockContention};
use test_tools::{expect_eq, expect_ok};

#[test]
fn try_calls_succeed_on_an_idle_cache(rt: HostRuntime) {
    let cache: Cache<u64, u64> = expect_ok!(rt; Cache::new(rt.alloc(), 100));
    answers(
        &rt,
        &cache,
        &[
            (Ask::Insert(1, 10), Said::Done),
            (Ask::TryContains(1), Said::Is(true)),
            (Ask::TryGet(1), Said::Value(10)),
            (Ask::TryPeek(2), Said::Nothing),
            (Ask::TryReads(2), Said::Nothing),
            (Ask::TryInsert(2, 20), Said::Done),
            (Ask::TryRemove(1), Said::Pair(1, 10)),
            (Ask::TryContains(1), Said::Is(false)),
            (Ask::TryPeek(2), Said::Value(20)),
            (Ask::TryGet(1), Said::Nothing),
            (Ask::Hits, Said::Count(1)),
            (Ask::Misses, Said::Count(1)),
        ],
    );
}

#[test]
fn a_tried_get_is_a_read_and_a_tried_peek_is_none(rt: HostRuntime) {
    let cache: Cache<u64, u64> = expect_ok!(rt; Cache::new(rt.alloc(), 100));
    let mut gone = [None, None];
    let inserted = [10, 11].map(|value| cache.try_insert_with_lifecycle(1, value, &mut gone));
    expect_eq!(rt; (inserted, gone), ([Ok(()), Ok(())], [Some((1, 10)), None]));
    answers(
        &rt,
        &cache,
        &[
            (Ask::TryGet(1), Said::Value(11)),
            (Ask::TryGet(1), Said::Value(11)),
            (Ask::TryGet(1), Said::Value(11)),
            (Ask::TryPeek(1), Said::Value(11)),
            (Ask::TryReads(1), Said::Count(3)),
        ],
    );
}

#[test]
fn contention_has_a_text(rt: HostRuntime) {
    let text = expect_ok!(rt; format!(in rt.alloc(); "{LockContention}"));
    expect_eq!(rt; text.as_str(), "Lock Contention");
}
