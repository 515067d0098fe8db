//! The calls of a cache that threads share, each once and by one thread.
use crate::asked::{Ask, Said, answers};
use quick_cache::sync::Cache;
use test_tools::{expect, expect_eq, expect_ok};

/// Three pairs come in.
const THREE_PAIRS: [(Ask, Said); 3] = [
    (Ask::Insert(1, 10), Said::Done),
    (Ask::Insert(2, 20), Said::Done),
    (Ask::Insert(3, 30), Said::Done),
];

#[test]
fn shared_calls_act(rt: HostRuntime) {
    let cache: Cache<u64, u64> = expect_ok!(rt; Cache::new(rt.alloc(), 100));
    let mut empty = [cache.is_empty(&rt), false, false];
    answers(&rt, &cache, &THREE_PAIRS);
    empty[1] = cache.is_empty(&rt);
    answers(
        &rt,
        &cache,
        &[
            (Ask::Len, Said::Count(3)),
            (Ask::Get(3), Said::Value(30)),
            (Ask::Contains(1), Said::Is(true)),
            (Ask::Contains(4), Said::Is(false)),
            (Ask::Peek(2), Said::Value(20)),
            (Ask::Peek(4), Said::Nothing),
            (Ask::Replace(2, 21), Said::Done),
            (Ask::Replace(9, 1), Said::Pair(9, 1)),
        ],
    );
    let mut gone = [None, None];
    let softly = cache.replace_with_lifecycle(&rt, 3, 31, true, &mut gone);
    expect_eq!(rt; (softly, gone), (Ok(()), [Some((3, 30)), None]));
    answers(
        &rt,
        &cache,
        &[
            (Ask::RemoveIf(2, 20), Said::Nothing),
            (Ask::RemoveIf(2, 21), Said::Pair(2, 21)),
            (Ask::Hits, Said::Count(1)),
            (Ask::Misses, Said::Count(0)),
            (Ask::Weight, Said::Count(2)),
            (Ask::KeepBelow(2), Said::Count(1)),
            (Ask::Len, Said::Count(1)),
            (Ask::Remove(3), Said::Nothing),
            (Ask::Remove(1), Said::Pair(1, 10)),
            (Ask::Put(1, 10), Said::Done),
            (Ask::Capacity, Said::Count(100)),
            (Ask::SetCapacity(40), Said::Done),
            (Ask::Capacity, Said::Count(40)),
            (Ask::ShardCapacity, Said::Count(20)),
            (Ask::Clear, Said::Done),
        ],
    );
    empty[2] = cache.is_empty(&rt);
    expect_eq!(rt; empty, [true, false, true]);
}

#[test]
fn reads_are_counted_and_looks_are_not(rt: HostRuntime) {
    let cache: Cache<u64, u64> = expect_ok!(rt; Cache::new(rt.alloc(), 100));
    answers(&rt, &cache, &THREE_PAIRS);
    answers(
        &rt,
        &cache,
        &[
            (Ask::Get(1), Said::Value(10)),
            (Ask::Get(1), Said::Value(10)),
            (Ask::Get(1), Said::Value(10)),
            (Ask::Peek(1), Said::Value(10)),
            (Ask::Reads(1), Said::Count(3)),
            (Ask::Reads(4), Said::Nothing),
            (Ask::Get(4), Said::Nothing),
            (Ask::Hits, Said::Count(3)),
            (Ask::Misses, Said::Count(1)),
            // A hit stays counted where its item goes, is written over or is cleared.
            (Ask::Remove(1), Said::Pair(1, 10)),
            (Ask::Get(2), Said::Value(20)),
            (Ask::Put(2, 21), Said::Done),
            (Ask::Get(3), Said::Value(30)),
            (Ask::Clear, Said::Done),
            (Ask::Hits, Said::Count(5)),
            (Ask::Misses, Said::Count(1)),
        ],
    );
}

#[test]
fn memory_is_reserved_in_each_shard(rt: HostRuntime) {
    let cache: Cache<u64, u64> = expect_ok!(rt; Cache::new(rt.alloc(), 100));
    expect_eq!(rt; cache.memory_used(&rt).entries, 0);
    expect_eq!(rt; cache.reserve(&rt, 100), Ok(()));
    expect!(rt; cache.memory_used(&rt).total() > 0);
}
