//! Rows of calls of a cache that threads share, each with what it is to answer, which one thread makes.
use quick_cache::sync::{Cache, DefaultLifecycle, TryError};
use quick_cache::{Refusal, Weighter};
use std::alloc::Allocator;
use std::hash::BuildHasher;
use std::process::Abort;
use std::sync::Wait;
use test_tools::expect_eq;

/// A cache of numbers whose lifecycle drops what leaves.
pub type Shared<We, B, A> = Cache<u64, u64, We, B, DefaultLifecycle<u64, u64>, A>;

/// A call.
#[derive(Debug, Clone, Copy)]
pub enum Ask {
    Insert(u64, u64),
    Put(u64, u64),
    Replace(u64, u64),
    Get(u64),
    Peek(u64),
    Contains(u64),
    /// How often the item was read.
    Reads(u64),
    Remove(u64),
    /// Removes the item if that is its value.
    RemoveIf(u64, u64),
    /// Keeps the items whose keys are below that one, and tells how many are gone.
    KeepBelow(u64),
    Clear,
    SetCapacity(u64),
    Len,
    Weight,
    Capacity,
    ShardCapacity,
    Hits,
    Misses,
    TryInsert(u64, u64),
    TryGet(u64),
    TryPeek(u64),
    TryContains(u64),
    TryReads(u64),
    TryRemove(u64),
}

/// An answer.
#[derive(Debug, Clone, Copy, PartialEq, Eq)]
pub enum Said {
    Done,
    Nothing,
    Value(u64),
    Pair(u64, u64),
    Is(bool),
    Count(u64),
    /// The pair comes back, if there was one, and memory was lacking.
    Refused,
    Contended,
}

/// What a look found.
fn found(answer: Result<Option<u64>, Refusal>) -> Said {
    match answer {
        Ok(Some(value)) => Said::Value(value),
        Ok(None) => Said::Nothing,
        Err(_) => Said::Refused,
    }
}

/// What a look found that does not wait.
fn tried(answer: Result<Option<u64>, TryError>) -> Said {
    match answer {
        Ok(found) => found.map_or(Said::Nothing, Said::Value),
        Err(TryError::Refused(_)) => Said::Refused,
        Err(TryError::Contended(_)) => Said::Contended,
    }
}

/// What a removal took.
fn taken(pair: Option<(u64, u64)>) -> Said {
    match pair {
        Some((key, value)) => Said::Pair(key, value),
        None => Said::Nothing,
    }
}

/// Makes a call that waits for its lock.
fn call<We: Weighter<u64, u64>, B: BuildHasher, A: Allocator, R: Wait>(
    rt: &R,
    cache: &Shared<We, B, A>,
    ask: Ask,
) -> Said {
    match ask {
        Ask::Insert(key, value) => match cache.insert(rt, key, value) {
            Ok(()) => Said::Done,
            Err(_) => Said::Refused,
        },
        Ask::Put(key, value) => match cache.put(rt, key, value) {
            Ok(()) => Said::Done,
            Err(_) => Said::Refused,
        },
        Ask::Replace(key, value) => match cache.replace(rt, key, value, false) {
            Ok(()) => Said::Done,
            Err((key, value)) => Said::Pair(key, value),
        },
        Ask::Get(key) => found(cache.get(rt, &key)),
        Ask::Peek(key) => found(cache.peek(rt, &key)),
        Ask::Contains(key) => Said::Is(cache.contains_key(rt, &key)),
        Ask::Reads(key) => match cache.item_stats(rt, &key) {
            Some(stats) => Said::Count(stats.access_count),
            None => Said::Nothing,
        },
        Ask::Remove(key) => taken(cache.remove(rt, &key)),
        Ask::RemoveIf(key, is) => taken(cache.remove_if(rt, &key, |value| *value == is)),
        _ => of_all(rt, cache, ask),
    }
}

/// Makes a call that is of no one key.
fn of_all<We: Weighter<u64, u64>, B: BuildHasher, A: Allocator, R: Wait>(
    rt: &R,
    cache: &Shared<We, B, A>,
    ask: Ask,
) -> Said {
    match ask {
        Ask::KeepBelow(least) => Said::Count(cache.retain(rt, |key, _| *key < least) as u64),
        Ask::Clear => {
            cache.clear(rt);
            Said::Done
        }
        Ask::SetCapacity(capacity) => {
            cache.set_capacity(rt, capacity);
            Said::Done
        }
        Ask::Len => Said::Count(cache.len(rt) as u64),
        Ask::Weight => Said::Count(cache.weight(rt)),
        Ask::Capacity => Said::Count(cache.capacity(rt)),
        Ask::ShardCapacity => Said::Count(cache.shard_capacity(rt)),
        Ask::Hits => Said::Count(cache.hits(rt)),
        Ask::Misses => Said::Count(cache.misses(rt)),
        _ => attempt(cache, ask),
    }
}

/// Makes a call that does not wait.
fn attempt<We: Weighter<u64, u64>, B: BuildHasher, A: Allocator>(
    cache: &Shared<We, B, A>,
    ask: Ask,
) -> Said {
    match ask {
        Ask::TryInsert(key, value) => match cache.try_insert(key, value) {
            Ok(()) => Said::Done,
            Err((_, _, error)) => tried(Err(error)),
        },
        Ask::TryGet(key) => tried(cache.try_get(&key)),
        Ask::TryPeek(key) => tried(cache.try_peek(&key)),
        Ask::TryContains(key) => cache
            .try_contains_key(&key)
            .map_or(Said::Contended, Said::Is),
        Ask::TryReads(key) => match cache.try_item_stats(&key) {
            Ok(Some(stats)) => Said::Count(stats.access_count),
            Ok(None) => Said::Nothing,
            Err(_) => Said::Contended,
        },
        Ask::TryRemove(key) => cache.try_remove(&key).map_or(Said::Contended, taken),
        _ => Said::Nothing,
    }
}

/// Makes the calls of a row in turn, and stops the test at the first that answers something else.
pub fn answers<We: Weighter<u64, u64>, B: BuildHasher, A: Allocator, R: Wait + Abort>(
    rt: &R,
    cache: &Shared<We, B, A>,
    row: &[(Ask, Said)],
) {
    for (at, (ask, said)) in row.iter().enumerate() {
        expect_eq!(rt; (at, call(rt, cache, *ask)), (at, *said));
    }
}
