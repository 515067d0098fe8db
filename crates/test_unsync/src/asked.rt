//! Rows of calls of a cache, each with what it is to answer.
use quick_cache_base::{Lifecycle, Refusal, Weighter};
use quick_cache_unsync::{Cache, Miss, set};
use std::alloc::Allocator;
use std::hash::{BuildHasher, Hash};
use std::ops::Range;
use std::process::Abort;
use test_tools::expect_eq;

/// A call.
#[derive(Drop)]
pub(crate) enum Ask<K, V> {
    Insert(K, V),
    Put(K, V),
    Get(K),
    /// Looks whether the value is this one.
    GetIf(K, V),
    /// As `GetIf`, and drops what has another value.
    GetOrDrop(K, V),
    /// As `GetOrDrop`, and writes the second value where the first one stands.
    SetOrDrop(K, V, V),
    Peek(K),
    Contains(K),
    /// How often the item was read.
    Reads(K),
    /// Writes a value through a reference, and tells whether there was an item.
    Set(K, V),
    Remove(K),
    Weight,
    /// As [`counts`].
    Counts,
}

/// An answer.
#[derive(PartialEq, Drop)]
pub(crate) enum Said<K, V> {
    Done,
    Nothing,
    Value(V),
    Pair(K, V),
    Is(bool),
    Count(u64),
    Counts([u64; 5]),
    Refused(Refusal),
}

/// What a look-up found.
fn found<K, V>(value: Option<V>) -> Said<K, V> {
    match value {
        Some(value) => Said::Value(value),
        None => Said::Nothing,
    }
}

/// What a look with a test found.
fn tested<K, V>(value: Result<V, Miss>) -> Said<K, V> {
    match value {
        Ok(value) => Said::Value(value),
        Err(Miss::Failed) => Said::Is(false),
        Err(Miss::Absent) => Said::Nothing,
    }
}

/// The number of items, their weight, the capacity, the hits and the misses.
pub(crate) fn counts<K: Eq + Hash, V, We, B: BuildHasher, L, A: Allocator>(
    cache: &Cache<K, V, We, B, L, A>,
) -> [u64; 5] {
    [
        cache.len() as u64,
        cache.weight(),
        cache.capacity(),
        cache.hits(),
        cache.misses(),
    ]
}

/// Makes a call.
fn call<
    K: Eq + Hash + Copy,
    V: Copy + PartialEq,
    We: Weighter<K, V>,
    B: BuildHasher,
    L: Lifecycle<K, V>,
    A: Allocator,
>(cache: &mut Cache<K, V, We, B, L, A>, ask: &Ask<K, V>) -> Said<K, V>
where
    L::RequestState: Drop,
{
    match *ask {
        Ask::Insert(key, value) => match cache.insert(key, value) {
            Ok(()) => Said::Done,
            Err((_, _, refusal)) => Said::Refused(refusal),
        },
        Ask::Put(key, value) => match cache.put(key, value) {
            Ok(()) => Said::Done,
            Err(refusal) => Said::Refused(refusal),
        },
        Ask::Get(key) => found(cache.get(&key).copied()),
        Ask::GetIf(key, wanted) => {
            tested(cache.get_if(&key, |value: &V| *value == wanted).copied())
        }
        Ask::GetOrDrop(key, wanted) => {
            tested(
                cache
                    .get_or_drop(&key, |value: &V| *value == wanted)
                    .copied(),
            )
        }
        Ask::SetOrDrop(key, wanted, new) => {
            match cache.get_mut_or_drop(&key, |value: &V| *value == wanted) {
                Ok(mut value) => {
                    *value = new;
                    Said::Done
                }
                Err(miss) => tested(Err(miss)),
            }
        }
        Ask::Peek(key) => found(cache.peek(&key).copied()),
        Ask::Contains(key) => Said::Is(cache.contains_key(&key)),
        Ask::Reads(key) => match cache.item_stats(&key) {
            Some(stats) => Said::Count(stats.access_count),
            None => Said::Nothing,
        },
        Ask::Set(key, value) => Said::Is(set(cache, &key, value)),
        Ask::Remove(key) => match cache.remove(&key) {
            Some((key, value)) => Said::Pair(key, value),
            None => Said::Nothing,
        },
        Ask::Weight => Said::Count(cache.weight()),
        Ask::Counts => Said::Counts(counts(cache)),
    }
}

/// Makes the calls of a row in turn, and stops the test at the first that answers something else.
pub(crate) fn answers<
    K: Eq + Hash + Copy,
    V: Copy + PartialEq,
    We: Weighter<K, V>,
    B: BuildHasher,
    L: Lifecycle<K, V>,
    A: Allocator,
>(rt: &impl Abort, cache: &mut Cache<K, V, We, B, L, A>, row: &[(Ask<K, V>, Said<K, V>)])
where
    L::RequestState: Drop,
{
    for (at, (ask, said)) in row.iter().enumerate() {
        expect_eq!(rt; (at, call(cache, ask) == *said), (at, true));
    }
}

/// Inserts these numbers, each with itself.
pub(crate) fn inserts<We: Weighter<u64, u64>, B: BuildHasher, L: Lifecycle<u64, u64>, A: Allocator>(
    rt: &impl Abort,
    cache: &mut Cache<u64, u64, We, B, L, A>,
    numbers: Range<u64>,
)
where
    L::RequestState: Drop,
{
    for number in numbers {
        answers(rt, cache, &[(Ask::Insert(number, number), Said::Done)]);
    }
}
