//! The replies to calls of a cache.
use crate::Refusal;
use std::alloc::{Allocator, Global};

/// The reply to a call.
#[derive(Debug, PartialEq, Eq, Drop)]
pub enum Reply<K, V, M: Allocator = Global> {
    /// The call was made, and has nothing to tell.
    Done,
    /// The pair was not inserted, and comes back.
    RefusedPair(K, V, Refusal),
    /// The pair was not put in the place of another, and comes back.
    NotAdmitted(K, V),
    /// A clone of the value that was found.
    Value(Option<V>),
    /// Whether the key was found.
    Flag(bool),
    /// How often the item that was found had been read.
    Stats(Option<u64>),
    /// The pair that was taken out.
    Pair(Option<(K, V)>),
    /// A clone of the value that was found, where a loader or a guard stood ready for none.
    Found(V),
    /// The loader gave a value; whether its key is resident now.
    Loaded(bool),
    /// The loader failed.
    LoadFailed,
    /// The guard was filled.
    Filled,
    /// The guard was dropped.
    Dropped,
    /// The pairs of a walk, in no order: clones of the residents, or the residents that were
    /// drained.
    Pairs(Vec<(K, V), M>),
    /// The numbers of the cache.
    Counts {
        /// How many items there are.
        len: usize,
        /// The weight of all items, at most the greatest `u64`.
        weight: u64,
        /// The weight that the cache may hold.
        capacity: u64,
        /// How many look-ups found an item.
        hits: u64,
        /// How many look-ups found none.
        misses: u64,
    },
    /// The call was not made.
    Refused(Refusal),
}
