//! The calls of a cache.

/// A call of a cache for one thread. `F` is a predicate on pairs, a `Fn(&K, &V) -> bool`.
#[derive(Debug, PartialEq, Eq, Drop)]
pub enum Call<K, V, F> {
    /// `insert_with_lifecycle`: answered by `Done`, or by `RefusedPair`.
    Insert(K, V),
    /// `replace_with_lifecycle`, soft where the flag is set: answered by `Done`, or by
    /// `NotAdmitted`.
    Replace(K, V, bool),
    /// `get`: answered by `Value`, or by `Refused`.
    Get(K),
    /// `peek`: answered by `Value`, or by `Refused`.
    Peek(K),
    /// `get_mut`, through which the value is written: answered by `Flag`, which tells whether it
    /// was.
    GetMut(K, V),
    /// `peek_mut`, through which the value is written: answered by `Flag`, which tells whether it
    /// was.
    PeekMut(K, V),
    /// `contains_key`: answered by `Flag`.
    Contains(K),
    /// `item_stats`: answered by `Stats`.
    Stats(K),
    /// `remove`: answered by `Pair`.
    Remove(K),
    /// `remove_if`, of a value that passes the predicate beside this key: answered by `Pair`.
    RemoveIf(K, F),
    /// `get_or_insert_with`, with a loader that gives this value, or fails where there is none:
    /// answered by `Found`, by `Loaded` or `LoadFailed`, or by `Refused`.
    Load(K, Option<V>),
    /// `get_mut_or_insert_with`, with such a loader; the last value is written through the
    /// reference where one is given: answered as `Load` is.
    LoadMut(K, Option<V>, V),
    /// `get_ref_or_guard`, whose guard is filled with this value, or dropped where there is none:
    /// answered by `Found`, by `Filled` or `Dropped`, or by `Refused`.
    Guarded(K, Option<V>),
    /// `get_mut_or_guard`, with such a guard; the last value is written through the reference where
    /// one is given: answered as `Guarded` is.
    GuardedMut(K, Option<V>, V),
    /// `iter`, to its end: answered by `Pairs`, or by `Refused`.
    Iter,
    /// `drain`, to its end: answered by `Pairs`, or by `Refused`.
    Drain,
    /// `len`, `weight`, `capacity`, `hits` and `misses`: answered by `Counts`.
    Counts,
    /// `retain`, of the pairs that pass the predicate: answered by `Done`.
    Retain(F),
    /// `set_capacity`: answered by `Done`.
    SetCapacity(u64),
    /// `reserve`: answered by `Done`, or by `Refused`.
    Reserve(usize),
    /// `clear`: answered by `Done`.
    Clear,
}
