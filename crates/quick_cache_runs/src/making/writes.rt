//! Calls that write, take items out or make room, each with its reply. Where pinning is steady, each
//! is a step of its definition.
ghost use Rattle.std.specs.Prelude.{◌≡◌, ◌≤◌, ◌+◌};
ghost use Rattle.quick_cache_shard.specs.Shard.{KeepsTerms, KeepsWork};
ghost use Rattle.quick_cache_runs.specs.Made.{MakesCall, StepsBy};
ghost use Rattle.quick_cache_runs.specs.Room.{NeedsRoom, refusal_of};

use crate::calls::CallMaker;
use quick_cache_model::{Call, Lifecycle, Reply, Weighter};
use quick_cache_shard::Ruled;
use quick_cache_unsync::{Cache, poke as write_to_peeked, set as write_to_found};
use std::alloc::Allocator;
use std::hash::{BuildHasher, Hash};

impl<
    F,
    M: Allocator,
    K: Eq + Hash + Clone + Drop,
    V: Clone + Drop,
    We: Weighter<K, V>,
    B: BuildHasher,
    L: Lifecycle<K, V>,
    A: Allocator,
> CallMaker<F, M, K, V, We, B, L, A> {
    /// Inserts a pair.
    #[inline(always)]
    pub(crate) fn insert(
        cache: &mut Cache<K, V, We, B, L, A>,
        key: K,
        value: V,
        state: &mut L::RequestState,
    ) -> Reply<K, V, M>
        ensures step { MakesCall F ⟦<Cache<K, V, We, B, L, A> as Ruled>⟧.goes K.eq K.is_clone
            V.is_clone cache.old state.old (Call.Insert key value) result cache.new state.new }
        ensures room { cache.old.room ≤ cache.new.room + 1 }
        ensures asks { NeedsRoom cache.old.room (refusal_of result) }
        ensures same { KeepsTerms cache.old cache.new }
    {
        match cache.insert_with_lifecycle(key, value, state) {
            Ok(()) => Reply::Done,
            Err((key, value, refusal)) => Reply::RefusedPair(key, value, refusal),
        }
    }

    /// Replaces the item under a key by a pair.
    #[inline(never)]
    pub(crate) fn replace(
        cache: &mut Cache<K, V, We, B, L, A>,
        key: K,
        value: V,
        soft: bool,
        state: &mut L::RequestState,
    ) -> Reply<K, V, M>
        ensures step { MakesCall F ⟦<Cache<K, V, We, B, L, A> as Ruled>⟧.goes K.eq K.is_clone
            V.is_clone cache.old state.old (Call.Replace key value soft) result cache.new state.new }
        ensures room { cache.old.room ≤ cache.new.room }
        ensures same { KeepsTerms cache.old cache.new }
    {
        match cache.replace_with_lifecycle(key, value, soft, state) {
            Ok(()) => Reply::Done,
            Err((key, value)) => Reply::NotAdmitted(key, value),
        }
    }

    /// Writes a value through `get_mut`.
    #[inline(never)]
    pub(crate) fn set(cache: &mut Cache<K, V, We, B, L, A>, key: K, value: V) -> Reply<K, V, M>
        ensures step { StepsBy F ⟦<Cache<K, V, We, B, L, A> as Ruled>⟧.goes K.eq K.is_clone
            V.is_clone cache.old (Call.GetMut key value) result cache.new }
        ensures same { cache.new
            ≡ record cache.old { state = cache.new.state; places = cache.new.places } }
    {
        Reply::Flag(write_to_found(cache, &key, value))
    }

    /// Writes a value through `peek_mut`.
    #[inline(never)]
    pub(crate) fn poke(cache: &mut Cache<K, V, We, B, L, A>, key: K, value: V) -> Reply<K, V, M>
        ensures step { StepsBy F ⟦<Cache<K, V, We, B, L, A> as Ruled>⟧.goes K.eq K.is_clone
            V.is_clone cache.old (Call.PeekMut key value) result cache.new }
        ensures same { cache.new
            ≡ record cache.old { state = cache.new.state; places = cache.new.places } }
    {
        Reply::Flag(write_to_peeked(cache, &key, value))
    }

    /// Takes the item under a key out.
    #[inline(never)]
    pub(crate) fn remove(cache: &mut Cache<K, V, We, B, L, A>, key: K) -> Reply<K, V, M>
        ensures step { StepsBy F ⟦<Cache<K, V, We, B, L, A> as Ruled>⟧.goes K.eq K.is_clone
            V.is_clone cache.old (Call.Remove key) result cache.new }
        ensures room { cache.old.room ≤ cache.new.room }
        ensures same { KeepsWork cache.old cache.new }
    {
        Reply::Pair(cache.remove(&key))
    }

    /// Drops all items.
    #[inline(never)]
    pub(crate) fn clear(cache: &mut Cache<K, V, We, B, L, A>) -> Reply<K, V, M>
        ensures step { StepsBy F ⟦<Cache<K, V, We, B, L, A> as Ruled>⟧.goes K.eq K.is_clone
            V.is_clone cache.old (Call.Clear) result cache.new }
        ensures room { cache.old.room ≤ cache.new.room }
        ensures same { KeepsWork cache.old cache.new }
    {
        cache.clear();
        Reply::Done
    }

    /// Sets the weight that the cache may hold.
    #[inline(never)]
    pub(crate) fn set_capacity(
        cache: &mut Cache<K, V, We, B, L, A>,
        capacity: u64,
        state: &mut L::RequestState,
    ) -> Reply<K, V, M>
        ensures step { MakesCall F ⟦<Cache<K, V, We, B, L, A> as Ruled>⟧.goes K.eq K.is_clone
            V.is_clone cache.old state.old (Call.SetCapacity capacity) result cache.new state.new }
        ensures room { cache.old.room ≤ cache.new.room }
        ensures same { KeepsTerms cache.old cache.new }
    {
        cache.set_capacity_with_lifecycle(capacity, state);
        Reply::Done
    }

    /// Makes room for so many more entries.
    #[inline(never)]
    pub(crate) fn reserve(cache: &mut Cache<K, V, We, B, L, A>, additional: usize) -> Reply<K, V, M>
        ensures step { StepsBy F ⟦<Cache<K, V, We, B, L, A> as Ruled>⟧.goes K.eq K.is_clone
            V.is_clone cache.old (Call.Reserve additional) result cache.new }
        ensures room { cache.old.room ≤ cache.new.room }
        ensures same { cache.new ≡ record cache.old { room = cache.new.room } }
    {
        match cache.reserve(additional) {
            Ok(()) => Reply::Done,
            Err(refusal) => Reply::Refused(refusal),
        }
    }
}
