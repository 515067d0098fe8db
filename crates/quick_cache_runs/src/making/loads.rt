//! Calls that load what they do not find, each with its reply. Where pinning is steady, each is a
//! step of its definition.
ghost use Rattle.std.specs.Prelude.{◌≤◌, ◌+◌, Option, Some, IfOk, IsOk, OnErr};
ghost use Rattle.quick_cache_model.specs.Answered.{AlwaysClones};
ghost use Rattle.quick_cache_model.specs.Finding.{HasNoItem};
ghost use Rattle.quick_cache_model.specs.Shown.{IsShown};
ghost use Rattle.quick_cache_model.specs.Lookups.{Sees};
ghost use Rattle.quick_cache_runs.specs.Made.{MakesCall};
ghost use Rattle.quick_cache_runs.specs.Room.{NeedsRoom, refusal_of};
ghost use Rattle.quick_cache_shard.specs.Copies.{ClonesAreEqual};
ghost use Rattle.quick_cache_shard.specs.Shard.{IsSoundShard, KeepsTerms};

use crate::calls::CallMaker;
use quick_cache_model::{Call, Lifecycle, Refusal, Reply, Weighter};
use quick_cache_shard::Ruled;
use quick_cache_unsync::{Cache, poke};
use std::alloc::{AllocError, Allocator};
use std::hash::{BuildHasher, Hash};

/// A clone of the value under a key, where an item stands there.
fn copied<K: Eq + Hash + Drop, V: Clone + Drop, We, B: BuildHasher, L, A: Allocator>(
    cache: &Cache<K, V, We, B, L, A>,
    key: &K,
) -> Result<Option<V>, AllocError>
    ensures shows { IfOk result (λ shown. (found : Option V)
        × Sees (K.eq key.now) cache.now.state (λ item. item.value) found
        × IsShown V.is_clone found shown) }
    ensures fails { OnErr result ((found : V)
        × Sees (K.eq key.now) cache.now.state (λ item. item.value) (Some found)) }
    ensures succeeds { AlwaysClones V.is_infallible → IsOk result }
    ensures sound { IsSoundShard K.eq cache.now }
{
    match cache.peek(key) {
        Some(value) => Ok(Some(value.clone()?)),
        None => Ok(None),
    }
}

impl<
    F,
    M: Allocator,
    K: Eq + Hash + Clone + Drop,
    V: Clone + Drop,
    We: Weighter<K, V>,
    B: BuildHasher,
    L: Lifecycle<K, V>,
    A: Allocator,
> CallMaker<F, M, K, V, We, B, L, A> {
    /// Takes a guard for a key of which there is no item, and fills it with this value or drops it.
    /// Where a key is cloned without fail, it asks for memory only where there is no room.
    #[inline(always)]
    fn guard_absent(
        cache: &mut Cache<K, V, We, B, L, A>,
        key: &K,
        given: Option<V>,
        state: &mut L::RequestState,
    ) -> Reply<K, V, M>
        requires keys { ClonesAreEqual K.eq K.is_clone }
        requires absent { HasNoItem (K.eq key.now) cache.old.state }
        requires sound { IsSoundShard K.eq cache.old }
        ensures step { MakesCall F ⟦<Cache<K, V, We, B, L, A> as Ruled>⟧.goes K.eq K.is_clone
            V.is_clone cache.old state.old (Call.Guarded key.now given) result cache.new state.new }
        ensures room { cache.old.room ≤ cache.new.room + 1 }
        ensures asks { K.is_infallible key.now → NeedsRoom cache.old.room (refusal_of result) }
        ensures same { KeepsTerms cache.old cache.new }
    {
        match cache.get_ref_or_guard(key) {
            // No item stands under the key, so no reference comes.
            Ok(Ok(_)) => unreachable!(),
            Ok(Err(guard)) => match given {
                Some(value) => {
                    guard.insert_with_lifecycle(value, state);
                    Reply::Filled
                }
                None => Reply::Dropped,
            },
            Err(refusal) => Reply::Refused(refusal),
        }
    }

    /// Looks a key up, or takes a guard for it, which is filled with this value or dropped. The clone
    /// that the reply shows is made first.
    #[inline(always)]
    pub(crate) fn guarded(
        cache: &mut Cache<K, V, We, B, L, A>,
        key: &K,
        given: Option<V>,
        state: &mut L::RequestState,
    ) -> Reply<K, V, M>
        requires keys { ClonesAreEqual K.eq K.is_clone }
        ensures step { MakesCall F ⟦<Cache<K, V, We, B, L, A> as Ruled>⟧.goes K.eq K.is_clone
            V.is_clone cache.old state.old (Call.Guarded key.now given) result cache.new state.new }
        ensures room { cache.old.room ≤ cache.new.room + 1 }
        ensures asks { K.is_infallible key.now → AlwaysClones V.is_infallible
            → NeedsRoom cache.old.room (refusal_of result) }
        ensures same { KeepsTerms cache.old cache.new }
    {
        match cache.find(key) {
            Ok(Some(copy)) => Reply::Found(copy),
            Ok(None) => Self::guard_absent(cache, key, given, state),
            Err(refusal) => Reply::Refused(refusal),
        }
    }

    /// The same, by a reference to write, which the value is written through where one is given.
    #[inline(never)]
    pub(crate) fn guarded_mut(
        cache: &mut Cache<K, V, We, B, L, A>,
        key: &K,
        given: Option<V>,
        left: V,
        state: &mut L::RequestState,
    ) -> Reply<K, V, M>
        requires keys { ClonesAreEqual K.eq K.is_clone }
        ensures step { MakesCall F ⟦<Cache<K, V, We, B, L, A> as Ruled>⟧.goes K.eq K.is_clone
            V.is_clone cache.old state.old (Call.GuardedMut key.now given left) result
            cache.new state.new }
        ensures room { cache.old.room ≤ cache.new.room + 1 }
        ensures asks { K.is_infallible key.now → AlwaysClones V.is_infallible
            → NeedsRoom cache.old.room (refusal_of result) }
        ensures same { KeepsTerms cache.old cache.new }
    {
        let Ok(shown) = copied(cache, key) else {
            return Reply::Refused(Refusal::Memory);
        };
        match cache.get_mut_or_guard(key) {
            Ok(Ok(mut reference)) => match shown {
                Some(copy) => {
                    *reference = left;
                    Reply::Found(copy)
                }
                // An item stands under the key, so it was seen.
                None => unreachable!(),
            },
            Ok(Err(guard)) => match given {
                Some(value) => {
                    guard.insert_with_lifecycle(value, state);
                    Reply::Filled
                }
                None => Reply::Dropped,
            },
            Err(refusal) => Reply::Refused(refusal),
        }
    }

    /// Looks a key up, or loads this value for it, or fails to. The reply tells whether a value that
    /// was loaded is resident.
    // It goes by a guard, which takes the request state of the run. The cache's calls that take a
    // loader (`load`, `get_or_insert_with`, `get_mut_or_insert_with`) make one of their own for the
    // hooks and drop it, and a run leads one request state through all of its calls.
    #[inline(always)]
    pub(crate) fn load(
        cache: &mut Cache<K, V, We, B, L, A>,
        key: &K,
        given: Option<V>,
        state: &mut L::RequestState,
    ) -> Reply<K, V, M>
        requires keys { ClonesAreEqual K.eq K.is_clone }
        ensures step { MakesCall F ⟦<Cache<K, V, We, B, L, A> as Ruled>⟧.goes K.eq K.is_clone
            V.is_clone cache.old state.old (Call.Load key.now given) result cache.new state.new }
        ensures room { cache.old.room ≤ cache.new.room + 1 }
        ensures asks { K.is_infallible key.now → AlwaysClones V.is_infallible
            → NeedsRoom cache.old.room (refusal_of result) }
        ensures same { KeepsTerms cache.old cache.new }
    {
        match Self::guarded(cache, key, given, state) {
            Reply::Filled => Reply::Loaded(cache.contains_key(key)),
            Reply::Dropped => Reply::LoadFailed,
            reply => reply,
        }
    }

    /// The same, and writes a value through the reference where one is given.
    #[inline(never)]
    pub(crate) fn load_mut(
        cache: &mut Cache<K, V, We, B, L, A>,
        key: &K,
        given: Option<V>,
        left: V,
        state: &mut L::RequestState,
    ) -> Reply<K, V, M>
        requires keys { ClonesAreEqual K.eq K.is_clone }
        ensures step { MakesCall F ⟦<Cache<K, V, We, B, L, A> as Ruled>⟧.goes K.eq K.is_clone
            V.is_clone cache.old state.old (Call.LoadMut key.now given left) result
            cache.new state.new }
        ensures room { cache.old.room ≤ cache.new.room + 1 }
        ensures asks { K.is_infallible key.now → AlwaysClones V.is_infallible
            → NeedsRoom cache.old.room (refusal_of result) }
        ensures same { KeepsTerms cache.old cache.new }
    {
        match Self::guarded(cache, key, given, state) {
            Reply::Filled => Reply::Loaded(poke(cache, key, left)),
            Reply::Dropped => Reply::LoadFailed,
            Reply::Found(copy) => {
                let _ = poke(cache, key, left);
                Reply::Found(copy)
            }
            reply => reply,
        }
    }
}
