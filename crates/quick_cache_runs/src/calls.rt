//! One call, and its reply.
ghost use Rattle.std.specs.Prelude.{◌≤◌, ◌+◌};
ghost use Rattle.quick_cache_model.specs.Answered.{AlwaysClones, IsAnswered};
ghost use Rattle.quick_cache_runs.specs.Asked.{IfAsks, IfLoads};
ghost use Rattle.quick_cache_runs.specs.Made.{MakesAsked};
ghost use Rattle.quick_cache_runs.specs.Room.{NeedsRoom, entry_refusal};
ghost use Rattle.quick_cache_shard.specs.Copies.{ClonesAreEqual};
ghost use Rattle.quick_cache_shard.specs.Shard.{KeepsTerms};

use quick_cache_model::{Call, Lifecycle, Reply, Weighter};
use quick_cache_shard::Ruled;
use quick_cache_unsync::Cache;
use std::alloc::Allocator;
use std::hash::{BuildHasher, Hash};
use std::marker::PhantomData;

/// Makes the calls of a list, one a function: what their predicates, the allocator of their replies
/// and their cache are is said once.
pub(crate) struct CallMaker<F, M, K, V, We, B, L, A> {
    of: PhantomData<(F, M, K, V, We, B, L, A)>,
}

impl<
    F: Fn(&K, &V) -> bool + Drop,
    M: Allocator + Clone,
    K: Eq + Hash + Clone + Drop,
    V: Clone + Drop,
    We: Weighter<K, V>,
    B: BuildHasher,
    L: Lifecycle<K, V>,
    A: Allocator,
> CallMaker<F, M, K, V, We, B, L, A> {
    /// Makes one call. The lists of its reply are of this allocator.
    #[inline(always)]
    pub(crate) fn act(
        alloc: &M,
        cache: &mut Cache<K, V, We, B, L, A>,
        call: Call<K, V, F>,
        state: &mut L::RequestState,
    ) -> Reply<K, V, M>
        requires keys { IfLoads (ClonesAreEqual K.eq K.is_clone) call }
        requires callable { IfAsks (λ asked. F.IsAlwaysCallable asked) call }

        // Where pinning is steady, and a predicate answers as a pure test does.
        ensures step { MakesAsked F.Fn ⟦<Cache<K, V, We, B, L, A> as Ruled>⟧.goes K.eq K.is_clone
            V.is_clone cache.old state.old call result cache.new state.new }
        // It takes room for one entry at most. Where no clone fails, it is refused for want of
        // memory only where there is no room.
        ensures room { cache.old.room ≤ cache.new.room + 1 }
        ensures asks { AlwaysClones K.is_infallible → AlwaysClones V.is_infallible
            → NeedsRoom cache.old.room (entry_refusal call result) }
        ensures same { KeepsTerms cache.old cache.new }
        // A look is refused only where a clone fails.
        ensures answered { AlwaysClones V.is_infallible → IsAnswered call result }
    {
        match call {
            Call::Insert(key, value) => Self::insert(cache, key, value, state),
            Call::Replace(key, value, soft) => Self::replace(cache, key, value, soft, state),
            Call::Get(key) => Self::get(cache, key),
            Call::Peek(key) => Self::peek(cache, key),
            Call::GetMut(key, value) => Self::set(cache, key, value),
            Call::PeekMut(key, value) => Self::poke(cache, key, value),
            Call::Contains(key) => Self::contains(cache, key),
            Call::Stats(key) => Self::stats(cache, key),
            Call::Remove(key) => Self::remove(cache, key),
            Call::RemoveIf(key, wanted) => Self::remove_if(cache, key, wanted),
            Call::Load(key, given) => Self::load(cache, &key, given, state),
            Call::LoadMut(key, given, left) => Self::load_mut(cache, &key, given, left, state),
            Call::Guarded(key, given) => Self::guarded(cache, &key, given, state),
            Call::GuardedMut(key, given, left) => Self::guarded_mut(
                cache, &key, given, left, state,
            ),
            Call::Iter => Self::walk(alloc, cache),
            Call::Drain => Self::drain(alloc, cache),
            Call::Counts => Self::counts(cache),
            Call::Retain(keep) => Self::retain(cache, keep),
            Call::SetCapacity(capacity) => Self::set_capacity(cache, capacity, state),
            Call::Reserve(additional) => Self::reserve(cache, additional),
            Call::Clear => Self::clear(cache),
        }
    }
}
