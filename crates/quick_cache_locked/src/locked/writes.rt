//! Writes to a shard behind its lock, and its capacity: the calls that hand what leaves to hooks.
//! Where pinning is steady, each is a step of its definition.
ghost use Rattle.std.specs.Prelude.{◌≡◌, IfErr};
ghost use Rattle.quick_cache_shard.specs.Shard.{KeepsPlaces, KeepsTerms, LosesOnly};
ghost use Rattle.quick_cache_locked.specs.Locked.{IsKept};
ghost use Rattle.quick_cache_locked.specs.Touches.{any_touches};
ghost use Rattle.quick_cache_shard.specs.Steps.{InsertsBy, ReplacesBy, SetsCapacityBy};

use crate::locked::LockedShard;
use quick_cache_model::{Lifecycle, Refusal, Weighter};
use quick_cache_shard::Ruled;
use std::alloc::Allocator;
use std::hash::{BuildHasher, Hash};

impl<
    K: Eq + Hash + Drop,
    V: Drop,
    We: Weighter<K, V>,
    B: BuildHasher,
    L: Lifecycle<K, V>,
    A: Allocator,
> LockedShard<K, V, We, B, L, A> {
    /// Inserts a pair whose value fits its key, and hands what leaves to the lifecycle, with this
    /// request state.
    pub fn insert(
        &mut self,
        key: K,
        value: V,
        state: &mut L::RequestState,
    ) -> Result<(), (K, V, Refusal)>
        requires fits { L.fits key value }
        ensures inserts { InsertsBy ⟦<Self as Ruled>⟧.goes any_touches self.old K.eq key value
            result self.new state.old state.new }
        ensures places { KeepsPlaces K.eq self.old.places self.new.places }
        ensures same { KeepsTerms self.old self.new }
        ensures kept { IsKept L.Lifecycle K.eq self.old }
    {
        self.facts();
        let hash = self.shard.hash(&key);
        self.shard.insert_pair(state, hash, key, value)
    }

    /// Replaces the item under the key by the pair, whose value fits it, and hands what leaves to
    /// the lifecycle, with this request state.
    pub fn replace(
        &mut self,
        key: K,
        value: V,
        soft: bool,
        state: &mut L::RequestState,
    ) -> Result<(), (K, V)>
        requires fits { L.fits key value }
        // It is never refused.
        ensures replaces { ReplacesBy ⟦<Self as Ruled>⟧.goes any_touches self.old K.eq soft
            key value result self.new state.old state.new }
        // The pair that comes back fits, whatever `before_evict` left of it.
        ensures fits { IfErr result (λ pair. L.fits pair.0 pair.1) }
        ensures places { KeepsPlaces K.eq self.old.places self.new.places }
        ensures same { KeepsTerms self.old self.new }
        ensures kept { IsKept L.Lifecycle K.eq self.old }
    {
        self.facts();
        let hash = self.shard.hash(&key);
        self.shard.replace_pair(state, hash, key, value, soft)
    }

    /// Sets the weight that it may hold, and evicts what is too much, with this request state.
    pub fn set_capacity(&mut self, capacity: u64, state: &mut L::RequestState)
        ensures sets { SetsCapacityBy ⟦<Self as Ruled>⟧.goes any_touches self.old capacity
            self.new state.old state.new }
        ensures capacity { self.new.state.capacity ≡ capacity }
        ensures places { LosesOnly self.old.places self.new.places }
        ensures same { KeepsTerms self.old self.new }
        ensures kept { IsKept L.Lifecycle K.eq self.old }
    {
        self.facts();
        self.shard.set_capacity(capacity, state);
    }
}
