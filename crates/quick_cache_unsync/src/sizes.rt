//! The sizes of a cache: as options tell them, and as they are set later.
ghost use Rattle.std.specs.Prelude.{◌≡◌, ◌≤◌, IfOk, IfErr, IsOk};
ghost use Rattle.quick_cache_shard.specs.Alone.{IsDoneAlone};
ghost use Rattle.quick_cache_shard.specs.SetsCapacity.{Rescales};
ghost use Rattle.quick_cache_shard.specs.Shard.{KeepsTerms, WorksAsWrite, made_with};
ghost use Rattle.quick_cache_shard.specs.Steps.{SetsCapacityBy};
ghost use Rattle.quick_cache_unsync.specs.Saving.{empty_by};
ghost use Rattle.quick_cache_unsync.specs.Touches.{no_touches};

use crate::cache::Cache;
use quick_cache_model::{Lifecycle, Refusal, Weighter};
use quick_cache_options::options::Options;
use quick_cache_shard::{CacheShard, Ruled};
use std::alloc::Allocator;
use std::hash::{BuildHasher, Hash};

impl<K: Eq + Hash, V, We, B: BuildHasher, L, A: Allocator> Cache<K, V, We, B, L, A> {
    /// An empty cache of the sizes, the shares and the greatest mark that the options tell. It
    /// allocates nothing. How many shards they ask for means nothing to a cache for one thread.
    ///
    /// # Errors
    ///
    /// `Memory` where the allocator could not be cloned.
    pub fn with_options(
        alloc: A,
        options: Options,
        weigher: We,
        builder: B,
        lifecycle: L,
    ) -> Result<Self, Refusal>
    where
        A: Clone,
        We: Drop,
        B: Drop,
        L: Drop,
        ensures makes { IfOk result (λ cache. cache ≡ made_with (empty_by options)
            weigher builder lifecycle) }
        ensures succeeds { A.is_infallible alloc → IsOk result }
        ensures refused { IfErr result (λ refusal. refusal ≡ Refusal.Memory) }
    {
        let shard = CacheShard::new(
            alloc,
            options.hot_allocation(),
            options.ghost_allocation(),
            options.mark_cut(),
            options.estimated_items_capacity(),
            options.weight_capacity(),
            weigher,
            builder,
            lifecycle,
        )?;
        Ok(Cache { shard })
    }
}

impl<
    K: Eq + Hash + Drop,
    V: Drop,
    We: Weighter<K, V>,
    B: BuildHasher,
    L: Lifecycle<K, V>,
    A: Allocator,
> Cache<K, V, We, B, L, A> {
    /// Sets the weight that the cache may hold, and evicts what is too much, with a request state
    /// of its own. The hot target and the ghost limit change in proportion, rounded down; from
    /// capacity 0 the target is that of the default share, and the limit stays. The oldest ghosts
    /// go that are too many then. It takes no memory.
    pub fn set_capacity(&mut self, capacity: u64)
    where
        L::RequestState: Drop,
        // Where pinning is steady, it is a step of its definition.
        ensures sets { IsDoneAlone L.RequestState.is_default
            (SetsCapacityBy ⟦<Self as Ruled>⟧.goes no_touches self.old capacity self.new) }
        ensures sizes { Rescales capacity self.old.state self.new.state }
        ensures room { self.old.room ≤ self.new.room }
        // How much work it takes, whatever is pinned.
        ensures work { WorksAsWrite self.old self.new }
        ensures same { KeepsTerms self.old self.new }
    {
        let mut state = L::RequestState::default();
        self.set_capacity_with_lifecycle(capacity, &mut state);
    }

    /// Sets the weight that the cache may hold, as `set_capacity` does, and hands what leaves to
    /// the lifecycle, with this request state.
    pub fn set_capacity_with_lifecycle(&mut self, capacity: u64, state: &mut L::RequestState)
        ensures sets { SetsCapacityBy ⟦<Self as Ruled>⟧.goes no_touches self.old capacity
            self.new state.old state.new }
        ensures sizes { Rescales capacity self.old.state self.new.state }
        ensures room { self.old.room ≤ self.new.room }
        ensures work { WorksAsWrite self.old self.new }
        ensures same { KeepsTerms self.old self.new }
    {
        self.shard.set_capacity(capacity, state);
    }
}
