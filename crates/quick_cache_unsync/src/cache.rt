//! The cache for one thread.
ghost use Rattle.std.specs.Prelude.{◌≡◌, ◌≤◌, ◌+◌, ◌^◌, ◌-◌, ◌↔◌, min, max, IsTrue, IfOk, IfErr, IsOk, Some, codes, option_copied, OnOk};
ghost use Rattle.std.specs.Borrow.{sem};
ghost use Rattle.quick_cache_model.specs.CacheState.{empty_state, item_count, total_weight};
ghost use Rattle.std.specs.Bool.{OnTrue, OnFalse};
ghost use Rattle.std.specs.Option.{option_map};
ghost use Rattle.quick_cache_model.specs.Finding.{HasNoItem};
ghost use Rattle.quick_cache_model.specs.Hashing.{hash_of};
ghost use Rattle.quick_cache_model.specs.Lookups.{Sees, LooksUp};
ghost use Rattle.quick_cache_model.specs.Sizes.{hot_target_of, ghost_limit_of, default_hot_share, default_ghost_share};
ghost use Rattle.quick_cache_shard.specs.Copies.{ClonesAreEqual, IsCopyOf, FindsCopy};
ghost use Rattle.quick_cache_shard.specs.Shard.{no_work, HasItem, IsSoundShard, UpToOrder, made_with};
ghost use Rattle.quick_cache_shard.specs.Room.{most_room};
ghost use Rattle.quick_cache_model.specs.Refusals.{slots_taken, slot_count};
ghost use Rattle.quick_cache_unsync.specs.Stats.{stats_of};

use crate::lifecycle::DefaultLifecycle;
use quick_cache_model::{
    DefaultHashBuilder, Equivalent, ItemStats, Lifecycle, MemoryUsed, Refusal, UnitWeighter,
    Weighter,
};
use quick_cache_options::options::{
    DEFAULT_GHOST_ALLOCATION, DEFAULT_HOT_ALLOCATION, DEFAULT_MARK_CUT,
};
use quick_cache_shard::{CacheShard, Keyed, Placeholder, Ruled, Typed};
use quick_cache_stats::Stats;
use std::alloc::{Allocator, Global};
use std::fmt::{Debug, Formatter, Write};
use std::hash::{BuildHasher, Hash};
use std::marker::Model;

/// A cache for one thread, of a bounded weight.
pub struct Cache<
    K: Eq + Hash,
    V,
    We = UnitWeighter,
    B: BuildHasher = DefaultHashBuilder,
    L = DefaultLifecycle<K, V>,
    A: Allocator = Global,
> {
    pub(crate) shard: CacheShard<K, V, We, B, L, Placeholder, A>,
}

// By hand, so that a crate that names this type proves no walk through its shard anew.
impl<
    K: Eq + Hash + Drop,
    V: Drop,
    We: Drop,
    B: BuildHasher + Drop,
    L: Drop,
    A: Allocator + Drop,
> Drop for Cache<K, V, We, B, L, A> {
    fn drop(self) {
        let Cache { shard: _shard } = self;
    }
}

impl<K: Eq + Hash, V, We, B: BuildHasher, L, A: Allocator> Model for Cache<K, V, We, B, L, A> {
    ghost use Rattle.quick_cache_shard.specs.Shard.{Shard};

    ghost Value = { Shard K V We B L };

    ghost view = { λ cache. cache.shard };
}

impl<K: Eq + Hash, V, We, B: BuildHasher, L, A: Allocator> Typed for Cache<K, V, We, B, L, A> {
    ghost use Rattle.quick_cache_unsync.specs.Lent.{row_of};

    ghost lender_row = { row_of K.row V.row We.row B.row L.row A.row B.Hasher.row K.eq
        K.Hash.hash_input B.BuildHasher B.Hasher.Hasher A.Allocator };
}

impl<K: Eq + Hash, V, We, B: BuildHasher, L, A: Allocator> Keyed for Cache<K, V, We, B, L, A> {
    type Builder = B;

    ghost hash = { hash_of B.BuildHasher B.Hasher.Hasher };
}

impl<
    K: Eq + Hash + Drop,
    V: Drop,
    We: Weighter<K, V>,
    B: BuildHasher,
    L: Lifecycle<K, V>,
    A: Allocator,
> Ruled for Cache<K, V, We, B, L, A> {
    ghost use Rattle.quick_cache_shard.specs.Goes.{goes_by};

    type Key = K;

    type Value = V;

    type Weigher = We;

    type Builder = B;

    type Life = L;

    type RequestState = L::RequestState;

    ghost goes = { goes_by K.Hash.hash_input We.Weighter B.BuildHasher B.Hasher.Hasher L.Lifecycle };
}

impl<K: Eq + Hash, V, A: Allocator> Cache<
    K,
    V,
    UnitWeighter,
    DefaultHashBuilder,
    DefaultLifecycle<K, V>,
    A,
> {
    /// An empty cache for so many items, each of weight 1, with all defaults. It allocates nothing.
    ///
    /// # Errors
    ///
    /// `Memory` where the allocator could not be cloned.
    pub fn new(alloc: A, items: usize) -> Result<Self, Refusal>
    where
        A: Clone,
        ensures makes { IfOk result (λ cache. cache.state ≡ empty_state items
            (hot_target_of items default_hot_share) (ghost_limit_of items default_ghost_share)) }
        ensures succeeds { A.is_infallible alloc → IsOk result }
        ensures refused { IfErr result (λ refusal. refusal ≡ Refusal.Memory) }
    {
        Cache::with(
            alloc,
            items,
            items as u64,
            UnitWeighter,
            DefaultHashBuilder::new(),
            DefaultLifecycle::new(),
        )
    }
}

impl<K: Eq + Hash, V, We, A: Allocator> Cache<
    K,
    V,
    We,
    DefaultHashBuilder,
    DefaultLifecycle<K, V>,
    A,
> {
    /// An empty cache that is made for so many items and may hold so much weight, by that weigher,
    /// with all other defaults. It allocates nothing.
    ///
    /// # Errors
    ///
    /// `Memory` where the allocator could not be cloned.
    pub fn with_weighter(alloc: A, items: usize, weight: u64, weigher: We) -> Result<Self, Refusal>
    where
        A: Clone,
        We: Drop,
        ensures makes { IfOk result (λ cache. cache ≡ made_with
            (empty_state weight (hot_target_of weight default_hot_share)
            (ghost_limit_of items default_ghost_share)) weigher cache.builder cache.lifecycle) }
        ensures succeeds { A.is_infallible alloc → IsOk result }
        ensures refused { IfErr result (λ refusal. refusal ≡ Refusal.Memory) }
    {
        let (builder, lifecycle) = (DefaultHashBuilder::new(), DefaultLifecycle::new());
        Cache::with(alloc, items, weight, weigher, builder, lifecycle)
    }
}

impl<K: Eq + Hash, V, We, B: BuildHasher, L, A: Allocator> Cache<K, V, We, B, L, A> {
    ghost use Rattle.quick_cache_shard.specs.Lent.{ends_so};

    /// An empty cache that is made for so many items and may hold so much weight, with the default
    /// shares. It allocates nothing.
    ///
    /// # Errors
    ///
    /// `Memory` where the allocator could not be cloned.
    pub fn with(
        alloc: A,
        items: usize,
        weight: u64,
        weigher: We,
        builder: B,
        lifecycle: L,
    ) -> Result<Self, Refusal>
    where
        A: Clone,
        We: Drop,
        B: Drop,
        L: Drop,
        ensures makes { IfOk result (λ cache. cache ≡ made_with
            (empty_state weight (hot_target_of weight default_hot_share)
            (ghost_limit_of items default_ghost_share)) weigher builder lifecycle) }
        ensures succeeds { A.is_infallible alloc → IsOk result }
        ensures refused { IfErr result (λ refusal. refusal ≡ Refusal.Memory) }
    {
        Ok(Cache {
            shard: CacheShard::new(
                alloc,
                DEFAULT_HOT_ALLOCATION,
                DEFAULT_GHOST_ALLOCATION,
                DEFAULT_MARK_CUT,
                items,
                weight,
                weigher,
                builder,
                lifecycle,
            )?,
        })
    }

    /// A copy: clones of the keys and values, with the same marks, order and counts.
    ///
    /// # Errors
    ///
    /// `Memory` where a clone or room for the entries was refused.
    pub fn try_clone(&self) -> Result<Self, Refusal>
    where
        K: Clone + Drop,
        V: Clone + Drop,
        We: Clone,
        B: Clone,
        L: Clone,
        A: Clone,
        requires keys { ClonesAreEqual K.eq K.is_clone }
        ensures copies { IfOk result (λ copy.
            IsCopyOf K.is_clone V.is_clone self.now.state copy.state) }
        ensures weigher { IfOk result (λ copy. We.is_clone self.now.weigher copy.weigher) }
        ensures builder { IfOk result (λ copy. B.is_clone self.now.builder copy.builder) }
        ensures lifecycle { IfOk result (λ copy. L.is_clone self.now.lifecycle copy.lifecycle) }
        ensures work { IfOk result (λ copy. copy.work ≡ no_work) }
        ensures refused { IfErr result (λ refusal. refusal ≡ Refusal.Memory) }
    {
        Ok(Cache {
            shard: self.shard.try_clone()?,
        })
    }

    /// Makes room for so many more entries, and for the ghosts that as many inserts can leave, so
    /// that they ask for no memory; or for all entries that there can still be. It changes nothing
    /// else.
    ///
    /// # Errors
    ///
    /// `Memory` where there is not enough. Room that was already made may stay.
    pub fn reserve(&mut self, additional: usize) -> Result<(), Refusal>
        ensures room { OnOk result (min additional (slot_count - slots_taken self.old.state)
            ≤ self.new.room) }
        ensures grows { self.old.room ≤ self.new.room }
        ensures at_most { self.new.room ≤ max self.old.room (most_room
            (slots_taken self.old.state) (additional + min additional self.old.state.ghost_limit)) }
        // Where there is that room already it succeeds.
        ensures succeeds { min (additional + min additional self.old.state.ghost_limit)
            (slot_count - slots_taken self.old.state) ≤ self.old.room → IsOk result }
        ensures refused { IfErr result (λ refusal. refusal ≡ Refusal.Memory) }
        ensures same { self.new ≡ record self.old { room = self.new.room } }
    {
        self.shard.reserve(additional)
    }

    /// The shard that holds all, for reading.
    pub fn shard(&self) -> &CacheShard<K, V, We, B, L, Placeholder, A>
        ensures { result.now ≡ self.now }
    {
        &self.shard
    }

    /// Looks the query's key up: the item is marked and read, and a hit or a miss is counted. It
    /// takes no memory.
    #[inline(always)]
    pub fn get<Q: Equivalent<K>>(&mut self, query: &Q) -> Option<&V>
        ensures* looks_up { sem 𝓛 (ends_so ⟦<Self as Typed>⟧.lender_row self.entry
            (λ new. UpToOrder (LooksUp (Q.equivalent query.now) self.old.state
            (λ item. item.value) (option_copied result)) new.state
            × (new ≡ record self.old { state = new.state }))) }
    {
        let hash = self.shard.hash(query);
        self.shard.get(hash, query)
    }

    /// A clone of the value under the query's key, looked up as by `get` once the clone is made. Where
    /// nothing is found no miss is counted, and nothing changes: it is for who then goes on to a call
    /// that counts it, as one that loads.
    ///
    /// # Errors
    ///
    /// `Memory` where the clone failed. Nothing has changed then.
    #[inline(always)]
    pub fn find<Q: Equivalent<K>>(&mut self, query: &Q) -> Result<Option<V>, Refusal>
    where
        V: Clone,
        ensures finds { FindsCopy (Q.equivalent query.now) V.is_clone self.old.state result
            self.new.state }
        ensures succeeds { ((value : V) → V.is_infallible value) → IsOk result }
        ensures same { self.new ≡ record self.old { state = self.new.state } }
        ensures sound { IsSoundShard K.eq self.new }
    {
        let hash = self.shard.hash(query);
        self.shard.find_copy(hash, query)
    }

    /// Looks at the query's key, and changes nothing.
    pub fn peek<Q: Equivalent<K>>(&self, query: &Q) -> Option<&V>
        ensures sees { Sees (Q.equivalent query.now) self.now.state
            (λ item. item.value) (option_copied result) }
        ensures sound { IsSoundShard K.eq self.now }
    {
        let hash = self.shard.hash(query);
        self.shard.peek(hash, query)
    }

    /// Whether an item stands under the query's key. Nothing changes.
    pub fn contains_key<Q: Equivalent<K>>(&self, query: &Q) -> bool
        ensures there { OnTrue result (HasItem (Q.equivalent query.now) self.now.state) }
        ensures absent { OnFalse result (HasNoItem (Q.equivalent query.now) self.now.state) }
    {
        let hash = self.shard.hash(query);
        self.shard.contains(hash, query)
    }

    /// How often the item under the query's key was read, at most the greatest `u64`. It is no use
    /// of the item, and nothing changes.
    pub fn item_stats<Q: Equivalent<K>>(&self, query: &Q) -> Option<ItemStats>
        ensures sees { Sees (Q.equivalent query.now) self.now.state (λ item. item.reads)
            (option_map (λ stats. stats.access_count) result) }
        ensures sound { IsSoundShard K.eq self.now }
    {
        let hash = self.shard.hash(query);
        self.shard.item_stats(hash, query)
    }

    /// How many items there are.
    pub fn len(&self) -> usize
        ensures { result ≡ item_count self.now.state }
    {
        self.shard.len()
    }

    /// Whether there is no item.
    pub fn is_empty(&self) -> bool
        ensures { IsTrue result ↔ (item_count self.now.state ≡ 0) }
    {
        self.len() == 0
    }

    /// The weight of all items, at most the greatest `u64`.
    pub fn weight(&self) -> u64
        ensures { result ≡ min (total_weight self.now.state) (2 ^ 64 - 1) }
    {
        self.shard.weight()
    }

    /// The weight that the cache may hold.
    pub fn capacity(&self) -> u64
        ensures { result ≡ self.now.state.capacity }
    {
        self.shard.capacity()
    }

    /// How many look-ups found an item, at most the greatest `u64`.
    pub fn hits(&self) -> u64
        ensures { result ≡ self.now.state.hits }
    {
        self.shard.hits()
    }

    /// How many look-ups found none, at most the greatest `u64`.
    pub fn misses(&self) -> u64
        ensures { result ≡ self.now.state.misses }
    {
        self.shard.misses()
    }

    /// What the cache holds and what its looks found, in one record.
    pub fn stats(&self) -> Stats
        ensures { result ≡ stats_of self.now.state }
    {
        Stats {
            entries: self.len() as u64,
            weight: self.weight(),
            capacity: self.capacity(),
            hits: self.hits(),
            misses: self.misses(),
            expired: 0,
            loads: 0,
            failed_loads: 0,
        }
    }

    /// How many bytes the entries and the index that finds them take. What the keys and the values
    /// own comes apart.
    pub fn memory_used(&self) -> MemoryUsed {
        self.shard.memory_used()
    }
}

impl<K: Eq + Hash, V, We, B: BuildHasher, L, A: Allocator> Debug for Cache<K, V, We, B, L, A> {
    ghost debug_output = { λ _. Some (codes "Cache { .. }") };

    fn fmt<W: Write>(&self, f: &mut Formatter<W>) -> std::fmt::Result {
        f.write_str("Cache { .. }")
    }
}
