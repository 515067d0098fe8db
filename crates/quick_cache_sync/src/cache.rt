//! The cache that threads share: shards, each behind a lock of its own.
ghost use Rattle.std.specs.Prelude.{◌≡◌, IfOk, IfErr, Some, codes};
ghost use Rattle.quick_cache_model.specs.Sizes.{IsShardCount};
ghost use Rattle.quick_cache_options.specs.Options.{default_shards};
ghost use Rattle.quick_cache_sync.specs.Answers.{InsertsAloneBy, InsertsSoBy};
ghost use Rattle.quick_cache_locked.specs.Locked.{FromSome};
ghost use Rattle.quick_cache_shard.specs.Inserts.{with_pair};

use crate::lifecycle::DefaultLifecycle;
use crossbeam_utils::CachePadded;
use quick_cache_locked::LockedShard;
use quick_cache_model::{DefaultHashBuilder, Lifecycle, Refusal, UnitWeighter, Weighter};
use quick_cache_options::sizes::shard_sizes;
use quick_cache_options::{Options, OptionsBuilder};
use quick_cache_shard::Ruled;
use std::alloc::{Allocator, Global};
use std::fmt::{Debug, Formatter, Write};
use std::hash::{BuildHasher, Hash};
use std::marker::Model;
use std::sync::{RwLock, Wait};

/// A cache of a bounded weight, which threads share by reference.
///
/// It is divided into shards, and a key has one of them by its hash. Each call takes the lock of a
/// shard, makes one step of the shard behind it, and lets the lock go. What the shard was at that
/// moment nobody knows, so a contract says that the call answers as the step does from some shard
/// whose state is valid and whose values fit their keys.
pub struct Cache<
    K: Eq + Hash + Drop,
    V: Drop,
    We = UnitWeighter,
    B: BuildHasher = DefaultHashBuilder,
    L: Lifecycle<K, V> = DefaultLifecycle<K, V>,
    A: Allocator = Global,
> {
    // Each is apart from the others, so that threads at two shards never write to one line.
    pub(crate) shards: Vec<CachePadded<RwLock<LockedShard<K, V, We, B, L, A>>>, A>,
    pub(crate) builder: B,
}

// By hand, so that a crate that names this type proves no walk through its shards anew.
impl<
    K: Eq + Hash + Drop,
    V: Drop,
    We: Drop,
    B: BuildHasher + Drop,
    L: Lifecycle<K, V> + Drop,
    A: Allocator + Drop,
> Drop for Cache<K, V, We, B, L, A> {
    fn drop(self) {
        let Cache {
            shards: _shards,
            builder: _builder,
        } = self;
    }
}

impl<K: Eq + Hash + Drop, V: Drop, We, B: BuildHasher, L: Lifecycle<K, V>, A: Allocator> Model
    for Cache<K, V, We, B, L, A> {
    ghost use Rattle.std.specs.Prelude.{vec_len};
    ghost use Rattle.quick_cache_sync.specs.Shards.{Division, IsDivision};

    ghost Value = { Division B };

    ghost view = { λ cache. record { shards = vec_len cache.shards; builder = cache.builder } };

    ghost invariant = { λ cache. IsDivision (vec_len cache.shards) };
}

impl<K: Eq + Hash + Drop, V: Drop, A: Allocator> Cache<
    K,
    V,
    UnitWeighter,
    DefaultHashBuilder,
    DefaultLifecycle<K, V>,
    A,
> {
    /// An empty cache for so many items, each of weight 1, with all defaults. It takes no lock, and
    /// allocates the list of its shards alone.
    ///
    /// # Errors
    ///
    /// `Memory` where the list was refused, or a clone of the allocator.
    pub fn new(alloc: A, items: usize) -> Result<Self, Refusal>
    where
        A: Clone,
        ensures shards { IfOk result (λ cache. IsShardCount default_shards items cache.shards) }
        ensures refused { IfErr result (λ refusal. refusal ≡ Refusal.Memory) }
    {
        Cache::with_weighter(alloc, items, items as u64, UnitWeighter)
    }
}

impl<K: Eq + Hash + Drop, V: Drop, We, A: Allocator> Cache<
    K,
    V,
    We,
    DefaultHashBuilder,
    DefaultLifecycle<K, V>,
    A,
> {
    /// An empty cache that is made for so many items and may hold so much weight by this weigher,
    /// with the default builder and lifecycle. It takes no lock, and allocates the list of its
    /// shards alone.
    ///
    /// # Errors
    ///
    /// `Memory` where the list was refused, or a clone of the allocator or the weigher.
    pub fn with_weighter(alloc: A, items: usize, weight: u64, weigher: We) -> Result<Self, Refusal>
    where
        A: Clone,
        We: Clone + Drop,
        ensures shards { IfOk result (λ cache. IsShardCount default_shards items cache.shards) }
        ensures refused { IfErr result (λ refusal. refusal ≡ Refusal.Memory) }
    {
        Cache::with(
            alloc,
            items,
            weight,
            weigher,
            DefaultHashBuilder::new(),
            DefaultLifecycle::new(),
        )
    }
}

impl<K: Eq + Hash + Drop, V: Drop, We, B: BuildHasher, L: Lifecycle<K, V>, A: Allocator> Cache<
    K,
    V,
    We,
    B,
    L,
    A,
> {
    /// An empty cache that is made for so many items and may hold so much weight, with the default
    /// shares and number of shards. It takes no lock, and allocates the list of its shards alone.
    ///
    /// # Errors
    ///
    /// `Memory` where the list was refused, or a clone of the allocator, the weigher, the builder
    /// or the lifecycle.
    pub fn with(
        alloc: A,
        items: usize,
        weight: u64,
        weigher: We,
        builder: B,
        lifecycle: L,
    ) -> Result<Self, Refusal>
    where
        A: Clone,
        We: Clone + Drop,
        B: Clone + Drop,
        L: Clone + Drop,
        ensures shards { IfOk result (λ cache. IsShardCount default_shards items cache.shards) }
        ensures builder { IfOk result (λ cache. cache.builder ≡ builder) }
        ensures refused { IfErr result (λ refusal. refusal ≡ Refusal.Memory) }
    {
        let mut options = OptionsBuilder::new();
        options
            .estimated_items_capacity(items)
            .weight_capacity(weight);
        let Ok(options) = options.build() else {
            unreachable!();
        };
        Cache::with_options(alloc, options, weigher, builder, lifecycle)
    }

    /// An empty cache of the sizes, the shares, the greatest mark and the number of shards that the
    /// options tell. It takes no lock, and allocates the list of its shards alone. There are as many
    /// as the next power of two, or fewer, so that each is made for 32 items at least. Each has its
    /// part of the items and of the weight, rounded up, and clones of the weigher, the builder and
    /// the lifecycle.
    ///
    /// # Errors
    ///
    /// `Memory` where the list was refused, or a clone of the allocator, the weigher, the builder
    /// or the lifecycle.
    pub fn with_options(
        alloc: A,
        options: Options,
        weigher: We,
        builder: B,
        lifecycle: L,
    ) -> Result<Self, Refusal>
    where
        A: Clone,
        We: Clone + Drop,
        B: Clone + Drop,
        L: Clone + Drop,
        ensures shards { IfOk result (λ cache. IsShardCount options.shards
            options.estimated_items_capacity cache.shards) }
        ensures builder { IfOk result (λ cache. cache.builder ≡ builder) }
        ensures refused { IfErr result (λ refusal. refusal ≡ Refusal.Memory) }
    {
        let sizes = shard_sizes(&options);
        let own: Result<_, _> = alloc.clone();
        let Ok(own) = own else {
            return Err(Refusal::Memory);
        };
        let Ok(mut shards) = Vec::with_capacity(own, sizes.shards) else {
            return Err(Refusal::Memory);
        };
        for _ in 0..sizes.shards {
            let alloc: Result<_, _> = alloc.clone();
            let weigher: Result<_, _> = weigher.clone();
            let builder: Result<_, _> = builder.clone();
            let lifecycle: Result<_, _> = lifecycle.clone();
            let (Ok(alloc), Ok(weigher), Ok(builder), Ok(lifecycle)) = (
                alloc, weigher, builder, lifecycle,
            ) else {
                return Err(Refusal::Memory);
            };
            let shard = LockedShard::new(alloc, &options, sizes, weigher, builder, lifecycle)?;
            shards.push_reserved(CachePadded::new(RwLock::new(shard)));
        }
        Ok(Cache { shards, builder })
    }
}

impl<
    K: Eq + Hash + Drop,
    V: Drop,
    We: Weighter<K, V>,
    B: BuildHasher,
    L: Lifecycle<K, V>,
    A: Allocator,
> Cache<K, V, We, B, L, A> {
    /// Inserts a pair, and hands what leaves to the lifecycle, with a request state of its own,
    /// which is made before the lock is taken and dropped once it is released.
    ///
    /// # Errors
    ///
    /// As `insert_with_lifecycle`.
    pub fn insert<R: Wait>(&self, rt: &R, key: K, value: V) -> Result<(), (K, V, Refusal)>
    where
        L::RequestState: Drop,
        requires fits { L.fits key value }
        ensures answers { FromSome L.Lifecycle K.eq (λ shard.
            InsertsAloneBy ⟦<Self as Ruled>⟧.goes K.eq shard
            L.RequestState.is_default key value result) }
    {
        let mut state = L::RequestState::default();
        self.insert_with_lifecycle(rt, key, value, &mut state)
    }

    /// Inserts a pair as `insert` does, for who does not want a refused pair back: it is dropped once
    /// the lock is released.
    ///
    /// # Errors
    ///
    /// Why it was refused: `SlotsFull` or `Memory`, only where nothing stood under its key. Nothing
    /// changed then, and no hook was called.
    pub fn put<R: Wait>(&self, rt: &R, key: K, value: V) -> Result<(), Refusal>
    where
        L::RequestState: Drop,
        requires fits { L.fits key value }
        ensures answers { FromSome L.Lifecycle K.eq (λ shard.
            InsertsAloneBy ⟦<Self as Ruled>⟧.goes K.eq shard
            L.RequestState.is_default key value (with_pair key value result)) }
    {
        match self.insert(rt, key, value) {
            Ok(()) => Ok(()),
            Err((_key, _value, refusal)) => Err(refusal),
        }
    }

    /// Inserts a pair, and hands what leaves to the lifecycle, with this request state. A pair that
    /// is heavier than the hot target of its shard is turned away and told to the cold hook, and the
    /// answer is `Ok`. It takes the write lock of the key's shard.
    ///
    /// # Errors
    ///
    /// The pair and why: `SlotsFull` or `Memory`, only where nothing stood under its key. Nothing
    /// changed then, and no hook was called.
    pub fn insert_with_lifecycle<R: Wait>(
        &self,
        rt: &R,
        key: K,
        value: V,
        state: &mut L::RequestState,
    ) -> Result<(), (K, V, Refusal)>
        requires fits { L.fits key value }
        ensures answers { FromSome L.Lifecycle K.eq (λ shard.
            InsertsSoBy ⟦<Self as Ruled>⟧.goes K.eq shard
            state.old key value result state.new) }
    {
        self.shard_of(&key).write(rt).insert(key, value, state)
    }
}

impl<
    K: Eq + Hash + Drop,
    V: Drop,
    We: Weighter<K, V>,
    B: BuildHasher,
    L: Lifecycle<K, V>,
    A: Allocator,
> Ruled for Cache<K, V, We, B, L, A> {
    ghost use Rattle.quick_cache_shard.specs.Goes.{goes_by};

    type Key = K;

    type Value = V;

    type Weigher = We;

    type Builder = B;

    type Life = L;

    type RequestState = L::RequestState;

    ghost goes = { goes_by K.Hash.hash_input We.Weighter B.BuildHasher B.Hasher.Hasher L.Lifecycle };
}

impl<K: Eq + Hash + Drop, V: Drop, We, B: BuildHasher, L: Lifecycle<K, V>, A: Allocator> Debug
    for Cache<K, V, We, B, L, A> {
    ghost debug_output = { λ _. Some (codes "Cache { .. }") };

    fn fmt<W: Write>(&self, f: &mut Formatter<W>) -> std::fmt::Result {
        f.write_str("Cache { .. }")
    }
}
