//! The loader with its cache.
ghost use Rattle.std.specs.Prelude.{◌≡◌, ◌⊎◌, ℕ, ◌+◌, ◌-◌, ◌^◌, ◌≤◌, min, IfOk, IfErr, IfSome};
ghost use Rattle.quick_cache_model.specs.Sizes.{IsShardCount};
ghost use Rattle.quick_cache_options.specs.Options.{default_shards};
ghost use Rattle.quick_cache_locked.specs.declared.count.Count.{Count};
ghost use Rattle.read_through.specs.Answers.{IsOf};
ghost use Rattle.read_through.specs.Counted.{Counted};
ghost use Rattle.read_through.specs.Reading.{begun};

use crate::fresh::Fresh;
use crate::given::{AnySource, Source};
use quick_cache_expiring::{ByValue, Loaded};
use quick_cache_locked::LockedShard;
use quick_cache_model::{DefaultHashBuilder, Lifecycle, Refusal, UnitWeighter, Weighter};
use quick_cache_options::options::Options;
use quick_cache_stats::Stats;
use quick_cache_sync::Cache;
use std::alloc::{Allocator, Global};
use std::hash::{BuildHasher, Hash};
use std::marker::Model;
use std::sync::Wait;
use std::sync::atomic::{AtomicU64, Ordering};

/// A shard of that cache, as its lock keeps it.
pub(crate) type ShardOf<K, V, S, A, We, B> = LockedShard<K, Loaded<V>, ByValue<We>, B, Fresh<S>, A>;

/// A loader, `F: Fn(&K, u64) -> V`, and the cache of what it gave, which threads share by reference.
/// `S` says for contracts what the loader gives, and `Li` how long that lives.
///
/// A moment is any number that its users agree on, as the seconds since some day.
pub struct ReadThrough<
    K: Eq + Hash + Drop,
    V: Drop,
    F,
    S: Source<K, V> = AnySource,
    A: Allocator = Global,
    Li = u64,
    We = UnitWeighter,
    B: BuildHasher = DefaultHashBuilder,
> {
    pub(crate) cache: Cache<K, Loaded<V>, ByValue<We>, B, Fresh<S>, A>,
    pub(crate) lives: Li,
    pub(crate) grace: u64,
    pub(crate) retry_after: u64,
    pub(crate) loader: F,
    // How many gets found what is too old, which the cache counts as no miss.
    pub(crate) too_old: AtomicU64,
    // How many hits of the cache are none here: of what was too old, or had no clone, or was looked at
    // once more.
    pub(crate) not_hits: AtomicU64,
    // How often the loader was asked, and how many of these loads failed.
    pub(crate) loads: AtomicU64,
    pub(crate) failed_loads: AtomicU64,
}

impl<
    K: Eq + Hash + Drop,
    V: Drop,
    F: Drop,
    S: Source<K, V>,
    A: Allocator + Drop,
    Li: Drop,
    We: Drop,
    B: BuildHasher + Drop,
> Drop for ReadThrough<K, V, F, S, A, Li, We, B> {
    fn drop(self) {
        let ReadThrough {
            cache: _cache,
            lives: _lives,
            grace: _,
            retry_after: _,
            loader: _loader,
            too_old: _too_old,
            not_hits: _not_hits,
            loads: _loads,
            failed_loads: _failed_loads,
        } = self;
    }
}

impl<K: Eq + Hash + Drop, V: Drop, F, S: Source<K, V>, A: Allocator, Li, We, B: BuildHasher> Model
    for ReadThrough<K, V, F, S, A, Li, We, B> {
    ghost use Rattle.read_through.specs.Reading.{Reading};

    ghost Value = { Reading Li F };

    ghost view = { λ reading. record {
      lives = reading.lives;
      grace = reading.grace;
      retry_after = reading.retry_after;
      loader = reading.loader;
      shards = reading.cache.shards;
    } };
}

impl<K: Eq + Hash + Drop, V: Drop, F, S: Source<K, V>, A: Allocator, Li> ReadThrough<
    K,
    V,
    F,
    S,
    A,
    Li,
    UnitWeighter,
> {
    /// A loader with an empty cache for so many values, which live for as long as this says: a
    /// number, one life for all, or an impl of `Lives`.
    ///
    /// # Errors
    ///
    /// `Memory` where the list of the cache's shards was refused, or a clone of the allocator.
    pub fn new(alloc: A, capacity: usize, lives: Li, loader: F) -> Result<Self, Refusal>
    where
        A: Clone,
        F: Drop,
        Li: Drop,
        ensures shards { IfOk result (λ made. IsShardCount default_shards capacity made.shards) }
        ensures made { IfOk result (λ made. made ≡ begun lives loader made.shards) }
        ensures refused { IfErr result (λ refusal. refusal ≡ Refusal.Memory) }
    {
        ReadThrough::with(
            alloc,
            capacity,
            capacity as u64,
            UnitWeighter,
            lives,
            loader,
        )
    }
}

impl<K: Eq + Hash + Drop, V: Drop, F, S: Source<K, V>, A: Allocator, Li, We> ReadThrough<
    K,
    V,
    F,
    S,
    A,
    Li,
    We,
> {
    /// A loader with an empty cache that is made for so many values and may hold so much weight.
    /// The weigher sees key and value alone.
    ///
    /// # Errors
    ///
    /// `Memory` where the list of the cache's shards was refused, or a clone of the allocator or
    /// the weigher.
    pub fn with(
        alloc: A,
        items: usize,
        weight: u64,
        weigher: We,
        lives: Li,
        loader: F,
    ) -> Result<Self, Refusal>
    where
        A: Clone,
        F: Drop,
        Li: Drop,
        We: Clone + Drop,
        ensures shards { IfOk result (λ made. IsShardCount default_shards items made.shards) }
        ensures made { IfOk result (λ made. made ≡ begun lives loader made.shards) }
        ensures refused { IfErr result (λ refusal. refusal ≡ Refusal.Memory) }
    {
        let cache = Cache::with(
            alloc,
            items,
            weight,
            ByValue { weigher },
            DefaultHashBuilder::new(),
            Fresh::new(),
        )?;
        Ok(ReadThrough::over(cache, lives, loader))
    }
}

impl<
    K: Eq + Hash + Drop,
    V: Drop,
    F,
    S: Source<K, V>,
    A: Allocator,
    Li,
    We,
    B: BuildHasher,
> ReadThrough<K, V, F, S, A, Li, We, B> {
    /// A loader with an empty cache of these options, whose keys are hashed by the builder. The weigher
    /// sees key and value alone.
    ///
    /// # Errors
    ///
    /// `Memory` where the list of the cache's shards was refused, or a clone of the allocator, the
    /// weigher or the builder.
    pub fn with_options(
        alloc: A,
        options: Options,
        weigher: We,
        builder: B,
        lives: Li,
        loader: F,
    ) -> Result<Self, Refusal>
    where
        A: Clone,
        F: Drop,
        Li: Drop,
        We: Clone + Drop,
        B: Clone + Drop,
        ensures shards { IfOk result (λ made. IsShardCount options.shards
            options.estimated_items_capacity made.shards) }
        ensures made { IfOk result (λ made. made ≡ begun lives loader made.shards) }
        ensures refused { IfErr result (λ refusal. refusal ≡ Refusal.Memory) }
    {
        let cache = Cache::with_options(
            alloc,
            options,
            ByValue { weigher },
            builder,
            Fresh::new(),
        )?;
        Ok(ReadThrough::over(cache, lives, loader))
    }

    /// A loader with this cache, which is empty, and no grace.
    fn over(cache: Cache<K, Loaded<V>, ByValue<We>, B, Fresh<S>, A>, lives: Li, loader: F) -> Self
        ensures made { result ≡ begun lives loader cache.shards }
    {
        ReadThrough {
            cache,
            lives,
            grace: 0,
            retry_after: 0,
            loader,
            too_old: AtomicU64::new(0),
            not_hits: AtomicU64::new(0),
            loads: AtomicU64::new(0),
            failed_loads: AtomicU64::new(0),
        }
    }

    /// The same, where an old value may be answered for so long after its life as loads of its key
    /// fail.
    pub fn with_grace(mut self, grace: u64) -> Self
        ensures { result ≡ record self { grace = grace } }
    {
        self.grace = grace;
        self
    }

    /// The same, where a loader that was asked for an old value within the grace is not asked again
    /// for so long; without this call, not again at the same moment.
    pub fn with_retry_after(mut self, retry_after: u64) -> Self
        ensures { result ≡ record self { retry_after = retry_after } }
    {
        self.retry_after = retry_after;
        self
    }

    /// Stores a value of the key as if it had been loaded at this moment.
    ///
    /// # Errors
    ///
    /// Why it was refused, only where nothing stood under its key. Nothing changed then.
    pub fn put<R: Wait>(&self, rt: &R, key: K, value: V, now: u64) -> Result<(), Refusal>
    where
        We: Weighter<K, V>,
        requires gives { S.gives key now value }
        ensures refused { IfErr result
            (λ refusal. refusal ≡ Refusal.Memory ⊎ refusal ≡ Refusal.SlotsFull) }
    {
        self.cache.put(rt, key, Loaded::at(value, now))
    }

    /// Takes what is stored under the key out, fresh or not, so that the next get of it loads. What a
    /// load gives that is under way is not stored.
    pub fn remove<R: Wait>(&self, rt: &R, key: &K) -> Option<Loaded<V>>
        ensures { IfSome result (λ loaded.
            IsOf S.gives K.eq key.now loaded.moment loaded.value) }
    {
        match self.cache.remove(rt, key) {
            Some((_, loaded)) => Some(loaded),
            None => None,
        }
    }

    /// Drops what is stored of the keys that pass the test, and takes from the loads that are under
    /// way for such keys the right to be stored. It tells how many values and loads there were; one
    /// that asks for a stored value anew is not counted beside that. It takes the write lock of each
    /// shard in turn, under which the test runs.
    pub fn invalidate_if<T: Fn(&K) -> bool, R: Wait>(&self, rt: &R, test: T) -> usize
        requires callable { T.IsAlwaysCallable test }
    {
        self.cache.invalidate_if(rt, test)
    }

    /// Drops all that is stored.
    pub fn clear<R: Wait>(&self, rt: &R) {
        self.cache.clear(rt);
    }

    /// Sets the weight that the cache may hold, and drops what is too much.
    pub fn set_capacity<R: Wait>(&self, rt: &R, capacity: u64)
    where
        We: Weighter<K, V>,
    {
        self.cache.set_capacity(rt, capacity);
    }

    /// The cache of the values with their moments, for all its calls: walks, saving, `try_` forms. What
    /// is stored by them has to be the source's. Looks there are counted by `hits` and `misses` too.
    pub fn cache(&self) -> &Cache<K, Loaded<V>, ByValue<We>, B, Fresh<S>, A>
        ensures { result.now.shards ≡ self.now.shards }
    {
        &self.cache
    }

    /// How many values are stored, fresh or not.
    pub fn len<R: Wait>(&self, rt: &R) -> usize
        ensures answers { Counted We B ⟦<Fresh<S> as Lifecycle<K, Loaded<V>>>⟧ K.eq Count.Items
            self.now.shards result }
    {
        self.cache.len(rt)
    }

    /// What is stored, fresh or not, what the gets found, and how often the loader was asked. A get
    /// that found a value that was being loaded counts as a hit. It takes the read lock of each shard
    /// in turn, once for each number, and looks at each slot.
    pub fn stats<R: Wait>(&self, rt: &R) -> Stats
        ensures entries { Counted We B ⟦<Fresh<S> as Lifecycle<K, Loaded<V>>>⟧ K.eq Count.Items
            self.now.shards result.entries }
        ensures weight { Counted We B ⟦<Fresh<S> as Lifecycle<K, Loaded<V>>>⟧ K.eq Count.Weight
            self.now.shards result.weight }
        ensures capacity { Counted We B ⟦<Fresh<S> as Lifecycle<K, Loaded<V>>>⟧ K.eq Count.Capacity
            self.now.shards result.capacity }
        // Its misses are those of the cache behind it and what was too old; it tells no more hits.
        ensures misses { (counted : ℕ) × Counted We B ⟦<Fresh<S> as Lifecycle<K, Loaded<V>>>⟧ K.eq
            Count.Misses self.now.shards counted
            × (result.misses ≡ min (counted + result.expired) (2 ^ 64 - 1)) }
        ensures hits { (counted : ℕ) × Counted We B ⟦<Fresh<S> as Lifecycle<K, Loaded<V>>>⟧ K.eq
            Count.Hits self.now.shards counted × (result.hits ≤ counted) }
        ensures failed { result.failed_loads ≤ result.loads }
    {
        // Each is counted behind its load.
        let failed_loads = self.failed_loads.load(Ordering::SeqCst);
        let loads = self.loads.load(Ordering::SeqCst);
        let too_old = self.too_old.load(Ordering::SeqCst);
        let not_hits = self.not_hits.load(Ordering::SeqCst);
        let held = self.cache.stats(rt);
        Stats {
            hits: held.hits.saturating_sub(not_hits),
            misses: held.misses.saturating_add(too_old),
            expired: too_old,
            loads,
            failed_loads: failed_loads.min(loads),
            ..held
        }
    }

    /// How many gets found a value that serves, or one that was being loaded.
    pub fn hits<R: Wait>(&self, rt: &R) -> u64 {
        self.stats(rt).hits
    }

    /// How many gets found nothing, or what is too old.
    pub fn misses<R: Wait>(&self, rt: &R) -> u64 {
        self.stats(rt).misses
    }
}
