//! A cache that threads share, whose entries end.
ghost use Rattle.std.specs.Prelude.{◌≡◌, ◌≤◌, ℕ, IfOk, IfErr};
ghost use Rattle.quick_cache_model.specs.Sizes.{IsShardCount};
ghost use Rattle.quick_cache_options.specs.Options.{default_shards};
ghost use Rattle.quick_cache_shard.specs.Shard.{Shard};
ghost use Rattle.quick_cache_locked.specs.Counts.{Shows};
ghost use Rattle.quick_cache_locked.specs.declared.count.Count.{Count};
ghost use Rattle.quick_cache_sync.specs.Sums.{AddsUp};
ghost use Rattle.quick_cache_expiring.specs.declared.lasting.Lasting.{Lasting};
ghost use Rattle.quick_cache_expiring.specs.declared.by_value.ByValue.{ByValue};

use quick_cache_expiring::{ByValue, Lasting};
use quick_cache_model::{DefaultHashBuilder, Lifecycle, Refusal, UnitWeighter};
use quick_cache_options::options::Options;
use quick_cache_stats::Stats;
use quick_cache_sync::{Cache, DefaultLifecycle};
use std::alloc::{Allocator, Global};
use std::hash::{BuildHasher, Hash};
use std::marker::Model;
use std::sync::Wait;
use std::sync::atomic::{AtomicU32, AtomicU64, AtomicUsize, Ordering};

/// A cache that threads share by reference, whose entries end: each has its end, and serves at the
/// moments below it.
///
/// A moment is any number that its users agree on, as the seconds since some day. The weigher sees
/// key and value alone; the lifecycle sees the value with its end, so its `fits` may speak of both.
#[derive(Drop)]
pub struct SharedExpiring<
    K: Eq + Hash + Drop,
    V: Drop,
    We = UnitWeighter,
    B: BuildHasher = DefaultHashBuilder,
    L: Lifecycle<K, Lasting<V>> = DefaultLifecycle<K, Lasting<V>>,
    A: Allocator = Global,
> {
    pub(crate) cache: Cache<K, Lasting<V>, ByValue<We>, B, L, A>,
    // How many looks found what was over.
    pub(crate) expired: AtomicU64,
    // How many of these the cache counted as hits: of loads, of tries, and of many keys at once.
    pub(crate) not_hits: AtomicU64,
    // The shard in which the next purge of some goes on, and the token there behind which it does, 0
    // for none. Whatever they are, such a purge is one of some entries.
    pub(crate) next_shard: AtomicUsize,
    pub(crate) next_token: AtomicU32,
}

impl<
    K: Eq + Hash + Drop,
    V: Drop,
    We,
    B: BuildHasher,
    L: Lifecycle<K, Lasting<V>>,
    A: Allocator,
> Model for SharedExpiring<K, V, We, B, L, A> {
    ghost use Rattle.quick_cache_sync.specs.Shards.{Division};

    ghost Value = { Division B };

    ghost view = { λ entries. entries.cache };
}

impl<K: Eq + Hash + Drop, V: Drop, A: Allocator> SharedExpiring<
    K,
    V,
    UnitWeighter,
    DefaultHashBuilder,
    DefaultLifecycle<K, Lasting<V>>,
    A,
> {
    /// An empty cache for so many entries, each of weight 1, with all defaults. It takes no lock,
    /// and allocates the list of its shards alone.
    ///
    /// # Errors
    ///
    /// `Memory` where the list was refused, or a clone of the allocator.
    pub fn new(alloc: A, items: usize) -> Result<Self, Refusal>
    where
        A: Clone,
        ensures shards { IfOk result (λ made. IsShardCount default_shards items made.shards) }
        ensures refused { IfErr result (λ refusal. refusal ≡ Refusal.Memory) }
    {
        SharedExpiring::with(
            alloc,
            items,
            items as u64,
            UnitWeighter,
            DefaultHashBuilder::new(),
            DefaultLifecycle::new(),
        )
    }
}

impl<
    K: Eq + Hash + Drop,
    V: Drop,
    We,
    B: BuildHasher,
    L: Lifecycle<K, Lasting<V>>,
    A: Allocator,
> SharedExpiring<K, V, We, B, L, A> {
    /// An empty cache that is made for so many entries and may hold so much weight. It takes no lock,
    /// and allocates the list of its shards alone.
    ///
    /// # Errors
    ///
    /// `Memory` where the list was refused, or a clone of the allocator, the weigher, the builder
    /// or the lifecycle.
    pub fn with(
        alloc: A,
        items: usize,
        weight: u64,
        weigher: We,
        builder: B,
        lifecycle: L,
    ) -> Result<Self, Refusal>
    where
        A: Clone,
        We: Clone + Drop,
        B: Clone + Drop,
        L: Clone + Drop,
        ensures shards { IfOk result (λ made. IsShardCount default_shards items made.shards) }
        ensures builder { IfOk result (λ made. made.builder ≡ builder) }
        ensures refused { IfErr result (λ refusal. refusal ≡ Refusal.Memory) }
    {
        let weigher = ByValue { weigher };
        let cache = Cache::with(alloc, items, weight, weigher, builder, lifecycle)?;
        Ok(SharedExpiring {
            cache,
            expired: AtomicU64::new(0),
            not_hits: AtomicU64::new(0),
            next_shard: AtomicUsize::new(0),
            next_token: AtomicU32::new(0),
        })
    }

    /// An empty cache with these options. It takes no lock, and allocates the list of its shards
    /// alone.
    ///
    /// # Errors
    ///
    /// `Memory` where the list was refused, or a clone of the allocator, the weigher, the builder
    /// or the lifecycle.
    pub fn with_options(
        alloc: A,
        options: Options,
        weigher: We,
        builder: B,
        lifecycle: L,
    ) -> Result<Self, Refusal>
    where
        A: Clone,
        We: Clone + Drop,
        B: Clone + Drop,
        L: Clone + Drop,
        ensures shards { IfOk result (λ made. IsShardCount options.shards
            options.estimated_items_capacity made.shards) }
        ensures builder { IfOk result (λ made. made.builder ≡ builder) }
        ensures refused { IfErr result (λ refusal. refusal ≡ Refusal.Memory) }
    {
        let weigher = ByValue { weigher };
        let cache = Cache::with_options(alloc, options, weigher, builder, lifecycle)?;
        Ok(SharedExpiring {
            cache,
            expired: AtomicU64::new(0),
            not_hits: AtomicU64::new(0),
            next_shard: AtomicUsize::new(0),
            next_token: AtomicU32::new(0),
        })
    }

    /// The cache of the values with their ends: its weight, its capacity, its memory.
    pub fn cache(&self) -> &Cache<K, Lasting<V>, ByValue<We>, B, L, A>
        ensures same { result.now ≡ self.now }
    {
        &self.cache
    }

    /// How many entries there are, those that are over too, up to the greatest `usize`. It takes the
    /// read lock of each shard in turn.
    pub fn len<R: Wait>(&self, rt: &R) -> usize
        ensures answers { AddsUp L.Lifecycle K.eq
            (λ (shard : Shard K (Lasting V) (ByValue We) B L) shown.
            Shows Count.Items shard.state shown) self.now.shards result }
    {
        self.cache.len(rt)
    }

    /// What the cache holds, those that are over too, and what the looks found: each number by
    /// itself, one after the other. It takes the read lock of each shard in turn, once for each
    /// number, and looks at each slot. It counts no load.
    pub fn stats<R: Wait>(&self, rt: &R) -> Stats
        ensures entries { AddsUp L.Lifecycle K.eq
            (λ (shard : Shard K (Lasting V) (ByValue We) B L) shown.
            Shows Count.Items shard.state shown) self.now.shards result.entries }
        ensures weight { AddsUp L.Lifecycle K.eq
            (λ (shard : Shard K (Lasting V) (ByValue We) B L) shown.
            Shows Count.Weight shard.state shown) self.now.shards result.weight }
        ensures capacity { AddsUp L.Lifecycle K.eq
            (λ (shard : Shard K (Lasting V) (ByValue We) B L) shown.
            Shows Count.Capacity shard.state shown) self.now.shards result.capacity }
        // It tells no more hits than the cache behind it, and no fewer misses.
        ensures hits { (counted : ℕ) × AddsUp L.Lifecycle K.eq
            (λ (shard : Shard K (Lasting V) (ByValue We) B L) shown.
            Shows Count.Hits shard.state shown) self.now.shards counted × (result.hits ≤ counted) }
        ensures missed { (counted : ℕ) × AddsUp L.Lifecycle K.eq
            (λ (shard : Shard K (Lasting V) (ByValue We) B L) shown.
            Shows Count.Misses shard.state shown) self.now.shards counted
            × (counted ≤ result.misses) }
        ensures misses { result.expired ≤ result.misses }
        ensures loads { (result.loads ≡ 0) × (result.failed_loads ≡ 0) }
    {
        // Each is counted behind its miss.
        let expired = self.expired.load(Ordering::SeqCst);
        let not_hits = self.not_hits.load(Ordering::SeqCst);
        let held = self.cache.stats(rt);
        let misses = held.misses.saturating_add(not_hits);
        Stats {
            hits: held.hits.saturating_sub(not_hits),
            misses,
            expired: expired.min(misses),
            ..held
        }
    }
}
