//! A cache for one thread whose entries end.
ghost use Rattle.std.specs.Prelude.{◌≡◌, IfOk, IfErr, IsOk};
ghost use Rattle.quick_cache_model.specs.CacheState.{empty_state, item_count};
ghost use Rattle.quick_cache_model.specs.Sizes.{hot_target_of, ghost_limit_of, default_hot_share, default_ghost_share};
ghost use Rattle.quick_cache_model.specs.Touches.{counted_up};
ghost use Rattle.quick_cache_shard.specs.Shard.{made_with};
ghost use Rattle.quick_cache_unsync.specs.Saving.{empty_by};
ghost use Rattle.quick_cache_unsync.specs.Stats.{stats_of};

use crate::by_value::ByValue;
use crate::lasting::Lasting;
use quick_cache_model::{DefaultHashBuilder, Refusal, UnitWeighter};
use quick_cache_options::options::Options;
use quick_cache_stats::Stats;
use quick_cache_unsync::{Cache, DefaultLifecycle, Token};
use std::alloc::{Allocator, Global};
use std::hash::{BuildHasher, Hash};
use std::marker::Model;

/// A cache for one thread whose entries end: each has its end, and serves at the moments below it.
///
/// A moment is any number that its users agree on, as the seconds since some day. The weigher sees
/// key and value alone; the lifecycle sees the value with its end.
pub struct Expiring<
    K: Eq + Hash,
    V,
    We = UnitWeighter,
    B: BuildHasher = DefaultHashBuilder,
    L = DefaultLifecycle<K, Lasting<V>>,
    A: Allocator = Global,
> {
    pub(crate) cache: Cache<K, Lasting<V>, ByValue<We>, B, L, A>,
    // How many looks found what was over.
    pub(crate) expired: u64,
    // How many of these were loads that were then refused, of which the cache counted no miss.
    pub(crate) refused: u64,
    // The token behind which the next purge of some goes on.
    pub(crate) from: Option<Token>,
}

impl<
    K: Eq + Hash + Drop,
    V: Drop,
    We: Drop,
    B: BuildHasher + Drop,
    L: Drop,
    A: Allocator + Drop,
> Drop for Expiring<K, V, We, B, L, A> {
    fn drop(self) {
        let Expiring {
            cache: _cache,
            expired: _,
            refused: _,
            from: _,
        } = self;
    }
}

impl<K: Eq + Hash, V, We, B: BuildHasher, L, A: Allocator> Model for Expiring<K, V, We, B, L, A> {
    ghost use Rattle.quick_cache_shard.specs.WalksFrom.{number_or_zero};
    ghost use Rattle.quick_cache_expiring.specs.Entries.{Entries};

    ghost Value = { Entries K V We B L };

    ghost view = { λ entries. record {
      cache = entries.cache;
      expired = entries.expired;
      refused = entries.refused;
      from = number_or_zero entries.from;
    } };
}

impl<K: Eq + Hash, V, A: Allocator> Expiring<
    K,
    V,
    UnitWeighter,
    DefaultHashBuilder,
    DefaultLifecycle<K, Lasting<V>>,
    A,
> {
    /// An empty cache for so many entries, each of weight 1, with all defaults. It allocates
    /// nothing.
    ///
    /// # Errors
    ///
    /// `Memory` where the allocator could not be cloned.
    pub fn new(alloc: A, items: usize) -> Result<Self, Refusal>
    where
        A: Clone,
        ensures makes { IfOk result (λ made. made.cache.state ≡ empty_state items
            (hot_target_of items default_hot_share) (ghost_limit_of items default_ghost_share)) }
        ensures none { IfOk result (λ made. (made.expired ≡ 0) × (made.refused ≡ 0)
            × (made.from ≡ 0)) }
        ensures succeeds { A.is_infallible alloc → IsOk result }
        ensures refused { IfErr result (λ refusal. refusal ≡ Refusal.Memory) }
    {
        Expiring::with(
            alloc,
            items,
            items as u64,
            UnitWeighter,
            DefaultHashBuilder::new(),
            DefaultLifecycle::new(),
        )
    }
}

impl<K: Eq + Hash, V, We, B: BuildHasher, L, A: Allocator> Expiring<K, V, We, B, L, A> {
    /// An empty cache that is made for so many entries and may hold so much weight. It allocates
    /// nothing.
    ///
    /// # Errors
    ///
    /// `Memory` where the allocator could not be cloned.
    pub fn with(
        alloc: A,
        items: usize,
        weight: u64,
        weigher: We,
        builder: B,
        lifecycle: L,
    ) -> Result<Self, Refusal>
    where
        A: Clone,
        We: Drop,
        B: Drop,
        L: Drop,
        ensures makes { IfOk result (λ made. made.cache.state ≡ empty_state weight
            (hot_target_of weight default_hot_share) (ghost_limit_of items default_ghost_share)) }
        ensures weigher { IfOk result (λ made. made.cache.weigher.weigher ≡ weigher) }
        ensures builder { IfOk result (λ made. made.cache.builder ≡ builder) }
        ensures lifecycle { IfOk result (λ made. made.cache.lifecycle ≡ lifecycle) }
        ensures none { IfOk result (λ made. (made.expired ≡ 0) × (made.refused ≡ 0)
            × (made.from ≡ 0)) }
        ensures succeeds { A.is_infallible alloc → IsOk result }
        ensures refused { IfErr result (λ refusal. refusal ≡ Refusal.Memory) }
    {
        let weigher = ByValue { weigher };
        let cache = Cache::with(alloc, items, weight, weigher, builder, lifecycle)?;
        Ok(Expiring {
            cache,
            expired: 0,
            refused: 0,
            from: None,
        })
    }

    /// An empty cache with these options, of which the shards don't matter. It allocates nothing.
    ///
    /// # Errors
    ///
    /// `Memory` where the allocator could not be cloned.
    pub fn with_options(
        alloc: A,
        options: Options,
        weigher: We,
        builder: B,
        lifecycle: L,
    ) -> Result<Self, Refusal>
    where
        A: Clone,
        We: Drop,
        B: Drop,
        L: Drop,
        ensures makes { IfOk result (λ made. made.cache ≡ made_with (empty_by options)
            (record { weigher = weigher }) builder lifecycle) }
        ensures none { IfOk result (λ made. (made.expired ≡ 0) × (made.refused ≡ 0)
            × (made.from ≡ 0)) }
        ensures succeeds { A.is_infallible alloc → IsOk result }
        ensures refused { IfErr result (λ refusal. refusal ≡ Refusal.Memory) }
    {
        let weigher = ByValue { weigher };
        let cache = Cache::with_options(alloc, options, weigher, builder, lifecycle)?;
        Ok(Expiring {
            cache,
            expired: 0,
            refused: 0,
            from: None,
        })
    }

    /// The cache of the values with their ends, for reading: its weight, its entries, its memory.
    pub fn cache(&self) -> &Cache<K, Lasting<V>, ByValue<We>, B, L, A>
        ensures { result.now ≡ self.now.cache }
    {
        &self.cache
    }

    /// How many entries there are, those that are over too.
    pub fn len(&self) -> usize
        ensures { result ≡ item_count self.now.cache.state }
    {
        self.cache.len()
    }

    /// What the cache holds, those that are over too, and what the looks found. It counts no load.
    pub fn stats(&self) -> Stats
        // A load that found what was over and was refused counts as a miss, too.
        ensures { result ≡ record (stats_of self.now.cache.state) {
          misses = counted_up self.now.refused self.now.cache.state.misses;
          expired = self.now.expired;
        } }
    {
        let held = self.cache.stats();
        Stats {
            misses: held.misses.saturating_add(self.refused),
            expired: self.expired,
            ..held
        }
    }
}
