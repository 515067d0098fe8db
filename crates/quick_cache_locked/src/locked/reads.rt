//! Reads of a shard behind its lock, which change neither its lists nor its marks.
ghost use Rattle.std.specs.Prelude.{IsOk, MatchOption};
ghost use Rattle.std.specs.Bool.{OnTrue, OnFalse};
ghost use Rattle.quick_cache_model.specs.Finding.{HasNoItem};
ghost use Rattle.quick_cache_shard.specs.Stats.{ShowsReads};
ghost use Rattle.quick_cache_shard.specs.Shard.{HasItem};
ghost use Rattle.quick_cache_locked.specs.Peeks.{Peeks, ShowsFitting};
ghost use Rattle.quick_cache_locked.specs.Locked.{IsKept};
ghost use Rattle.quick_cache_locked.specs.Counts.{Shows};
ghost use Rattle.quick_cache_locked.specs.Touches.{any_touches};

use crate::count::Count;
use crate::locked::LockedShard;
use quick_cache_model::{Equivalent, ItemStats, Lifecycle, MemoryUsed, Refusal};
use std::alloc::Allocator;
use std::hash::{BuildHasher, Hash};

impl<
    K: Eq + Hash + Drop,
    V: Clone,
    We,
    B: BuildHasher,
    L: Lifecycle<K, V>,
    A: Allocator,
> LockedShard<K, V, We, B, L, A> {
    /// Looks the query's key up beside other readers, and clones what it finds. The clone is made
    /// first, so that a refused one counts nothing. Where clones fit as their values do, the
    /// clone fits a key that the query stands for.
    #[inline(always)]
    pub fn get<Q: Equivalent<K>>(&self, query: &Q) -> Result<Option<V>, Refusal>
        ensures gets { Peeks (Q.equivalent query.now) V.is_clone self.now.state result }
        ensures fits { ShowsFitting L.fits (Q.equivalent query.now) V.is_clone result }
        ensures succeeds { ((value : V) → V.is_infallible value) → IsOk result }
        ensures kept { IsKept L.Lifecycle K.eq self.now }
    {
        self.facts();
        let hash = self.shard.hash(query);
        self.shard.get_clone(hash, query)
    }

    /// As `get`, but where nothing is found no miss is counted: it is for a call that goes on to
    /// begin a load.
    #[inline(always)]
    pub fn find<Q: Equivalent<K>>(&self, query: &Q) -> Result<Option<V>, Refusal>
        ensures finds { Peeks (Q.equivalent query.now) V.is_clone self.now.state result }
        ensures fits { ShowsFitting L.fits (Q.equivalent query.now) V.is_clone result }
        ensures succeeds { ((value : V) → V.is_infallible value) → IsOk result }
        ensures kept { IsKept L.Lifecycle K.eq self.now }
    {
        self.facts();
        let hash = self.shard.hash(query);
        self.shard.find_clone(hash, query)
    }

    /// Clones the value under the query's key. It is no use of the item. What it gives fits as what
    /// `get` gives.
    pub fn peek<Q: Equivalent<K>>(&self, query: &Q) -> Result<Option<V>, Refusal>
        ensures peeks { Peeks (Q.equivalent query.now) V.is_clone self.now.state result }
        ensures fits { ShowsFitting L.fits (Q.equivalent query.now) V.is_clone result }
        ensures succeeds { ((value : V) → V.is_infallible value) → IsOk result }
        ensures kept { IsKept L.Lifecycle K.eq self.now }
    {
        self.facts();
        let hash = self.shard.hash(query);
        match self.shard.peek(hash, query) {
            None => Ok(None),
            Some(value) => match value.clone() {
                Ok(copy) => Ok(Some(copy)),
                Err(_) => Err(Refusal::Memory),
            },
        }
    }
}

impl<
    K: Eq + Hash + Drop,
    V: Drop,
    We,
    B: BuildHasher,
    L: Lifecycle<K, V>,
    A: Allocator,
> LockedShard<K, V, We, B, L, A> {
    /// Whether an item stands under the query's key.
    pub fn contains_key<Q: Equivalent<K>>(&self, query: &Q) -> bool
        ensures there { OnTrue result (HasItem (Q.equivalent query.now) self.now.state) }
        ensures absent { OnFalse result (HasNoItem (Q.equivalent query.now) self.now.state) }
        ensures kept { IsKept L.Lifecycle K.eq self.now }
    {
        self.facts();
        let hash = self.shard.hash(query);
        self.shard.contains(hash, query)
    }

    /// How often the item under the query's key was read, with what readers added since.
    pub fn item_stats<Q: Equivalent<K>>(&self, query: &Q) -> Option<ItemStats>
        ensures shown { MatchOption result (HasNoItem (Q.equivalent query.now) self.now.state)
            (λ stats. ShowsReads any_touches (Q.equivalent query.now) self.now.state
            stats.access_count) }
        ensures kept { IsKept L.Lifecycle K.eq self.now }
    {
        self.facts();
        let hash = self.shard.hash(query);
        self.shard.item_stats(hash, query)
    }

    /// One of its numbers.
    pub fn count(&self, count: Count) -> u64
        ensures shows { Shows count self.now.state result }
        ensures kept { IsKept L.Lifecycle K.eq self.now }
    {
        self.facts();
        match count {
            Count::Items => self.shard.len() as u64,
            Count::Weight => self.shard.weight(),
            Count::Capacity => self.shard.capacity(),
            Count::Hits => self.shard.hits(),
            Count::Misses => self.shard.misses(),
        }
    }

    /// How many bytes the entries and the index that finds them take.
    pub fn memory_used(&self) -> MemoryUsed {
        self.shard.memory_used()
    }
}
