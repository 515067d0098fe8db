//! Reads of a cache, each under a read lock. Whatever other threads do, a value that is given fits
//! a key that the query stands for.
ghost use Rattle.std.specs.Prelude.{IsOk, MatchOption};
ghost use Rattle.std.specs.Bool.{OnTrue, OnFalse};
ghost use Rattle.quick_cache_model.specs.Finding.{HasNoItem};
ghost use Rattle.quick_cache_shard.specs.Shard.{Shard, HasItem};
ghost use Rattle.quick_cache_shard.specs.Stats.{ShowsReads};
ghost use Rattle.quick_cache_locked.specs.Peeks.{Peeks, ShowsFitting};
ghost use Rattle.quick_cache_locked.specs.Locked.{FromSome};
ghost use Rattle.quick_cache_locked.specs.Touches.{any_touches};

use crate::cache::Cache;
use quick_cache_model::{Equivalent, ItemStats, Lifecycle, Refusal};
use std::alloc::Allocator;
use std::hash::{BuildHasher, Hash};
use std::sync::Wait;

impl<K: Eq + Hash + Drop, V: Clone, We, B: BuildHasher, L: Lifecycle<K, V>, A: Allocator> Cache<
    K,
    V,
    We,
    B,
    L,
    A,
> {
    /// Looks the query's key up and gives a clone of its value, made under the lock. A hit or a miss
    /// is counted, and at the item a touch, which becomes a mark and a read at its first visit in an
    /// advance, or when it is written over. It takes the read lock of the key's shard, so look-ups
    /// run side by side.
    ///
    /// # Errors
    ///
    /// `Memory` where the clone failed. Nothing was counted then.
    pub fn get<Q: Equivalent<K>, R: Wait>(&self, rt: &R, query: &Q) -> Result<Option<V>, Refusal>
        ensures answers { FromSome L.Lifecycle K.eq (λ (shard : Shard K V We B L).
            Peeks (Q.equivalent query.now) V.is_clone shard.state result) }
        ensures fits { ShowsFitting L.fits (Q.equivalent query.now) V.is_clone result }
        ensures succeeds { ((value : V) → V.is_infallible value) → IsOk result }
    {
        self.reading(rt, query).get(query)
    }

    /// As `get`, but where nothing is found no miss is counted: it is for who then goes on to a call
    /// that counts it, as `entry` or one that loads.
    ///
    /// # Errors
    ///
    /// As `get`.
    #[inline(always)]
    pub fn find<Q: Equivalent<K>, R: Wait>(&self, rt: &R, query: &Q) -> Result<Option<V>, Refusal>
        ensures answers { FromSome L.Lifecycle K.eq (λ (shard : Shard K V We B L).
            Peeks (Q.equivalent query.now) V.is_clone shard.state result) }
        ensures fits { ShowsFitting L.fits (Q.equivalent query.now) V.is_clone result }
        ensures succeeds { ((value : V) → V.is_infallible value) → IsOk result }
    {
        self.reading(rt, query).find(query)
    }

    /// Looks at the query's key and gives a clone of its value, made under the lock. It is no use
    /// of the item, and nothing changes. It takes the read lock of the key's shard.
    ///
    /// # Errors
    ///
    /// `Memory` where the clone failed.
    pub fn peek<Q: Equivalent<K>, R: Wait>(&self, rt: &R, query: &Q) -> Result<Option<V>, Refusal>
        ensures answers { FromSome L.Lifecycle K.eq (λ (shard : Shard K V We B L).
            Peeks (Q.equivalent query.now) V.is_clone shard.state result) }
        ensures fits { ShowsFitting L.fits (Q.equivalent query.now) V.is_clone result }
        ensures succeeds { ((value : V) → V.is_infallible value) → IsOk result }
    {
        self.reading(rt, query).peek(query)
    }
}

impl<K: Eq + Hash + Drop, V: Drop, We, B: BuildHasher, L: Lifecycle<K, V>, A: Allocator> Cache<
    K,
    V,
    We,
    B,
    L,
    A,
> {
    /// Whether an item stands under the query's key. It is no use of the item, and nothing changes.
    /// It takes the read lock of the key's shard, and no memory.
    pub fn contains_key<Q: Equivalent<K>, R: Wait>(&self, rt: &R, query: &Q) -> bool
        ensures answers { FromSome L.Lifecycle K.eq (λ (shard : Shard K V We B L).
            OnTrue result (HasItem (Q.equivalent query.now) shard.state)
            × OnFalse result (HasNoItem (Q.equivalent query.now) shard.state)) }
    {
        self.reading(rt, query).contains_key(query)
    }

    /// How often the item under the query's key was read, up to the greatest `u64`. It is no use of
    /// the item, and nothing changes. It takes the read lock of the key's shard, and no memory.
    pub fn item_stats<Q: Equivalent<K>, R: Wait>(&self, rt: &R, query: &Q) -> Option<ItemStats>
        ensures answers { FromSome L.Lifecycle K.eq (λ (shard : Shard K V We B L).
            MatchOption result (HasNoItem (Q.equivalent query.now) shard.state)
            (λ stats. ShowsReads any_touches (Q.equivalent query.now) shard.state
            stats.access_count)) }
    {
        self.reading(rt, query).item_stats(query)
    }
}
