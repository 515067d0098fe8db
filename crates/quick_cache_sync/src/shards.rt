//! The shards of a cache, and which one a key has.
ghost use Rattle.std.specs.Prelude.{◌≡◌, ◌<◌, vec_len};
ghost use Rattle.quick_cache_model.specs.Hashing.{hash_of};
ghost use Rattle.quick_cache_sync.specs.Shards.{IsDivision, IsLockAt, shard_of_hash};

use crate::cache::Cache;
use crossbeam_utils::CachePadded;
use quick_cache_guard::loads::reading;
use quick_cache_locked::LockedShard;
use quick_cache_model::{Equivalent, Lifecycle, hash_of};
use std::alloc::Allocator;
use std::hash::{BuildHasher, Hash};
use std::sync::{RwLock, RwLockReadGuard, Wait};

impl<K: Eq + Hash + Drop, V: Drop, We, B: BuildHasher, L: Lifecycle<K, V>, A: Allocator> Cache<
    K,
    V,
    We,
    B,
    L,
    A,
> {
    /// How many shards there are, a power of two. It takes no lock.
    pub fn num_shards(&self) -> usize
        ensures value { result ≡ self.now.shards }
        ensures some { 0 < result }
    {
        self.shards.len()
    }

    /// Which shard the query's key has: the last bits of its hash, by the cache's builder, once it
    /// is rotated right by 32. It takes no lock.
    pub fn shard_index<Q: Equivalent<K>>(&self, query: &Q) -> usize
        ensures index { result ≡ shard_of_hash self.now.shards
            (hash_of B.BuildHasher B.Hasher.Hasher self.now.builder (Q.hash_input query.now)) }
        ensures below { result < self.now.shards }
    {
        place_of(self.num_shards(), &self.builder, query)
    }

    /// The shard of the query's key, behind its lock.
    pub(crate) fn shard_of<Q: Equivalent<K>>(
        &self,
        query: &Q,
    ) -> &RwLock<LockedShard<K, V, We, B, L, A>> {
        lock_of(&self.shards, &self.builder, query)
    }

    /// The read lock of the query's shard.
    #[inline(always)]
    pub(crate) fn reading<R: Wait, Q: Equivalent<K>>(
        &self,
        rt: &R,
        query: &Q,
    ) -> RwLockReadGuard<'_, LockedShard<K, V, We, B, L, A>> {
        reading(rt, self.shard_of(query))
    }
}

/// The place of the query's key in a list of so many shards.
#[inline(always)]
fn place_of<K: Eq + Hash, Q: Equivalent<K>, B: BuildHasher>(
    shards: usize,
    builder: &B,
    query: &Q,
) -> usize
    requires division { IsDivision shards }
    ensures index { result ≡ shard_of_hash shards
        (hash_of B.BuildHasher B.Hasher.Hasher builder.now (Q.hash_input query.now)) }
    ensures below { result < shards }
{
    let hash = hash_of(builder, query);
    (hash.rotate_right(32) & (shards as u64 - 1)) as usize
}

/// The lock of the query's key in a list of them.
#[inline(always)]
fn lock_of<'a, K: Eq + Hash, Q: Equivalent<K>, T, B: BuildHasher, A: Allocator>(
    locks: &'a Vec<CachePadded<RwLock<T>>, A>,
    builder: &B,
    query: &Q,
) -> &'a RwLock<T>
    requires division { IsDivision (vec_len locks.now) }
    ensures of_the_key { IsLockAt locks.now (shard_of_hash (vec_len locks.now)
        (hash_of B.BuildHasher B.Hasher.Hasher builder.now (Q.hash_input query.now))) result.now }
{
    &locks[place_of(locks.len(), builder, query)]
}
