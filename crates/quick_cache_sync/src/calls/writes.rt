//! Replaces and removals. Whatever other threads do, a pair that comes back fits, and a value that
//! is taken out fits a key that the query stands for.
ghost use Rattle.std.specs.Prelude.{IfErr, IfSome};
ghost use Rattle.std.specs.Fn.{FnOnceReturnsAt};
ghost use Rattle.quick_cache_model.specs.Hashing.{hash_of};
ghost use Rattle.quick_cache_shard.specs.Shard.{Shard};
ghost use Rattle.quick_cache_sync.specs.Answers.{RemovesSo, RemovesAskedSo, ReplacesAloneBy, ReplacesSoBy};
ghost use Rattle.quick_cache_locked.specs.Asked.{MayBeAskedOfFittingUnder};
ghost use Rattle.quick_cache_locked.specs.Fitting.{FitsQuery};
ghost use Rattle.quick_cache_locked.specs.Locked.{FromSome};

use crate::cache::Cache;
use quick_cache_model::{Equivalent, Lifecycle, Weighter};
use quick_cache_shard::Ruled;
use std::alloc::Allocator;
use std::hash::{BuildHasher, Hash};
use std::sync::Wait;

impl<
    K: Eq + Hash + Drop,
    V: Drop,
    We: Weighter<K, V>,
    B: BuildHasher,
    L: Lifecycle<K, V>,
    A: Allocator,
> Cache<K, V, We, B, L, A> {
    /// Replaces the item under the key by the pair, and hands what leaves to the lifecycle, with a
    /// request state of its own, which is made before the lock is taken and dropped once it is
    /// released.
    ///
    /// # Errors
    ///
    /// As `replace_with_lifecycle`.
    pub fn replace<R: Wait>(&self, rt: &R, key: K, value: V, soft: bool) -> Result<(), (K, V)>
    where
        L::RequestState: Drop,
        requires fits { L.fits key value }
        ensures answers { FromSome L.Lifecycle K.eq (λ shard.
            ReplacesAloneBy ⟦<Self as Ruled>⟧.goes K.eq shard
            L.RequestState.is_default soft key value result) }
        ensures fits { IfErr result (λ pair. L.fits pair.0 pair.1) }
    {
        let mut state = L::RequestState::default();
        self.replace_with_lifecycle(rt, key, value, soft, &mut state)
    }

    /// Replaces the item under the key by the pair, and hands what leaves to the lifecycle, with
    /// this request state. The pair takes the item's place, and its mark rises by one, unless the
    /// replace is soft. It takes the write lock of the key's shard, and no memory.
    ///
    /// # Errors
    ///
    /// The pair where it was not admitted, as the admission check left it: no item stood under its
    /// key, or it is too heavy, and then the item under its key has left.
    pub fn replace_with_lifecycle<R: Wait>(
        &self,
        rt: &R,
        key: K,
        value: V,
        soft: bool,
        state: &mut L::RequestState,
    ) -> Result<(), (K, V)>
        requires fits { L.fits key value }
        ensures answers { FromSome L.Lifecycle K.eq (λ shard.
            ReplacesSoBy ⟦<Self as Ruled>⟧.goes K.eq shard
            soft state.old key value result state.new) }
        ensures fits { IfErr result (λ pair. L.fits pair.0 pair.1) }
    {
        self.shard_of(&key)
            .write(rt)
            .replace(key, value, soft, state)
    }
}

impl<K: Eq + Hash + Drop, V: Drop, We, B: BuildHasher, L: Lifecycle<K, V>, A: Allocator> Cache<
    K,
    V,
    We,
    B,
    L,
    A,
> {
    /// Takes the item under the query's key out, or a ghost of its hash. No hook is called. It takes
    /// the write lock of the key's shard, and no memory.
    pub fn remove<Q: Equivalent<K>, R: Wait>(&self, rt: &R, query: &Q) -> Option<(K, V)>
        ensures answers { FromSome L.Lifecycle K.eq (λ (shard : Shard K V We B L).
            RemovesSo (Q.equivalent query.now) shard.state
            (hash_of B.BuildHasher B.Hasher.Hasher shard.builder (Q.hash_input query.now)) result) }
        ensures fits { IfSome result (λ pair. FitsQuery L.fits (Q.equivalent query.now) pair.1) }
    {
        self.shard_of(query).write(rt).remove(query)
    }

    /// Takes the item under the query's key out where its value is wanted, and gives its pair. A
    /// ghost stays, and no hook is called. It takes the write lock of the key's shard, under which
    /// the predicate runs, and no memory.
    pub fn remove_if<Q: Equivalent<K>, F: FnOnce(&V) -> bool, R: Wait>(
        &self,
        rt: &R,
        query: &Q,
        wanted: F,
    ) -> Option<(K, V)>
        // The value that the predicate sees fits a key that the query stands for.
        requires callable { MayBeAskedOfFittingUnder L.fits (Q.equivalent query.now) F.FnOnce wanted }

        // Whatever the predicate answers, the item goes or stays by that.
        ensures answers { FromSome L.Lifecycle K.eq (λ (shard : Shard K V We B L).
            RemovesAskedSo (Q.equivalent query.now) shard.state
            (FnOnceReturnsAt F.FnOnce wanted) result) }
        ensures fits { IfSome result (λ pair. FitsQuery L.fits (Q.equivalent query.now) pair.1) }
    {
        self.shard_of(query).write(rt).remove_if(query, wanted)
    }

    /// Drops the items of the keys that pass the test, and takes from the loads that are under way for
    /// such keys the right to be kept, one shard after the other; their guards answer `Gone`. So no
    /// value whose load had begun before the call is stored after it. It tells how many items and
    /// loads there were. Ghosts stay, and no hook is called. It takes the write lock of each shard in
    /// turn, under which the test runs, looks at each slot, and again at each of the shard for each
    /// key that is being loaded there. It takes no memory.
    pub fn invalidate_if<F: Fn(&K) -> bool, R: Wait>(&self, rt: &R, test: F) -> usize
        requires callable { F.IsAlwaysCallable test }
    {
        let mut gone = 0usize;
        for shard in &self.shards {
            gone = gone.saturating_add(shard.write(rt).invalidate_if(&test));
        }
        gone
    }

    /// Drops all items, and forgets those that left, one shard after the other. The counts, the
    /// sizes and the memory stay. No hook is called. It takes the write lock of each shard in turn.
    pub fn clear<R: Wait>(&self, rt: &R) {
        for shard in &self.shards {
            shard.write(rt).clear();
        }
    }
}
