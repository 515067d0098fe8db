//! Calls that do not wait for a lock. Whatever other threads do, a value that is given fits a key
//! that the query stands for.
ghost use Rattle.std.specs.Prelude.{IsOk, ◌≡◌, IfOk, IfSome, MatchOption};
ghost use Rattle.std.specs.Bool.{OnTrue, OnFalse};
ghost use Rattle.quick_cache_model.specs.Finding.{HasNoItem};
ghost use Rattle.quick_cache_model.specs.Hashing.{hash_of};
ghost use Rattle.quick_cache_shard.specs.Stats.{ShowsReads};
ghost use Rattle.quick_cache_shard.specs.Shard.{Shard, HasItem};
ghost use Rattle.quick_cache_locked.specs.Peeks.{Peeks, ShowsFitting};
ghost use Rattle.quick_cache_sync.specs.Answers.{RemovesSo, InsertsAloneBy, InsertsSoBy};
ghost use Rattle.quick_cache_locked.specs.Fitting.{FitsQuery};
ghost use Rattle.quick_cache_locked.specs.Locked.{FromSome};
ghost use Rattle.quick_cache_locked.specs.Touches.{any_touches};
ghost use Rattle.quick_cache_sync.specs.Tries.{IsTried, IsTriedWith, IfContended};

use crate::cache::Cache;
use crate::error::{LockContention, TryError};
use quick_cache_model::{Equivalent, ItemStats, Lifecycle, Weighter};
use quick_cache_shard::Ruled;
use std::alloc::Allocator;
use std::hash::{BuildHasher, Hash};

impl<K: Eq + Hash + Drop, V: Clone, We, B: BuildHasher, L: Lifecycle<K, V>, A: Allocator> Cache<
    K,
    V,
    We,
    B,
    L,
    A,
> {
    /// As `get`, without waiting: it tries the read lock of the key's shard once.
    ///
    /// # Errors
    ///
    /// `Contended` where a call that writes had the lock or waited for it; `Refused` with `Memory`
    /// where the clone failed. Nothing was counted then.
    pub fn try_get<Q: Equivalent<K>>(&self, query: &Q) -> Result<Option<V>, TryError>
        ensures answers { IsTried (λ answer. FromSome L.Lifecycle K.eq
            (λ (shard : Shard K V We B L).
            Peeks (Q.equivalent query.now) V.is_clone shard.state answer)) result }
        ensures fits { ShowsFitting L.fits (Q.equivalent query.now) V.is_clone result }
        ensures succeeds { ((value : V) → V.is_infallible value) → IsTried IsOk result }
    {
        let Some(shard) = self.shard_of(query).try_read() else {
            return Err(TryError::Contended(LockContention));
        };
        match shard.get(query) {
            Ok(found) => Ok(found),
            Err(refusal) => Err(TryError::Refused(refusal)),
        }
    }

    /// As `peek`, without waiting: it tries the read lock of the key's shard once.
    ///
    /// # Errors
    ///
    /// `Contended` where a call that writes had the lock or waited for it; `Refused` with `Memory`
    /// where the clone failed.
    pub fn try_peek<Q: Equivalent<K>>(&self, query: &Q) -> Result<Option<V>, TryError>
        ensures answers { IsTried (λ answer. FromSome L.Lifecycle K.eq
            (λ (shard : Shard K V We B L).
            Peeks (Q.equivalent query.now) V.is_clone shard.state answer)) result }
        ensures fits { ShowsFitting L.fits (Q.equivalent query.now) V.is_clone result }
        ensures succeeds { ((value : V) → V.is_infallible value) → IsTried IsOk result }
    {
        let Some(shard) = self.shard_of(query).try_read() else {
            return Err(TryError::Contended(LockContention));
        };
        match shard.peek(query) {
            Ok(found) => Ok(found),
            Err(refused) => Err(TryError::Refused(refused)),
        }
    }
}

impl<K: Eq + Hash + Drop, V: Drop, We, B: BuildHasher, L: Lifecycle<K, V>, A: Allocator> Cache<
    K,
    V,
    We,
    B,
    L,
    A,
> {
    /// As `contains_key`, without waiting: it tries the read lock of the key's shard once. It takes
    /// no memory.
    ///
    /// # Errors
    ///
    /// `LockContention` where a call that writes had the lock or waited for it.
    pub fn try_contains_key<Q: Equivalent<K>>(&self, query: &Q) -> Result<bool, LockContention>
        ensures answers { IfOk result (λ found. FromSome L.Lifecycle K.eq
            (λ (shard : Shard K V We B L).
            OnTrue found (HasItem (Q.equivalent query.now) shard.state)
            × OnFalse found (HasNoItem (Q.equivalent query.now) shard.state))) }
    {
        match self.shard_of(query).try_read() {
            Some(shard) => Ok(shard.contains_key(query)),
            None => Err(LockContention),
        }
    }

    /// As `item_stats`, without waiting: it tries the read lock of the key's shard once. It takes
    /// no memory.
    ///
    /// # Errors
    ///
    /// `LockContention` where a call that writes had the lock or waited for it.
    pub fn try_item_stats<Q: Equivalent<K>>(
        &self,
        query: &Q,
    ) -> Result<Option<ItemStats>, LockContention>
        ensures answers { IfOk result (λ found. FromSome L.Lifecycle K.eq
            (λ (shard : Shard K V We B L). MatchOption found
            (HasNoItem (Q.equivalent query.now) shard.state)
            (λ stats. ShowsReads any_touches (Q.equivalent query.now) shard.state
            stats.access_count))) }
    {
        match self.shard_of(query).try_read() {
            Some(shard) => Ok(shard.item_stats(query)),
            None => Err(LockContention),
        }
    }

    /// As `remove`, without waiting: it tries the write lock of the key's shard once. It takes no
    /// memory.
    ///
    /// # Errors
    ///
    /// `LockContention` where another call had the lock or waited for it.
    pub fn try_remove<Q: Equivalent<K>>(&self, query: &Q) -> Result<Option<(K, V)>, LockContention>
        ensures answers { IfOk result (λ found. FromSome L.Lifecycle K.eq
            (λ (shard : Shard K V We B L). RemovesSo (Q.equivalent query.now) shard.state
            (hash_of B.BuildHasher B.Hasher.Hasher shard.builder (Q.hash_input query.now)) found)) }
        ensures fits { IfOk result (λ found. IfSome found
            (λ pair. FitsQuery L.fits (Q.equivalent query.now) pair.1)) }
    {
        match self.shard_of(query).try_write() {
            Some(mut shard) => Ok(shard.remove(query)),
            None => Err(LockContention),
        }
    }
}

impl<
    K: Eq + Hash + Drop,
    V: Drop,
    We: Weighter<K, V>,
    B: BuildHasher,
    L: Lifecycle<K, V>,
    A: Allocator,
> Cache<K, V, We, B, L, A> {
    /// As `insert`, without waiting: it tries the write lock of the key's shard once. The request
    /// state is made before that, and dropped once the lock is released.
    ///
    /// # Errors
    ///
    /// As `try_insert_with_lifecycle`.
    pub fn try_insert(&self, key: K, value: V) -> Result<(), (K, V, TryError)>
    where
        L::RequestState: Drop,
        requires fits { L.fits key value }
        ensures answers { IsTriedWith (λ answer. FromSome L.Lifecycle K.eq (λ shard.
            InsertsAloneBy ⟦<Self as Ruled>⟧.goes K.eq shard
            L.RequestState.is_default key value answer)) result }
        ensures pair { IfContended result (λ back_key back_value.
            (back_key ≡ key) × (back_value ≡ value)) }
    {
        let mut state = L::RequestState::default();
        self.try_insert_with_lifecycle(key, value, &mut state)
    }

    /// As `insert_with_lifecycle`, without waiting: it tries the write lock of the key's shard
    /// once.
    ///
    /// # Errors
    ///
    /// The pair and why: `Contended` where another call had the lock or waited for it; `Refused`
    /// with `SlotsFull` or `Memory`, only where nothing stood under its key. Nothing changed then,
    /// and no hook was called.
    pub fn try_insert_with_lifecycle(
        &self,
        key: K,
        value: V,
        state: &mut L::RequestState,
    ) -> Result<(), (K, V, TryError)>
        requires fits { L.fits key value }
        ensures answers { IsTriedWith (λ answer. FromSome L.Lifecycle K.eq (λ shard.
            InsertsSoBy ⟦<Self as Ruled>⟧.goes K.eq shard
            state.old key value answer state.new)) result }
        ensures pair { IfContended result (λ back_key back_value.
            (back_key ≡ key) × (back_value ≡ value) × (state.new ≡ state.old)) }
    {
        let Some(mut shard) = self.shard_of(&key).try_write() else {
            return Err((key, value, TryError::Contended(LockContention)));
        };
        match shard.insert(key, value, state) {
            Ok(()) => Ok(()),
            Err((key, value, refusal)) => Err((key, value, TryError::Refused(refusal))),
        }
    }
}
