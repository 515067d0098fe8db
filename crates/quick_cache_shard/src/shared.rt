//! Look-ups beside other readers, which add to counts alone.
ghost use Rattle.std.specs.Prelude.{◌≡◌, IsOk, IfOk, IfErr, option_copied};
ghost use Rattle.std.specs.Fn.{FnOnceReturnsAt};
ghost use Rattle.quick_cache_model.specs.Lookups.{Sees};
ghost use Rattle.quick_cache_policy.specs.Predicates.{MayBeAskedUnder};
ghost use Rattle.quick_cache_shard.specs.Shard.{IsSoundShard, HasItem};
ghost use Rattle.quick_cache_shard.specs.Shared.{PeeksIf, ShowsClone};

use crate::shard::CacheShard;
use crate::words::Keyed;
use quick_cache_model::{Equivalent, Refusal};
use quick_cache_policy::{Miss, SharedPlaceholder};
use std::alloc::Allocator;
use std::hash::{BuildHasher, Hash};

impl<K: Eq + Hash, V, We, B: BuildHasher, L, P: SharedPlaceholder<K>, A: Allocator> CacheShard<
    K,
    V,
    We,
    B,
    L,
    P,
    A,
> {
    /// The value under the query, which is handed in with its hash, as readers beside each other
    /// look it up. A find counts a hit and a touch of the item; else a miss is counted. Nothing
    /// else changes: the touch becomes a mark and a read at the item's first visit in an advance,
    /// or when it is written over.
    pub fn get_shared<Q: Equivalent<K>>(&self, hash: u64, query: &Q) -> Option<&V>
        requires hash_is { hash ≡ ⟦<Self as Keyed>⟧.hash self.now.builder (Q.hash_input query.now) }
        ensures sees { Sees (Q.equivalent query.now) self.now.state (λ item. item.value)
            (option_copied result) }
        ensures sound { IsSoundShard K.eq self.now }
    {
        self.facts();
        let item = self.contents.get_shared(hash, query)?;
        Some(item.value())
    }

    /// A clone of the value under the query, as readers beside each other look it up. A find counts
    /// a hit and a touch of the item, once the clone is made; no miss is counted.
    ///
    /// # Errors
    ///
    /// `Memory` where the clone failed. Nothing was counted then.
    #[inline(always)]
    pub fn find_clone<Q: Equivalent<K>>(&self, hash: u64, query: &Q) -> Result<Option<V>, Refusal>
    where
        V: Clone,
        requires hash_is { hash ≡ ⟦<Self as Keyed>⟧.hash self.now.builder (Q.hash_input query.now) }
        ensures shows { IfOk result
            (ShowsClone (Q.equivalent query.now) V.is_clone self.now.state) }
        ensures refused { IfErr result (λ refusal. refusal ≡ Refusal.Memory) }
        ensures there { IfErr result (λ _. HasItem (Q.equivalent query.now) self.now.state) }
        ensures succeeds { ((value : V) → V.is_infallible value) → IsOk result }
        ensures sound { IsSoundShard K.eq self.now }
    {
        self.facts();
        let Some(item) = self.contents.peek(hash, query) else {
            return Ok(None);
        };
        match item.value().clone() {
            Ok(copy) => {
                self.contents.count_shared_hit(&item);
                Ok(Some(copy))
            }
            Err(_) => Err(Refusal::Memory),
        }
    }

    /// A clone of the value that `get_shared` finds. It is made before anything is counted.
    ///
    /// # Errors
    ///
    /// `Memory` where the clone failed. Nothing was counted then.
    #[inline(always)]
    pub fn get_clone<Q: Equivalent<K>>(&self, hash: u64, query: &Q) -> Result<Option<V>, Refusal>
    where
        V: Clone,
        requires hash_is { hash ≡ ⟦<Self as Keyed>⟧.hash self.now.builder (Q.hash_input query.now) }
        ensures shows { IfOk result
            (ShowsClone (Q.equivalent query.now) V.is_clone self.now.state) }
        ensures refused { IfErr result (λ refusal. refusal ≡ Refusal.Memory) }
        ensures there { IfErr result (λ _. HasItem (Q.equivalent query.now) self.now.state) }
        ensures succeeds { ((value : V) → V.is_infallible value) → IsOk result }
        ensures sound { IsSoundShard K.eq self.now }
    {
        match self.find_clone(hash, query) {
            Ok(Some(copy)) => Ok(Some(copy)),
            Ok(None) => {
                self.contents.count_shared_miss();
                Ok(None)
            }
            Err(refusal) => Err(refusal),
        }
    }

    /// As `find_clone`, where the value passes the test, which is shown it once. One that fails is
    /// not cloned, and nothing is counted.
    ///
    /// # Errors
    ///
    /// `Memory` where the clone failed. Nothing was counted then.
    #[inline(always)]
    pub fn find_clone_if<Q: Equivalent<K>, F: FnOnce(&V) -> bool>(
        &self,
        hash: u64,
        query: &Q,
        test: F,
    ) -> Result<Result<V, Miss>, Refusal>
    where
        V: Clone,
        requires hash_is { hash ≡ ⟦<Self as Keyed>⟧.hash self.now.builder (Q.hash_input query.now) }
        requires callable { MayBeAskedUnder F.FnOnce test (Q.equivalent query.now) self.now.state }
        ensures peeks { PeeksIf (Q.equivalent query.now) V.is_clone (FnOnceReturnsAt F.FnOnce test)
            self.now.state result }
        ensures succeeds { ((value : V) → V.is_infallible value) → IsOk result }
        ensures sound { IsSoundShard K.eq self.now }
    {
        self.facts();
        let Some(item) = self.contents.peek(hash, query) else {
            return Ok(Err(Miss::Absent));
        };
        if !test(item.value()) {
            return Ok(Err(Miss::Failed));
        }
        match item.value().clone() {
            Ok(copy) => {
                self.contents.count_shared_hit(&item);
                Ok(Ok(copy))
            }
            Err(_) => Err(Refusal::Memory),
        }
    }

    /// As `find_clone_if`, and a miss is counted where it gives no value.
    ///
    /// # Errors
    ///
    /// `Memory` where the clone failed. Nothing was counted then.
    #[inline(always)]
    pub fn get_clone_if<Q: Equivalent<K>, F: FnOnce(&V) -> bool>(
        &self,
        hash: u64,
        query: &Q,
        test: F,
    ) -> Result<Result<V, Miss>, Refusal>
    where
        V: Clone,
        requires hash_is { hash ≡ ⟦<Self as Keyed>⟧.hash self.now.builder (Q.hash_input query.now) }
        requires callable { MayBeAskedUnder F.FnOnce test (Q.equivalent query.now) self.now.state }
        ensures peeks { PeeksIf (Q.equivalent query.now) V.is_clone (FnOnceReturnsAt F.FnOnce test)
            self.now.state result }
        ensures succeeds { ((value : V) → V.is_infallible value) → IsOk result }
        ensures sound { IsSoundShard K.eq self.now }
    {
        let found = self.find_clone_if(hash, query, test);
        if let Ok(Err(_)) = found {
            self.contents.count_shared_miss();
        }
        found
    }
}
