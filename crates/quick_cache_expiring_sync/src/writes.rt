//! Entries that are written with an end, renewed, and removed.
ghost use Rattle.std.specs.Prelude.{◌≡◌, IfSome, IsTrue};
ghost use Rattle.quick_cache_model.specs.Hashing.{hash_of};
ghost use Rattle.quick_cache_shard.specs.Inserts.{with_pair};
ghost use Rattle.quick_cache_shard.specs.Shard.{Shard};
ghost use Rattle.quick_cache_shard.specs.Steps.{rules_in};
ghost use Rattle.quick_cache_locked.specs.Fitting.{FitsQuery};
ghost use Rattle.quick_cache_locked.specs.Locked.{FromSome};
ghost use Rattle.quick_cache_locked.specs.Touches.{any_touches};
ghost use Rattle.quick_cache_sync.specs.Answers.{InsertsAloneBy, RemovesSo};
ghost use Rattle.quick_cache_expiring.specs.Lives.{end_of, lives};
ghost use Rattle.quick_cache_expiring.specs.Lastings.{lasting_of};
ghost use Rattle.quick_cache_expiring.specs.declared.lasting.Lasting.{Lasting};
ghost use Rattle.quick_cache_expiring.specs.declared.by_value.ByValue.{ByValue};
ghost use Rattle.quick_cache_expiring_sync.specs.Looks.{ShowsFittingAt};
ghost use Rattle.quick_cache_expiring_sync.specs.Renewals.{GetsAndTouches, HasLived, RenewedFits, RenewsClone, Touches};

use crate::shared::SharedExpiring;
use quick_cache_expiring::{ByValue, Lasting, end_of};
use quick_cache_model::{Equivalent, Lifecycle, Refusal, Weighter};
use quick_cache_shard::Ruled;
use quick_cache_sync::Cache;
use std::alloc::Allocator;
use std::hash::{BuildHasher, Hash};
use std::sync::Wait;
use std::sync::atomic::Ordering;

impl<
    K: Eq + Hash + Drop,
    V: Drop,
    We: Weighter<K, V>,
    B: BuildHasher,
    L: Lifecycle<K, Lasting<V>>,
    A: Allocator,
> SharedExpiring<K, V, We, B, L, A> {
    /// Inserts a pair that serves from this moment on, for so long, and hands what leaves to the
    /// lifecycle. One whose end would pass the greatest number is never over. It takes the write
    /// lock of the key's shard.
    ///
    /// # Errors
    ///
    /// The pair with its end and why: `SlotsFull` or `Memory`, only where nothing stood under its
    /// key. Nothing changed then, and no hook was called.
    pub fn insert<R: Wait>(
        &self,
        rt: &R,
        key: K,
        value: V,
        now: u64,
        life: u64,
    ) -> Result<(), (K, Lasting<V>, Refusal)>
    where
        L::RequestState: Drop,
        requires fits { L.fits key (lasting_of value (end_of now life)) }
        // It is the insert of the value with its end.
        ensures answers { FromSome L.Lifecycle K.eq (λ shard.
            InsertsAloneBy ⟦<Cache<K, Lasting<V>, ByValue<We>, B, L, A> as Ruled>⟧.goes K.eq shard
            L.RequestState.is_default key (lasting_of value (end_of now life)) result) }
    {
        let until = end_of(now, life);
        self.cache.insert(rt, key, Lasting { value, until })
    }

    /// Inserts a pair as `insert` does, for who does not want a refused pair back: it is dropped.
    ///
    /// # Errors
    ///
    /// Why, as `insert` has it.
    pub fn put<R: Wait>(&self, rt: &R, key: K, value: V, now: u64, life: u64) -> Result<(), Refusal>
    where
        L::RequestState: Drop,
        requires fits { L.fits key (lasting_of value (end_of now life)) }
        ensures answers { FromSome L.Lifecycle K.eq (λ shard.
            InsertsAloneBy ⟦<Cache<K, Lasting<V>, ByValue<We>, B, L, A> as Ruled>⟧.goes K.eq shard
            L.RequestState.is_default key (lasting_of value (end_of now life))
            (with_pair key (lasting_of value (end_of now life)) result)) }
    {
        let until = end_of(now, life);
        self.cache.put(rt, key, Lasting { value, until })
    }

    /// Sets the weight that the cache may hold, and hands what leaves to the lifecycle, as the cache's
    /// own `set_capacity`. What is over counts like any other. It takes the write lock of each shard
    /// in turn, and no memory. Its contract says no more than that it is safe.
    pub fn set_capacity<R: Wait>(&self, rt: &R, capacity: u64)
    where
        L::RequestState: Drop,
    {
        self.cache.set_capacity(rt, capacity);
    }

    /// Gives the entry under the query's key a new end, where it serves at this moment: it is then
    /// as if it had been stored now, for so long. It tells whether an entry was renewed. It is a look,
    /// as `get` is: a hit or a miss is counted, and one that is over is taken out. It takes the write
    /// lock of the key's shard, under which it looks and renews in one step, and no memory.
    pub fn touch<Q: Equivalent<K>, R: Wait>(&self, rt: &R, query: &Q, now: u64, life: u64) -> bool
        // What fits while it lives does with its new end.
        requires renews { RenewedFits L.fits now (end_of now life) }
        ensures answers { FromSome L.Lifecycle K.eq
            (λ (shard : Shard K (Lasting V) (ByValue We) B L). Touches (Q.equivalent query.now) now
            (end_of now life)
            (rules_in ⟦<Cache<K, Lasting<V>, ByValue<We>, B, L, A> as Ruled>⟧.goes any_touches shard)
            shard.state result) }
        // What it renewed lived.
        ensures lived { IsTrue result → HasLived L.fits (Q.equivalent query.now) now }
    {
        let until = end_of(now, life);
        let serves = |lasting: &Lasting<V>| -> bool
            ensures serves { result ≡ lives lasting.now.until now }
        { lasting.lives(now) };
        let renews = |lasting: &mut Lasting<V>| -> ()
            ensures renews { lasting.new ≡ lasting_of lasting.old.value until }
        { lasting.until = until };
        match self.cache.change_or_take(rt, query, serves, renews) {
            Ok(()) => true,
            Err(taken) => {
                self.drop_over(taken);
                false
            }
        }
    }

    /// Renews the entry under the query's key as `touch` does, and gives a clone of its value: a
    /// life that slides. It takes the write lock of the key's shard, under which the clone is made.
    ///
    /// # Errors
    ///
    /// `Memory` where the clone failed. The entry keeps its end then, and a hit was counted.
    pub fn get_and_touch<Q: Equivalent<K>, R: Wait>(
        &self,
        rt: &R,
        query: &Q,
        now: u64,
        life: u64,
    ) -> Result<Option<V>, Refusal>
    where
        V: Clone,
        requires renews { RenewedFits L.fits now (end_of now life) }
        ensures answers { FromSome L.Lifecycle K.eq
            (λ (shard : Shard K (Lasting V) (ByValue We) B L). GetsAndTouches
            (Q.equivalent query.now) now (end_of now life)
            (rules_in ⟦<Cache<K, Lasting<V>, ByValue<We>, B, L, A> as Ruled>⟧.goes any_touches shard)
            shard.state V.is_clone result) }
        ensures fits { ShowsFittingAt L.fits (Q.equivalent query.now) V.is_clone now result }
    {
        let until = end_of(now, life);
        let serves = |lasting: &Lasting<V>| -> bool
            ensures serves { result ≡ lives lasting.now.until now }
        { lasting.lives(now) };
        let renews = |lasting: &mut Lasting<V>| -> Result<V, Refusal>
            ensures renews { RenewsClone V.is_clone until lasting.old result lasting.new }
        { renew(lasting, until) };
        match self.cache.change_or_take(rt, query, serves, renews) {
            Ok(Ok(value)) => Ok(Some(value)),
            Ok(Err(refusal)) => Err(refusal),
            Err(taken) => {
                self.drop_over(taken);
                Ok(None)
            }
        }
    }
}

/// A clone of the value, which has a new end then.
fn renew<V: Clone>(lasting: &mut Lasting<V>, until: u64) -> Result<V, Refusal>
    ensures { RenewsClone V.is_clone until lasting.old result lasting.new }
{
    let clone: Result<_, _> = lasting.value.clone();
    let Ok(value) = clone else {
        return Err(Refusal::Memory);
    };
    lasting.until = until;
    Ok(value)
}

impl<
    K: Eq + Hash + Drop,
    V: Drop,
    We,
    B: BuildHasher,
    L: Lifecycle<K, Lasting<V>>,
    A: Allocator,
> SharedExpiring<K, V, We, B, L, A> {
    /// Takes the entry under the query's key out, be it over or not, or a ghost of its hash. No hook
    /// is called. It takes the write lock of the key's shard, and no memory.
    pub fn remove<Q: Equivalent<K>, R: Wait>(&self, rt: &R, query: &Q) -> Option<(K, Lasting<V>)>
        ensures answers { FromSome L.Lifecycle K.eq
            (λ (shard : Shard K (Lasting V) (ByValue We) B L).
            RemovesSo (Q.equivalent query.now) shard.state
            (hash_of B.BuildHasher B.Hasher.Hasher shard.builder (Q.hash_input query.now)) result) }
        ensures fits { IfSome result (λ pair. FitsQuery L.fits (Q.equivalent query.now) pair.1) }
    {
        self.cache.remove(rt, query)
    }

    /// Drops all entries, and forgets those that left. The counts, the sizes and the memory stay. No
    /// hook is called. It takes the write lock of each shard in turn. Its contract says no more than
    /// that it is safe.
    pub fn clear<R: Wait>(&self, rt: &R) {
        self.cache.clear(rt);
    }

    /// Drops what a look took out because it was over, and counts that.
    fn drop_over(&self, taken: Option<(K, Lasting<V>)>) {
        if taken.is_some() {
            self.expired.fetch_add(1, Ordering::SeqCst);
        }
    }
}
