//! Looks at entries that may be over. Whatever other threads do, what is given at a moment was
//! stored with an end that is not reached then, and fits with that end.
ghost use Rattle.std.specs.Prelude.{◌≡◌, not};
ghost use Rattle.quick_cache_shard.specs.Shard.{Shard};
ghost use Rattle.quick_cache_locked.specs.Locked.{FromSome};
ghost use Rattle.quick_cache_sync.specs.Answers.{RemovesAskedSo};
ghost use Rattle.quick_cache_expiring.specs.Lives.{lives};
ghost use Rattle.quick_cache_expiring.specs.declared.lasting.Lasting.{Lasting};
ghost use Rattle.quick_cache_expiring.specs.declared.by_value.ByValue.{ByValue};
ghost use Rattle.quick_cache_sync.specs.Tries.{IsTried};
ghost use Rattle.quick_cache_expiring_sync.specs.Looks.{ShowsAt, ShowsEnd, ShowsFittingAt, ShowsServing, serving};
ghost use Rattle.quick_cache_expiring_sync.specs.Purges.{GoesWhereOver};

use crate::shared::SharedExpiring;
use quick_cache_expiring::{ByValue, Lasting};
use quick_cache_model::{Equivalent, Lifecycle, Refusal};
use quick_cache_sync::{Miss, TryError};
use std::alloc::Allocator;
use std::hash::{BuildHasher, Hash};
use std::sync::Wait;
use std::sync::atomic::Ordering;

impl<
    K: Eq + Hash + Drop,
    V: Clone + Drop,
    We,
    B: BuildHasher,
    L: Lifecycle<K, Lasting<V>>,
    A: Allocator,
> SharedExpiring<K, V, We, B, L, A> {
    /// Looks the query's key up and gives a clone of its value, made under the lock, where it serves
    /// at this moment. A hit or a miss is counted. An entry that is over is not cloned, counts as a
    /// miss and as expired, and is taken out, unless another has stored what serves meanwhile. No hook
    /// is called.
    ///
    /// It takes the read lock of the key's shard, and the write lock only to take out what is over.
    ///
    /// # Errors
    ///
    /// `Memory` where the clone failed. Nothing changed then, and nothing was counted.
    pub fn get<Q: Equivalent<K>, R: Wait>(
        &self,
        rt: &R,
        query: &Q,
        now: u64,
    ) -> Result<Option<V>, Refusal>
        ensures answers { FromSome L.Lifecycle K.eq
            (λ (shard : Shard K (Lasting V) (ByValue We) B L).
            ShowsAt (Q.equivalent query.now) V.is_clone now shard.state result) }
        ensures fits { ShowsFittingAt L.fits (Q.equivalent query.now) V.is_clone now result }
    {
        let serves = |lasting: &Lasting<V>| -> bool
            ensures serves { result ≡ lives lasting.now.until now }
        { lasting.lives(now) };
        match self.cache.get_if(rt, query, serves) {
            Ok(Ok(serving)) => Ok(Some(serving.value)),
            Ok(Err(Miss::Failed)) => {
                drop(self.expires(rt, query, now));
                Ok(None)
            }
            Ok(Err(Miss::Absent)) => Ok(None),
            Err(refusal) => Err(refusal),
        }
    }

    /// Looks at the query's key and gives a clone of its value, made under the lock, where it serves
    /// at this moment. It is no use of the entry, and nothing changes. It takes the read lock of the
    /// key's shard.
    ///
    /// # Errors
    ///
    /// `Memory` where the clone failed.
    pub fn peek<Q: Equivalent<K>, R: Wait>(
        &self,
        rt: &R,
        query: &Q,
        now: u64,
    ) -> Result<Option<V>, Refusal>
        ensures answers { FromSome L.Lifecycle K.eq
            (λ (shard : Shard K (Lasting V) (ByValue We) B L).
            ShowsAt (Q.equivalent query.now) V.is_clone now shard.state result) }
        ensures fits { ShowsFittingAt L.fits (Q.equivalent query.now) V.is_clone now result }
    {
        let serves = |lasting: &Lasting<V>| -> bool
            ensures serves { result ≡ lives lasting.now.until now }
        { lasting.lives(now) };
        match self.cache.peek_if(rt, query, serves) {
            Ok(Ok(lasting)) => Ok(Some(lasting.value)),
            Ok(Err(_)) => Ok(None),
            Err(refusal) => Err(refusal),
        }
    }

    /// As `get`, without waiting: it tries the read lock of the key's shard once. An entry that is
    /// over is cloned first, counts as a miss and as expired, and stays.
    ///
    /// # Errors
    ///
    /// `Contended` where a call that writes had the lock or waited for it; `Refused` with `Memory`
    /// where the clone failed. Nothing was counted then.
    pub fn try_get<Q: Equivalent<K>>(&self, query: &Q, now: u64) -> Result<Option<V>, TryError>
        ensures answers { IsTried (λ answer. FromSome L.Lifecycle K.eq
            (λ (shard : Shard K (Lasting V) (ByValue We) B L).
            ShowsServing (Q.equivalent query.now) V.is_clone now shard.state answer)) result }
        ensures fits { ShowsFittingAt L.fits (Q.equivalent query.now) V.is_clone now result }
    {
        match self.cache.try_get(query) {
            Ok(found) => {
                self.count_over(&found, now);
                Ok(serving(found, now))
            }
            Err(error) => Err(error),
        }
    }

    /// As `peek`, without waiting: it tries the read lock of the key's shard once. An entry that is
    /// over is cloned first.
    ///
    /// # Errors
    ///
    /// `Contended` where a call that writes had the lock or waited for it; `Refused` with `Memory`
    /// where the clone failed.
    pub fn try_peek<Q: Equivalent<K>>(&self, query: &Q, now: u64) -> Result<Option<V>, TryError>
        ensures answers { IsTried (λ answer. FromSome L.Lifecycle K.eq
            (λ (shard : Shard K (Lasting V) (ByValue We) B L).
            ShowsServing (Q.equivalent query.now) V.is_clone now shard.state answer)) result }
        ensures fits { ShowsFittingAt L.fits (Q.equivalent query.now) V.is_clone now result }
    {
        match self.cache.try_peek(query) {
            Ok(found) => Ok(serving(found, now)),
            Err(error) => Err(error),
        }
    }

    /// Counts that a look found what is over, which the cache counted as a hit.
    fn count_over(&self, found: &Option<Lasting<V>>, now: u64) {
        if is_over(found, now) {
            self.not_hits.fetch_add(1, Ordering::SeqCst);
            self.expired.fetch_add(1, Ordering::SeqCst);
        }
    }

    /// The end of the entry under the query's key, be it over or not. It is no use of the entry, and
    /// nothing changes. It takes the read lock of the key's shard, and makes a clone of the value.
    ///
    /// # Errors
    ///
    /// `Memory` where the clone failed.
    pub fn expires_at<Q: Equivalent<K>, R: Wait>(
        &self,
        rt: &R,
        query: &Q,
    ) -> Result<Option<u64>, Refusal>
        ensures answers { FromSome L.Lifecycle K.eq
            (λ (shard : Shard K (Lasting V) (ByValue We) B L).
            ShowsEnd (Q.equivalent query.now) V.is_clone shard.state result) }
    {
        let found = self.cache.peek(rt, query)?;
        let Some(lasting) = found else {
            return Ok(None);
        };
        Ok(Some(lasting.until))
    }
}

impl<
    K: Eq + Hash + Drop,
    V: Drop,
    We,
    B: BuildHasher,
    L: Lifecycle<K, Lasting<V>>,
    A: Allocator,
> SharedExpiring<K, V, We, B, L, A> {
    /// Counts that a look found what is over, and takes that out by one step that asks once more,
    /// since another may have stored what serves. It gives what it took out.
    pub(crate) fn expires<Q: Equivalent<K>, R: Wait>(
        &self,
        rt: &R,
        query: &Q,
        now: u64,
    ) -> Option<(K, Lasting<V>)>
        // What is over goes, and what lives stays.
        ensures answers { FromSome L.Lifecycle K.eq
            (λ (shard : Shard K (Lasting V) (ByValue We) B L). RemovesAskedSo
            (Q.equivalent query.now) shard.state (GoesWhereOver now) result) }
    {
        self.expired.fetch_add(1, Ordering::SeqCst);
        let is_over = |lasting: &Lasting<V>| -> bool
            ensures over { result ≡ not (lives lasting.now.until now) }
        { !lasting.lives(now) };
        self.cache.remove_if(rt, query, is_over)
    }
}

/// Whether something was found that is over.
pub(crate) fn is_over<V>(found: &Option<Lasting<V>>, now: u64) -> bool {
    match found {
        Some(lasting) => !lasting.lives(now),
        None => false,
    }
}

/// What was found, where it serves.
pub(crate) fn serving<V: Drop>(found: Option<Lasting<V>>, now: u64) -> Option<V>
    ensures { result ≡ serving now found }
{
    match found {
        Some(lasting) => {
            if lasting.lives(now) {
                Some(lasting.value)
            } else {
                None
            }
        }
        None => None,
    }
}
