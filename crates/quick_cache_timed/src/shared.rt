//! The calls of a cache that threads share.
ghost use Rattle.std.specs.Prelude.{◌≡◌, Ok, Err, IfOk, IfErr, IsTrue};
ghost use Rattle.quick_cache_guard.specs.Answers.{IsLoadRefusal};
ghost use Rattle.quick_cache_locked.specs.Fitting.{ClonesFit};
ghost use Rattle.quick_cache_locked.specs.Locked.{FromSome};
ghost use Rattle.quick_cache_locked.specs.Touches.{any_touches};
ghost use Rattle.quick_cache_model.specs.Hashing.{StandsForGiven};
ghost use Rattle.quick_cache_shard.specs.Inserts.{with_pair};
ghost use Rattle.quick_cache_shard.specs.Shard.{Shard};
ghost use Rattle.quick_cache_shard.specs.Steps.{rules_in};
ghost use Rattle.quick_cache_sync.specs.Answers.{InsertsAloneBy};
ghost use Rattle.quick_cache_sync.specs.Sums.{AddsUp};
ghost use Rattle.quick_cache_expiring.specs.Lastings.{ClonesLasting, lasting_of};
ghost use Rattle.quick_cache_expiring.specs.declared.lasting.Lasting.{Lasting};
ghost use Rattle.quick_cache_expiring.specs.declared.by_value.ByValue.{ByValue};
ghost use Rattle.quick_cache_expiring_sync.specs.Loads.{GivesAt};
ghost use Rattle.quick_cache_expiring_sync.specs.Looks.{ShowsAt, ShowsFittingAt};
ghost use Rattle.quick_cache_expiring_sync.specs.Purges.{PurgesAll};
ghost use Rattle.quick_cache_expiring_sync.specs.Renewals.{HasLived, RenewedFits, Touches};
ghost use Rattle.quick_cache_timed.specs.Lives.{end_by};
ghost use Rattle.quick_cache_timed.specs.SharedLooks.{GetsSharedBy};
ghost use Rattle.quick_cache_timed.specs.Moments.{AtEachMoment, AtMoment};

use crate::ticker::Ticker;
use crate::timed::Timed;
use quick_cache_expiring::{ByValue, Lasting};
use quick_cache_expiring_sync::SharedExpiring;
use quick_cache_model::{Equivalent, Lifecycle, Refusal, ToKey, Weighter};
use quick_cache_shard::Ruled;
use quick_cache_sync::Cache;
use std::alloc::Allocator;
use std::hash::{BuildHasher, Hash};
use std::sync::Wait;
use std::time::Clock;

impl<
    K: Eq + Hash + Drop,
    V: Clone + Drop,
    We: Weighter<K, V>,
    B: BuildHasher,
    L: Lifecycle<K, Lasting<V>>,
    A: Allocator,
    T: Ticker,
> Timed<SharedExpiring<K, V, We, B, L, A>, T> {
    /// As `SharedExpiring::get`, or where the life slides as its `get_and_touch`.
    ///
    /// # Errors
    ///
    /// `Memory` where the clone failed.
    pub fn get<Q: Equivalent<K>, R: Wait>(&self, rt: &R, query: &Q) -> Result<Option<V>, Refusal>
        // What fits while it lives does with the end that a renewal gives it.
        requires renews { IsTrue self.now.life.slides → AtEachMoment (T.tells self.now.ticker)
            (λ now. RenewedFits L.fits now (end_by self.now.life (Q.hash_input query.now) now)) }
        ensures answers { AtMoment (T.tells self.now.ticker) (λ now. FromSome L.Lifecycle K.eq
            (λ (shard : Shard K (Lasting V) (ByValue We) B L). GetsSharedBy
            (Q.equivalent query.now) now (end_by self.now.life (Q.hash_input query.now) now)
            (rules_in ⟦<Cache<K, Lasting<V>, ByValue<We>, B, L, A> as Ruled>⟧.goes any_touches shard)
            shard.state V.is_clone self.now.life.slides result)
            × ShowsFittingAt L.fits (Q.equivalent query.now) V.is_clone now result) }
    {
        let now = self.ticker.moment();
        if self.life.slides {
            self.inner
                .get_and_touch(rt, query, now, self.life.of(query))
        } else {
            self.inner.get(rt, query, now)
        }
    }

    /// As `SharedExpiring::peek`.
    ///
    /// # Errors
    ///
    /// `Memory` where the clone failed.
    pub fn peek<Q: Equivalent<K>, R: Wait>(&self, rt: &R, query: &Q) -> Result<Option<V>, Refusal>
        ensures answers { AtMoment (T.tells self.now.ticker) (λ now. FromSome L.Lifecycle K.eq
            (λ (shard : Shard K (Lasting V) (ByValue We) B L).
            ShowsAt (Q.equivalent query.now) V.is_clone now shard.state result)
            × ShowsFittingAt L.fits (Q.equivalent query.now) V.is_clone now result) }
    {
        self.inner.peek(rt, query, self.ticker.moment())
    }

    /// As `SharedExpiring::insert`.
    ///
    /// # Errors
    ///
    /// The pair with its end and why. Nothing changed then, and no hook was called.
    pub fn insert<R: Wait>(&self, rt: &R, key: K, value: V) -> Result<(), (K, Lasting<V>, Refusal)>
    where
        L::RequestState: Drop,
        requires fits { AtEachMoment (T.tells self.now.ticker) (λ now. L.fits key
            (lasting_of value (end_by self.now.life (K.hash_input key) now))) }
        ensures answers { AtMoment (T.tells self.now.ticker) (λ now. FromSome L.Lifecycle K.eq
            (λ shard. InsertsAloneBy
            ⟦<Cache<K, Lasting<V>, ByValue<We>, B, L, A> as Ruled>⟧.goes K.eq shard
            L.RequestState.is_default key
            (lasting_of value (end_by self.now.life (K.hash_input key) now)) result)) }
    {
        let life = self.life.of(&key);
        self.inner
            .insert(rt, key, value, self.ticker.moment(), life)
    }

    /// As `SharedExpiring::put`: an insert, for who does not want a refused pair back.
    ///
    /// # Errors
    ///
    /// Why. Nothing changed then, and no hook was called.
    pub fn put<R: Wait>(&self, rt: &R, key: K, value: V) -> Result<(), Refusal>
    where
        L::RequestState: Drop,
        requires fits { AtEachMoment (T.tells self.now.ticker) (λ now. L.fits key
            (lasting_of value (end_by self.now.life (K.hash_input key) now))) }
        ensures answers { AtMoment (T.tells self.now.ticker) (λ now. FromSome L.Lifecycle K.eq
            (λ shard. InsertsAloneBy
            ⟦<Cache<K, Lasting<V>, ByValue<We>, B, L, A> as Ruled>⟧.goes K.eq shard
            L.RequestState.is_default key
            (lasting_of value (end_by self.now.life (K.hash_input key) now))
            (with_pair key (lasting_of value (end_by self.now.life (K.hash_input key) now))
            result))) }
    {
        let life = self.life.of(&key);
        self.inner.put(rt, key, value, self.ticker.moment(), life)
    }

    /// As `SharedExpiring::touch`: renews what serves, whether the life slides or not.
    pub fn touch<Q: Equivalent<K>, R: Wait>(&self, rt: &R, query: &Q) -> bool
        requires renews { AtEachMoment (T.tells self.now.ticker) (λ now.
            RenewedFits L.fits now (end_by self.now.life (Q.hash_input query.now) now)) }
        ensures answers { AtMoment (T.tells self.now.ticker) (λ now. FromSome L.Lifecycle K.eq
            (λ (shard : Shard K (Lasting V) (ByValue We) B L). Touches (Q.equivalent query.now) now
            (end_by self.now.life (Q.hash_input query.now) now)
            (rules_in ⟦<Cache<K, Lasting<V>, ByValue<We>, B, L, A> as Ruled>⟧.goes any_touches shard)
            shard.state result)
            × (IsTrue result → HasLived L.fits (Q.equivalent query.now) now)) }
    {
        let life = self.life.of(query);
        self.inner.touch(rt, query, self.ticker.moment(), life)
    }

    /// As `SharedExpiring::get_or_insert_with`. Where the life slides, what serves is renewed first,
    /// which is a look more.
    ///
    /// # Errors
    ///
    /// Of the two, the outer one is why nothing was loaded, and the inner one is the loader's, after
    /// which nothing is stored.
    pub fn get_or_insert_with<Q: ToKey<K>, R: Wait + Clock, E: Drop, F: FnOnce() -> Result<V, E>>(
        &self,
        rt: &R,
        query: &Q,
        loader: F,
    ) -> Result<Result<V, E>, Refusal>
    where
        A: Clone,
        L::RequestState: Drop,
        requires stands { StandsForGiven (Q.to_key_gives query.now) (Q.equivalent query.now) }
        requires loader { F.pre loader }
        requires renews { IsTrue self.now.life.slides → AtEachMoment (T.tells self.now.ticker)
            (λ now. RenewedFits L.fits now (end_by self.now.life (Q.hash_input query.now) now)) }
        requires loads { AtEachMoment (T.tells self.now.ticker) (λ now. (value : V)
            → F.post loader (Ok value) → (key : K) → Q.to_key_gives query.now key → L.fits key
            (lasting_of value (end_by self.now.life (Q.hash_input query.now) now))) }
        requires clones { ClonesFit L.fits (ClonesLasting V.is_clone) }
        // What is given serves at this moment, or this call's loader gave it.
        ensures gives { AtMoment (T.tells self.now.ticker) (λ now. IfOk result (λ loaded.
            IfOk loaded (GivesAt L.fits (Q.equivalent query.now) (F.post loader) now))) }
        ensures error { IfOk result (λ loaded. IfErr loaded (λ error. F.post loader (Err error))) }
        ensures refused { IfErr result IsLoadRefusal }
    {
        let now = self.ticker.moment();
        let life = self.life.of(query);
        if self.life.slides {
            self.inner.touch(rt, query, now, life);
        }
        self.inner.get_or_insert_with(rt, query, now, life, loader)
    }

    /// As `SharedExpiring::purge`: takes out all that is over, and tells how many entries that were.
    pub fn purge<R: Wait>(&self, rt: &R) -> usize
        ensures answers { AtMoment (T.tells self.now.ticker) (λ now. AddsUp L.Lifecycle K.eq
            (λ (shard : Shard K (Lasting V) (ByValue We) B L) gone. PurgesAll now shard.state gone)
            self.now.inner.shards result) }
    {
        self.inner.purge(rt, self.ticker.moment())
    }
}
