//! Answers: what is stored and still lives, or what the loader gives.
ghost use Rattle.std.specs.Prelude.{◌≡◌, ℕ, IsTrue, Ok, Err, IfOk, IfErr, false};
ghost use Rattle.quick_cache_guard.specs.Answers.{IsLoadRefusal};
ghost use Rattle.quick_cache_model.specs.Hashing.{StandsForGiven};
ghost use Rattle.read_through.specs.Answers.{Answers, AnswersFor, AnswersLate, GivesClones};
ghost use Rattle.read_through.specs.Givens.{IfFailed, IfFresh, IfStale, is_unasked};
ghost use Rattle.read_through.specs.Loads.{Loads, LoadsFrom, LoadsOkFrom, LoadsSome};

use crate::future::GetFuture;
use crate::given::{Given, Source};
use crate::lives::Lives;
use crate::reading::ReadThrough;
use quick_cache_model::{Refusal, ToKey, Weighter};
use std::alloc::Allocator;
use std::convert::Infallible;
use std::hash::{BuildHasher, Hash};
use std::sync::Wait;
use std::time::Clock;

impl<
    K: Eq + Hash + Clone + Drop,
    V: Clone + Drop,
    F,
    S: Source<K, V>,
    A: Allocator + Clone,
    Li: Lives<K, V>,
    We: Weighter<K, V>,
    B: BuildHasher,
> ReadThrough<K, V, F, S, A, Li, We, B> {
    /// The value of the key. One that was loaded at a moment m and has a life is answered while
    /// `now` is below the sum of the two. Else the loader is called, at `now` and under no lock, and
    /// what it gives is stored and answered; it is answered also where it could not be stored. Who
    /// finds the key being loaded waits, and looks again.
    ///
    /// # Errors
    ///
    /// Why there is no entry to look at, or no clone of a value that serves. The loader was not called
    /// then.
    pub fn get<R: Wait + Clock>(&self, rt: &R, key: &K, now: u64) -> Result<V, Refusal>
    where
        F: Fn(&K, u64) -> V,
        requires keys { (copy : K) → K.is_clone key.now copy → IsTrue (K.eq key.now copy) }
        requires callable { F.IsAlwaysCallable self.now.loader }
        // What the loader gives is the source's, and so is a clone of it.
        requires loads { LoadsFrom F.Fn self.now.loader S.gives }
        requires clones { GivesClones S.gives V.is_clone }
        // Whatever other threads do, the value is the source's for the key, and fresh.
        ensures fresh { IfOk result
            (Answers S.gives K.eq key.now (Li.life_of self.now.lives key.now) now) }
        ensures refused { IfErr result IsLoadRefusal }
    {
        self.get_or_refresh(rt, key, now, u64::MAX)
    }

    /// The value of the query's key, as `get` gives it. What serves is found by the query, and no key is
    /// made of it; else one is made, once, and that is asked for.
    ///
    /// # Errors
    ///
    /// As `get`, and `Memory` where no key could be made. The loader was not called then.
    pub fn get_by<Q: ToKey<K>, R: Wait + Clock>(
        &self,
        rt: &R,
        query: &Q,
        now: u64,
    ) -> Result<V, Refusal>
    where
        F: Fn(&K, u64) -> V,
        Li: Lives<Q, V>,
        requires stands { StandsForGiven (Q.to_key_gives query.now) (Q.equivalent query.now) }
        requires keys { (key copy : K) → Q.to_key_gives query.now key → K.is_clone key copy
            → IsTrue (K.eq key copy) }
        // A value of a key that the query gives lives as long as one of the query.
        requires lives { (key : K) → Q.to_key_gives query.now key → (value : V) (moment : ℕ)
            → ⟦<Li as Lives<K, V>>⟧.life_of self.now.lives key value moment
            ≡ ⟦<Li as Lives<Q, V>>⟧.life_of self.now.lives query.now value moment }
        requires callable { F.IsAlwaysCallable self.now.loader }
        requires loads { LoadsFrom F.Fn self.now.loader S.gives }
        requires clones { GivesClones S.gives V.is_clone }
        ensures fresh { IfOk result (AnswersFor S.gives K.eq (Q.equivalent query.now)
            (⟦<Li as Lives<Q, V>>⟧.life_of self.now.lives query.now) now) }
        ensures refused { IfErr result IsLoadRefusal }
    {
        if let Some(value) = self.served(rt, query, now, u64::MAX) {
            return Ok(value);
        }
        let key = query.to_key()?;
        self.get(rt, &key, now)
    }

    /// A future that gives the value of the key, as `get` does. What it gives, and what a poll asks of
    /// the loader, is said on `GetFuture`. The call takes no lock; a poll does.
    pub fn get_async<'a, R: Wait + Clock>(
        &'a self,
        rt: &'a R,
        key: &'a K,
        now: u64,
    ) -> GetFuture<'a, K, V, F, S, A, Li, We, R, B>
    where
        F: Fn(&K, u64) -> V,
        requires keys { (copy : K) → K.is_clone key.now copy → IsTrue (K.eq key.now copy) }
        requires clones { GivesClones S.gives V.is_clone }
        ensures reading { result.reading ≡ self.now }
        ensures key { result.key ≡ key.now }
        ensures moment { result.moment ≡ now }
        ensures begins { result.is_finished ≡ false }
    {
        GetFuture::new(rt, self, key, now)
    }

    /// As `get`, and where the value serves and its loader was last asked longer ago than
    /// `refresh_after`, this call asks it anew and answers what it gives; all others are answered the
    /// old value meanwhile. What it gives is stored in the place of the old value, if that was neither
    /// removed nor replaced meanwhile. It is weighed anew; what is too much leaves with the next write.
    ///
    /// # Errors
    ///
    /// As `get`.
    pub fn get_or_refresh<R: Wait + Clock>(
        &self,
        rt: &R,
        key: &K,
        now: u64,
        refresh_after: u64,
    ) -> Result<V, Refusal>
    where
        F: Fn(&K, u64) -> V,
        requires keys { (copy : K) → K.is_clone key.now copy → IsTrue (K.eq key.now copy) }
        requires callable { F.IsAlwaysCallable self.now.loader }
        requires loads { LoadsFrom F.Fn self.now.loader S.gives }
        requires clones { GivesClones S.gives V.is_clone }
        ensures fresh { IfOk result
            (Answers S.gives K.eq key.now (Li.life_of self.now.lives key.now) now) }
        ensures refused { IfErr result IsLoadRefusal }
    {
        if let Some(value) = self.served(rt, key, now, refresh_after) {
            return Ok(value);
        }
        let loader = &self.loader;
        let load = || -> Result<V, Infallible>
            requires { F.IsAlwaysCallable loader.now }
            ensures { IfOk result (Loads F.Fn loader.entry.now key.entry.now now) }
        { Ok(loader(key, now)) };
        match self.answer(rt, key, now, refresh_after, false, load) {
            Ok(Ok(Given::Fresh(value))) => Ok(value),
            Ok(Ok(Given::Stale { error, .. })) => match error {},
            Ok(Ok(Given::Unasked(_))) => unreachable!(),
            Ok(Err(never)) => match never {},
            Err(refusal) => Err(refusal),
        }
    }

    /// What the loader gives for the key at the moment.
    pub(crate) fn load(&self, key: &K, now: u64) -> V
    where
        F: Fn(&K, u64) -> V,
        requires callable { F.IsAlwaysCallable self.now.loader }
        requires loads { LoadsFrom F.Fn self.now.loader S.gives }
        ensures { S.gives key.now now result }
    {
        (self.loader)(key, now)
    }

    /// As `get`, where the loader may fail. Its error is stored nowhere, and given to the caller that
    /// loaded; who waited for the load then loads by itself.
    ///
    /// # Errors
    ///
    /// Of the two, the outer one is why the loader was not called, and the inner one is its own.
    pub fn try_get<R: Wait + Clock, E: Drop>(
        &self,
        rt: &R,
        key: &K,
        now: u64,
    ) -> Result<Result<V, E>, Refusal>
    where
        F: Fn(&K, u64) -> Result<V, E>,
        requires keys { (copy : K) → K.is_clone key.now copy → IsTrue (K.eq key.now copy) }
        requires callable { F.IsAlwaysCallable self.now.loader }
        requires loads { LoadsOkFrom F.Fn self.now.loader S.gives }
        requires clones { GivesClones S.gives V.is_clone }
        ensures fresh { IfOk result (λ loaded. IfOk loaded
            (Answers S.gives K.eq key.now (Li.life_of self.now.lives key.now) now)) }
        // The error is the loader's, for this key at this moment.
        ensures error { IfOk result (λ loaded. IfErr loaded
            (λ error. Loads F.Fn self.now.loader key.now now (Err error))) }
        ensures refused { IfErr result IsLoadRefusal }
    {
        match self.try_answer(rt, key, now, u64::MAX, false) {
            Ok(Ok(Given::Fresh(value))) => Ok(Ok(value)),
            Ok(Ok(Given::Stale { error, .. })) => Ok(Err(error)),
            Ok(Ok(Given::Unasked(_))) => unreachable!(),
            Ok(Err(error)) => Ok(Err(error)),
            Err(refusal) => Err(refusal),
        }
    }

    /// As `get_by`, where the loader may fail, as `try_get`.
    ///
    /// # Errors
    ///
    /// Of the two, the outer one is why the loader was not called, and the inner one is its own.
    pub fn try_get_by<Q: ToKey<K>, R: Wait + Clock, E: Drop>(
        &self,
        rt: &R,
        query: &Q,
        now: u64,
    ) -> Result<Result<V, E>, Refusal>
    where
        F: Fn(&K, u64) -> Result<V, E>,
        Li: Lives<Q, V>,
        requires stands { StandsForGiven (Q.to_key_gives query.now) (Q.equivalent query.now) }
        requires keys { (key copy : K) → Q.to_key_gives query.now key → K.is_clone key copy
            → IsTrue (K.eq key copy) }
        requires lives { (key : K) → Q.to_key_gives query.now key → (value : V) (moment : ℕ)
            → ⟦<Li as Lives<K, V>>⟧.life_of self.now.lives key value moment
            ≡ ⟦<Li as Lives<Q, V>>⟧.life_of self.now.lives query.now value moment }
        requires callable { F.IsAlwaysCallable self.now.loader }
        requires loads { LoadsOkFrom F.Fn self.now.loader S.gives }
        requires clones { GivesClones S.gives V.is_clone }
        ensures fresh { IfOk result (λ loaded. IfOk loaded (AnswersFor S.gives K.eq
            (Q.equivalent query.now)
            (⟦<Li as Lives<Q, V>>⟧.life_of self.now.lives query.now) now)) }
        // The error is the loader's, for a key that the query gives at this moment.
        ensures error { IfOk result (λ loaded. IfErr loaded (λ error.
            LoadsSome F.Fn self.now.loader (Q.to_key_gives query.now) now (Err error))) }
        ensures refused { IfErr result IsLoadRefusal }
    {
        if let Some(value) = self.served(rt, query, now, u64::MAX) {
            return Ok(Ok(value));
        }
        let key = query.to_key()?;
        self.try_get(rt, &key, now)
    }

    /// As `get_or_refresh`, where the loader may fail. Then the value that still serves is answered
    /// beside the error, or the one that no longer does while its life and the grace are not over,
    /// which is kept. For such a one the loader is asked once, and again when `retry_after` has passed;
    /// all other calls are answered it at once, also while one asks.
    ///
    /// # Errors
    ///
    /// Of the two, the outer one is why the loader was not called, and the inner one is its own.
    pub fn try_get_or_refresh<R: Wait + Clock, E: Drop>(
        &self,
        rt: &R,
        key: &K,
        now: u64,
        refresh_after: u64,
    ) -> Result<Result<Given<V, E>, E>, Refusal>
    where
        F: Fn(&K, u64) -> Result<V, E>,
        requires keys { (copy : K) → K.is_clone key.now copy → IsTrue (K.eq key.now copy) }
        requires callable { F.IsAlwaysCallable self.now.loader }
        requires loads { LoadsOkFrom F.Fn self.now.loader S.gives }
        requires clones { GivesClones S.gives V.is_clone }
        ensures fresh { IfOk result (λ given. IfFresh given
            (Answers S.gives K.eq key.now (Li.life_of self.now.lives key.now) now)) }
        // An older value is the source's for the key, within its life and the grace.
        ensures stale { IfOk result (λ given. IfStale given (AnswersLate S.gives K.eq key.now
            (Li.life_of self.now.lives key.now) self.now.grace now)) }
        ensures error { IfOk result (λ given. IfFailed given
            (λ error. Loads F.Fn self.now.loader key.now now (Err error))) }
        ensures refused { IfErr result IsLoadRefusal }
    {
        self.try_answer(rt, key, now, refresh_after, true)
    }

    /// The same, where an older value that no longer serves is answered without a load only where the
    /// caller takes it.
    fn try_answer<R: Wait + Clock, E: Drop>(
        &self,
        rt: &R,
        key: &K,
        now: u64,
        refresh_after: u64,
        takes_old: bool,
    ) -> Result<Result<Given<V, E>, E>, Refusal>
    where
        F: Fn(&K, u64) -> Result<V, E>,
        requires keys { (copy : K) → K.is_clone key.now copy → IsTrue (K.eq key.now copy) }
        requires callable { F.IsAlwaysCallable self.now.loader }
        requires loads { LoadsOkFrom F.Fn self.now.loader S.gives }
        requires clones { GivesClones S.gives V.is_clone }
        ensures fresh { IfOk result (λ given. IfFresh given
            (Answers S.gives K.eq key.now (Li.life_of self.now.lives key.now) now)) }
        ensures stale { IfOk result (λ given. IfStale given (AnswersLate S.gives K.eq key.now
            (Li.life_of self.now.lives key.now) self.now.grace now)) }
        ensures error { IfOk result (λ given. IfFailed given
            (λ error. Loads F.Fn self.now.loader key.now now (Err error))) }
        ensures asked { takes_old ≡ false → IfOk result (λ given. is_unasked given ≡ false) }
        ensures refused { IfErr result IsLoadRefusal }
    {
        if let Some(value) = self.served(rt, key, now, refresh_after) {
            return Ok(Ok(Given::Fresh(value)));
        }
        let loader = &self.loader;
        let load = || -> Result<V, E>
            requires { F.IsAlwaysCallable loader.now }
            ensures { Loads F.Fn loader.entry.now key.entry.now now result }
        { loader(key, now) };
        self.answer(rt, key, now, refresh_after, takes_old, load)
    }
}
