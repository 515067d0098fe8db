//! The calls of a loader with its cache.
ghost use Rattle.std.specs.Prelude.{◌≡◌, ◌⊎◌, ◌<◌, ℕ, List, IsTrue, Ok, Err, IfOk, IfErr, length, slice_index_or, vec_items, vec_len};
ghost use Rattle.std.specs.Fn.{FnOnceReturnsAt, FnOnceTakesAt};
ghost use Rattle.std.specs.List.{AllZip};
ghost use Rattle.quick_cache_guard.specs.Answers.{IsLoadRefusal};
ghost use Rattle.read_through.specs.Answers.{Answers, GivesClones};
ghost use Rattle.read_through.specs.Loads.{Loads, LoadsFrom, LoadsOkFrom};
ghost use Rattle.read_through.specs.Many.{LoadsMany};
ghost use Rattle.quick_cache_timed.specs.Moments.{AtEachMoment, AtMoment};

use crate::life::millis_of;
use crate::ticker::Ticker;
use quick_cache_model::{Refusal, Weighter};
use read_through::{Lives, ReadThrough, Source};
use std::alloc::{Allocator, Global};
use std::hash::Hash;
use std::ops::Deref;
use std::sync::Wait;
use std::time::{Clock, Duration};

/// A loader with its cache, `ReadThrough`, and a clock. Its lives are the loader's own, in
/// milliseconds. Each call that takes no moment is the loader's own.
#[derive(Drop)]
pub struct TimedReading<C, T> {
    /// The loader with its cache, of which each call may be made at a moment of its own.
    pub inner: C,
    /// The clock.
    pub ticker: T,
}

impl<C, T> Deref for TimedReading<C, T> {
    type Target = C;

    ghost deref_gives = { λ timed reading. reading ≡ timed.inner };

    fn deref(&self) -> &C {
        &self.inner
    }
}

impl<
    K: Eq + Hash + Clone + Drop,
    V: Clone + Drop,
    F,
    S: Source<K, V>,
    A: Allocator + Clone,
    Li: Lives<K, V>,
    We: Weighter<K, V>,
    T: Ticker,
> TimedReading<ReadThrough<K, V, F, S, A, Li, We>, T> {
    /// As `ReadThrough::get`.
    ///
    /// # Errors
    ///
    /// Why the loader was not called.
    pub fn get<R: Wait + Clock>(&self, rt: &R, key: &K) -> Result<V, Refusal>
    where
        F: Fn(&K, u64) -> V,
        requires keys { (copy : K) → K.is_clone key.now copy → IsTrue (K.eq key.now copy) }
        requires callable { F.IsAlwaysCallable self.now.inner.loader }
        requires loads { LoadsFrom F.Fn self.now.inner.loader S.gives }
        requires clones { GivesClones S.gives V.is_clone }
        ensures fresh { AtMoment (T.tells self.now.ticker) (λ now. IfOk result
            (Answers S.gives K.eq key.now (Li.life_of self.now.inner.lives key.now) now)) }
        ensures refused { IfErr result IsLoadRefusal }
    {
        self.inner.get(rt, key, self.ticker.moment())
    }

    /// As `ReadThrough::get_or_refresh`.
    ///
    /// # Errors
    ///
    /// As `get`.
    pub fn get_or_refresh<R: Wait + Clock>(
        &self,
        rt: &R,
        key: &K,
        refresh_after: Duration,
    ) -> Result<V, Refusal>
    where
        F: Fn(&K, u64) -> V,
        requires keys { (copy : K) → K.is_clone key.now copy → IsTrue (K.eq key.now copy) }
        requires callable { F.IsAlwaysCallable self.now.inner.loader }
        requires loads { LoadsFrom F.Fn self.now.inner.loader S.gives }
        requires clones { GivesClones S.gives V.is_clone }
        ensures fresh { AtMoment (T.tells self.now.ticker) (λ now. IfOk result
            (Answers S.gives K.eq key.now (Li.life_of self.now.inner.lives key.now) now)) }
        ensures refused { IfErr result IsLoadRefusal }
    {
        let now = self.ticker.moment();
        self.inner
            .get_or_refresh(rt, key, now, millis_of(refresh_after))
    }

    /// As `ReadThrough::try_get`.
    ///
    /// # Errors
    ///
    /// Of the two, the outer one is why the loader was not called, and the inner one is its own.
    pub fn try_get<R: Wait + Clock, E: Drop>(
        &self,
        rt: &R,
        key: &K,
    ) -> Result<Result<V, E>, Refusal>
    where
        F: Fn(&K, u64) -> Result<V, E>,
        requires keys { (copy : K) → K.is_clone key.now copy → IsTrue (K.eq key.now copy) }
        requires callable { F.IsAlwaysCallable self.now.inner.loader }
        requires loads { LoadsOkFrom F.Fn self.now.inner.loader S.gives }
        requires clones { GivesClones S.gives V.is_clone }
        ensures loaded { AtMoment (T.tells self.now.ticker) (λ now.
            IfOk result (λ loaded. IfOk loaded
            (Answers S.gives K.eq key.now (Li.life_of self.now.inner.lives key.now) now)
            × IfErr loaded (λ error. Loads F.Fn self.now.inner.loader key.now now (Err error)))) }
        ensures refused { IfErr result IsLoadRefusal }
    {
        self.inner.try_get(rt, key, self.ticker.moment())
    }

    /// As `ReadThrough::put`.
    ///
    /// # Errors
    ///
    /// Why it was refused, only where nothing stood under its key. Nothing changed then.
    pub fn put<R: Wait>(&self, rt: &R, key: K, value: V) -> Result<(), Refusal>
        requires gives { AtEachMoment (T.tells self.now.ticker) (λ now. S.gives key now value) }
        ensures refused { IfErr result
            (λ refusal. refusal ≡ Refusal.Memory ⊎ refusal ≡ Refusal.SlotsFull) }
    {
        self.inner.put(rt, key, value, self.ticker.moment())
    }

    /// As `ReadThrough::load_many`.
    ///
    /// # Errors
    ///
    /// Of the two, the outer one is `Memory`; `load_all` was not called then. The inner one is its own.
    pub fn load_many<R: Wait, E: Drop, G: FnOnce(&[K]) -> Result<Vec<V>, E>>(
        &self,
        rt: &R,
        alloc: Global,
        keys: &[K],
        load_all: G,
    ) -> Result<Result<Vec<V>, E>, Refusal>
        requires keys { (key copy : K) → K.is_clone key copy → IsTrue (K.eq key copy) }
        requires callable { (asked : List K) → FnOnceTakesAt G.FnOnce load_all asked }
        requires as_many { (asked : List K) (loaded : _)
            → FnOnceReturnsAt G.FnOnce load_all asked (Ok loaded) → vec_len loaded ≡ length asked }
        requires loads { AtEachMoment (T.tells self.now.ticker) (λ now. (asked : List K) (loaded : _)
            → FnOnceReturnsAt G.FnOnce load_all asked (Ok loaded) → (index : ℕ) (key : K) (value : V)
            → index < length asked → key ≡ slice_index_or asked index key
            → value ≡ slice_index_or (vec_items loaded) index value → S.gives key now value) }
        requires clones { GivesClones S.gives V.is_clone }
        ensures loads { AtMoment (T.tells self.now.ticker) (λ now. IfOk result (λ given.
            IfOk given (λ values. AllZip (λ key. Answers S.gives K.eq key
            (Li.life_of self.now.inner.lives key) now) keys.now values.items)
            × LoadsMany vec_items K.is_clone (λ key. Answers S.gives K.eq key
            (Li.life_of self.now.inner.lives key) now) (FnOnceReturnsAt G.FnOnce load_all) keys.now
            given)) }
        ensures refused { IfErr result (λ refusal. refusal ≡ Refusal.Memory) }
    {
        let now = self.ticker.moment();
        self.inner.load_many(rt, alloc, keys, now, load_all)
    }
}
