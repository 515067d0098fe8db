//! Calls of a cache that threads share which load a value where none is there, on one shard.
ghost use Rattle.std.specs.Prelude.{◌≡◌, IfOk, IfSome, IfErr, true, false, Some, None, Ok, Err};
ghost use Rattle.quick_cache_loading.specs.Fitting.{ClonesFit, FitsQuery};
ghost use Rattle.quick_cache_model.specs.Hashing.{StandsForGiven};
ghost use Rattle.quick_cache_guard.specs.Answers.{HasCause, IfGuard, IfValue, IsGivenSo, IsRefusedSo, RefusesAsLoad, WasTold, WasToldOnce, is_timeout};
ghost use Rattle.quick_cache_guard.specs.Loaders.{LoadsSo};
ghost use Rattle.quick_cache_loading.specs.Waiters.{IsLoadRefusal};

use crate::{Fetched, GuardResult, LoadingShard, PlaceholderGuard};
use quick_cache_loading::waiting::Wants;
use quick_cache_model::{Equivalent, Lifecycle, Refusal, ToKey};
use std::alloc::Allocator;
use std::hash::Hash;
use std::sync::{RwLock, RwLockReadGuard, Wait};
use std::time::{Clock, Duration};

/// The read lock of a shard. It is tried once before the call waits for it, since a try that
/// succeeds takes a third of the steps.
#[inline(always)]
pub fn reading<'a, S, R: Wait>(rt: &R, shard: &'a RwLock<S>) -> RwLockReadGuard<'a, S> {
    match shard.try_read() {
        Some(locked) => locked,
        None => wait_to_read(rt, shard),
    }
}

/// The read lock, waited for. Apart from the try it leaves its registers to the look-up.
#[cold]
#[inline(never)]
fn wait_to_read<'a, S, R: Wait>(rt: &R, shard: &'a RwLock<S>) -> RwLockReadGuard<'a, S> {
    shard.read(rt)
}

impl<
    'a,
    K: Eq + Hash + Drop,
    V: Clone,
    L: Lifecycle<K, V>,
    S: LoadingShard<K, V, L, A>,
    R: Wait,
    A: Allocator,
> PlaceholderGuard<'a, K, V, L, S, R, A> {
    /// Looks as `find` of the shard does, under its read lock, which is let go on return.
    #[inline(always)]
    pub(crate) fn find<Q: Equivalent<K>>(
        rt: &R,
        shard: &RwLock<S>,
        query: &Q,
    ) -> Result<Option<V>, Refusal>
        // Whatever other threads do, the value fits a key that the query stands for.
        ensures fits { ClonesFit L.fits V.is_clone → IfOk result
            (λ found. IfSome found (λ value. FitsQuery L.fits (Q.equivalent query.now) value)) }
        ensures shows { IfOk result (λ found. IfSome found
            (λ value. (shard : S) × S.shows (Q.equivalent query.now) value shard)) }
        ensures refused { IfErr result (λ refusal. refusal ≡ Refusal.Memory) }
    {
        reading(rt, shard).find(query)
    }

    /// As `join`, after a look under the shard's read lock. One hit or one miss is counted.
    pub fn get_value_or_guard<Q: ToKey<K>>(
        rt: &'a R,
        shard: &'a RwLock<S>,
        query: &Q,
        limit: Option<Duration>,
    ) -> GuardResult<V, Self>
    where
        R: Clock,
        requires stands { StandsForGiven (Q.to_key_gives query.now) (Q.equivalent query.now) }
        ensures fits { ClonesFit L.fits V.is_clone
            → IfValue result (λ value. FitsQuery L.fits (Q.equivalent query.now) value) }
        ensures key { IfGuard result (λ key. Q.to_key_gives query.now key) }
        ensures cause { HasCause (WasToldOnce V.is_clone (Q.equivalent query.now) Wants.Value)
            (S.shows (Q.equivalent query.now)) (S.refuses (Q.equivalent query.now))
            (Some result) }
        ensures refused { RefusesAsLoad result }
        ensures timely { limit ≡ None → is_timeout result ≡ false }
    {
        match Self::find(rt, shard, query) {
            Ok(Some(value)) => GuardResult::Value(value),
            Ok(None) => Self::join(rt, shard, query, limit),
            Err(refusal) => GuardResult::Refused(refusal),
        }
    }

    /// The value under the query's key, or the one that the loader gives, which is put in. The loader
    /// is called under no lock, once at most; its value is given also where it could not be kept.
    ///
    /// # Errors
    ///
    /// Of the two, the outer one is why nothing was loaded, and the inner one is the loader's. The guard
    /// was handed on then, or the placeholder given up.
    pub fn get_or_insert_with<Q: ToKey<K>, E: Drop, F: FnOnce() -> Result<V, E>>(
        rt: &'a R,
        shard: &'a RwLock<S>,
        query: &Q,
        loader: F,
    ) -> Result<Result<V, E>, Refusal>
    where
        L::RequestState: Drop,
        requires stands { StandsForGiven (Q.to_key_gives query.now) (Q.equivalent query.now) }
        requires loader { F.pre loader }
        // What it gives fits each key that the query becomes, and so do the clones of what fits.
        requires loads { (value : V) → F.post loader (Ok value)
            → (key : K) → Q.to_key_gives query.now key → L.fits key value }
        requires clones { ClonesFit L.fits V.is_clone }
        ensures fits { IfOk result (λ loaded. IfOk loaded
            (λ value. FitsQuery L.fits (Q.equivalent query.now) value)) }
        // A shard showed it, a state gave it, or the loader did; and a refusal has its cause.
        ensures cause { LoadsSo (WasTold V.is_clone (Q.equivalent query.now) Wants.Value false)
            (S.shows (Q.equivalent query.now)) (S.refuses (Q.equivalent query.now))
            (λ value. F.post loader (Ok value)) result }
        ensures error { IfOk result (λ loaded. IfErr loaded (λ error. F.post loader (Err error))) }
        ensures refused { IfErr result IsLoadRefusal }
    {
        match Self::get_or_insert_told(rt, shard, query, loader) {
            Ok(Ok(fetched)) => Ok(Ok(fetched.value)),
            Ok(Err(error)) => Ok(Err(error)),
            Err(refusal) => Err(refusal),
        }
    }

    /// As `get_or_insert_with`, and tells whether this call's loader gave the value.
    pub fn get_or_insert_told<Q: ToKey<K>, E: Drop, F: FnOnce() -> Result<V, E>>(
        rt: &'a R,
        shard: &'a RwLock<S>,
        query: &Q,
        loader: F,
    ) -> Result<Result<Fetched<V>, E>, Refusal>
    where
        L::RequestState: Drop,
        requires stands { StandsForGiven (Q.to_key_gives query.now) (Q.equivalent query.now) }
        requires loader { F.pre loader }
        requires loads { (value : V) → F.post loader (Ok value)
            → (key : K) → Q.to_key_gives query.now key → L.fits key value }
        requires clones { ClonesFit L.fits V.is_clone }
        ensures fits { IfOk result (λ loaded. IfOk loaded
            (λ fetched. FitsQuery L.fits (Q.equivalent query.now) fetched.value)) }
        // Where it is told to be loaded, the loader gave it.
        ensures loaded { IfOk result (λ loaded. IfOk loaded
            (λ fetched. fetched.loaded ≡ true → F.post loader (Ok fetched.value))) }
        // Where it is not, a shard showed it, or a placeholder's state gave it.
        ensures found { IfOk result (λ loaded. IfOk loaded
            (λ fetched. fetched.loaded ≡ false → IsGivenSo
            (WasTold V.is_clone (Q.equivalent query.now) Wants.Value false)
            (S.shows (Q.equivalent query.now)) fetched.value)) }
        ensures error { IfOk result (λ loaded. IfErr loaded (λ error. F.post loader (Err error))) }
        ensures cause { IfErr result (IsRefusedSo
            (WasTold V.is_clone (Q.equivalent query.now) Wants.Value false)
            (S.refuses (Q.equivalent query.now))) }
        ensures refused { IfErr result IsLoadRefusal }
    {
        let value = match Self::find(rt, shard, query) {
            Ok(Some(value)) => value,
            Ok(None) => match Self::join_for_good(rt, shard, query) {
                Ok(Ok(value)) => value,
                Ok(Err(guard)) => return match guard.keep(loader()) {
                    Ok(value) => Ok(Ok(Fetched {
                        value,
                        loaded: true,
                    })),
                    Err(error) => Ok(Err(error)),
                },
                Err(refusal) => return Err(refusal),
            },
            Err(refusal) => return Err(refusal),
        };
        Ok(Ok(Fetched {
            value,
            loaded: false,
        }))
    }

    /// Puts what was loaded in for the guard, and gives it back. Where nothing was, or a clone is
    /// refused, the guard is given up.
    pub(crate) fn keep<E: Drop>(self, loaded: Result<V, E>) -> Result<V, E>
    where
        L::RequestState: Drop,
        requires fits { IfOk loaded (λ value. L.fits self value) }
        requires clones { ClonesFit L.fits V.is_clone }
        ensures { result ≡ loaded }
    {
        match loaded {
            Ok(value) => {
                match value.clone() {
                    Ok(copy) => drop(self.insert(copy)),
                    Err(_) => self.abandon(),
                }
                Ok(value)
            }
            Err(error) => {
                self.abandon();
                Err(error)
            }
        }
    }
}
