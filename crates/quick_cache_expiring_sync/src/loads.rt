//! Values that a loader gives where none serves.
ghost use Rattle.std.specs.Prelude.{◌≡◌, Ok, Err, IfOk, IfErr, IfSome};
ghost use Rattle.quick_cache_guard.specs.Answers.{IsLoadRefusal};
ghost use Rattle.quick_cache_locked.specs.Fitting.{ClonesFit};
ghost use Rattle.quick_cache_model.specs.Hashing.{StandsForGiven};
ghost use Rattle.quick_cache_expiring.specs.Lives.{end_of};
ghost use Rattle.quick_cache_expiring.specs.Lastings.{ClonesLasting, lasting_of};
ghost use Rattle.quick_cache_expiring_sync.specs.Loads.{GivesAt, ChoosesToLoad};

use crate::shared::SharedExpiring;
use quick_cache_expiring::{Lasting, end_of};
use quick_cache_guard::{EntryResult, GuardResult, LoadingShard, PlaceholderGuard};
use quick_cache_model::{Lifecycle, Refusal, ToKey, Weighter};
use quick_cache_shard::EntryAction;
use std::alloc::Allocator;
use std::hash::{BuildHasher, Hash};
use std::sync::Wait;
use std::sync::atomic::Ordering;
use std::time::Clock;

impl<
    K: Eq + Hash + Drop,
    V: Clone + Drop,
    We: Weighter<K, V>,
    B: BuildHasher,
    L: Lifecycle<K, Lasting<V>>,
    A: Allocator + Clone,
> SharedExpiring<K, V, We, B, L, A> {
    /// The value under the query's key where it serves at this moment, or the one that the loader
    /// gives, which is stored from this moment on, for so long. What is over gives its place to the
    /// load. Who finds the key being loaded waits, with no limit, and looks again. The loader is
    /// called under no lock, once at most; what it gives is answered also where it could not be kept.
    ///
    /// A value that serves is found under the read lock of the key's shard. Where none does it takes
    /// the write lock, and lets it go before it loads or waits. One hit or one miss is counted, and
    /// what is over as a miss and as expired; where another was at the key meanwhile, one look more.
    ///
    /// # Errors
    ///
    /// Of the two, the outer one is why nothing was loaded, and the inner one is the loader's, after
    /// which nothing is stored.
    pub fn get_or_insert_with<Q: ToKey<K>, R: Wait + Clock, E: Drop, F: FnOnce() -> Result<V, E>>(
        &self,
        rt: &R,
        query: &Q,
        now: u64,
        life: u64,
        loader: F,
    ) -> Result<Result<V, E>, Refusal>
    where
        L::RequestState: Drop,
        requires stands { StandsForGiven (Q.to_key_gives query.now) (Q.equivalent query.now) }
        requires loader { F.pre loader }
        // What it gives fits with its end each key that the query becomes, and so do the clones of
        // what fits.
        requires loads { (value : V) → F.post loader (Ok value) → (key : K)
            → Q.to_key_gives query.now key → L.fits key (lasting_of value (end_of now life)) }
        requires clones { ClonesFit L.fits (ClonesLasting V.is_clone) }
        // What is given serves at this moment, or this call's loader gave it.
        ensures gives { IfOk result (λ loaded. IfOk loaded (GivesAt L.fits
            (Q.equivalent query.now) (F.post loader) now)) }
        ensures error { IfOk result (λ loaded. IfErr loaded (λ error. F.post loader (Err error))) }
        ensures refused { IfErr result IsLoadRefusal }
    {
        match self.cache.get_value_or_guard(rt, query, None) {
            GuardResult::Value(lasting) => {
                if lasting.lives(now) {
                    return Ok(Ok(lasting.value));
                }
                self.not_hits.fetch_add(1, Ordering::SeqCst);
                self.expired.fetch_add(1, Ordering::SeqCst);
                self.load_anew(rt, query, now, life, loader)
            }
            GuardResult::Guard(guard) => {
                let mut guard = Some(guard);
                Ok(fill_with(&mut guard, end_of(now, life), loader()))
            }
            GuardResult::Timeout => unreachable!(),
            GuardResult::Refused(refusal) => Err(refusal),
        }
    }

    /// The same where what was found is over: by an entry call, since another may have loaded the
    /// key anew by now.
    fn load_anew<Q: ToKey<K>, R: Wait + Clock, E: Drop, F: FnOnce() -> Result<V, E>>(
        &self,
        rt: &R,
        query: &Q,
        now: u64,
        life: u64,
        loader: F,
    ) -> Result<Result<V, E>, Refusal>
    where
        L::RequestState: Drop,
        requires stands { StandsForGiven (Q.to_key_gives query.now) (Q.equivalent query.now) }
        requires loader { F.pre loader }
        requires loads { (value : V) → F.post loader (Ok value) → (key : K)
            → Q.to_key_gives query.now key → L.fits key (lasting_of value (end_of now life)) }
        requires clones { ClonesFit L.fits (ClonesLasting V.is_clone) }
        ensures gives { IfOk result (λ loaded. IfOk loaded (GivesAt L.fits
            (Q.equivalent query.now) (F.post loader) now)) }
        ensures error { IfOk result (λ loaded. IfErr loaded (λ error. F.post loader (Err error))) }
        ensures refused { IfErr result IsLoadRefusal }
    {
        let looks = |_key: &K, lasting: &mut Lasting<V>| -> EntryAction<Result<V, Refusal>>
            ensures same { lasting.new ≡ lasting.old }
            ensures chooses { ChoosesToLoad V.is_clone now lasting.old result }
        { look(lasting, now) };
        match self.cache.entry(rt, query, None, looks) {
            EntryResult::Retained(Ok(value)) => Ok(Ok(value)),
            EntryResult::Retained(Err(refusal)) => Err(refusal),
            EntryResult::Replaced(guard, _) => {
                let mut guard = Some(guard);
                Ok(fill_with(&mut guard, end_of(now, life), loader()))
            }
            EntryResult::Vacant(guard) => {
                let mut guard = Some(guard);
                Ok(fill_with(&mut guard, end_of(now, life), loader()))
            }
            // There was no memory for a guard.
            EntryResult::Removed(_, _) => Ok(loader()),
            EntryResult::Timeout => unreachable!(),
            EntryResult::Refused(refusal) => Err(refusal),
        }
    }
}

/// What becomes of an entry at a moment: where it serves it stays, and a clone is told, or why there
/// is none; else it gives its place to a guard.
fn look<V: Clone>(lasting: &Lasting<V>, now: u64) -> EntryAction<Result<V, Refusal>>
    ensures chooses { ChoosesToLoad V.is_clone now lasting.now result }
{
    if !lasting.lives(now) {
        return EntryAction::ReplaceWithGuard;
    }
    let clone: Result<_, _> = lasting.value.clone();
    match clone {
        Ok(value) => EntryAction::Retain(Ok(value)),
        Err(_) => EntryAction::Retain(Err(Refusal::Memory)),
    }
}

/// Puts a clone of what was loaded in by the guard, with its end, and answers it. The guard is taken
/// from where it stands, since a call that takes it by value gets no proof.
fn fill_with<
    K: Eq + Hash + Drop,
    V: Clone + Drop,
    L: Lifecycle<K, Lasting<V>>,
    T: LoadingShard<K, Lasting<V>, L, A>,
    R: Wait,
    A: Allocator,
    E: Drop,
>(
    guard: &mut Option<PlaceholderGuard<'_, K, Lasting<V>, L, T, R, A>>,
    until: u64,
    loaded: Result<V, E>,
) -> Result<V, E>
where
    L::RequestState: Drop,
    requires fits { IfSome guard.old (λ key. IfOk loaded
        (λ value. L.fits key (lasting_of value until))) }
    requires clones { ClonesFit L.fits (ClonesLasting V.is_clone) }
    ensures same { result ≡ loaded }
{
    let lasting = Lasting {
        value: loaded?,
        until,
    };
    if let Some(guard) = guard.take() {
        if let Ok(copy) = lasting.clone() {
            drop(guard.insert(copy));
        }
    }
    Ok(lasting.value)
}
