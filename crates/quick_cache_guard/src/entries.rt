//! Entry calls of a cache that threads share, on one shard: a callback sees the value of a key, and
//! chooses what becomes of it.
ghost use Rattle.std.specs.Prelude.{◌≡◌, IfErr, IsSomeAnd, ⊤, true, false, IfOk};
ghost use Rattle.quick_cache_model.specs.Hashing.{StandsForGiven};
ghost use Rattle.quick_cache_loading.specs.Fitting.{FitsQuery};
ghost use Rattle.quick_cache_loading.specs.Waiters.{IsLoadRefusal};
ghost use Rattle.quick_cache_guard.specs.Acts.{DoesAsChosen, IfAbsent, IfGone, IfKept, LeavesFit, LeavesHeld, MayAct, MayTell, LeavesOnce};
ghost use Rattle.quick_cache_loading.specs.Turns.{IsLater, none_left};
ghost use Rattle.quick_cache_guard.specs.Entries.{AnswersAsChosen, IfAnswered, IfGivenBack, IfGuarded, IfRetained, IfUncalled, JoinedSo, HasEntryCause, IsRefusedAsLoad, entry_of, is_late};
ghost use Rattle.quick_cache_guard.specs.Answers.{ToldOnJoining, WasToldOnce};

use crate::{EntryResult, GuardResult, Load, LoadingShard, LockedLoad, PlaceholderGuard, Waiting};
use quick_cache_loading::sharing::{SharedPlaceholder, Turns};
use quick_cache_loading::waiting::Wants;
use quick_cache_model::{EntryAction, EntryOrPlaceholder, Lifecycle, Refusal, ToKey};
use std::alloc::Allocator;
use std::hash::Hash;
use std::sync::{RwLock, Wait};
use std::thread::yield_now;
use std::time::Clock;

/// A shard, as entry calls use it while they hold its lock.
pub trait EntryShard<K: Eq + Hash + Drop, V: Clone, L: Lifecycle<K, V>, A: Allocator>: LoadingShard<
    K,
    V,
    L,
    A,
> {
    /// Shows the item under the query to the callback that is held, which may write its value and
    /// chooses what happens. Where there is none the callback is not called and stays held, and a
    /// placeholder is made or met.
    ///
    /// # Errors
    ///
    /// Only where a placeholder would be made. An item that was to be replaced stays as the callback
    /// wrote it; else nothing has changed.
    fn act_on<Q: ToKey<K>, T, F: FnOnce(&K, &mut V) -> EntryAction<T>>(
        &mut self,
        query: &Q,
        callback: &mut Option<F>,
    ) -> Result<EntryOrPlaceholder<K, V, SharedPlaceholder<K, V, L, A>, T>, Refusal>
        requires stands { StandsForGiven (Q.to_key_gives query.now) (Q.equivalent query.now) }
        // The callback is callable at values that fit, and has to be at no others.
        requires callable { IsSomeAnd callback.old
            (MayAct F.FnOnce L.fits (Q.equivalent query.now)) }
        requires leaves { LeavesFit (LeavesHeld F.FnOnce callback.old) L.fits }
        ensures fits { IfGone result (λ value. FitsQuery L.fits (Q.equivalent query.now) value) }
        ensures tells { IfKept result (λ told. MayTell (LeavesHeld F.FnOnce callback.old) L.fits
            (Q.equivalent query.now) told) }
        ensures uncalled { IfAbsent result (callback.new ≡ callback.old) }
        ensures refused { IfErr result IsLoadRefusal }
        ensures refuses { IfErr result
            (λ refusal. Self.refuses (Q.equivalent query.now) refusal self.old) }
        ensures chosen { DoesAsChosen (LeavesHeld F.FnOnce callback.old) L.fits
            (Q.equivalent query.now) (callback.new ≡ callback.old) result };
}

impl<
    'a,
    K: Eq + Hash + Drop,
    V: Clone,
    L: Lifecycle<K, V>,
    S: EntryShard<K, V, L, A>,
    R: Wait,
    A: Allocator,
> PlaceholderGuard<'a, K, V, L, S, R, A> {
    /// Shows the item under the query's key to the callback, under the shard's write lock. The
    /// callback may write the value, and chooses what happens: the item stays, or goes, or gives its
    /// value and leaves a placeholder, of which this call gets the guard. It is called once at most.
    /// A callback that calls the same cache may wait forever.
    ///
    /// Where there is no item, this call gets the guard of a placeholder that it makes. Where another
    /// loads the key it waits, for so many turns at most, and looks again once that load has ended.
    pub fn entry<Q: ToKey<K>, T: Drop, F: FnOnce(&K, &mut V) -> EntryAction<T>>(
        rt: &'a R,
        shard: &'a RwLock<S>,
        query: &Q,
        turns: &mut Turns,
        callback: F,
    ) -> EntryResult<T, K, V, Self>
    where
        R: Clock,
        requires stands { StandsForGiven (Q.to_key_gives query.now) (Q.equivalent query.now) }
        // What the callback leaves fits.
        requires callable { MayAct F.FnOnce L.fits (Q.equivalent query.now) callback }
        requires leaves { LeavesFit (LeavesOnce F.FnOnce callback) L.fits }
        // Whatever other threads do, a value that is given back fits a key that the query stands for.
        ensures fits { IfGivenBack result (λ value. FitsQuery L.fits (Q.equivalent query.now) value) }
        ensures told { IfRetained result (λ told. MayTell (LeavesOnce F.FnOnce callback) L.fits
            (Q.equivalent query.now) told) }
        ensures key { IfGuarded result (λ key. Q.to_key_gives query.now key) }
        // The answer is what the callback chose, by its one call.
        ensures chosen { AnswersAsChosen (LeavesOnce F.FnOnce callback) L.fits
            (Q.equivalent query.now) ⊤ result }
        ensures refused { IsRefusedAsLoad result }
        // Where it is refused, or late, that has its cause: what a placeholder's state told, or why a
        // shard refused.
        ensures cause { HasEntryCause (WasToldOnce V.is_clone (Q.equivalent query.now) Wants.End)
            (S.refuses (Q.equivalent query.now)) result }
        // All its waits share the turns: its time is over only where none of them is left.
        ensures timely { is_late result ≡ true → none_left turns.new.limit turns.new.ended ≡ true }
        ensures counts { IsLater turns.old turns.new }
    {
        let mut held = Some(callback);
        for _ in rt.forever() {
            match Self::act(rt, shard, query, &mut held, turns.is_over()) {
                Ok(waiting) => {
                    let told = waiting.wait_within(query, Wants::End, turns);
                    if let Some(answer) = entry_of(told) {
                        return answer;
                    }
                }
                Err(Some(answer)) => return answer,
                Err(None) => {}
            }
            // A value that came is still on its way into the shard.
            yield_now();
        }
        unreachable!()
    }

    /// Acts once, under the shard's write lock. One who finds the key being loaded joins those who
    /// wait, before the lock is let go. Nothing is answered where it has to look again.
    pub(crate) fn act<Q: ToKey<K>, T: Drop, F: FnOnce(&K, &mut V) -> EntryAction<T>>(
        rt: &'a R,
        shard: &'a RwLock<S>,
        query: &Q,
        callback: &mut Option<F>,
        is_over: bool,
    ) -> Result<Waiting<'a, K, V, L, S, R, A>, Option<EntryResult<T, K, V, Self>>>
        requires stands { StandsForGiven (Q.to_key_gives query.now) (Q.equivalent query.now) }
        requires callable { IsSomeAnd callback.old (MayAct F.FnOnce L.fits (Q.equivalent query.now)) }
        requires leaves { LeavesFit (LeavesHeld F.FnOnce callback.old) L.fits }
        ensures keyed { IfOk result (λ waiting. Q.to_key_gives query.now waiting.load.key) }
        ensures fits { IfAnswered result (λ answer. IfGivenBack answer
            (λ value. FitsQuery L.fits (Q.equivalent query.now) value)) }
        ensures told { IfAnswered result (λ answer. IfRetained answer
            (λ told. MayTell (LeavesHeld F.FnOnce callback.old) L.fits (Q.equivalent query.now)
            told)) }
        ensures key { IfAnswered result (λ answer. IfGuarded answer
            (λ key. Q.to_key_gives query.now key)) }
        // Where no item was found, the callback was not called.
        ensures uncalled { IfUncalled result (callback.new ≡ callback.old) }
        ensures chosen { IfAnswered result (λ answer. AnswersAsChosen
            (LeavesHeld F.FnOnce callback.old) L.fits (Q.equivalent query.now)
            (callback.new ≡ callback.old) answer) }
        ensures refused { IfAnswered result IsRefusedAsLoad }
        ensures cause { JoinedSo (ToldOnJoining V.is_clone (Q.equivalent query.now) Wants.End is_over)
            (S.refuses (Q.equivalent query.now)) result }
        ensures timely { is_over ≡ false → IfAnswered result (λ answer. is_late answer ≡ false) }
    {
        // The copy of the key is made before the shard changes.
        let key = match query.to_key() {
            Ok(key) => key,
            Err(refusal) => return Err(Some(EntryResult::Refused(refusal))),
        };
        let mut locked = shard.write(rt);
        let met = match LockedLoad::act(&mut *locked, query, callback) {
            Ok(EntryOrPlaceholder::Kept(told)) => return Err(Some(EntryResult::Retained(told))),
            Ok(EntryOrPlaceholder::Removed(own, value)) => {
                return Err(Some(EntryResult::Removed(own, value)));
            }
            Ok(EntryOrPlaceholder::Replaced(met, value)) => {
                let Some((placeholder, share)) = met.share(rt, query) else {
                    return Err(Some(EntryResult::Removed(key, value)));
                };
                let load = Load {
                    rt,
                    shard,
                    placeholder,
                    key,
                };
                let guard = PlaceholderGuard { load, share };
                return Err(Some(EntryResult::Replaced(guard, value)));
            }
            Ok(EntryOrPlaceholder::ExistingPlaceholder(met)) => met,
            Ok(EntryOrPlaceholder::NewPlaceholder(met)) => met,
            Err(refusal) => return Err(Some(EntryResult::Refused(refusal))),
        };
        match met.join(rt, shard, query, key, Wants::End, is_over) {
            Ok(waiting) => Ok(waiting),
            Err(told) => Err(entry_of(told)),
        }
    }
}

/// What an entry call answers, where one who asks for a value answers this. It looks in the shard
/// again where the value came.
pub fn entry_of<T: Drop, K: Drop, V: Drop, G: Drop>(
    told: Option<GuardResult<V, G>>,
) -> Option<EntryResult<T, K, V, G>>
    ensures { result ≡ entry_of told }
{
    match told {
        Some(GuardResult::Guard(guard)) => Some(EntryResult::Vacant(guard)),
        Some(GuardResult::Timeout) => Some(EntryResult::Timeout),
        Some(GuardResult::Refused(refusal)) => Some(EntryResult::Refused(refusal)),
        Some(GuardResult::Value(_)) => None,
        None => None,
    }
}
