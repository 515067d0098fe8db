//! A placeholder that a shard made or met for a key, while the shard's lock is held.
ghost use Rattle.std.specs.Prelude.{◌≡◌, true, false, IfOk, IfErr, IfSome, IsErr, IsSomeAnd};
ghost use Rattle.std.specs.Arc.{arc_value};
ghost use Rattle.quick_cache_model.specs.Hashing.{StandsForGiven};
ghost use Rattle.quick_cache_loading.specs.Begins.{IfFound};
ghost use Rattle.quick_cache_loading.specs.Fitting.{ClonesFit, FitsIfClonesDo, FitsQuery};
ghost use Rattle.quick_cache_loading.specs.Waiters.{IsLoadRefusal, IsWanted};
ghost use Rattle.quick_cache_guard.specs.Acts.{DoesAsChosen, IfAbsent, IfGone, IfKept, LeavesFit, LeavesHeld, MayAct, MayTell};
ghost use Rattle.quick_cache_guard.specs.Answers.{ToldOnJoining, HasCause, IsAnswered, is_timeout};

use crate::entries::EntryShard;
use crate::{GuardResult, Load, PlaceholderGuard, Waiting};
use quick_cache_loading::sharing::{Begun, LoadingShard, Placeholder, SharedPlaceholder};
use quick_cache_loading::waiting::{Share, Waited, Wants};
use quick_cache_model::{EntryAction, EntryOrPlaceholder, Equivalent, Lifecycle, Refusal, ToKey};
use std::alloc::Allocator;
use std::hash::Hash;
use std::sync::{Arc, RwLock, Wait};

/// What a locked shard made or met for a key. It borrows the shard from its lock, so who lets the
/// lock go has it no more: nobody joins a placeholder that the shard may have let go since. It has
/// no drop: who has it joins.
pub struct LockedLoad<'l, K: Eq + Hash + Drop, V: Drop, L: Lifecycle<K, V>, S, A: Allocator> {
    locked: &'l mut S,
    shared: SharedPlaceholder<K, V, L, A>,
}

impl<
    'l,
    K: Eq + Hash + Drop,
    V: Clone,
    L: Lifecycle<K, V>,
    S: LoadingShard<K, V, L, A>,
    A: Allocator,
> LockedLoad<'l, K, V, L, S, A> {
    /// Begins a load, as `begin_load` of the shard does.
    pub fn begin<Q: ToKey<K>>(locked: &'l mut S, query: &Q) -> Result<Begun<V, Self>, Refusal>
        requires stands { StandsForGiven (Q.to_key_gives query.now) (Q.equivalent query.now) }
        ensures fits { ClonesFit L.fits V.is_clone → IfOk result (λ begun. IfFound begun
            (λ value. FitsQuery L.fits (Q.equivalent query.now) value)) }
        ensures shows { IfOk result (λ begun. IfFound begun
            (λ value. (shard : S) × S.shows (Q.equivalent query.now) value shard)) }
        ensures refuses { IfErr result
            (λ refusal. (shard : S) × S.refuses (Q.equivalent query.now) refusal shard) }
        ensures refused { IfErr result IsLoadRefusal }
    {
        match locked.begin_load(query) {
            Ok(Begun::Found(value)) => Ok(Begun::Found(value)),
            Ok(Begun::Loading(shared)) => Ok(Begun::Loading(LockedLoad { locked, shared })),
            Err(refusal) => Err(refusal),
        }
    }

    /// Joins those who wait at it, or answers at once, by its state's lock; nothing where one has to
    /// look in the shard again.
    pub fn join<'a, R: Wait, Q: ToKey<K>>(
        self,
        rt: &'a R,
        shard: &'a RwLock<S>,
        query: &Q,
        key: K,
        wants: Wants,
        is_over: bool,
    ) -> Result<
        Waiting<'a, K, V, L, S, R, A>,
        Option<GuardResult<V, PlaceholderGuard<'a, K, V, L, S, R, A>>>,
    >
        requires keyed { Q.to_key_gives query.now key }
        ensures keyed { IfOk result (λ waiting. Q.to_key_gives query.now waiting.load.key) }
        ensures answers { IfErr result (λ told. IfSome told (IsAnswered
            (IsWanted wants (FitsIfClonesDo L.fits V.is_clone (Q.equivalent query.now)))
            (Q.to_key_gives query.now))) }
        ensures cause { IfErr result (HasCause
            (ToldOnJoining V.is_clone (Q.equivalent query.now) wants is_over)
            (S.shows (Q.equivalent query.now)) (S.refuses (Q.equivalent query.now))) }
        ensures over { is_over ≡ true → IsErr result }
        ensures timely { is_over ≡ false
            → IfErr result (λ told. IfSome told (λ answer. is_timeout answer ≡ false)) }
    {
        let LockedLoad { locked, shared } = self;
        let Some(placeholder) = shared.into_placeholder() else {
            return Err(Some(GuardResult::Refused(Refusal::Memory)));
        };
        let load = Load {
            rt,
            shard,
            placeholder,
            key,
        };
        match load.placeholder.join(rt, locked, query, wants, is_over) {
            Ok(place) => Ok(Waiting { load, place }),
            Err(told) => Err(PlaceholderGuard::answer(load, told)),
        }
    }

    /// The share of its life, where that begins: of a placeholder that was just made. Where there is
    /// none, the life is another's, or the next one who comes begins it.
    pub fn share<R: Wait, Q: Equivalent<K>>(
        self,
        rt: &R,
        query: &Q,
    ) -> Option<(Arc<Placeholder<K, V, L, A>, A>, Share)>
        ensures share { IfSome result (λ given. given.1 ≡ (arc_value given.0).ticket) }
    {
        let LockedLoad { locked, shared } = self;
        let placeholder = shared.into_placeholder()?;
        match placeholder.join(rt, locked, query, Wants::End, true) {
            Err(Waited::Guard(share)) => Some((placeholder, share)),
            Err(Waited::Value(_)) => None,
            Err(Waited::Timeout) => None,
            Err(Waited::Again) => None,
            Err(Waited::Refused(_)) => None,
            Ok(_place) => unreachable!(),
        }
    }
}

impl<
    'l,
    K: Eq + Hash + Drop,
    V: Clone,
    L: Lifecycle<K, V>,
    S: EntryShard<K, V, L, A>,
    A: Allocator,
> LockedLoad<'l, K, V, L, S, A> {
    /// Shows the item under the query to the callback that is held, as `act_on` of the shard does.
    pub fn act<Q: ToKey<K>, T, F: FnOnce(&K, &mut V) -> EntryAction<T>>(
        locked: &'l mut S,
        query: &Q,
        callback: &mut Option<F>,
    ) -> Result<EntryOrPlaceholder<K, V, Self, T>, Refusal>
        requires stands { StandsForGiven (Q.to_key_gives query.now) (Q.equivalent query.now) }
        requires callable { IsSomeAnd callback.old
            (MayAct F.FnOnce L.fits (Q.equivalent query.now)) }
        requires leaves { LeavesFit (LeavesHeld F.FnOnce callback.old) L.fits }
        ensures fits { IfGone result (λ value. FitsQuery L.fits (Q.equivalent query.now) value) }
        ensures tells { IfKept result (λ told. MayTell (LeavesHeld F.FnOnce callback.old) L.fits
            (Q.equivalent query.now) told) }
        ensures uncalled { IfAbsent result (callback.new ≡ callback.old) }
        ensures refused { IfErr result IsLoadRefusal }
        ensures refuses { IfErr result
            (λ refusal. (shard : S) × S.refuses (Q.equivalent query.now) refusal shard) }
        ensures chosen { DoesAsChosen (LeavesHeld F.FnOnce callback.old) L.fits
            (Q.equivalent query.now) (callback.new ≡ callback.old) result }
    {
        match locked.act_on(query, callback) {
            Ok(EntryOrPlaceholder::Kept(told)) => Ok(EntryOrPlaceholder::Kept(told)),
            Ok(EntryOrPlaceholder::Removed(key, value)) => {
                Ok(EntryOrPlaceholder::Removed(key, value))
            }
            Ok(EntryOrPlaceholder::Replaced(shared, value)) => {
                Ok(EntryOrPlaceholder::Replaced(LockedLoad { locked, shared }, value))
            }
            Ok(EntryOrPlaceholder::ExistingPlaceholder(shared)) => {
                Ok(EntryOrPlaceholder::ExistingPlaceholder(LockedLoad { locked, shared }))
            }
            Ok(EntryOrPlaceholder::NewPlaceholder(shared)) => {
                Ok(EntryOrPlaceholder::NewPlaceholder(LockedLoad { locked, shared }))
            }
            Err(refusal) => Err(refusal),
        }
    }
}
