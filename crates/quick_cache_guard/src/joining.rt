//! A value, or the guard of a key that is absent, for one who waits where another loads it.
ghost use Rattle.std.specs.Prelude.{◌≡◌, ⊤, true, false, Some, None, IfOk, IfErr, IfSome, IsErr};
ghost use Rattle.std.specs.Arc.{arc_value};
ghost use Rattle.futures.specs.Task.{Covers, Keeps};
ghost use Rattle.quick_cache_model.specs.Hashing.{StandsForGiven};
ghost use Rattle.quick_cache_loading.specs.Waiters.{IsTold, IsWanted};
ghost use Rattle.quick_cache_loading.specs.Fitting.{FitsIfClonesDo};
ghost use Rattle.quick_cache_loading.specs.FromState.{FromState, PollsAt};
ghost use Rattle.quick_cache_loading.specs.Turns.{IsLater, none_left};
ghost use Rattle.quick_cache_guard.specs.Answers.{ToldOnJoining, GivesSo, HasCause, IfGiven, IsAnswered, IsRefusedAsLoad, WasTold, WasToldOnce};
ghost use Rattle.quick_cache_guard.specs.Answers.{answer_of, is_refused, is_timeout, output_of};

use crate::{GuardResult, Load, LockedLoad, PlaceholderGuard};
use futures::task::Context;
use quick_cache_loading::sharing::{Begun, LoadingShard, Turns};
use quick_cache_loading::waiting::{Place, Waited, Wants};
use quick_cache_model::{Lifecycle, Refusal, ToKey};
use std::alloc::Allocator;
use std::hash::Hash;
use std::sync::{RwLock, Wait};
use std::time::{Clock, Duration};

/// One who waits at a placeholder. Dropped, it waits no more: a guard that was on its way to it is
/// handed on, or the placeholder given up, under the write lock of the shard.
pub struct Waiting<
    'a,
    K: Eq + Hash + Drop,
    V: Clone,
    L: Lifecycle<K, V>,
    S: LoadingShard<K, V, L, A>,
    R: Wait,
    A: Allocator,
> {
    pub load: Load<'a, K, V, L, S, R, A>,
    pub place: Place,
    ghost of_ticket: { place.ticket ≡ (arc_value load.placeholder).ticket },
}

impl<
    K: Eq + Hash + Drop,
    V: Clone,
    L: Lifecycle<K, V>,
    S: LoadingShard<K, V, L, A>,
    R: Wait,
    A: Allocator,
> Drop for Waiting<'_, K, V, L, S, R, A> {
    fn drop(self) {
        let Waiting { load, place } = self;
        load.placeholder
            .withdraw(load.rt, &mut *load.shard.write(load.rt), place);
    }
}

impl<
    'a,
    K: Eq + Hash + Drop,
    V: Clone,
    L: Lifecycle<K, V>,
    S: LoadingShard<K, V, L, A>,
    R: Wait,
    A: Allocator,
> Waiting<'a, K, V, L, S, R, A> {
    /// Waits for so many turns at most. Nothing is answered where one has to look again.
    pub fn wait_within<Q: ToKey<K>>(
        self,
        query: &Q,
        wants: Wants,
        turns: &mut Turns,
    ) -> Option<GuardResult<V, PlaceholderGuard<'a, K, V, L, S, R, A>>>
    where
        R: Clock,
        requires keyed { Q.to_key_gives query.now self.load.key }
        ensures answers { IfSome result (IsAnswered
            (IsWanted wants (FitsIfClonesDo L.fits V.is_clone (Q.equivalent query.now)))
            (Q.to_key_gives query.now)) }
        ensures told { (told : Waited V) × FromState (PollsAt V.is_clone (Q.equivalent query.now) wants
            self.entry.place (none_left turns.new.limit turns.new.ended) (Some told))
            × (result ≡ answer_of self.entry.load.key told) }
        ensures timely { IfSome result (λ answer. is_timeout answer ≡ true
            → none_left turns.new.limit turns.new.ended ≡ true) }
        ensures counts { IsLater turns.old turns.new }
    {
        let Waiting { load, place } = self;
        let told = load
            .placeholder
            .wait_within(load.rt, place, query, wants, turns);
        PlaceholderGuard::answer(load, told)
    }

    /// Waits with no limit. Nothing is answered where one has to look again.
    fn wait<Q: ToKey<K>>(
        self,
        query: &Q,
    ) -> Option<GuardResult<V, PlaceholderGuard<'a, K, V, L, S, R, A>>>
        requires keyed { Q.to_key_gives query.now self.load.key }
        ensures answers { IfSome result (IsAnswered
            (FitsIfClonesDo L.fits V.is_clone (Q.equivalent query.now)) (Q.to_key_gives query.now)) }
        ensures cause { HasCause (WasTold V.is_clone (Q.equivalent query.now) Wants.Value false)
            (S.shows (Q.equivalent query.now)) (S.refuses (Q.equivalent query.now)) result }
        ensures timely { IfSome result (λ answer. is_timeout answer ≡ false) }
    {
        let Waiting { load, place } = self;
        let told = load.placeholder.wait(load.rt, place, query, Wants::Value);
        PlaceholderGuard::answer(load, told)
    }

    /// Looks whether the guard or the value has come. Where neither has, it leaves the task's waker and
    /// comes back. Nothing is answered where one has to look again.
    pub fn poll<Q: ToKey<K>>(
        self,
        query: &Q,
        wants: Wants,
        cx: &mut Context<'_>,
    ) -> Result<Option<GuardResult<V, PlaceholderGuard<'a, K, V, L, S, R, A>>>, Self>
        requires keyed { Q.to_key_gives query.now self.load.key }
        ensures answers { IfOk result (λ told. IfSome told (IsAnswered
            (IsWanted wants (FitsIfClonesDo L.fits V.is_clone (Q.equivalent query.now)))
            (Q.to_key_gives query.now))) }
        ensures cause { IfOk result (HasCause (WasTold V.is_clone (Q.equivalent query.now) wants false)
            (S.shows (Q.equivalent query.now)) (S.refuses (Q.equivalent query.now))) }
        ensures timely { IfOk result (λ told. IfSome told (λ answer. is_timeout answer ≡ false)) }
        ensures refused { wants ≡ Wants.End
            → IfOk result (λ told. IfSome told (λ answer. is_refused answer ≡ false)) }
        ensures keyed { IfErr result (λ kept. Q.to_key_gives query.now kept.load.key) }
        ensures registered { IfErr result
            (λ kept. Covers cx.new (λ s. s ≡ (arc_value kept.load.placeholder).source.id)) }
        ensures kept { Keeps cx.old cx.new }
    {
        let Waiting { load, place } = self;
        match load.placeholder.poll(load.rt, place, query, wants, cx) {
            Err(place) => Err(Waiting { load, place }),
            Ok(told) => Ok(PlaceholderGuard::answer(load, told)),
        }
    }
}

impl<
    'a,
    K: Eq + Hash + Drop,
    V: Clone,
    L: Lifecycle<K, V>,
    S: LoadingShard<K, V, L, A>,
    R: Wait,
    A: Allocator,
> PlaceholderGuard<'a, K, V, L, S, R, A> {
    /// The value under the query's key, or the right to load it. Who finds it loading waits, for so
    /// many turns of a millisecond as the limit has, rounded up, which all its waits share. With a
    /// limit of zero it does not wait. It takes the write lock of the shard, and lets it go before it
    /// waits.
    pub fn join<Q: ToKey<K>>(
        rt: &'a R,
        shard: &'a RwLock<S>,
        query: &Q,
        limit: Option<Duration>,
    ) -> GuardResult<V, Self>
    where
        R: Clock,
        requires stands { StandsForGiven (Q.to_key_gives query.now) (Q.equivalent query.now) }
        // Whatever other threads do, the value fits a key that the query stands for, and the guard
        // is for a key that the query becomes. It is refused as a load is.
        ensures answers { IsAnswered (FitsIfClonesDo L.fits V.is_clone (Q.equivalent query.now))
            (Q.to_key_gives query.now) result }
        // The answer has its cause: what a placeholder's state told, what a shard showed, or why it
        // refused.
        ensures cause { HasCause (WasToldOnce V.is_clone (Q.equivalent query.now) Wants.Value)
            (S.shows (Q.equivalent query.now)) (S.refuses (Q.equivalent query.now)) (Some result) }
        ensures timely { limit ≡ None → is_timeout result ≡ false }
    {
        let mut turns = Turns::within(limit);
        for _ in rt.forever() {
            match Self::join_once(rt, shard, query, turns.is_over()) {
                Ok(waiting) => {
                    if let Some(answer) = waiting.wait_within(query, Wants::Value, &mut turns) {
                        return answer;
                    }
                }
                Err(Some(answer)) => return answer,
                Err(None) => {}
            }
        }
        unreachable!()
    }

    /// As `join` with no limit, where no clock is at hand: the value, or the guard.
    pub fn join_for_good<Q: ToKey<K>>(
        rt: &'a R,
        shard: &'a RwLock<S>,
        query: &Q,
    ) -> Result<Result<V, Self>, Refusal>
        requires stands { StandsForGiven (Q.to_key_gives query.now) (Q.equivalent query.now) }
        ensures gives { IfGiven
            (FitsIfClonesDo L.fits V.is_clone (Q.equivalent query.now)) (Q.to_key_gives query.now)
            result }
        ensures cause { GivesSo (WasTold V.is_clone (Q.equivalent query.now) Wants.Value false)
            (S.shows (Q.equivalent query.now)) (S.refuses (Q.equivalent query.now)) result }
        ensures refused { IsRefusedAsLoad result }
    {
        for _ in rt.forever() {
            let answer = Self::join_and_wait(rt, shard, query);
            if let Some(output) = output(answer) {
                return output;
            }
        }
        unreachable!()
    }

    /// Joins those who wait, under the shard's write lock, or answers at once; nothing where it has to
    /// look again. The copy of the key is made before the shard changes.
    pub(crate) fn join_once<Q: ToKey<K>>(
        rt: &'a R,
        shard: &'a RwLock<S>,
        query: &Q,
        is_over: bool,
    ) -> Result<Waiting<'a, K, V, L, S, R, A>, Option<GuardResult<V, Self>>>
        requires stands { StandsForGiven (Q.to_key_gives query.now) (Q.equivalent query.now) }
        ensures keyed { IfOk result (λ waiting. Q.to_key_gives query.now waiting.load.key) }
        ensures answers { IfErr result (λ told. IfSome told (IsAnswered
            (FitsIfClonesDo L.fits V.is_clone (Q.equivalent query.now)) (Q.to_key_gives query.now))) }
        ensures cause { IfErr result (HasCause
            (ToldOnJoining V.is_clone (Q.equivalent query.now) Wants.Value is_over)
            (S.shows (Q.equivalent query.now)) (S.refuses (Q.equivalent query.now))) }
        ensures over { is_over ≡ true → IsErr result }
        ensures timely { is_over ≡ false
            → IfErr result (λ told. IfSome told (λ answer. is_timeout answer ≡ false)) }
    {
        let key = match query.to_key() {
            Ok(key) => key,
            Err(refusal) => return Err(Some(GuardResult::Refused(refusal))),
        };
        let mut locked = shard.write(rt);
        match LockedLoad::begin(&mut *locked, query) {
            Ok(Begun::Found(value)) => Err(Some(GuardResult::Value(value))),
            Ok(Begun::Loading(met)) => met.join(rt, shard, query, key, Wants::Value, is_over),
            Err(refusal) => Err(Some(GuardResult::Refused(refusal))),
        }
    }

    /// Joins, and waits with no limit. Nothing is answered where one has to look again.
    fn join_and_wait<Q: ToKey<K>>(
        rt: &'a R,
        shard: &'a RwLock<S>,
        query: &Q,
    ) -> Option<GuardResult<V, Self>>
        requires stands { StandsForGiven (Q.to_key_gives query.now) (Q.equivalent query.now) }
        ensures answers { IfSome result (IsAnswered
            (FitsIfClonesDo L.fits V.is_clone (Q.equivalent query.now)) (Q.to_key_gives query.now)) }
        ensures cause { HasCause (WasTold V.is_clone (Q.equivalent query.now) Wants.Value false)
            (S.shows (Q.equivalent query.now)) (S.refuses (Q.equivalent query.now)) result }
        ensures timely { IfSome result (λ answer. is_timeout answer ≡ false) }
    {
        match Self::join_once(rt, shard, query, false) {
            Ok(waiting) => waiting.wait(query),
            Err(told) => told,
        }
    }

    /// What one answers who is told this. Nothing is answered where it has to look again.
    pub(crate) fn answer(
        load: Load<'a, K, V, L, S, R, A>,
        told: Waited<V>,
    ) -> Option<GuardResult<V, Self>>
        requires told { IsTold (arc_value load.placeholder).ticket (λ value. ⊤) told }
        ensures { result ≡ answer_of load.entry.key told }
    {
        match told {
            Waited::Value(value) => Some(GuardResult::Value(value)),
            Waited::Guard(share) => Some(GuardResult::Guard(PlaceholderGuard { load, share })),
            Waited::Refused(refusal) => Some(GuardResult::Refused(refusal)),
            Waited::Timeout => Some(GuardResult::Timeout),
            Waited::Again => None,
        }
    }
}

/// What one who waits with no limit gets, unless it has to look again.
pub fn output<V: Drop, G: Drop>(
    told: Option<GuardResult<V, G>>,
) -> Option<Result<Result<V, G>, Refusal>>
    ensures { result ≡ output_of told }
{
    match told {
        Some(GuardResult::Value(value)) => Some(Ok(Ok(value))),
        Some(GuardResult::Guard(guard)) => Some(Ok(Err(guard))),
        Some(GuardResult::Refused(refusal)) => Some(Err(refusal)),
        Some(GuardResult::Timeout) => None,
        None => None,
    }
}
