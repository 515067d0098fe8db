//! Entry calls that a task awaits, which take no thread, on one shard.
ghost use Rattle.std.specs.Prelude.{◌≡◌, ◌⊎◌, true, false, Some, IfSome, IfNone, IsSome, IsSomeAnd};
ghost use Rattle.quick_cache_model.specs.Hashing.{StandsForGiven};
ghost use Rattle.futures.specs.Poll.{IfReady, OnPending};
ghost use Rattle.quick_cache_loading.specs.Fitting.{FitsQuery};
ghost use Rattle.quick_cache_guard.specs.Acts.{LeavesFit, LeavesHeld, MayAct};
ghost use Rattle.quick_cache_guard.specs.Entries.{AnswersAsChosen, HasEntryCause, IsRefusedAsLoad};
ghost use Rattle.quick_cache_guard.specs.Answers.{WasTold};
ghost use Rattle.quick_cache_guard.specs.EntryFutures.{GivesEntry, PollsEntry};
ghost use Rattle.quick_cache_guard.specs.Futures.{AnswersOnce, IsSource, RegistersAt};

use crate::entries::EntryShard;
use crate::{EntryResult, GuardResult, LoadingShard, PlaceholderGuard, Stage, Waiting};
use futures::Future;
use futures::task::{Context, Poll};
use quick_cache_loading::waiting::{Waited, Wants};
use quick_cache_model::{EntryAction, Lifecycle, Refusal, ToKey};
use std::alloc::{Allocator, Global};
use std::hash::Hash;
use std::marker::{Model, PhantomData};
use std::mem::replace;
use std::sync::{RwLock, Wait};

/// Acts on the entry of the query's key by the callback, as `entry` does for a thread with no time
/// limit. It owns the callback until that is called under the shard's lock, once at most.
///
/// It is polled and dropped as `JoinFuture`. A poll that finds the key being loaded joins those who
/// wait; once that load has ended it looks again. One that meets a filled placeholder which is still
/// in the shard asks to be polled again. Polled after its answer it is refused as `Finished`.
#[derive(Drop)]
pub struct EntryFuture<
    'a,
    'q,
    Q: ToKey<K>,
    K: Eq + Hash + Drop,
    V: Clone,
    L: Lifecycle<K, V>,
    S: LoadingShard<K, V, L, A>,
    R: Wait,
    T: Drop,
    F: Drop,
    A: Allocator = Global,
> {
    rt: &'a R,
    shard: &'a RwLock<S>,
    query: &'q Q,
    stage: Stage<Waiting<'a, K, V, L, S, R, A>>,
    callback: Option<F>,
    of: PhantomData<T>,
}

impl<
    'a,
    'q,
    Q: ToKey<K>,
    K: Eq + Hash + Drop,
    V: Clone,
    L: Lifecycle<K, V>,
    S: LoadingShard<K, V, L, A>,
    R: Wait,
    T: Drop,
    F: Drop,
    A: Allocator,
> Model for EntryFuture<'a, 'q, Q, K, V, L, S, R, T, F, A> {
    ghost use Rattle.std.specs.Prelude.{◌≡◌, true, false, IsSome, Some};
    ghost use Rattle.std.specs.Arc.{arc_value};
    ghost use Rattle.quick_cache_guard.specs.EntryFutures.{EntryState};
    ghost use Rattle.quick_cache_guard.specs.Futures.{IfWaits, has_answered, source_of};

    ghost Value = { EntryState Q F };

    ghost view = { λ f. record {
      query = f.query.now;
      source = source_of f.stage (λ waiting. Some (arc_value waiting.load.placeholder).source.id);
      callback = f.callback;
      is_finished = has_answered f.stage;
    } };

    ghost invariant = { λ f. ((key : K) → Q.to_key_gives f.query.now key
        → Q.equivalent f.query.now key ≡ true)
        × IfWaits f.stage (λ waiting. Q.to_key_gives f.query.now waiting.load.key)
        × (has_answered f.stage ≡ false → IsSome f.callback) };
}

impl<
    'a,
    'q,
    Q: ToKey<K>,
    K: Eq + Hash + Drop,
    V: Clone,
    L: Lifecycle<K, V>,
    S: EntryShard<K, V, L, A>,
    R: Wait,
    T: Drop,
    F: FnOnce(&K, &mut V) -> EntryAction<T>,
    A: Allocator,
> EntryFuture<'a, 'q, Q, K, V, L, S, R, T, F, A> {
    /// A future that has not begun. It takes no lock.
    pub fn new(rt: &'a R, shard: &'a RwLock<S>, query: &'q Q, callback: F) -> Self
        requires stands { StandsForGiven (Q.to_key_gives query.now) (Q.equivalent query.now) }
        ensures query { result.query ≡ query.now }
        ensures callback { result.callback ≡ Some callback }
        ensures begins { result.is_finished ≡ false }
    {
        EntryFuture {
            rt,
            shard,
            query,
            stage: Stage::Looks,
            callback: Some(callback),
            of: PhantomData,
        }
    }

    /// A poll, which keeps the query, and the callback until it was called.
    pub fn poll_once(
        &mut self,
        cx: &mut Context<'_>,
    ) -> Poll<EntryResult<T, K, V, PlaceholderGuard<'a, K, V, L, S, R, A>>>
        requires callable { self.old.is_finished ≡ false → (callback : F)
            → self.old.callback ≡ Some callback
            → MayAct F.FnOnce L.fits (Q.equivalent self.old.query) callback }
        requires leaves { self.old.is_finished ≡ false
            → LeavesFit (LeavesHeld F.FnOnce self.old.callback) L.fits }
        ensures gives { IfReady result (GivesEntry F.FnOnce L.fits (Q.equivalent self.old.query)
            (Q.to_key_gives self.old.query) self.old.callback) }
        ensures chosen { IfReady result (AnswersAsChosen (LeavesHeld F.FnOnce self.old.callback)
            L.fits (Q.equivalent self.old.query) (self.new.callback ≡ self.old.callback)) }
        // Where it is refused that has its cause: what a placeholder's state told, or why a shard
        // refused.
        ensures cause { self.old.is_finished ≡ false → IfReady result (HasEntryCause
            (WasTold V.is_clone (Q.equivalent self.old.query) Wants.End false)
            (S.refuses (Q.equivalent self.old.query))) }
        ensures once { AnswersOnce IsRefusedAsLoad (EntryResult.Refused Refusal.Finished) self.old.is_finished
            result self.new.is_finished }
        ensures registers { RegistersAt self.new.source result cx.old cx.new }
        // One that stands nowhere was told to look again.
        ensures again { OnPending result (IsSome self.new.source
            ⊎ WasTold V.is_clone (Q.equivalent self.old.query) Wants.End false Waited.Again) }
        ensures query { self.new.query ≡ self.old.query }
        ensures uncalled { OnPending result (self.new.callback ≡ self.old.callback) }
    {
        match replace(&mut self.stage, Stage::Finished) {
            Stage::Looks => self.act(cx),
            Stage::Waits(waiting) => match self.wait(waiting, cx) {
                Poll::Pending => Poll::Pending,
                Poll::Ready(Some(guard)) => Poll::Ready(EntryResult::Vacant(guard)),
                Poll::Ready(None) => self.act(cx),
            },
            Stage::Finished => Poll::Ready(EntryResult::Refused(Refusal::Finished)),
        }
    }

    /// Waits until another's load ends: it may be handed the guard. Nothing is given where it ended
    /// with a value, and one has to look in the shard.
    fn wait(
        &mut self,
        waiting: Waiting<'a, K, V, L, S, R, A>,
        cx: &mut Context<'_>,
    ) -> Poll<Option<PlaceholderGuard<'a, K, V, L, S, R, A>>>
        requires taken { self.old.is_finished ≡ true }
        requires held { IsSome self.old.callback }
        requires keyed { Q.to_key_gives self.old.query waiting.load.key }
        ensures key { IfReady result (λ given. IfSome given (λ key. Q.to_key_gives self.old.query key)) }
        // It looks again only where it was told to.
        ensures again { IfReady result (λ given. IfNone given
            (WasTold V.is_clone (Q.equivalent self.old.query) Wants.End false Waited.Again)) }
        ensures taken { IfReady result (λ _. self.new.is_finished ≡ true) }
        ensures goes_on { OnPending result (self.new.is_finished ≡ false) }
        ensures waits { OnPending result (IsSome self.new.source) }
        ensures registers { RegistersAt self.new.source result cx.old cx.new }
        ensures query { self.new.query ≡ self.old.query }
        ensures callback { self.new.callback ≡ self.old.callback }
    {
        match waiting.poll(self.query, Wants::End, cx) {
            Err(waiting) => {
                self.stage = Stage::Waits(waiting);
                Poll::Pending
            }
            Ok(Some(GuardResult::Guard(guard))) => Poll::Ready(Some(guard)),
            Ok(Some(GuardResult::Value(_))) => unreachable!(),
            Ok(Some(GuardResult::Timeout)) => unreachable!(),
            Ok(Some(GuardResult::Refused(_))) => unreachable!(),
            Ok(None) => Poll::Ready(None),
        }
    }

    /// Looks in the shard, and waits where another loads the key. One who would have to look again
    /// is polled again.
    fn act(
        &mut self,
        cx: &mut Context<'_>,
    ) -> Poll<EntryResult<T, K, V, PlaceholderGuard<'a, K, V, L, S, R, A>>>
        requires taken { self.old.is_finished ≡ true }
        requires callable { IsSomeAnd self.old.callback
            (MayAct F.FnOnce L.fits (Q.equivalent self.old.query)) }
        requires leaves { LeavesFit (LeavesHeld F.FnOnce self.old.callback) L.fits }
        ensures { PollsEntry F.FnOnce L.fits V.is_clone (Q.equivalent self.old.query)
            (Q.to_key_gives self.old.query) (S.refuses (Q.equivalent self.old.query))
            self.old result self.new cx.old cx.new }
    {
        match PlaceholderGuard::act(self.rt, self.shard, self.query, &mut self.callback, false) {
            Ok(waiting) => match self.wait(waiting, cx) {
                Poll::Pending => Poll::Pending,
                Poll::Ready(Some(guard)) => Poll::Ready(EntryResult::Vacant(guard)),
                Poll::Ready(None) => self.look_again(cx),
            },
            Err(Some(answer)) => Poll::Ready(answer),
            Err(None) => self.look_again(cx),
        }
    }

    /// Asks to be polled again.
    fn look_again(
        &mut self,
        cx: &mut Context<'_>,
    ) -> Poll<EntryResult<T, K, V, PlaceholderGuard<'a, K, V, L, S, R, A>>>
        requires held { IsSome self.old.callback }
        ensures again { IfReady result (λ _. ⊥) }
        ensures goes_on { self.new.is_finished ≡ false }
        ensures registers { RegistersAt self.new.source result cx.old cx.new }
        ensures query { self.new.query ≡ self.old.query }
        ensures callback { self.new.callback ≡ self.old.callback }
    {
        self.stage = Stage::Looks;
        cx.yield_now()
    }
}

impl<
    'a,
    'q,
    Q: ToKey<K>,
    K: Eq + Hash + Drop,
    V: Clone,
    L: Lifecycle<K, V>,
    S: EntryShard<K, V, L, A>,
    R: Wait,
    T: Drop,
    F: FnOnce(&K, &mut V) -> EntryAction<T>,
    A: Allocator,
> Future for EntryFuture<'a, 'q, Q, K, V, L, S, R, T, F, A> {
    type Output = EntryResult<T, K, V, PlaceholderGuard<'a, K, V, L, S, R, A>>;

    // Until it answers, a callback that it holds may be called, and what that leaves fits.
    ghost can_poll = { λ f. (f.is_finished ≡ false → (callback : F) → f.callback ≡ Some callback
        → MayAct F.FnOnce L.fits (Q.equivalent f.query) callback)
        × (f.is_finished ≡ false → LeavesFit (LeavesHeld F.FnOnce f.callback) L.fits) };

    ghost needs = { λ f. IsSource f.source };

    // A value that is given back fits a key that the query stands for, what is told was told of such
    // a value, and a guard is for a key that the query becomes.
    ghost gives = { λ f. GivesEntry F.FnOnce L.fits (Q.equivalent f.query)
        (Q.to_key_gives f.query) f.callback };

    fn poll(&mut self, cx: &mut Context<'_>) -> Poll<Self::Output> {
        self.poll_once(cx)
    }
}
