//! A value, or the guard of a key that is absent, for a task, which waits without a thread.
ghost use Rattle.std.specs.Prelude.{◌≡◌, ◌⊎◌, true, false, Some, Err, IsSome, IfSome};
ghost use Rattle.quick_cache_model.specs.Hashing.{StandsForGiven};
ghost use Rattle.futures.specs.Poll.{IfReady, OnPending};
ghost use Rattle.quick_cache_guard.specs.Answers.{GivesSo, HasCause, IsAnswered, WasTold, is_timeout};
ghost use Rattle.quick_cache_guard.specs.Futures.{GivesFor, GivesOnce, IsSource, PollsFor, RegistersAt};
ghost use Rattle.quick_cache_loading.specs.Fitting.{FitsIfClonesDo};
ghost use Rattle.quick_cache_loading.specs.declared.waiting.waited.Waited.{Waited};

use crate::joining::output;
use crate::{GuardResult, PlaceholderGuard, Waiting};
use futures::Future;
use futures::task::{Context, Poll};
use quick_cache_loading::sharing::LoadingShard;
use quick_cache_loading::waiting::Wants;
use quick_cache_model::{Lifecycle, Refusal, ToKey};
use std::alloc::{Allocator, Global};
use std::hash::Hash;
use std::marker::Model;
use std::mem::replace;
use std::sync::{RwLock, Wait};

/// Where a future stands that waits by a `W`. A poll takes it, and gives it another where the future
/// does not answer.
#[derive(Drop)]
pub enum Stage<W> {
    /// It looks in the shard.
    Looks,
    /// It waits for another's load.
    Waits(W),
    /// It has answered.
    Finished,
}

/// Gives the value under the query's key, or the right to load it, as `get_value_or_guard` does for
/// a thread with no time limit.
///
/// It looks under the shard's read lock first. A poll takes the shard's lock and that of a
/// placeholder's state, and waits for nothing else. One that is pending has left its waker in the
/// state, or has asked to be polled again. Polled after its answer it is refused as `Finished`.
/// Dropped, it waits no more.
#[derive(Drop)]
pub struct JoinFuture<
    'a,
    'q,
    Q: ToKey<K>,
    K: Eq + Hash + Drop,
    V: Clone,
    L: Lifecycle<K, V>,
    S: LoadingShard<K, V, L, A>,
    R: Wait,
    A: Allocator = Global,
> {
    rt: &'a R,
    shard: &'a RwLock<S>,
    query: &'q Q,
    stage: Stage<Waiting<'a, K, V, L, S, R, A>>,
}

impl<
    'a,
    'q,
    Q: ToKey<K>,
    K: Eq + Hash + Drop,
    V: Clone,
    L: Lifecycle<K, V>,
    S: LoadingShard<K, V, L, A>,
    R: Wait,
    A: Allocator,
> Model for JoinFuture<'a, 'q, Q, K, V, L, S, R, A> {
    ghost use Rattle.std.specs.Prelude.{◌≡◌, true, Some};
    ghost use Rattle.std.specs.Arc.{arc_value};
    ghost use Rattle.quick_cache_guard.specs.Futures.{IfWaits, Joining, has_answered, source_of};

    ghost Value = { Joining Q };

    ghost view = { λ f. record {
      query = f.query.now;
      source = source_of f.stage (λ waiting. Some (arc_value waiting.load.placeholder).source.id);
      is_finished = has_answered f.stage;
    } };

    ghost invariant = { λ f. ((key : K) → Q.to_key_gives f.query.now key
        → Q.equivalent f.query.now key ≡ true)
        × IfWaits f.stage (λ waiting. Q.to_key_gives f.query.now waiting.load.key) };
}

impl<
    'a,
    'q,
    Q: ToKey<K>,
    K: Eq + Hash + Drop,
    V: Clone,
    L: Lifecycle<K, V>,
    S: LoadingShard<K, V, L, A>,
    R: Wait,
    A: Allocator,
> JoinFuture<'a, 'q, Q, K, V, L, S, R, A> {
    /// A future that has not begun. It takes no lock.
    pub fn new(rt: &'a R, shard: &'a RwLock<S>, query: &'q Q) -> Self
        requires stands { StandsForGiven (Q.to_key_gives query.now) (Q.equivalent query.now) }
        ensures query { result.query ≡ query.now }
        ensures begins { result.is_finished ≡ false }
    {
        JoinFuture {
            rt,
            shard,
            query,
            stage: Stage::Looks,
        }
    }

    /// A poll, which keeps the query.
    pub fn poll_once(
        &mut self,
        cx: &mut Context<'_>,
    ) -> Poll<Result<Result<V, PlaceholderGuard<'a, K, V, L, S, R, A>>, Refusal>>
        ensures gives { IfReady result (GivesFor L.fits V.is_clone (Q.equivalent self.old.query)
            (Q.to_key_gives self.old.query)) }
        ensures once { GivesOnce self.old.is_finished result self.new.is_finished }
        ensures registers { RegistersAt self.new.source result cx.old cx.new }
        // The answer has its cause: what a placeholder's state told, what a shard showed, or why it
        // refused.
        ensures cause { self.old.is_finished ≡ false → IfReady result (GivesSo
            (WasTold V.is_clone (Q.equivalent self.old.query) Wants.Value false)
            (S.shows (Q.equivalent self.old.query)) (S.refuses (Q.equivalent self.old.query))) }
        // One that stands nowhere was told to look again.
        ensures again { OnPending result (IsSome self.new.source
            ⊎ WasTold V.is_clone (Q.equivalent self.old.query) Wants.Value false Waited.Again) }
        ensures query { self.new.query ≡ self.old.query }
    {
        match replace(&mut self.stage, Stage::Finished) {
            Stage::Looks => self.join(cx),
            Stage::Waits(waiting) => self.wait(waiting, cx),
            Stage::Finished => Poll::Ready(Err(Refusal::Finished)),
        }
    }

    /// Looks in the shard, and waits where another loads the key.
    fn join(
        &mut self,
        cx: &mut Context<'_>,
    ) -> Poll<Result<Result<V, PlaceholderGuard<'a, K, V, L, S, R, A>>, Refusal>>
        requires taken { self.old.is_finished ≡ true }
        ensures { PollsFor L.fits V.is_clone (Q.equivalent self.old.query) (Q.to_key_gives self.old.query)
            (S.shows (Q.equivalent self.old.query)) (S.refuses (Q.equivalent self.old.query))
            self.old result self.new cx.old cx.new }
    {
        match PlaceholderGuard::find(self.rt, self.shard, self.query) {
            Ok(Some(value)) => Poll::Ready(Ok(Ok(value))),
            Ok(None) => match PlaceholderGuard::join_once(self.rt, self.shard, self.query, false) {
                Ok(waiting) => self.wait(waiting, cx),
                Err(told) => self.give(told, cx),
            },
            Err(refusal) => Poll::Ready(Err(refusal)),
        }
    }

    /// Looks whether the guard or the value has come to the waiter, which waits on where neither has.
    fn wait(
        &mut self,
        waiting: Waiting<'a, K, V, L, S, R, A>,
        cx: &mut Context<'_>,
    ) -> Poll<Result<Result<V, PlaceholderGuard<'a, K, V, L, S, R, A>>, Refusal>>
        requires taken { self.old.is_finished ≡ true }
        requires keyed { Q.to_key_gives self.old.query waiting.load.key }
        ensures { PollsFor L.fits V.is_clone (Q.equivalent self.old.query) (Q.to_key_gives self.old.query)
            (S.shows (Q.equivalent self.old.query)) (S.refuses (Q.equivalent self.old.query))
            self.old result self.new cx.old cx.new }
    {
        match waiting.poll(self.query, Wants::Value, cx) {
            Err(waiting) => {
                self.stage = Stage::Waits(waiting);
                Poll::Pending
            }
            Ok(told) => self.give(told, cx),
        }
    }

    /// What a poll answers. One that has to look in the shard again is polled again.
    fn give(
        &mut self,
        told: Option<GuardResult<V, PlaceholderGuard<'a, K, V, L, S, R, A>>>,
        cx: &mut Context<'_>,
    ) -> Poll<Result<Result<V, PlaceholderGuard<'a, K, V, L, S, R, A>>, Refusal>>
        requires taken { self.old.is_finished ≡ true }
        requires answers { IfSome told (IsAnswered
            (FitsIfClonesDo L.fits V.is_clone (Q.equivalent self.old.query))
            (Q.to_key_gives self.old.query)) }
        requires cause { HasCause
            (WasTold V.is_clone (Q.equivalent self.old.query) Wants.Value false)
            (S.shows (Q.equivalent self.old.query)) (S.refuses (Q.equivalent self.old.query)) told }
        requires timely { IfSome told (λ answer. is_timeout answer ≡ false) }
        ensures { PollsFor L.fits V.is_clone (Q.equivalent self.old.query) (Q.to_key_gives self.old.query)
            (S.shows (Q.equivalent self.old.query)) (S.refuses (Q.equivalent self.old.query))
            self.old result self.new cx.old cx.new }
    {
        let Some(output) = output(told) else {
            self.stage = Stage::Looks;
            return cx.yield_now();
        };
        Poll::Ready(output)
    }
}

impl<
    'a,
    'q,
    Q: ToKey<K>,
    K: Eq + Hash + Drop,
    V: Clone,
    L: Lifecycle<K, V>,
    S: LoadingShard<K, V, L, A>,
    R: Wait,
    A: Allocator,
> Future for JoinFuture<'a, 'q, Q, K, V, L, S, R, A> {
    type Output = Result<Result<V, PlaceholderGuard<'a, K, V, L, S, R, A>>, Refusal>;

    // Once it waits, the source of its placeholder.
    ghost needs = { λ f. IsSource f.source };

    // The value fits a key that the query stands for, and the guard is for a key that it becomes.
    ghost gives = { λ f. GivesFor L.fits V.is_clone (Q.equivalent f.query)
        (Q.to_key_gives f.query) };

    fn poll(&mut self, cx: &mut Context<'_>) -> Poll<Self::Output> {
        self.poll_once(cx)
    }
}
