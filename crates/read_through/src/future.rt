//! The value of a key for a task, which waits without a thread.
ghost use Rattle.std.specs.Prelude.{◌≡◌, IsTrue, true, false, Err, IfErr, IfOk, IfSome, IsSome};
ghost use Rattle.futures.specs.Poll.{IfReady};
ghost use Rattle.quick_cache_guard.specs.Answers.{IsLoadRefusal};
ghost use Rattle.quick_cache_guard.specs.Futures.{AnswersOnce, IsSource, Registers};
ghost use Rattle.read_through.specs.Answers.{Answers, GivesClones, IsOf};
ghost use Rattle.read_through.specs.Loads.{LoadsFrom};

use crate::answering::store;
use crate::fresh::Fresh;
use crate::given::Source;
use crate::lives::Lives;
use crate::reading::{ReadThrough, ShardOf};
use futures::Future;
use futures::task::{Context, Poll};
use quick_cache_expiring::Loaded;
use quick_cache_guard::tasks::ValueOrGuard;
use quick_cache_guard::{EntryResult, PlaceholderGuard, Stage};
use quick_cache_model::{DefaultHashBuilder, Refusal, Weighter};
use std::alloc::Allocator;
use std::hash::{BuildHasher, Hash};
use std::marker::Model;
use std::mem::replace;
use std::sync::Wait;
use std::sync::atomic::Ordering;
use std::time::{Clock, Duration};

/// Gives the value of the key, as `get` does for a thread.
///
/// A poll takes the lock of the key's shard and that of a placeholder's state, and waits for nothing
/// else but the loader, which it calls itself, under no lock, once it has the guard. One that is
/// pending has left its waker with the one who loads the key, or has asked to be polled again.
/// Polled after its answer it is refused as `Finished`. Dropped, it waits no more, as `ValueOrGuard`.
#[derive(Drop)]
pub struct GetFuture<
    'a,
    K: Eq + Hash + Clone + Drop,
    V: Clone + Drop,
    F,
    S: Source<K, V>,
    A: Allocator + Clone,
    Li,
    We: Weighter<K, V>,
    R: Wait,
    B: BuildHasher = DefaultHashBuilder,
> {
    rt: &'a R,
    reading: &'a ReadThrough<K, V, F, S, A, Li, We, B>,
    key: &'a K,
    now: u64,
    stage: Stage<ValueOrGuard<'a, 'a, K, K, Loaded<V>, Fresh<S>, ShardOf<K, V, S, A, We, B>, R, A>>,
}

impl<
    'a,
    K: Eq + Hash + Clone + Drop,
    V: Clone + Drop,
    F,
    S: Source<K, V>,
    A: Allocator + Clone,
    Li,
    We: Weighter<K, V>,
    R: Wait,
    B: BuildHasher,
> Model for GetFuture<'a, K, V, F, S, A, Li, We, R, B> {
    ghost use Rattle.std.specs.Prelude.{◌≡◌, IsTrue, false};
    ghost use Rattle.quick_cache_guard.specs.Futures.{IfWaits, has_answered, source_of};
    ghost use Rattle.read_through.specs.Answers.{GivesClones};
    ghost use Rattle.read_through.specs.Reading.{Asking};

    ghost Value = { Asking K Li F };

    ghost view = { λ f. record {
      reading = f.reading.now;
      key = f.key.now;
      moment = f.now;
      source = source_of f.stage (λ waiting. waiting.source);
      is_finished = has_answered f.stage;
    } };

    ghost invariant = { λ f. ((copy : K) → K.is_clone f.key.now copy
        → IsTrue (K.eq f.key.now copy))
        × GivesClones S.gives V.is_clone
        × IfWaits f.stage (λ waiting. (waiting.query ≡ f.key.now)
        × (waiting.is_finished ≡ false)) };
}

impl<
    'a,
    K: Eq + Hash + Clone + Drop,
    V: Clone + Drop,
    F: Fn(&K, u64) -> V,
    S: Source<K, V>,
    A: Allocator + Clone,
    Li: Lives<K, V>,
    We: Weighter<K, V>,
    R: Wait + Clock,
    B: BuildHasher,
> GetFuture<'a, K, V, F, S, A, Li, We, R, B> {
    /// A future that has not begun. It takes no lock.
    pub(crate) fn new(
        rt: &'a R,
        reading: &'a ReadThrough<K, V, F, S, A, Li, We, B>,
        key: &'a K,
        now: u64,
    ) -> Self
        requires keys { (copy : K) → K.is_clone key.now copy → IsTrue (K.eq key.now copy) }
        requires clones { GivesClones S.gives V.is_clone }
        ensures reading { result.reading ≡ reading.now }
        ensures key { result.key ≡ key.now }
        ensures moment { result.moment ≡ now }
        ensures begins { result.is_finished ≡ false }
    {
        GetFuture {
            rt,
            reading,
            key,
            now,
            stage: Stage::Looks,
        }
    }

    /// A poll, which keeps what is asked.
    pub fn poll_once(&mut self, cx: &mut Context<'_>) -> Poll<Result<V, Refusal>>
        requires callable { F.IsAlwaysCallable self.old.reading.loader }
        requires loads { LoadsFrom F.Fn self.old.reading.loader S.gives }
        ensures fresh { IfReady result (λ answer. IfOk answer (Answers S.gives K.eq self.old.key
            (Li.life_of self.old.reading.lives self.old.key) self.old.moment)) }
        // It is refused as a load is, and answers once; then it is refused as `Finished`.
        ensures once { AnswersOnce (λ answer. IfErr answer IsLoadRefusal) (Err Refusal.Finished)
            self.old.is_finished result self.new.is_finished }
        ensures registers { Registers (IsSome self.new.source) (IsSource self.new.source) result
            cx.old cx.new }
        ensures same { self.new ≡ record self.old {
          source = self.new.source;
          is_finished = self.new.is_finished;
        } }
    {
        let reading = self.reading;
        let mut waiting = match replace(&mut self.stage, Stage::Finished) {
            Stage::Looks => reading.cache.get_value_or_guard_async(self.rt, self.key),
            Stage::Waits(waiting) => waiting,
            Stage::Finished => return Poll::Ready(Err(Refusal::Finished)),
        };
        match waiting.poll_once(cx) {
            Poll::Pending => {
                self.stage = Stage::Waits(waiting);
                Poll::Pending
            }
            Poll::Ready(Ok(Ok(found))) => self.take(found, cx),
            Poll::Ready(Ok(Err(guard))) => {
                let mut guard = Some(guard);
                Poll::Ready(Ok(self.load(&mut guard)))
            }
            // What could not be cloned may be too old to be.
            Poll::Ready(Err(Refusal::Memory)) => self.look(cx),
            Poll::Ready(Err(refusal)) => Poll::Ready(Err(refusal)),
        }
    }

    /// Answers what was found where it serves, and looks once more where it is too old.
    fn take(&mut self, found: Loaded<V>, cx: &mut Context<'_>) -> Poll<Result<V, Refusal>>
        requires taken { self.old.is_finished ≡ true }
        requires source { IsOf S.gives K.eq self.old.key found.moment found.value }
        requires callable { F.IsAlwaysCallable self.old.reading.loader }
        requires loads { LoadsFrom F.Fn self.old.reading.loader S.gives }
        ensures fresh { IfReady result (λ answer. IfOk answer (Answers S.gives K.eq self.old.key
            (Li.life_of self.old.reading.lives self.old.key) self.old.moment)) }
        ensures once { AnswersOnce (λ answer. IfErr answer IsLoadRefusal) (Err Refusal.Finished)
            false result self.new.is_finished }
        ensures registers { Registers (IsSome self.new.source) (IsSource self.new.source) result
            cx.old cx.new }
        ensures same { self.new ≡ record self.old {
          source = self.new.source;
          is_finished = self.new.is_finished;
        } }
    {
        let reading = self.reading;
        let life = reading.lives.life(self.key, &found.value, found.moment);
        if found.serves(life, self.now) {
            return Poll::Ready(Ok(found.value));
        }
        reading.not_hits.fetch_add(1, Ordering::SeqCst);
        self.look(cx)
    }

    /// Looks once more at what is stored, and loads where it does not serve. Where another loads the
    /// key by now, the next poll begins anew.
    fn look(&mut self, cx: &mut Context<'_>) -> Poll<Result<V, Refusal>>
        requires taken { self.old.is_finished ≡ true }
        requires callable { F.IsAlwaysCallable self.old.reading.loader }
        requires loads { LoadsFrom F.Fn self.old.reading.loader S.gives }
        ensures fresh { IfReady result (λ answer. IfOk answer (Answers S.gives K.eq self.old.key
            (Li.life_of self.old.reading.lives self.old.key) self.old.moment)) }
        ensures once { AnswersOnce (λ answer. IfErr answer IsLoadRefusal) (Err Refusal.Finished)
            false result self.new.is_finished }
        ensures registers { Registers (IsSome self.new.source) (IsSource self.new.source) result
            cx.old cx.new }
        ensures same { self.new ≡ record self.old {
          source = self.new.source;
          is_finished = self.new.is_finished;
        } }
    {
        let reading = self.reading;
        let nobody_waits = Some(Duration::ZERO);
        match reading.look_anew(self.rt, self.key, self.now, nobody_waits) {
            EntryResult::Retained(value) => Poll::Ready(Ok(value)),
            EntryResult::Replaced(guard, _old) => {
                let mut guard = Some(guard);
                Poll::Ready(Ok(self.load(&mut guard)))
            }
            EntryResult::Vacant(guard) => {
                let mut guard = Some(guard);
                Poll::Ready(Ok(self.load(&mut guard)))
            }
            // There was no memory for a guard.
            EntryResult::Removed(_, _) => Poll::Ready(Ok(self.load(&mut None))),
            EntryResult::Timeout => {
                self.stage = Stage::Looks;
                cx.yield_now()
            }
            EntryResult::Refused(refusal) => Poll::Ready(Err(refusal)),
        }
    }

    /// Calls the loader, stores what it gives by the guard, and gives that.
    fn load(
        &self,
        guard: &mut Option<
            PlaceholderGuard<'a, K, Loaded<V>, Fresh<S>, ShardOf<K, V, S, A, We, B>, R, A>,
        >,
    ) -> V
        requires same { IfSome guard.old (λ guard. IsTrue (K.eq self.now.key guard)) }
        requires callable { F.IsAlwaysCallable self.now.reading.loader }
        requires loads { LoadsFrom F.Fn self.now.reading.loader S.gives }
        ensures { Answers S.gives K.eq self.entry.now.key
            (Li.life_of self.entry.now.reading.lives self.entry.now.key) self.entry.now.moment
            result }
    {
        let reading = self.reading;
        let value = reading.load(self.key, self.now);
        reading.loads.fetch_add(1, Ordering::SeqCst);
        store(guard, self.key, self.now, value)
    }
}

impl<
    'a,
    K: Eq + Hash + Clone + Drop,
    V: Clone + Drop,
    F: Fn(&K, u64) -> V,
    S: Source<K, V>,
    A: Allocator + Clone,
    Li: Lives<K, V>,
    We: Weighter<K, V>,
    R: Wait + Clock,
    B: BuildHasher,
> Future for GetFuture<'a, K, V, F, S, A, Li, We, R, B> {
    type Output = Result<V, Refusal>;

    // The loader may be called, and what it gives is the source's.
    ghost can_poll = { λ f. F.IsAlwaysCallable f.reading.loader
        × LoadsFrom F.Fn f.reading.loader S.gives };

    // Once it waits, the source of its placeholder.
    ghost needs = { λ f. IsSource f.source };

    // The value is the source's for the key, and fresh.
    ghost gives = { λ f answer. IfOk answer (Answers S.gives K.eq f.key
        (Li.life_of f.reading.lives f.key) f.moment) };

    fn poll(&mut self, cx: &mut Context<'_>) -> Poll<Self::Output> {
        self.poll_once(cx)
    }
}
