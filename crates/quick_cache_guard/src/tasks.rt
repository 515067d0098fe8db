//! Loading that a task awaits, which takes no thread: the futures of the shared cache's calls, on
//! one shard.
ghost use Rattle.std.specs.Prelude.{◌≡◌, true, false, Ok, Err};
ghost use Rattle.quick_cache_model.specs.Hashing.{StandsForGiven};
ghost use Rattle.futures.specs.Poll.{IfReady, OnPending};
ghost use Rattle.quick_cache_loading.specs.Fitting.{ClonesFit, FitsQuery};
ghost use Rattle.quick_cache_guard.specs.Answers.{WasTold};
ghost use Rattle.quick_cache_guard.specs.Futures.{GivesOnce, Registers};
ghost use Rattle.quick_cache_guard.specs.Loaders.{HasPlace, IfLoaded, LoadsSo, MayLoad, NeedsOf, PollsLoad};

pub use crate::future::JoinFuture as ValueOrGuard;
use crate::{JoinFuture, LoadingShard, PlaceholderGuard};
use futures::Future;
use futures::task::{Context, Poll};
use quick_cache_loading::waiting::Wants;
use quick_cache_model::{Lifecycle, Refusal, ToKey};
use std::alloc::{Allocator, Global};
use std::hash::Hash;
use std::marker::{Model, PhantomData};
use std::mem::replace;
use std::sync::{RwLock, Wait};

/// Where a future stands that loads.
#[derive(Drop)]
pub enum Loading<J, G> {
    /// It asks for the value or the guard.
    Asks(J),
    /// It has the guard, and polls the loader.
    Loads(G),
    /// It has answered.
    Finished,
}

/// Gives the value under the query's key, or the one that the loader's future gives, which is put
/// in, as `get_or_insert_with` does for a thread.
///
/// The loader's future is polled under no lock, and only once this one holds the guard. What it
/// gives is answered also where it could not be kept. A drop gives the guard up. Polled after its
/// answer it is refused as `Finished`.
#[derive(Drop)]
pub struct GetOrInsert<
    'a,
    Q: ToKey<K>,
    K: Eq + Hash + Drop,
    V: Clone,
    L: Lifecycle<K, V>,
    S: LoadingShard<K, V, L, A>,
    R: Wait,
    F: Future<Output = Result<V, E>>,
    E: Drop,
    A: Allocator = Global,
> {
    query: &'a Q,
    loading: Loading<
        JoinFuture<'a, 'a, Q, K, V, L, S, R, A>,
        PlaceholderGuard<'a, K, V, L, S, R, A>,
    >,
    loader: F,
    of: PhantomData<E>,
}

impl<
    'a,
    Q: ToKey<K>,
    K: Eq + Hash + Drop,
    V: Clone,
    L: Lifecycle<K, V>,
    S: LoadingShard<K, V, L, A>,
    R: Wait,
    F: Future<Output = Result<V, E>>,
    E: Drop,
    A: Allocator,
> Model for GetOrInsert<'a, Q, K, V, L, S, R, F, E, A> {
    ghost use Rattle.std.specs.Prelude.{◌≡◌, true, false, Ok};
    ghost use Rattle.quick_cache_loading.specs.Fitting.{ClonesFit};
    ghost use Rattle.quick_cache_guard.specs.Loaders.{IfAsks, IfLoads, LoadState, MayLoad, asked_source, has_answered, has_guard};

    ghost Value = { LoadState Q F };

    ghost view = { λ f. record {
      query = f.query.now;
      source = asked_source f.loading;
      loader = f.loader;
      has_guard = has_guard f.loading;
      is_finished = has_answered f.loading;
    } };

    ghost invariant = { λ f. ((key : K) → Q.to_key_gives f.query.now key
        → Q.equivalent f.query.now key ≡ true)
        × IfAsks f.loading (λ joining. (joining.query ≡ f.query.now)
        × (joining.is_finished ≡ false))
        × IfLoads f.loading (λ key. Q.to_key_gives f.query.now key)
        × ClonesFit L.fits V.is_clone
        × (has_answered f.loading ≡ false
        → MayLoad F.can_poll F.gives L.fits (Q.to_key_gives f.query.now) f.loader) };
}

impl<
    'a,
    Q: ToKey<K>,
    K: Eq + Hash + Drop,
    V: Clone,
    L: Lifecycle<K, V>,
    S: LoadingShard<K, V, L, A>,
    R: Wait,
    F: Future<Output = Result<V, E>>,
    E: Drop,
    A: Allocator,
> GetOrInsert<'a, Q, K, V, L, S, R, F, E, A>
where
    L::RequestState: Drop,
{
    /// A future that has not begun. It takes no lock.
    pub fn new(rt: &'a R, shard: &'a RwLock<S>, query: &'a Q, loader: F) -> Self
        requires stands { StandsForGiven (Q.to_key_gives query.now) (Q.equivalent query.now) }
        requires loader { F.can_poll loader }
        // What it gives fits each key that the query becomes, and so do the clones of what fits.
        requires loads { (value : V) → F.gives loader (Ok value) → (key : K)
            → Q.to_key_gives query.now key → L.fits key value }
        requires clones { ClonesFit L.fits V.is_clone }
        ensures query { result.query ≡ query.now }
        ensures loader { result.loader ≡ loader }
        ensures begins { result.is_finished ≡ false }
    {
        GetOrInsert {
            query,
            loading: Loading::Asks(JoinFuture::new(rt, shard, query)),
            loader,
            of: PhantomData,
        }
    }

    /// A poll, which keeps the query.
    pub fn poll_once(&mut self, cx: &mut Context<'_>) -> Poll<Result<Result<V, E>, Refusal>>
        ensures gives { IfReady result (IfLoaded
            (λ value. FitsQuery L.fits (Q.equivalent self.old.query) value)
            (λ error. F.gives self.old.loader (Err error))) }
        // A value was found, or came, or the loader gave it; and a refusal has its cause.
        ensures cause { self.old.is_finished ≡ false → IfReady result (LoadsSo
            (WasTold V.is_clone (Q.equivalent self.old.query) Wants.Value false)
            (S.shows (Q.equivalent self.old.query)) (S.refuses (Q.equivalent self.old.query))
            (λ value. F.gives self.old.loader (Ok value))) }
        ensures once { GivesOnce self.old.is_finished result self.new.is_finished }
        ensures registers { Registers (HasPlace self.new)
            (NeedsOf F.needs self.new.has_guard self.new.source self.new.loader) result
            cx.old cx.new }
        ensures query { self.new.query ≡ self.old.query }
        ensures loader { OnPending result ((x : _) → F.gives self.new.loader x
            → F.gives self.old.loader x) }
    {
        match replace(&mut self.loading, Loading::Finished) {
            Loading::Asks(joining) => self.ask(joining, cx),
            Loading::Loads(guard) => self.load(guard, cx),
            Loading::Finished => Poll::Ready(Err(Refusal::Finished)),
        }
    }

    /// Asks for the value or the guard.
    fn ask(
        &mut self,
        joining: JoinFuture<'a, 'a, Q, K, V, L, S, R, A>,
        cx: &mut Context<'_>,
    ) -> Poll<Result<Result<V, E>, Refusal>>
        requires taken { self.old.is_finished ≡ true }
        requires query { joining.query ≡ self.old.query }
        requires goes_on { joining.is_finished ≡ false }
        requires loads { MayLoad F.can_poll F.gives L.fits (Q.to_key_gives self.old.query) self.old.loader }
        requires clones { ClonesFit L.fits V.is_clone }
        ensures { PollsLoad L.fits V.is_clone (Q.equivalent self.old.query)
            (S.shows (Q.equivalent self.old.query)) (S.refuses (Q.equivalent self.old.query))
            F.gives F.needs self.old result self.new cx.old cx.new }
    {
        let mut joining = joining;
        match joining.poll_once(cx) {
            Poll::Pending => {
                self.loading = Loading::Asks(joining);
                Poll::Pending
            }
            Poll::Ready(Ok(Ok(value))) => Poll::Ready(Ok(Ok(value))),
            Poll::Ready(Ok(Err(guard))) => self.load(guard, cx),
            Poll::Ready(Err(refusal)) => Poll::Ready(Err(refusal)),
        }
    }

    /// Polls the loader, and fills the guard with what it gives.
    fn load(
        &mut self,
        guard: PlaceholderGuard<'a, K, V, L, S, R, A>,
        cx: &mut Context<'_>,
    ) -> Poll<Result<Result<V, E>, Refusal>>
        requires taken { self.old.is_finished ≡ true }
        requires keyed { Q.to_key_gives self.old.query guard }
        requires loads { MayLoad F.can_poll F.gives L.fits (Q.to_key_gives self.old.query) self.old.loader }
        ensures { PollsLoad L.fits V.is_clone (Q.equivalent self.old.query)
            (S.shows (Q.equivalent self.old.query)) (S.refuses (Q.equivalent self.old.query))
            F.gives F.needs self.old result self.new cx.old cx.new }
    {
        match self.loader.poll(cx) {
            Poll::Pending => {
                self.loading = Loading::Loads(guard);
                Poll::Pending
            }
            Poll::Ready(loaded) => Poll::Ready(Ok(guard.keep(loaded))),
        }
    }
}

impl<
    'a,
    Q: ToKey<K>,
    K: Eq + Hash + Drop,
    V: Clone,
    L: Lifecycle<K, V>,
    S: LoadingShard<K, V, L, A>,
    R: Wait,
    F: Future<Output = Result<V, E>>,
    E: Drop,
    A: Allocator,
> Future for GetOrInsert<'a, Q, K, V, L, S, R, F, E, A>
where
    L::RequestState: Drop,
{
    type Output = Result<Result<V, E>, Refusal>;

    // The source of the placeholder, or what the loader waits for.
    ghost needs = { λ f. NeedsOf F.needs f.has_guard f.source f.loader };

    // The value fits a key that the query stands for, and an error is one that the loader gives.
    ghost gives = { λ f. IfLoaded (λ value. FitsQuery L.fits (Q.equivalent f.query) value)
        (λ error. F.gives f.loader (Err error)) };

    fn poll(&mut self, cx: &mut Context<'_>) -> Poll<Self::Output> {
        self.poll_once(cx)
    }
}
