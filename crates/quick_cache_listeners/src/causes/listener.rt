//! A lifecycle made of a listener that is told of each pair that leaves, and why.
ghost use Rattle.std.specs.Prelude.{◌≡◌};
ghost use Rattle.quick_cache_model.specs.declared.queue.Queue.{Queue};
ghost use Rattle.quick_cache_listeners.specs.declared.causes.cause.Cause.{Cause};
ghost use Rattle.quick_cache_listeners.specs.declared.causes.cause.Stage.{Stage};
ghost use Rattle.quick_cache_listeners.specs.Causes.{cause_at};
ghost use Rattle.quick_cache_listeners.specs.Requests.{Arms, TellsWhy};

use crate::causes::cause::{Cause, Stage};
use crate::listener::Ignore;
use quick_cache_model::{Lifecycle, Queue};

/// Is told of each pair that is evicted, replaced or turned away, and why.
pub trait ListenerWhy<K, V>: Drop {
    /// What a call keeps between the pairs that it tells of.
    type State: Default;

    /// From a state, at a pair that leaves for that cause, to the state after: anything, where the
    /// listener says no more.
    ghost tells: { Self → Self.State → K → V → Cause → Self.State → Type 0 } = { λ _ _ _ _ _ _. Unit {0} };

    /// Takes a pair that left.
    fn tell(&self, state: &mut Self::State, key: K, val: V, cause: Cause)
        ensures { tells self.now state.old key val cause state.new };
}

/// Drops what leaves.
impl<K: Drop, V: Drop> ListenerWhy<K, V> for Ignore {
    type State = ();

    fn tell(&self, _state: &mut (), _key: K, _val: V, _cause: Cause) {}
}

/// What a call keeps: the state of its listener or lifecycle, and what its last hook was.
#[derive(Debug, Drop)]
pub struct Request<S> {
    /// What the listener keeps.
    pub state: S,
    /// What the last hook was.
    pub stage: Stage,
}

impl<S: Default> Default for Request<S> {
    // It begins a call, so that the laws of the causes hold of a call with a state of its own.
    ghost is_default = { λ request. S.is_default request.state × (request.stage ≡ Stage.Fresh) };

    fn default() -> Self {
        Request {
            state: S::default(),
            stage: Stage::Fresh,
        }
    }
}

impl<S> Request<S> {
    /// Begins a call with this state.
    pub fn with(state: S) -> Self
        ensures { result ≡ record { state = state; stage = Stage.Fresh } }
    {
        Request {
            state,
            stage: Stage::Fresh,
        }
    }

    /// Begins another call with what was kept in the last one. Who hands one request state to
    /// several calls begins each of them so: else the first pair of a call is told as if the last
    /// call went on.
    pub fn begin(&mut self)
        ensures { self.new ≡ record self.old { stage = Stage.Fresh } }
    {
        self.stage = Stage::Fresh;
    }

    // Why the pair leaves that the hook of this ring is told now.
    pub(super) fn tell_next(&mut self, queue: Queue) -> Cause
        ensures cause { result ≡ cause_at self.old.stage queue }
        ensures told { self.new ≡ record self.old { stage = Stage.Told } }
    {
        let cause = self.stage.cause(queue);
        self.stage = Stage::Told;
        cause
    }
}

/// The lifecycle that pins nothing, leaves each victim's value as it is, and hands each pair that
/// leaves to its listener, with the cause that the order of the hooks shows. [`Cause`] says where
/// that is the truth.
#[derive(Debug, Clone, Default, Drop)]
pub struct OnLeaveWhy<L>(pub L);

impl<K: Eq + Drop, V: Drop, L: ListenerWhy<K, V>> Lifecycle<K, V> for OnLeaveWhy<L> {
    type RequestState = Request<L::State>;

    ghost before_evict_gives = { λ _ old _ value new left. Arms old value new left };

    ghost on_evict_gives = { λ told. TellsWhy (L.tells told.0) Queue.Cold };

    ghost on_evict_cold_gives = { λ told. TellsWhy (L.tells told.0) Queue.Cold };

    ghost on_evict_hot_gives = { λ told. TellsWhy (L.tells told.0) Queue.Hot };

    ghost keeps_fits = { λ _ _ _ _ _ _ _ fits. fits };

    ghost same_fits = { λ _ _ _ _ fits. fits };

    fn is_pinned(&self, _key: &K, _val: &V) -> bool {
        false
    }

    fn before_evict(&self, state: &mut Request<L::State>, _key: &K, _val: &mut V) {
        state.stage = Stage::Armed;
    }

    fn on_evict(&self, state: &mut Request<L::State>, key: K, val: V) {
        self.on_evict_cold(state, key, val);
    }

    fn on_evict_cold(&self, state: &mut Request<L::State>, key: K, val: V) {
        let cause = state.tell_next(Queue::Cold);
        self.0.tell(&mut state.state, key, val, cause);
    }

    fn on_evict_hot(&self, state: &mut Request<L::State>, key: K, val: V) {
        let cause = state.tell_next(Queue::Hot);
        self.0.tell(&mut state.state, key, val, cause);
    }
}
