//! Lifecycles that count what leaves, by its cause, and do all else as another one does.
ghost use Rattle.quick_cache_model.specs.declared.queue.Queue.{Queue};
ghost use Rattle.quick_cache_listeners.specs.Tallies.{ArmsCount, CountsPair};

use crate::causes::cause::Stage;
use crate::causes::listener::Request;
use crate::causes::tallies::Tallies;
use quick_cache_model::{Lifecycle, Queue, Weighter};

/// What [`Counted`] keeps in a request state: its counts, and the state of the inner lifecycle.
#[derive(Debug, Default, Drop)]
pub struct Counts<S> {
    /// What left so far.
    pub tallies: Tallies,
    /// What the inner lifecycle keeps.
    pub state: S,
}

/// The lifecycle that counts what leaves by the request state, with the weights of the first, and
/// does all else as the second. Who wants the counts of several calls hands them one request state,
/// and begins each of them by `Request::begin`.
#[derive(Debug, Clone, Default, Drop)]
pub struct Counted<W, L>(pub W, pub L);

impl<K: Eq + Drop, V: Drop, W: Weighter<K, V>, L: Lifecycle<K, V>> Lifecycle<K, V>
    for Counted<W, L> {
    type RequestState = Request<Counts<L::RequestState>>;

    ghost steady = { λ by. L.steady by.1 };

    ghost pinned = { λ by. L.pinned by.1 };

    ghost fits = { L.fits };

    ghost before_evict_gives = { λ by. ArmsCount (L.before_evict_gives by.1) };

    ghost on_evict_gives = { λ by. CountsPair (L.on_evict_gives by.1) (W.weight_of by.0) Queue.Cold };

    ghost on_evict_cold_gives = { λ by. CountsPair (L.on_evict_cold_gives by.1) (W.weight_of by.0)
        Queue.Cold };

    ghost on_evict_hot_gives = { λ by. CountsPair (L.on_evict_hot_gives by.1) (W.weight_of by.0)
        Queue.Hot };

    ghost keeps_fits = { λ by old key val new left gives. L.keeps_fits by.1 old.state.state key val
        new.state.state left gives.0 };

    ghost same_fits = { L.same_fits };

    fn is_pinned(&self, key: &K, val: &V) -> bool {
        self.1.is_pinned(key, val)
    }

    fn before_evict(&self, state: &mut Request<Counts<L::RequestState>>, key: &K, val: &mut V) {
        state.stage = Stage::Armed;
        self.1.before_evict(&mut state.state.state, key, val);
    }

    fn on_evict(&self, state: &mut Request<Counts<L::RequestState>>, key: K, val: V) {
        let cause = state.tell_next(Queue::Cold);
        state.state.tallies.count(cause, self.0.weight(&key, &val));
        self.1.on_evict(&mut state.state.state, key, val);
    }

    fn on_evict_cold(&self, state: &mut Request<Counts<L::RequestState>>, key: K, val: V) {
        let cause = state.tell_next(Queue::Cold);
        state.state.tallies.count(cause, self.0.weight(&key, &val));
        self.1.on_evict_cold(&mut state.state.state, key, val);
    }

    fn on_evict_hot(&self, state: &mut Request<Counts<L::RequestState>>, key: K, val: V) {
        let cause = state.tell_next(Queue::Hot);
        state.state.tallies.count(cause, self.0.weight(&key, &val));
        self.1.on_evict_hot(&mut state.state.state, key, val);
    }
}
