//! A lifecycle that counts what leaves, by its cause, for caches that threads share.
ghost use Rattle.quick_cache_listeners.specs.Requests.{ArmsOver, TellsOver};

use crate::causes::cause::Stage;
use crate::causes::listener::Request;
use crate::causes::tallies::SharedTallies;
use quick_cache_model::{Lifecycle, Queue, Weighter};
use std::alloc::{Allocator, Global};
use std::sync::Arc;

/// The lifecycle that counts what leaves into tallies that threads share, with the weights of its
/// weigher, and does all else as the inner one. A clone counts into the same tallies. It takes no
/// lock; each pair costs two atomic additions.
#[derive(Clone, Drop)]
pub struct CountedByThreads<W, L, A: Allocator = Global> {
    /// What left so far.
    pub tallies: Arc<SharedTallies, A>,
    /// Weighs what leaves.
    pub weigher: W,
    /// Does all else.
    pub inner: L,
}

impl<K: Eq + Drop, V: Drop, W: Weighter<K, V>, L: Lifecycle<K, V>, A: Allocator> Lifecycle<K, V>
    for CountedByThreads<W, L, A> {
    type RequestState = Request<L::RequestState>;

    ghost steady = { λ by. L.steady by.inner };

    ghost pinned = { λ by. L.pinned by.inner };

    ghost fits = { L.fits };

    ghost before_evict_gives = { λ by. ArmsOver (L.before_evict_gives by.inner) };

    ghost on_evict_gives = { λ by. TellsOver (L.on_evict_gives by.inner) };

    ghost on_evict_cold_gives = { λ by. TellsOver (L.on_evict_cold_gives by.inner) };

    ghost on_evict_hot_gives = { λ by. TellsOver (L.on_evict_hot_gives by.inner) };

    ghost keeps_fits = { λ by old key val new left gives. L.keeps_fits by.inner old.state key val
        new.state left gives.0 };

    ghost same_fits = { L.same_fits };

    fn is_pinned(&self, key: &K, val: &V) -> bool {
        self.inner.is_pinned(key, val)
    }

    fn before_evict(&self, state: &mut Request<L::RequestState>, key: &K, val: &mut V) {
        state.stage = Stage::Armed;
        self.inner.before_evict(&mut state.state, key, val);
    }

    fn on_evict(&self, state: &mut Request<L::RequestState>, key: K, val: V) {
        let cause = state.tell_next(Queue::Cold);
        self.tallies.count(cause, self.weigher.weight(&key, &val));
        self.inner.on_evict(&mut state.state, key, val);
    }

    fn on_evict_cold(&self, state: &mut Request<L::RequestState>, key: K, val: V) {
        let cause = state.tell_next(Queue::Cold);
        self.tallies.count(cause, self.weigher.weight(&key, &val));
        self.inner.on_evict_cold(&mut state.state, key, val);
    }

    fn on_evict_hot(&self, state: &mut Request<L::RequestState>, key: K, val: V) {
        let cause = state.tell_next(Queue::Hot);
        self.tallies.count(cause, self.weigher.weight(&key, &val));
        self.inner.on_evict_hot(&mut state.state, key, val);
    }
}
