//! Lifecycles that pin, by a test or what others hold, and do all else as another one does.
ghost use Rattle.std.specs.Prelude.{◌≡◌, Bool};

use quick_cache_model::Lifecycle;
use std::alloc::Allocator;
use std::rc::Rc;
use std::sync::Arc;

/// Tells which entries are pinned, by key and value alone.
pub trait Pin<K, V> {
    /// A function of the test, the key and the value, so that a lifecycle that pins by it is
    /// steady.
    ghost pinned: { Self → K → V → Bool };

    /// Whether the entry may not be evicted. A write can still take its place.
    fn is_pinned(&self, key: &K, val: &V) -> bool
        ensures { result ≡ pinned self.now key.now val.now };
}

/// The lifecycle that pins what the first passes, and does all else as the second. What the second
/// pins is not asked.
#[derive(Debug, Clone, Default, Drop)]
pub struct PinBy<P, L>(pub P, pub L);

impl<K: Eq + Drop, V: Drop, P: Pin<K, V>, L: Lifecycle<K, V>> Lifecycle<K, V> for PinBy<P, L> {
    type RequestState = L::RequestState;

    ghost pinned = { λ by. P.pinned by.0 };

    ghost fits = { L.fits };

    ghost before_evict_gives = { λ by. L.before_evict_gives by.1 };

    ghost on_evict_gives = { λ by. L.on_evict_gives by.1 };

    ghost on_evict_cold_gives = { λ by. L.on_evict_cold_gives by.1 };

    ghost on_evict_hot_gives = { λ by. L.on_evict_hot_gives by.1 };

    ghost keeps_fits = { λ by. L.keeps_fits by.1 };

    ghost same_fits = { L.same_fits };

    fn is_pinned(&self, key: &K, val: &V) -> bool {
        self.0.is_pinned(key, val)
    }

    fn before_evict(&self, state: &mut L::RequestState, key: &K, val: &mut V) {
        self.1.before_evict(state, key, val);
    }

    fn on_evict(&self, state: &mut L::RequestState, key: K, val: V) {
        self.1.on_evict(state, key, val);
    }

    fn on_evict_cold(&self, state: &mut L::RequestState, key: K, val: V) {
        self.1.on_evict_cold(state, key, val);
    }

    fn on_evict_hot(&self, state: &mut L::RequestState, key: K, val: V) {
        self.1.on_evict_hot(state, key, val);
    }
}

/// What others may hold beside the cache: a value, or what it has a handle of.
pub trait Held {
    /// Whether another one holds it. That may change while the entry stays.
    fn is_held(&self) -> bool;
}

impl<T, A: Allocator> Held for Rc<T, A> {
    fn is_held(&self) -> bool {
        Rc::strong_count(self) > 1
    }
}

impl<T, A: Allocator> Held for Arc<T, A> {
    fn is_held(&self) -> bool {
        Arc::strong_count(self) > 1
    }
}

/// The lifecycle that pins each value that others hold, as a block cache pins a block in use, and
/// does all else as the inner one. What the inner one pins is not asked.
#[derive(Debug, Clone, Default, Drop)]
pub struct PinHeld<L>(pub L);

impl<K: Eq + Drop, V: Held + Drop, L: Lifecycle<K, V>> Lifecycle<K, V> for PinHeld<L> {
    type RequestState = L::RequestState;

    // Handles come and go while the pair stays, so pins are no function of the pair.
    ghost steady = { λ _. ⊥ };

    ghost fits = { L.fits };

    ghost before_evict_gives = { λ by. L.before_evict_gives by.0 };

    ghost on_evict_gives = { λ by. L.on_evict_gives by.0 };

    ghost on_evict_cold_gives = { λ by. L.on_evict_cold_gives by.0 };

    ghost on_evict_hot_gives = { λ by. L.on_evict_hot_gives by.0 };

    ghost keeps_fits = { λ by. L.keeps_fits by.0 };

    ghost same_fits = { L.same_fits };

    fn is_pinned(&self, _key: &K, val: &V) -> bool {
        val.is_held()
    }

    fn before_evict(&self, state: &mut L::RequestState, key: &K, val: &mut V) {
        self.0.before_evict(state, key, val);
    }

    fn on_evict(&self, state: &mut L::RequestState, key: K, val: V) {
        self.0.on_evict(state, key, val);
    }

    fn on_evict_cold(&self, state: &mut L::RequestState, key: K, val: V) {
        self.0.on_evict_cold(state, key, val);
    }

    fn on_evict_hot(&self, state: &mut L::RequestState, key: K, val: V) {
        self.0.on_evict_hot(state, key, val);
    }
}
