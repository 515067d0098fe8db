//! The lifecycle that a cache has by default where threads share it.
ghost use Rattle.std.specs.Prelude.{◌≡◌, ⊤, Some, codes};
ghost use Rattle.quick_cache_sync.specs.FirstPairs.{kept_with};

use quick_cache_model::Lifecycle;
use std::fmt::{Debug, Formatter, Write};
use std::marker::PhantomData;

/// Pins nothing, and keeps the first two pairs that leave in a call, so that they are dropped once
/// the lock is released. It drops those that leave after them.
#[derive(Drop)]
pub struct DefaultLifecycle<K, V> {
    pairs: PhantomData<(K, V)>,
}

impl<K, V> DefaultLifecycle<K, V> {
    /// The lifecycle; each one is like any other.
    pub fn new() -> Self {
        DefaultLifecycle { pairs: PhantomData }
    }
}

impl<K, V> Default for DefaultLifecycle<K, V> {
    fn default() -> Self {
        DefaultLifecycle::new()
    }
}

impl<K, V> Clone for DefaultLifecycle<K, V> {
    ghost is_clone = { λ old new. new ≡ old };

    ghost is_infallible = { λ _. ⊤ };

    fn clone(&self) -> Result<Self, std::alloc::AllocError> {
        Ok(DefaultLifecycle::new())
    }
}

impl<K, V> Debug for DefaultLifecycle<K, V> {
    ghost debug_output = { λ _. Some (codes "DefaultLifecycle") };

    fn fmt<W: Write>(&self, f: &mut Formatter<W>) -> std::fmt::Result {
        f.write_str("DefaultLifecycle")
    }
}

impl<K: Eq + Drop, V: Drop> Lifecycle<K, V> for DefaultLifecycle<K, V> {
    type RequestState = [Option<(K, V)>; 2];

    ghost before_evict_gives = { λ _ old _ value new left. (new ≡ old) × (left ≡ value) };

    ghost on_evict_gives = { λ _ old key value new. new ≡ kept_with key value old };

    ghost on_evict_cold_gives = { λ _ old key value new. new ≡ kept_with key value old };

    ghost on_evict_hot_gives = { λ _ old key value new. new ≡ kept_with key value old };

    ghost keeps_fits = { λ _ _ _ _ _ _ _ fits. fits };

    ghost same_fits = { λ _ _ _ _ fits. fits };

    fn is_pinned(&self, _key: &K, _val: &V) -> bool {
        false
    }

    fn before_evict(&self, _state: &mut [Option<(K, V)>; 2], _key: &K, _val: &mut V) {}

    fn on_evict(&self, state: &mut [Option<(K, V)>; 2], key: K, val: V) {
        if state[0].is_none() {
            state[0] = Some((key, val));
        } else if state[1].is_none() {
            state[1] = Some((key, val));
        }
    }

    fn on_evict_cold(&self, state: &mut [Option<(K, V)>; 2], key: K, val: V) {
        self.on_evict(state, key, val);
    }

    fn on_evict_hot(&self, state: &mut [Option<(K, V)>; 2], key: K, val: V) {
        self.on_evict(state, key, val);
    }
}
