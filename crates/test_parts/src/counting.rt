//! A lifecycle that counts the calls of its hooks.
ghost use Rattle.std.specs.Prelude.{◌≡◌};

use quick_cache_base::Lifecycle;

/// Pins nothing, and counts what is told to each hook.
#[derive(Clone, Drop)]
pub struct Counting;

/// How many calls there were of each hook.
#[derive(Debug, Default, Clone, Copy, PartialEq, Eq)]
pub struct Told {
    pub before: u64,
    pub hot: u64,
    pub cold: u64,
}

impl<K: Eq + Drop, V: Drop> Lifecycle<K, V> for Counting {
    type RequestState = Told;

    ghost before_evict_gives = { λ _ _ _ value _ left. left ≡ value };

    ghost on_evict_gives = { λ _ _ _ _ _. Unit {0} };

    ghost on_evict_cold_gives = { λ _ _ _ _ _. Unit {0} };

    ghost on_evict_hot_gives = { λ _ _ _ _ _. Unit {0} };

    ghost keeps_fits = { λ _ _ _ _ _ _ _ fits. fits };

    ghost same_fits = { λ _ _ _ _ fits. fits };

    fn is_pinned(&self, _key: &K, _val: &V) -> bool {
        false
    }

    fn before_evict(&self, state: &mut Told, _key: &K, _val: &mut V) {
        state.before = state.before.wrapping_add(1);
    }

    fn on_evict(&self, _state: &mut Told, _key: K, _val: V) {}

    fn on_evict_cold(&self, state: &mut Told, _key: K, _val: V) {
        state.cold = state.cold.wrapping_add(1);
    }

    fn on_evict_hot(&self, state: &mut Told, _key: K, _val: V) {
        state.hot = state.hot.wrapping_add(1);
    }
}
