//! A lifecycle made of a listener, which is told of each pair that leaves, and of nothing else.
ghost use Rattle.std.specs.Prelude.{◌≡◌};

use quick_cache_model::Lifecycle;

/// Is told of each pair that is evicted, replaced or turned away.
pub trait Listener<K, V>: Drop {
    /// What a call keeps between the pairs that it tells of. A call that is handed none begins with
    /// the default, and drops it at its end.
    type State: Default;

    /// From a state, at a pair that leaves, to the state after: anything, where the listener says
    /// no more.
    ghost tells: { Self → Self.State → K → V → Self.State → Type 0 } = { λ _ _ _ _ _. Unit {0} };

    /// Takes a pair that left.
    fn tell(&self, state: &mut Self::State, key: K, val: V)
        ensures { tells self.now state.old key val state.new };
}

/// Drops what leaves: `OnLeave(Ignore)` is a lifecycle that does nothing, for another one to stand
/// on.
#[derive(Debug, Clone, Default, Drop)]
pub struct Ignore;

impl<K: Drop, V: Drop> Listener<K, V> for Ignore {
    type State = ();

    fn tell(&self, _state: &mut (), _key: K, _val: V) {}
}

/// The lifecycle that pins nothing, leaves each victim's value as it is, and hands each pair that
/// leaves to its listener, from whichever ring.
#[derive(Debug, Clone, Default, Drop)]
pub struct OnLeave<L>(pub L);

impl<K: Eq + Drop, V: Drop, L: Listener<K, V>> Lifecycle<K, V> for OnLeave<L> {
    type RequestState = L::State;

    ghost before_evict_gives = { λ _ old _ value new left. (new ≡ old) × (left ≡ value) };

    ghost on_evict_gives = { λ told. L.tells told.0 };

    ghost on_evict_cold_gives = { λ told. L.tells told.0 };

    ghost on_evict_hot_gives = { λ told. L.tells told.0 };

    ghost keeps_fits = { λ _ _ _ _ _ _ _ fits. fits };

    ghost same_fits = { λ _ _ _ _ fits. fits };

    fn is_pinned(&self, _key: &K, _val: &V) -> bool {
        false
    }

    fn before_evict(&self, _state: &mut L::State, _key: &K, _val: &mut V) {}

    fn on_evict(&self, state: &mut L::State, key: K, val: V) {
        self.0.tell(state, key, val);
    }

    fn on_evict_cold(&self, state: &mut L::State, key: K, val: V) {
        self.0.tell(state, key, val);
    }

    fn on_evict_hot(&self, state: &mut L::State, key: K, val: V) {
        self.0.tell(state, key, val);
    }
}
