//! What a cache goes by: how it hashes and weighs, which pairs stay, and who is told of those that
//! leave.
ghost use Rattle.std.specs.Prelude.{◌≡◌, ℕ, Bool, IsTrue};
ghost use Rattle.std.proofs.Common.{ap};
ghost use Rattle.quick_cache_model.specs.Hooks.{Hooks};
ghost use Rattle.quick_cache_model.specs.Hashing.{hash_of};
ghost use Rattle.quick_cache_policy.specs.Lifecycles.{hooks_by};

use quick_cache_model::{Lifecycle, Weighter, hash_of};
use std::hash::{BuildHasher, Hash};

/// What a cache goes by.
pub trait Policy<K: Eq + Hash, V> {
    /// What a call keeps between its hooks.
    type RequestState;

    /// The hash of a key.
    ghost hashed: { Self → K → ℕ };

    /// The weight of a pair.
    ghost weight_of: { Self → K → V → ℕ };

    /// Whether pinning depends on the key and the value alone.
    ghost steady: { Self → Type 0 };

    /// Where it is steady, which pairs are pinned.
    ghost pinned: { Self → K → V → Bool };

    /// What each hook may do.
    ghost hooks: { Self → Hooks K V Self.RequestState };

    fn hash(&self, key: &K) -> u64
        ensures { result ≡ hashed self.now key.now };

    fn weigh(&self, key: &K, value: &V) -> u64
        ensures { result ≡ weight_of self.now key.now value.now };

    fn is_pinned(&self, key: &K, value: &V) -> bool
        ensures { steady self.now → result ≡ pinned self.now key.now value.now };

    fn before_evict(&self, state: &mut Self::RequestState, key: &K, value: &mut V)
        ensures { (hooks self.now).before_evict state.old key.now value.old state.new value.new };

    fn on_evict_hot(&self, state: &mut Self::RequestState, key: K, value: V)
        ensures { (hooks self.now).evict_hot state.old key value state.new };

    fn on_evict_cold(&self, state: &mut Self::RequestState, key: K, value: V)
        ensures { (hooks self.now).evict_cold state.old key value state.new };

    /// Equal keys have equal hashes.
    ghost same_hash: { (terms : Self) (first second : K) → IsTrue (K.eq first second)
        → hashed terms first ≡ hashed terms second };
}

/// The three things that a cache is made with.
#[derive(Drop)]
pub struct Terms<We, B, L> {
    pub weigher: We,
    pub builder: B,
    pub lifecycle: L,
}

impl<K: Eq + Hash + Drop, V: Drop, We: Weighter<K, V>, B: BuildHasher, L: Lifecycle<K, V>> Policy<
    K,
    V,
> for Terms<We, B, L> {
    type RequestState = L::RequestState;

    ghost hashed = { λ terms key.
        hash_of B.BuildHasher B.Hasher.Hasher terms.builder (K.hash_input key) };

    ghost same_hash = { λ terms first second equal.
        ap (hash_of B.BuildHasher B.Hasher.Hasher terms.builder)
        (K.respects_eq first second equal) };

    ghost weight_of = { λ terms. We.weight_of terms.weigher };

    ghost steady = { λ terms. L.steady terms.lifecycle };

    ghost pinned = { λ terms. L.pinned terms.lifecycle };

    ghost hooks = { λ terms. hooks_by L.Lifecycle terms.lifecycle };

    fn hash(&self, key: &K) -> u64 {
        hash_of(&self.builder, key)
    }

    fn weigh(&self, key: &K, value: &V) -> u64 {
        self.weigher.weight(key, value)
    }

    fn is_pinned(&self, key: &K, value: &V) -> bool {
        self.lifecycle.is_pinned(key, value)
    }

    fn before_evict(&self, state: &mut L::RequestState, key: &K, value: &mut V) {
        self.lifecycle.before_evict(state, key, value);
    }

    fn on_evict_hot(&self, state: &mut L::RequestState, key: K, value: V) {
        self.lifecycle.on_evict_hot(state, key, value);
    }

    fn on_evict_cold(&self, state: &mut L::RequestState, key: K, value: V) {
        self.lifecycle.on_evict_cold(state, key, value);
    }
}
