//! How long an answer lives.
ghost use Rattle.std.specs.Prelude.{◌≡◌, ℕ, refl};

use std::alloc::AllocError;

/// How long what was loaded lives: a number for a key, a value and the moment of its load.
pub trait Lives<K, V: Clone> {
    /// A function of these, and of what tells it.
    ghost life_of: { Self → K → V → ℕ → ℕ };

    /// The life of a value of the key that was loaded at the moment.
    fn life(&self, key: &K, value: &V, moment: u64) -> u64
        ensures { result ≡ life_of self.now key.now value.now moment };

    /// A clone of a value lives as long as the value.
    ghost keeps_life: { (lives : Self) (key : K) (value clone : V) (moment : ℕ)
        → V.is_clone value clone
        → life_of lives key clone moment ≡ life_of lives key value moment };
}

/// One life for all.
impl<K, V: Clone> Lives<K, V> for u64 {
    ghost life_of = { λ life _ _ _. life };

    ghost keeps_life = { λ _ _ _ _ _ _. refl };

    fn life(&self, _key: &K, _value: &V, _moment: u64) -> u64 {
        *self
    }
}

/// A value with a life of its own.
#[derive(Debug, PartialEq, Drop)]
pub struct WithLife<V> {
    pub value: V,
    pub life: u64,
}

impl<V: Clone> Clone for WithLife<V> {
    ghost is_clone = { λ old new. V.is_clone old.value new.value × (new.life ≡ old.life) };

    ghost is_infallible = { λ given. V.is_infallible given.value };

    fn clone(&self) -> Result<Self, AllocError> {
        Ok(WithLife {
            value: self.value.clone()?,
            life: self.life,
        })
    }
}

/// The life that each value has of its own.
#[derive(Debug, Drop)]
pub struct ByAnswer;

impl<K, V: Clone> Lives<K, WithLife<V>> for ByAnswer {
    ghost life_of = { λ _ _ given _. given.life };

    ghost keeps_life = { λ _ _ _ _ _ cloned. cloned.1 };

    fn life(&self, _key: &K, given: &WithLife<V>, _moment: u64) -> u64 {
        given.life
    }
}
