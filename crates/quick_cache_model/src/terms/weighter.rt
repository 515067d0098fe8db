//! What an entry weighs.
ghost use Rattle.std.specs.Prelude.{◌≡◌, ℕ};

/// Gives each entry its weight, in units of the caller's own: the capacity of a cache is in the
/// same unit.
///
/// An entry of weight 0 is never evicted. The weight of an entry is asked anew after each write to
/// its value.
pub trait Weighter<K, V> {
    /// A function of the weigher, the key and the value.
    ghost weight_of: { Self → K → V → ℕ };

    /// The weight of the pair.
    fn weight(&self, key: &K, val: &V) -> u64
        ensures { result ≡ weight_of self.now key.now val.now };
}

/// Weighs each entry 1, so that a capacity counts entries.
#[derive(Debug, Clone, Default, Drop)]
pub struct UnitWeighter;

impl<K, V> Weighter<K, V> for UnitWeighter {
    ghost weight_of = { λ _ _ _. 1 };

    fn weight(&self, _key: &K, _val: &V) -> u64 {
        1
    }
}
