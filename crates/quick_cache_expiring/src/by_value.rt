//! Weights of values that have an end, or a moment.
ghost use Rattle.std.specs.Prelude.{◌≡◌};

use crate::lasting::Lasting;
use crate::loaded::Loaded;
use quick_cache_model::Weighter;

/// Weighs an entry by its key and its value, whatever its end or its moment.
#[derive(Debug, Clone, Default, Drop)]
pub struct ByValue<We> {
    pub weigher: We,
}

impl<K, V, We: Weighter<K, V>> Weighter<K, Lasting<V>> for ByValue<We> {
    ghost weight_of = { λ by key lasting. We.weight_of by.weigher key lasting.value };

    fn weight(&self, key: &K, lasting: &Lasting<V>) -> u64 {
        self.weigher.weight(key, &lasting.value)
    }
}

impl<K, V, We: Weighter<K, V>> Weighter<K, Loaded<V>> for ByValue<We> {
    ghost weight_of = { λ by key loaded. We.weight_of by.weigher key loaded.value };

    fn weight(&self, key: &K, loaded: &Loaded<V>) -> u64 {
        self.weigher.weight(key, &loaded.value)
    }
}
