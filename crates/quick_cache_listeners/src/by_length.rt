//! A weigher of texts and lists.
ghost use Rattle.std.specs.Prelude.{◌≡◌, ℕ, length, string_bytes, vec_len};
ghost use Rattle.std.specs.Arc.{arc_value};

use quick_cache_model::Weighter;
use std::alloc::Allocator;
use std::rc::Rc;
use std::sync::Arc;

/// What has a length: of a text how many bytes it has, of a list how many elements, of a handle
/// what it holds.
pub trait HasLength {
    /// A function of the value.
    ghost length: { Self → ℕ };

    /// The length.
    fn length(&self) -> u64
        ensures { result ≡ length self.now };
}

impl HasLength for &str {
    ghost length = { λ text. length text.now };

    fn length(&self) -> u64 {
        self.len() as u64
    }
}

impl<A: Allocator> HasLength for String<A> {
    ghost length = { λ text. length (string_bytes text) };

    fn length(&self) -> u64 {
        self.len() as u64
    }
}

impl<T, A: Allocator> HasLength for Vec<T, A> {
    ghost length = { vec_len };

    fn length(&self) -> u64 {
        self.len() as u64
    }
}

impl<T: HasLength, A: Allocator> HasLength for Rc<T, A> {
    ghost length = { λ handle. T.length handle.value };

    fn length(&self) -> u64 {
        (**self).length()
    }
}

impl<T: HasLength, A: Allocator> HasLength for Arc<T, A> {
    ghost length = { λ handle. T.length (arc_value handle) };

    fn length(&self) -> u64 {
        (**self).length()
    }
}

/// Weighs an entry by the length of its value. An empty one weighs 0, and is never evicted.
#[derive(Debug, Clone, Default, Drop)]
pub struct ByLength;

impl<K, V: HasLength> Weighter<K, V> for ByLength {
    ghost weight_of = { λ _ _ value. V.length value };

    fn weight(&self, _key: &K, val: &V) -> u64 {
        val.length()
    }
}
