//! A weigher by bytes, of what has a size.
ghost use Rattle.std.specs.Prelude.{◌≡◌, ℕ, ◌+◌};
ghost use Rattle.quick_cache_listeners.specs.Bytes.{capped, bytes_in};

pub mod handles;
pub mod lists;
pub mod numbers;
pub mod told;

use quick_cache_model::Weighter;

/// What has a size in bytes: its own, where that is fixed, or that of all that it holds.
///
/// Headers, spare room and what a handle takes itself are not counted: `ByBytes` has an overhead
/// for them. A size beyond the greatest 64-bit number is told as that number.
///
/// A struct of one's own states its size by a ghost line. With none it is put as a `WithBytes`, or
/// weighed by `ByContent`.
pub trait HasBytes {
    /// A function of the value.
    ghost byte_count: { Self → ℕ };

    /// The size.
    fn byte_count(&self) -> u64
        ensures { result ≡ byte_count self.now };

    /// The size of all items of a list, one by one. Where each has the same size it may be told at
    /// once, as `u8` does.
    fn byte_count_of_all(items: &[Self]) -> u64
    where
        Self: Sized,
        ensures { result ≡ bytes_in byte_count items.now }
    {
        let mut total = 0u64;
        let mut rest = items;
        while let Some((item, behind)) = rest.split_first() {
            total = total.saturating_add(item.byte_count());
            rest = behind;
        }
        total
    }
}

/// Weighs key and value together by their bytes, and adds the overhead of an entry. A weight beyond
/// the greatest 64-bit number is that number. An entry that weighs 0 is never evicted; with an
/// overhead there is none.
#[derive(Debug, Clone, Copy, Default)]
pub struct ByBytes {
    /// What each entry takes beside its key and its value.
    pub overhead: u64,
}

impl ByBytes {
    /// Adds so many bytes for each entry.
    pub fn with_overhead(overhead: u64) -> Self
        ensures { result ≡ record { overhead = overhead } }
    {
        ByBytes { overhead }
    }
}

impl<K: HasBytes, V: HasBytes> Weighter<K, V> for ByBytes {
    ghost weight_of = { λ by key value. capped (K.byte_count key + V.byte_count value
        + by.overhead) };

    fn weight(&self, key: &K, val: &V) -> u64 {
        key.byte_count()
            .saturating_add(val.byte_count())
            .saturating_add(self.overhead)
    }
}
