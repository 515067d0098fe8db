//! A weigher by what the hash of an entry reads.
ghost use Rattle.std.specs.Prelude.{◌≡◌, ◌+◌, length, sum_by};
ghost use Rattle.quick_cache_listeners.specs.Bytes.{capped};

use quick_cache_model::Weighter;
use std::hash::{Hash, Hasher};

/// Weighs key and value together by the bytes that their `Hash` writes, and adds the overhead of an
/// entry: so a struct that derives `Hash` has its weight with no line more. A number writes its
/// bytes, a text one byte more than it has, a list 8 bytes and its items.
///
/// It reads the whole of both. A weight beyond the greatest 64-bit number is that number.
#[derive(Debug, Clone, Copy, Default)]
pub struct ByContent {
    /// What each entry takes beside its content.
    pub overhead: u64,
}

impl ByContent {
    /// Adds so many bytes for each entry.
    pub fn with_overhead(overhead: u64) -> Self
        ensures { result ≡ record { overhead = overhead } }
    {
        ByContent { overhead }
    }
}

impl<K: Hash, V: Hash> Weighter<K, V> for ByContent {
    ghost weight_of = { λ by key value. capped (sum_by length (K.hash_input key)
        + sum_by length (V.hash_input value) + by.overhead) };

    fn weight(&self, key: &K, val: &V) -> u64 {
        content_of(key)
            .saturating_add(content_of(val))
            .saturating_add(self.overhead)
    }
}

// How many bytes the hash of a value writes.
fn content_of<T: Hash>(value: &T) -> u64
    ensures { result ≡ capped (sum_by length (T.hash_input value.now)) }
{
    let mut written = Written { bytes: 0 };
    value.hash(&mut written);
    written.bytes
}

/// Counts the bytes that are written, and forgets which they are.
#[derive(Drop)]
struct Written {
    bytes: u64,
}

impl Hasher for Written {
    ghost write = { λ written bytes. record { bytes = capped (written.bytes + length bytes) } };

    ghost finish = { λ written. written.bytes };

    fn finish(&self) -> u64 {
        self.bytes
    }

    fn write(&mut self, bytes: &[u8]) {
        self.bytes = self.bytes.saturating_add(bytes.len() as u64);
    }
}
