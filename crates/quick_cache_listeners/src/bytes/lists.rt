//! Sizes of texts, lists, tuples and options: the sums of what they hold.
ghost use Rattle.std.specs.Prelude.{◌≡◌, ◌+◌, length, string_bytes, option_map, unwrap_or};
ghost use Rattle.quick_cache_listeners.specs.Bytes.{capped, bytes_in};

use crate::bytes::HasBytes;
use std::alloc::Allocator;

impl HasBytes for &str {
    ghost byte_count = { λ text. length text.now };

    fn byte_count(&self) -> u64 {
        self.len() as u64
    }
}

impl<A: Allocator> HasBytes for String<A> {
    ghost byte_count = { λ text. length (string_bytes text) };

    fn byte_count(&self) -> u64 {
        self.len() as u64
    }
}

impl<T: HasBytes, A: Allocator> HasBytes for Vec<T, A> {
    ghost byte_count = { λ list. bytes_in T.byte_count list.items };

    fn byte_count(&self) -> u64 {
        T::byte_count_of_all(self.as_slice())
    }
}

impl<T: HasBytes, const N: usize> HasBytes for [T; N] {
    ghost byte_count = { bytes_in T.byte_count };

    fn byte_count(&self) -> u64 {
        T::byte_count_of_all(self)
    }
}

impl<T: HasBytes> HasBytes for Option<T> {
    ghost byte_count = { λ value. unwrap_or (option_map T.byte_count value) 0 };

    fn byte_count(&self) -> u64 {
        match self {
            Some(value) => value.byte_count(),
            None => 0,
        }
    }
}

impl<T: HasBytes, U: HasBytes> HasBytes for (T, U) {
    ghost byte_count = { λ parts. capped (T.byte_count parts.0 + U.byte_count parts.1) };

    fn byte_count(&self) -> u64 {
        self.0.byte_count().saturating_add(self.1.byte_count())
    }
}

impl<T: HasBytes, U: HasBytes, V: HasBytes> HasBytes for (T, U, V) {
    ghost byte_count = { λ parts. capped (T.byte_count parts.0 + U.byte_count parts.1
        + V.byte_count parts.2) };

    fn byte_count(&self) -> u64 {
        self.0
            .byte_count()
            .saturating_add(self.1.byte_count())
            .saturating_add(self.2.byte_count())
    }
}
