//! Sizes of numbers, and of what else has a fixed one.
ghost use Rattle.std.specs.Prelude.{◌≡◌};

use crate::bytes::HasBytes;

impl HasBytes for u8 {
    ghost byte_count = { λ _. 1 };

    fn byte_count(&self) -> u64 {
        1
    }

    fn byte_count_of_all(items: &[u8]) -> u64 {
        items.len() as u64
    }
}

impl HasBytes for u16 {
    ghost byte_count = { λ _. 2 };

    fn byte_count(&self) -> u64 {
        2
    }
}

impl HasBytes for u32 {
    ghost byte_count = { λ _. 4 };

    fn byte_count(&self) -> u64 {
        4
    }
}

impl HasBytes for u64 {
    ghost byte_count = { λ _. 8 };

    fn byte_count(&self) -> u64 {
        8
    }
}

impl HasBytes for u128 {
    ghost byte_count = { λ _. 16 };

    fn byte_count(&self) -> u64 {
        16
    }
}

impl HasBytes for usize {
    ghost byte_count = { λ _. 8 };

    fn byte_count(&self) -> u64 {
        8
    }
}

impl HasBytes for i8 {
    ghost byte_count = { λ _. 1 };

    fn byte_count(&self) -> u64 {
        1
    }
}

impl HasBytes for i16 {
    ghost byte_count = { λ _. 2 };

    fn byte_count(&self) -> u64 {
        2
    }
}

impl HasBytes for i32 {
    ghost byte_count = { λ _. 4 };

    fn byte_count(&self) -> u64 {
        4
    }
}

impl HasBytes for i64 {
    ghost byte_count = { λ _. 8 };

    fn byte_count(&self) -> u64 {
        8
    }
}

impl HasBytes for i128 {
    ghost byte_count = { λ _. 16 };

    fn byte_count(&self) -> u64 {
        16
    }
}

impl HasBytes for isize {
    ghost byte_count = { λ _. 8 };

    fn byte_count(&self) -> u64 {
        8
    }
}

impl HasBytes for f32 {
    ghost byte_count = { λ _. 4 };

    fn byte_count(&self) -> u64 {
        4
    }
}

impl HasBytes for f64 {
    ghost byte_count = { λ _. 8 };

    fn byte_count(&self) -> u64 {
        8
    }
}

impl HasBytes for bool {
    ghost byte_count = { λ _. 1 };

    fn byte_count(&self) -> u64 {
        1
    }
}

impl HasBytes for char {
    ghost byte_count = { λ _. 4 };

    fn byte_count(&self) -> u64 {
        4
    }
}

impl HasBytes for () {
    ghost byte_count = { λ _. 0 };

    fn byte_count(&self) -> u64 {
        0
    }
}
