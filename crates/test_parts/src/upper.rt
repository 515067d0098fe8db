//! A hash that a test can foresee: a number in the upper half of the hash.
ghost use Rattle.std.specs.Prelude.{◌+◌, ◌*◌, ◌%◌, ◌^◌, fold};

use std::hash::{BuildHasher, Hasher};

/// Reads bytes as a number, the lowest first, and keeps its lower 32 bits as the upper ones.
#[derive(Drop)]
pub struct UpperHalf {
    sum: u64,
    place: u64,
}

impl Hasher for UpperHalf {
    ghost write = { λ s bytes. fold (λ h b. record {
      sum = (h.sum + b * h.place % 2 ^ 64) % 2 ^ 64;
      place = (h.place * 256) % 2 ^ 64;
    }) s bytes };

    ghost finish = { λ s. s.sum };

    fn finish(&self) -> u64 {
        self.sum
    }

    fn write(&mut self, bytes: &[u8]) {
        for b in bytes {
            self.sum = self
                .sum
                .wrapping_add(u64::from(*b).wrapping_mul(self.place));
            self.place = self.place.wrapping_mul(256);
        }
    }
}

/// Hashes a number below 4294967296 to its product with that.
#[derive(Clone, Drop)]
pub struct Upper;

impl BuildHasher for Upper {
    type Hasher = UpperHalf;

    ghost build_hasher = { λ _. record { sum = 0; place = 4294967296 } };

    fn build_hasher(&self) -> UpperHalf {
        UpperHalf {
            sum: 0,
            place: 4294967296,
        }
    }
}
