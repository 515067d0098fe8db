//! A hash that a test can foresee: what is left of a number by a thousand.
ghost use Rattle.std.specs.Prelude.{◌+◌, ◌*◌, ◌%◌, fold};

use std::hash::{BuildHasher, Hasher};

/// Reads bytes as a number, the lowest first, and keeps what is left of it by a thousand.
#[derive(Drop)]
pub struct ByThousand {
    sum: u64,
    place: u64,
}

impl Hasher for ByThousand {
    ghost write = { λ s bytes. fold (λ h b. record {
      sum = (h.sum + b * h.place) % 1000;
      place = (h.place * 256) % 1000;
    }) s bytes };

    ghost finish = { λ s. s.sum };

    fn finish(&self) -> u64 {
        self.sum
    }

    fn write(&mut self, bytes: &[u8]) {
        for b in bytes {
            self.sum = ((self.sum as u128 + *b as u128 * self.place as u128) % 1000) as u64;
            self.place = (self.place as u128 * 256 % 1000) as u64;
        }
    }
}

/// Hashes a number to what is left of it by a thousand.
#[derive(Clone, Drop)]
pub struct Thousand;

impl BuildHasher for Thousand {
    type Hasher = ByThousand;

    ghost build_hasher = { λ _. record { sum = 0; place = 1 } };

    fn build_hasher(&self) -> ByThousand {
        ByThousand { sum: 0, place: 1 }
    }
}
