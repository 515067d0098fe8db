//! Hashes that are easy to foresee: that of a number is its remainder by 1000.
ghost use Rattle.std.specs.Prelude.{◌%◌};
ghost use Rattle.qcrun_parts.specs.Remainder.{number_after};

use std::hash::{BuildHasher, Hasher};

/// How many hashes there are.
const HASHES: u64 = 1000;

/// Keeps the number of eight bytes that was written last.
#[derive(Drop)]
pub struct RemainderHasher {
    number: u64,
}

impl Hasher for RemainderHasher {
    ghost write = { λ hasher bytes. record { number = number_after hasher.number bytes } };

    ghost finish = { λ hasher. hasher.number % 1000 };

    fn finish(&self) -> u64 {
        self.number % HASHES
    }

    fn write(&mut self, bytes: &[u8]) {
        if let Ok(number) = <[u8; 8]>::try_from(bytes) {
            self.number = u64::from_le_bytes(number);
        }
    }
}

/// Builds hashers that give a number's remainder by 1000.
#[derive(Debug, Clone, Default, Drop)]
pub struct RemainderBuilder;

impl BuildHasher for RemainderBuilder {
    type Hasher = RemainderHasher;

    ghost build_hasher = { λ _. record { number = 0 } };

    fn build_hasher(&self) -> RemainderHasher {
        RemainderHasher { number: 0 }
    }
}
