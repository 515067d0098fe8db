//! Why a call that does not wait gave no answer.

use quick_cache_model::Refusal;
use std::fmt::{Display, Formatter, Write};
use std::io;

/// The lock of a shard was not to be had at once: another call held it, or waited for it.
#[derive(Debug, Clone, Copy, PartialEq, Eq, Hash)]
pub struct LockContention;

impl Display for LockContention {
    ghost use Rattle.std.specs.Prelude.{Some, codes};

    ghost output = { λ _. Some (codes "Lock Contention") };

    fn fmt<W: Write>(&self, f: &mut Formatter<W>) -> std::fmt::Result {
        f.write_str("Lock Contention")
    }
}

impl std::error::Error for LockContention {}

/// Why a call that does not wait gave no answer. It has then changed nothing, and gives back what
/// it was handed.
#[derive(Debug, Clone, Copy, PartialEq, Eq)]
pub enum TryError {
    /// The lock of the key's shard was not to be had at once.
    Contended(LockContention),
    /// The lock was had, and the call was refused.
    Refused(Refusal),
}

impl Display for TryError {
    ghost use Rattle.quick_cache_sync.specs.Texts.{try_error_text};
    ghost use Rattle.std.specs.Prelude.{Some};

    ghost output = { λ error. Some (try_error_text error) };

    fn fmt<W: Write>(&self, f: &mut Formatter<W>) -> std::fmt::Result {
        match self {
            TryError::Contended(contention) => contention.fmt(f),
            TryError::Refused(refusal) => refusal.fmt(f),
        }
    }
}

impl std::error::Error for TryError {}

impl From<TryError> for io::Error {
    ghost use Rattle.std.specs.Prelude.{◌≡◌};
    ghost use Rattle.std.specs.IoError.{error_kind};
    ghost use Rattle.quick_cache_sync.specs.Texts.{try_error_kind};

    ghost from_gives = { λ error told. error_kind told ≡ try_error_kind error };

    fn from(error: TryError) -> io::Error {
        match error {
            TryError::Contended(_) => io::Error::from(io::ErrorKind::WouldBlock),
            TryError::Refused(refusal) => io::Error::from(refusal),
        }
    }
}
