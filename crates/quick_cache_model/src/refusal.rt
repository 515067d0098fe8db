//! Why a call was refused.
ghost use Rattle.std.specs.Prelude.{◌≡◌, Some};
ghost use Rattle.std.specs.IoError.{error_kind};
ghost use Rattle.quick_cache_model.specs.RefusalTexts.{refusal_text, refusal_kind};

use std::fmt::{self, Display, Formatter, Write};
use std::io;

/// Why a call was refused. A refused call changes nothing and gives back what it was handed.
#[derive(Debug, Clone, Copy, PartialEq, Eq)]
pub enum Refusal {
    /// A growth or a clone was refused for want of memory.
    Memory = 1,
    /// All 4294967294 slots are taken.
    SlotsFull = 2,
    /// The counter of tickets is at its end.
    TicketsSpent = 3,
    /// A future was polled after it had answered.
    Finished = 4,
}

impl Display for Refusal {
    ghost output = { λ refusal. Some (refusal_text refusal) };

    fn fmt<W: Write>(&self, f: &mut Formatter<W>) -> fmt::Result {
        f.write_str(match self {
            Refusal::Memory => "no memory",
            Refusal::SlotsFull => "no slot is left",
            Refusal::TicketsSpent => "no ticket is left",
            Refusal::Finished => "polled after it had answered",
        })
    }
}

impl std::error::Error for Refusal {}

impl From<Refusal> for io::Error {
    ghost from_gives = { λ refusal error. error_kind error ≡ refusal_kind refusal };

    fn from(refusal: Refusal) -> io::Error {
        io::Error::from(match refusal {
            Refusal::Memory => io::ErrorKind::OutOfMemory,
            Refusal::SlotsFull => io::ErrorKind::QuotaExceeded,
            Refusal::TicketsSpent => io::ErrorKind::Other,
            Refusal::Finished => io::ErrorKind::Other,
        })
    }
}
