//! Why no cache was made.
ghost use Rattle.std.specs.Prelude.{Some};
ghost use Rattle.quick_cache_maker.specs.Made.{make_error_text};

use quick_cache_model::Refusal;
use quick_cache_options::options::Error;
use std::fmt::{self, Display, Formatter, Write};
use std::io;

/// Why no cache was made.
#[derive(Debug, Drop)]
pub enum MakeError {
    /// The options have this fault.
    Options(Error),
    /// It was refused.
    Refused(Refusal),
}

impl Display for MakeError {
    ghost output = { λ error. Some (make_error_text error) };

    fn fmt<W: Write>(&self, f: &mut Formatter<W>) -> fmt::Result {
        match self {
            MakeError::Options(error) => error.fmt(f),
            MakeError::Refused(refusal) => refusal.fmt(f),
        }
    }
}

impl std::error::Error for MakeError {}

impl From<MakeError> for io::Error {
    ghost use Rattle.std.specs.Prelude.{◌≡◌};
    ghost use Rattle.std.specs.IoError.{error_kind};
    ghost use Rattle.quick_cache_maker.specs.Made.{make_error_kind};

    ghost from_gives = { λ error told. error_kind told ≡ make_error_kind error };

    fn from(error: MakeError) -> io::Error {
        match error {
            MakeError::Options(_) => io::Error::from(io::ErrorKind::InvalidInput),
            MakeError::Refused(refusal) => io::Error::from(refusal),
        }
    }
}
