//! Why a call that loads gives no reference, or no value.
ghost use Rattle.quick_cache_unsync.specs.LoadTexts.{not_loaded_text, load_error_text};
ghost use Rattle.quick_cache_unsync.specs.LoadKinds.{NotLoadedBecomes, LoadErrorBecomes};

use quick_cache_model::Refusal;
use std::error::Error;
use std::fmt::{self, Display, Formatter, Write};
use std::io;

/// Why a call that loads gives no reference.
#[derive(Debug, PartialEq, Drop)]
pub enum NotLoaded<E> {
    /// The value was loaded, and did not stay: it was too heavy, or was evicted at once.
    NotKept,
    /// The loader gave this error. It left no placeholder.
    Failed(E),
    /// The call was refused before the loader was called, and nothing changed.
    Refused(Refusal),
}

impl<E: Display> Display for NotLoaded<E> {
    ghost output = { not_loaded_text E.output };

    fn fmt<W: Write>(&self, f: &mut Formatter<W>) -> fmt::Result {
        match self {
            NotLoaded::NotKept => f.write_str("the loaded value did not stay"),
            NotLoaded::Failed(error) => write!(f, "not loaded: {error}"),
            NotLoaded::Refused(refusal) => write!(f, "refused: {refusal}"),
        }
    }
}

impl<E: Error> Error for NotLoaded<E> {}

impl<E: Into<io::Error>> From<NotLoaded<E>> for io::Error {
    ghost from_gives = { NotLoadedBecomes E.converts };

    fn from(error: NotLoaded<E>) -> io::Error {
        match error {
            NotLoaded::NotKept => io::Error::from(io::ErrorKind::Other),
            NotLoaded::Failed(error) => error.into(),
            NotLoaded::Refused(refusal) => io::Error::from(refusal),
        }
    }
}

/// Why a call that loads gives no value.
#[derive(Debug, PartialEq, Drop)]
pub enum LoadError<E> {
    /// The loader gave this error. It left no placeholder.
    Failed(E),
    /// No loader was called: memory or a slot was refused for a key that is absent, and nothing
    /// changed, or memory for the clone of the value that was found.
    Refused(Refusal),
}

impl<E: Display> Display for LoadError<E> {
    ghost output = { load_error_text E.output };

    fn fmt<W: Write>(&self, f: &mut Formatter<W>) -> fmt::Result {
        match self {
            LoadError::Failed(error) => write!(f, "not loaded: {error}"),
            LoadError::Refused(refusal) => write!(f, "refused: {refusal}"),
        }
    }
}

impl<E: Error> Error for LoadError<E> {}

impl<E: Into<io::Error>> From<LoadError<E>> for io::Error {
    ghost from_gives = { LoadErrorBecomes E.converts };

    fn from(error: LoadError<E>) -> io::Error {
        match error {
            LoadError::Failed(error) => error.into(),
            LoadError::Refused(refusal) => io::Error::from(refusal),
        }
    }
}
