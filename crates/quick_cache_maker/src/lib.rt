//! Makes a cache by what is named; the rest has its default.
#![tactic(auto)]

mod error;
mod expiring;
mod maker;
mod reading;
mod shared;
mod unsync;

pub use error::MakeError;
pub use maker::{Maker, Named, Unnamed};
