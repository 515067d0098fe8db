//! Options and sizes of a cache: the numbers that it is made with, and those that follow from them.
#![tactic(auto)]

pub mod options;
pub mod sizes;

pub use options::{Options, OptionsBuilder};
