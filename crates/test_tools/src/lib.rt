//! Tools of tests: what a test expects, and an allocator that refuses when it is told to.
#![tactic(auto)]

mod expected;
mod rationed;

pub use expected::{Unlike, equal};
pub use rationed::Rationed;
