//! An index of tokens by hash, in groups of sixteen places whose tags are compared at once.
#![tactic(auto)]

pub mod index;

pub use index::{Index, Look};
