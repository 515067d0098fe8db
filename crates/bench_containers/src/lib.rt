//! The slab and the table as one static library, for programs in Rust that time them beside others.
#![tactic(auto)]

pub mod slab;
pub mod table;
