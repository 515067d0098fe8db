//! Containers that stand alone: a slab with rings, and a table of tokens by hash.
#![tactic(auto)]

pub mod linked_slab;
pub mod table;

pub use linked_slab::LinkedSlab;
pub use table::Table;
