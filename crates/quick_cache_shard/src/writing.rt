//! Calls that write: pairs, another capacity, and values where they stand.

pub mod evicting;
pub mod lending;
pub mod reference;
