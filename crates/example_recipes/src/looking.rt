//! Looks without a copy of the key, and a look that computes what is not there.

pub mod memo;
pub mod names;
