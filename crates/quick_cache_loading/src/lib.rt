//! The loading core: the life of a placeholder, one event at a time, with the one guard of a life.
#![tactic(auto)]

pub mod protocol;
pub mod sharing;
pub mod waiting;
