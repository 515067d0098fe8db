//! Threads that act on the same keys at once.

pub mod board;
pub mod caller;
pub mod overlap;
pub mod threads;
