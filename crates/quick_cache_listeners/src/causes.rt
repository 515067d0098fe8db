//! Why pairs leave: a listener that is told, and counts of what left by its cause.
pub mod cause;
pub mod counted;
pub mod counted_by_threads;
pub mod laws;
pub mod listener;
pub mod taken;
pub mod tallies;
