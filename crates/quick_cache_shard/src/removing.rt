//! Calls that take items out, by a predicate or in a walk.

pub mod drain;
pub mod removal;
