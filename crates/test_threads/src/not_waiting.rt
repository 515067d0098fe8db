//! The calls that do not wait for a lock.

pub mod contended;
pub mod idle;
pub mod mixed;
pub mod reading;
