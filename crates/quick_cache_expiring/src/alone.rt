//! Entries that end, in a cache for one thread.

pub mod expiring;
pub mod gets;
pub mod loads;
pub mod over;
pub mod purging;
pub mod writes;
