//! The calls, by what they do under the lock of a shard.

pub mod extracting;
pub mod filling;
pub mod hottest;
pub mod loads;
pub mod many;
pub mod reads;
pub mod retaining;
pub mod saving;
pub mod sizes;
pub mod tasks;
pub mod tested;
pub mod tries;
pub mod walks;
pub mod writes;
