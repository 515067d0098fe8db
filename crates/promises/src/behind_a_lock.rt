//! What those rely on who share the cache, or a shard of it.

pub mod ending;
pub mod fitting;
pub mod history;
pub mod lives;
pub mod loads;
pub mod locked;
pub mod many;
pub mod nobody;
pub mod saved;
pub mod seats;
pub mod shards;
pub mod shared;
pub mod tested;
pub mod timed;
pub mod walks;
