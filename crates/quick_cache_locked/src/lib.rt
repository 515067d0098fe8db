//! A shard as its lock keeps it, in the cache that threads share: each call is one step of it, and
//! the values that it gives fit their keys.
#![tactic(auto)]

mod count;
mod heated;
mod locked;
pub mod places;
pub mod walk_laws;

pub use count::Count;
pub use heated::Heated;
pub use locked::LockedShard;
pub use quick_cache_loading::sharing::{SharedPlaceholder, SharedTouches};
pub use quick_cache_shard::Miss;
