//! The shared cache: shards behind locks, of which threads use each by itself.
#![tactic(auto)]

mod cache;
mod calls;
mod error;
mod lifecycle;
mod shards;

pub use cache::Cache;
pub use calls::extracting::ExtractIf;
pub use calls::walks::{Drain, Iter};
pub use error::{LockContention, TryError};
pub use lifecycle::DefaultLifecycle;
pub use quick_cache_locked::{Heated, Miss};
pub use quick_cache_stats::Stats;
