//! Entries that end, in a cache that threads share, over the public contracts of that cache alone.
#![tactic(auto)]

mod gets;
mod loads;
mod many;
mod purging;
mod shared;
mod writes;

pub use quick_cache_expiring::{ByValue, Lasting, end_of};
pub use quick_cache_model::{
    Bytes, BytesIn, DefaultHashBuilder, Refusal, Text, TextIn, UnitWeighter, Weighter,
};
pub use quick_cache_options::options::{Error, Options, OptionsBuilder};
pub use quick_cache_stats::Stats;
pub use quick_cache_sync::{DefaultLifecycle, LockContention, TryError};
pub use shared::SharedExpiring;
