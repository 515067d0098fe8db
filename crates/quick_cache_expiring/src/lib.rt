//! Entries that end: caches whose values serve until a moment of their own, over the public
//! contracts of the caches alone; and values that a loader gave, which live for so long.
#![tactic(auto)]

mod alone;
mod by_value;
mod lasting;
mod loaded;

pub use alone::expiring::Expiring;
pub use alone::over::TakeOver;
pub use by_value::ByValue;
pub use lasting::{Lasting, end_of};
pub use loaded::Loaded;
pub use quick_cache_model::{
    Bytes, BytesIn, DefaultHashBuilder, Refusal, Text, TextIn, UnitWeighter, Weighter,
};
pub use quick_cache_options::options::{Error, Options, OptionsBuilder};
pub use quick_cache_stats::Stats;
pub use quick_cache_unsync::{DefaultLifecycle, LoadError};
