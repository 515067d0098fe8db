//! The cache for one thread.
#![tactic(auto)]

mod cache;
mod lent;
mod lifecycle;
mod loading;
mod many;
mod removal;
mod sizes;
mod tested;
mod walking;
mod writing;

pub use cache::Cache;
pub use lent::reading::Ref;
pub use lent::reference::RefMut;
pub use lent::writes_through::{poke, set};
pub use lifecycle::DefaultLifecycle;
pub use loading::guard::Guard;
pub use loading::not_loaded::{LoadError, NotLoaded};
pub use quick_cache_model::{
    Bytes, BytesIn, DefaultHashBuilder, Equivalent, ItemStats, Lifecycle, MemoryUsed, Queue,
    Refusal, Text, TextIn, ToKey, Token, UnitWeighter, Weighter, hash_of,
};
pub use quick_cache_options::options::{Error, Options, OptionsBuilder};
pub use quick_cache_shard::{CacheShard, Miss, Placeholder, Plainly, SavedIter};
pub use quick_cache_stats::Stats;
pub use walking::drain::Drain;
pub use walking::extracting::ExtractIf;
pub use walking::iter::Iter;
