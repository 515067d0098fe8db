//! One cache without a lock, of which the others are made.

pub use quick_cache_shard::{
    CacheShard, Drain, EntryAction, EntryOrPlaceholder, GhostIter, InsertStrategy, Iter, IterFrom,
    MakesPlaceholders, RefMut, RingIter, SharedPlaceholder, TokenMut, Touches,
};
pub use quick_cache_store::slots::{Marked, Resident};
