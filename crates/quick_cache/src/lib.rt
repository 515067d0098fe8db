//! The cache under the names of the Rust crate: the one that threads share, the one for one thread,
//! and what both are made of.
#![tactic(auto)]

pub mod shard;
pub mod sync;
pub mod sync_placeholder;
pub mod unsync;

pub use quick_cache_base::{
    Bytes, BytesIn, DefaultHashBuilder, Equivalent, ItemStats, Lifecycle, LinkedSlab, MemoryUsed,
    Options, OptionsBuilder, Queue, Refusal, Table, Text, TextIn, ToKey, Token, UnitWeighter,
    Weighter, hash_of, linked_slab, options, protocol, sizes, table,
};
pub use quick_cache_sync::Stats;
