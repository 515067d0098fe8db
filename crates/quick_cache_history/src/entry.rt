//! The entries of a history.

use quick_cache_model::{Call, Reply};
use quick_cache_options::Options;
use quick_cache_options::sizes::ShardSizes;

/// What a history is of. No value of it is made: histories exist in the proofs alone.
pub enum Entry<K, V> {
    /// A cache was made, of these options and sizes.
    Opened(Options, ShardSizes),
    /// In the first turn a call was made, and the second is the caller's next. It was made of the
    /// shard of the third number, with this reply.
    Made(u64, u64, u64, Call<K, V, bool>, Reply<K, V>),
}
