//! That a walk meets each item of a shard.
ghost use Rattle.quick_cache_shard.specs.Shard.{HasItem};
ghost use Rattle.quick_cache_locked.specs.WholeWalks.{IsAhead};

use quick_cache_model::SharedPlaceholder;
use quick_cache_shard::CacheShard;
use std::alloc::Allocator;
use std::hash::{BuildHasher, Hash};

/// An item of the key, whatever it weighs, has a place that a walk from the beginning has ahead of
/// it. Nothing changes.
pub fn is_ahead<K: Eq + Hash, V, We, B: BuildHasher, L, P: SharedPlaceholder<K>, A: Allocator>(
    shard: &CacheShard<K, V, We, B, L, P, A>,
    key: &K,
)
    ensures { HasItem (K.eq key.now) shard.now.state → IsAhead K.eq key.now shard.now 0 }
{
    let hash = shard.hash(key);
    let _walk = shard.iter_from(None);
    let _ = shard.token_of(hash, key);
}
