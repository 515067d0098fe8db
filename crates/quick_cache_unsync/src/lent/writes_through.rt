//! Values that are written through references.
ghost use Rattle.quick_cache_shard.specs.Shard.{KeepsRoom};
ghost use Rattle.quick_cache_unsync.specs.Touches.{no_touches};
ghost use Rattle.quick_cache_unsync.specs.Steps.{SetsBy, PokesBy};

use crate::cache::Cache;
use quick_cache_model::{Lifecycle, Weighter};
use quick_cache_shard::Ruled;
use std::alloc::Allocator;
use std::hash::{BuildHasher, Hash};

/// Writes a value through `get_mut`, and tells whether there was an item.
pub fn set<
    K: Eq + Hash + Drop,
    V: Drop,
    We: Weighter<K, V>,
    B: BuildHasher,
    L: Lifecycle<K, V>,
    A: Allocator,
>(cache: &mut Cache<K, V, We, B, L, A>, key: &K, value: V) -> bool
    ensures sets { SetsBy ⟦<Cache<K, V, We, B, L, A> as Ruled>⟧.goes no_touches cache.old
        (K.eq key.now) value result cache.new }
    ensures same { KeepsRoom cache.old cache.new }
{
    match cache.get_mut(key) {
        Some(mut reference) => {
            *reference = value;
            true
        }
        None => false,
    }
}

/// Writes a value through `peek_mut`, and tells whether there was an item.
pub fn poke<
    K: Eq + Hash + Drop,
    V: Drop,
    We: Weighter<K, V>,
    B: BuildHasher,
    L: Lifecycle<K, V>,
    A: Allocator,
>(cache: &mut Cache<K, V, We, B, L, A>, key: &K, value: V) -> bool
    ensures writes { PokesBy ⟦<Cache<K, V, We, B, L, A> as Ruled>⟧.goes no_touches cache.old
        (K.eq key.now) value result cache.new }
    ensures same { KeepsRoom cache.old cache.new }
{
    match cache.peek_mut(key) {
        Some(mut reference) => {
            *reference = value;
            true
        }
        None => false,
    }
}
