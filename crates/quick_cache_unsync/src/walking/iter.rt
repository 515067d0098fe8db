//! A walk over all items.
ghost use Rattle.quick_cache_shard.specs.Shard.{AreResidents};

use crate::cache::Cache;
use quick_cache_shard::Placeholder;
use std::alloc::Allocator;
use std::hash::{BuildHasher, Hash};

/// All items, each once as its key and its value, in no order that is told.
pub type Iter<'a, K, V> = quick_cache_shard::Iter<'a, K, V, Placeholder>;

impl<'a, K: Eq + Hash, V, We, B: BuildHasher, L, A: Allocator> IntoIterator
    for &'a Cache<K, V, We, B, L, A> {
    type Item = (&'a K, &'a V);

    type IntoIter = Iter<'a, K, V>;

    ghost into_iter_gives = { λ cache pairs. AreResidents cache.now.state pairs };

    fn into_iter(self) -> Iter<'a, K, V> {
        self.iter()
    }
}

impl<K: Eq + Hash, V, We, B: BuildHasher, L, A: Allocator> Cache<K, V, We, B, L, A> {
    /// All items, each once as its key and its value. Their order is open. It is no use of them,
    /// and it takes no memory.
    pub fn iter(&self) -> Iter<'_, K, V>
        ensures { AreResidents self.now.state result }
    {
        self.shard.iter()
    }
}
