//! A reference to a value of the cache, to read.
ghost use Rattle.std.specs.Prelude.{◌≡◌, ◌<◌};
ghost use Rattle.quick_cache_model.specs.Hashing.{hash_of};
ghost use Rattle.quick_cache_shard.specs.References.{count_under, IsValueUnder};

use crate::cache::Cache;
use quick_cache_model::{Equivalent, Lifecycle, Weighter};
use quick_cache_shard::Token;
use std::alloc::{Allocator, Global};
use std::hash::{BuildHasher, Hash};
use std::ops::Deref;

/// A reference to the value under a query, to read.
#[derive(Drop)]
pub struct Ref<
    'a,
    Q: Equivalent<K>,
    K: Eq + Hash + Drop,
    V: Drop,
    We: Weighter<K, V>,
    B: BuildHasher,
    L: Lifecycle<K, V>,
    A: Allocator = Global,
> {
    pub(crate) cache: &'a mut Cache<K, V, We, B, L, A>,
    pub(crate) query: &'a Q,
    pub(crate) hash: u64,
    // The slot where the item is thought to stand: only what it costs to find it hangs on that.
    pub(crate) slot: u32,
    ghost there: { 0 < count_under (Q.equivalent query.now) cache.now.state },
    ghost hash_is: { hash
        ≡ hash_of B.BuildHasher B.Hasher.Hasher cache.now.builder (Q.hash_input query.now) },
}

impl<
    Q: Equivalent<K>,
    K: Eq + Hash + Drop,
    V: Drop,
    We: Weighter<K, V>,
    B: BuildHasher,
    L: Lifecycle<K, V>,
    A: Allocator,
> Deref for Ref<'_, Q, K, V, We, B, L, A> {
    type Target = V;

    ghost deref_gives = { λ p x. IsValueUnder (Q.equivalent p.query.now) p.cache.now.state x };

    fn deref(&self) -> &V
        ensures { IsValueUnder (Q.equivalent self.now.query.now) self.now.cache.now.state
            result.now }
    {
        let cache = &*self.cache;
        cache
            .shard
            .value_under(Token::new(self.slot), self.hash, self.query)
    }
}
