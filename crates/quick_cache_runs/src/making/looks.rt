//! Calls that look at one item or tell numbers, each with its reply.
ghost use Rattle.std.specs.Prelude.{◌≡◌};
ghost use Rattle.quick_cache_model.specs.Answered.{AlwaysClones, IsAnswered};
ghost use Rattle.quick_cache_model.specs.Finding.{HasNoItem};
ghost use Rattle.quick_cache_runs.specs.Made.{StepsBy};
ghost use Rattle.quick_cache_shard.specs.Shard.{IsSoundShard};

use crate::calls::CallMaker;
use quick_cache_model::{Call, Lifecycle, Refusal, Reply, Weighter};
use quick_cache_shard::Ruled;
use quick_cache_unsync::Cache;
use std::alloc::Allocator;
use std::hash::{BuildHasher, Hash};

impl<
    F,
    M: Allocator,
    K: Eq + Hash + Clone + Drop,
    V: Clone + Drop,
    We: Weighter<K, V>,
    B: BuildHasher,
    L: Lifecycle<K, V>,
    A: Allocator,
> CallMaker<F, M, K, V, We, B, L, A> {
    /// Looks a key up. The clone that the reply shows is made first.
    #[inline(always)]
    pub(crate) fn get(cache: &mut Cache<K, V, We, B, L, A>, key: K) -> Reply<K, V, M>
        ensures step { StepsBy F ⟦<Cache<K, V, We, B, L, A> as Ruled>⟧.goes K.eq K.is_clone
            V.is_clone cache.old (Call.Get key) result cache.new }
        ensures same { cache.new ≡ record cache.old { state = cache.new.state } }
        // A look-up is refused only where a clone fails.
        ensures answered { AlwaysClones V.is_infallible → IsAnswered {F = F} (Call.Get key) result }
    {
        match cache.find(&key) {
            Ok(Some(copy)) => Reply::Value(Some(copy)),
            Ok(None) => Self::miss(cache, &key),
            Err(refusal) => Reply::Refused(refusal),
        }
    }

    /// Looks up a key that has no item, which counts a miss.
    fn miss(cache: &mut Cache<K, V, We, B, L, A>, key: &K) -> Reply<K, V, M>
        requires absent { HasNoItem (K.eq key.now) cache.old.state }
        requires sound { IsSoundShard K.eq cache.old }
        ensures step { StepsBy F ⟦<Cache<K, V, We, B, L, A> as Ruled>⟧.goes K.eq K.is_clone
            V.is_clone cache.old (Call.Get key.now) result cache.new }
        ensures same { cache.new ≡ record cache.old { state = cache.new.state } }
        ensures answered { IsAnswered {F = F} (Call.Get key.now) result }
    {
        let _ = cache.get(key);
        Reply::Value(None)
    }

    /// Looks at a key, and shows a clone of the value.
    #[inline(never)]
    pub(crate) fn peek(cache: &Cache<K, V, We, B, L, A>, key: K) -> Reply<K, V, M>
        ensures step { StepsBy F ⟦<Cache<K, V, We, B, L, A> as Ruled>⟧.goes K.eq K.is_clone
            V.is_clone cache.now (Call.Peek key) result cache.now }
        // It is refused only where a clone fails.
        ensures answered { AlwaysClones V.is_infallible → IsAnswered {F = F} (Call.Peek key) result }
    {
        match cache.peek(&key) {
            None => Reply::Value(None),
            Some(value) => match value.clone() {
                Ok(copy) => Reply::Value(Some(copy)),
                Err(_) => Reply::Refused(Refusal::Memory),
            },
        }
    }

    /// Tells whether an item stands under a key.
    #[inline(never)]
    pub(crate) fn contains(cache: &Cache<K, V, We, B, L, A>, key: K) -> Reply<K, V, M>
        ensures step { StepsBy F ⟦<Cache<K, V, We, B, L, A> as Ruled>⟧.goes K.eq K.is_clone
            V.is_clone cache.now (Call.Contains key) result cache.now }
    {
        Reply::Flag(cache.contains_key(&key))
    }

    /// Tells how often the item under a key was read.
    #[inline(never)]
    pub(crate) fn stats(cache: &Cache<K, V, We, B, L, A>, key: K) -> Reply<K, V, M>
        ensures step { StepsBy F ⟦<Cache<K, V, We, B, L, A> as Ruled>⟧.goes K.eq K.is_clone
            V.is_clone cache.now (Call.Stats key) result cache.now }
    {
        match cache.item_stats(&key) {
            Some(stats) => Reply::Stats(Some(stats.access_count)),
            None => Reply::Stats(None),
        }
    }

    /// Tells the numbers of the cache.
    #[inline(never)]
    pub(crate) fn counts(cache: &Cache<K, V, We, B, L, A>) -> Reply<K, V, M>
        ensures step { StepsBy F ⟦<Cache<K, V, We, B, L, A> as Ruled>⟧.goes K.eq K.is_clone
            V.is_clone cache.now (Call.Counts) result cache.now }
    {
        Reply::Counts {
            len: cache.len(),
            weight: cache.weight(),
            capacity: cache.capacity(),
            hits: cache.hits(),
            misses: cache.misses(),
        }
    }
}
