//! Calls that ask a predicate which items go, each with its reply.
ghost use Rattle.std.specs.Prelude.{◌≤◌};
ghost use Rattle.quick_cache_shard.specs.Predicates.{Answers};
ghost use Rattle.quick_cache_shard.specs.Shard.{KeepsWork};
ghost use Rattle.quick_cache_runs.specs.Made.{StepsAsked};

use crate::calls::CallMaker;
use quick_cache_model::{Call, Lifecycle, Reply, Weighter};
use quick_cache_shard::Ruled;
use quick_cache_unsync::Cache;
use std::alloc::Allocator;
use std::hash::{BuildHasher, Hash};

impl<
    F: Fn(&K, &V) -> bool + Drop,
    M: Allocator,
    K: Eq + Hash + Clone + Drop,
    V: Clone + Drop,
    We: Weighter<K, V>,
    B: BuildHasher,
    L: Lifecycle<K, V>,
    A: Allocator,
> CallMaker<F, M, K, V, We, B, L, A> {
    /// Takes the item under a key out where its value is wanted beside that key.
    #[inline(never)]
    pub(crate) fn remove_if(
        cache: &mut Cache<K, V, We, B, L, A>,
        key: K,
        wanted: F,
    ) -> Reply<K, V, M>
        requires callable { F.IsAlwaysCallable wanted }

        // Where the predicate answers as a pure test does, it is the removal by that test.
        ensures step { StepsAsked F.Fn ⟦<Cache<K, V, We, B, L, A> as Ruled>⟧.goes K.eq K.is_clone
            V.is_clone cache.old (Call.RemoveIf key wanted) result cache.new }
        ensures room { cache.old.room ≤ cache.new.room }
        ensures same { KeepsWork cache.old cache.new }
    {
        let is_wanted = |value: &V| -> bool
            requires { F.IsAlwaysCallable wanted }
            ensures { Answers F.Fn wanted key value.now result }
        { wanted(&key, value) };
        Reply::Pair(cache.remove_if(&key, is_wanted))
    }

    /// Drops the items that the predicate does not keep.
    #[inline(never)]
    pub(crate) fn retain(cache: &mut Cache<K, V, We, B, L, A>, keep: F) -> Reply<K, V, M>
        requires callable { F.IsAlwaysCallable keep }

        // Where the predicate answers as a pure test does, it is the removal by that test.
        ensures step { StepsAsked F.Fn ⟦<Cache<K, V, We, B, L, A> as Ruled>⟧.goes K.eq K.is_clone
            V.is_clone cache.old (Call.Retain keep) result cache.new }
        ensures room { cache.old.room ≤ cache.new.room }
        ensures same { KeepsWork cache.old cache.new }
    {
        cache.retain(keep);
        Reply::Done
    }
}
