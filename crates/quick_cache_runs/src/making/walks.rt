//! Calls that show or give out all items, each with its reply.
ghost use Rattle.std.specs.Prelude.{◌≡◌, ◌≤◌, [], IfOk, IfErr, vec_capacity};
ghost use Rattle.quick_cache_model.specs.Shown.{ArePairsShown};
ghost use Rattle.quick_cache_model.specs.CacheState.{item_count};
ghost use Rattle.quick_cache_model.specs.Removal.{Drains};
ghost use Rattle.quick_cache_shard.specs.Shard.{KeepsWork};
ghost use Rattle.quick_cache_runs.specs.Made.{StepsBy};

use crate::calls::CallMaker;
use quick_cache_model::{Call, Lifecycle, Refusal, Reply, Weighter};
use quick_cache_shard::Ruled;
use quick_cache_unsync::{Cache, Iter};
use std::alloc::Allocator;
use std::hash::{BuildHasher, Hash};

/// Clones of a key and of its value.
fn pair<K: Clone + Drop, V: Clone>(key: &K, value: &V) -> Result<(K, V), Refusal>
    ensures clones { IfOk result (λ pair. K.is_clone key.now pair.0 × V.is_clone value.now pair.1) }
    ensures refused { IfErr result (λ refusal. refusal ≡ Refusal.Memory) }
{
    let Ok(key) = key.clone() else {
        return Err(Refusal::Memory);
    };
    match value.clone() {
        Ok(value) => Ok((key, value)),
        Err(_) => Err(Refusal::Memory),
    }
}

/// Clones of all these pairs. Room for them is made first.
fn shown<M: Allocator, K: Eq + Hash + Clone + Drop, V: Clone + Drop>(
    alloc: M,
    items: Iter<'_, K, V>,
) -> Result<Vec<(K, V), M>, Refusal>
    ensures shows { IfOk result (λ pairs. ArePairsShown K.is_clone V.is_clone items.entry
        pairs.items) }
    ensures refused { IfErr result (λ refusal. refusal ≡ Refusal.Memory) }
{
    let mut pairs = Vec::new(alloc);
    let Ok(()) = pairs.reserve(items.len()) else {
        return Err(Refusal::Memory);
    };
    for (key, value) in items {
        pairs.push_reserved(pair(key, value)?);
    }
    Ok(pairs)
}

/// Takes all pairs out, in no order, into this list, which is empty and has room for them, and
/// drops all else.
fn given_out<M: Allocator, K: Eq + Hash + Drop, V: Drop, We, B: BuildHasher, L, A: Allocator>(
    mut pairs: Vec<(K, V), M>,
    cache: &mut Cache<K, V, We, B, L, A>,
) -> Vec<(K, V), M>
    requires none { pairs.items ≡ [] }
    requires room { item_count cache.old.state ≤ vec_capacity pairs }
    ensures drains { Drains cache.old.state result.items cache.new.state }
    ensures room { cache.old.room ≤ cache.new.room }
    ensures same { KeepsWork cache.old cache.new }
{
    for pair in cache.drain() {
        pairs.push_reserved(pair);
    }
    pairs
}

impl<
    F,
    M: Allocator + Clone,
    K: Eq + Hash + Clone + Drop,
    V: Clone + Drop,
    We: Weighter<K, V>,
    B: BuildHasher,
    L: Lifecycle<K, V>,
    A: Allocator,
> CallMaker<F, M, K, V, We, B, L, A> {
    /// Shows clones of all pairs, in no order. They are made first, and room for them before.
    #[inline(never)]
    pub(crate) fn walk(alloc: &M, cache: &Cache<K, V, We, B, L, A>) -> Reply<K, V, M>
        ensures step { StepsBy F ⟦<Cache<K, V, We, B, L, A> as Ruled>⟧.goes K.eq K.is_clone
            V.is_clone cache.now (Call.Iter) result cache.now }
    {
        let Ok(alloc) = alloc.clone() else {
            return Reply::Refused(Refusal::Memory);
        };
        match shown(alloc, cache.iter()) {
            Ok(pairs) => Reply::Pairs(pairs),
            Err(refusal) => Reply::Refused(refusal),
        }
    }

    /// Takes all pairs out, in no order, and drops all else. Room for them is made first.
    #[inline(never)]
    pub(crate) fn drain(alloc: &M, cache: &mut Cache<K, V, We, B, L, A>) -> Reply<K, V, M>
        ensures step { StepsBy F ⟦<Cache<K, V, We, B, L, A> as Ruled>⟧.goes K.eq K.is_clone
            V.is_clone cache.old (Call.Drain) result cache.new }
        ensures room { cache.old.room ≤ cache.new.room }
        ensures same { KeepsWork cache.old cache.new }
    {
        let Ok(alloc) = alloc.clone() else {
            return Reply::Refused(Refusal::Memory);
        };
        let mut pairs = Vec::new(alloc);
        let Ok(()) = pairs.reserve(cache.len()) else {
            return Reply::Refused(Refusal::Memory);
        };
        Reply::Pairs(given_out(pairs, cache))
    }
}
