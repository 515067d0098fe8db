//! What a user of the shared cache relies on, whatever other threads do.
ghost use Rattle.std.specs.Prelude.{◌≡◌, ◌⊎◌, ◌<◌, [], ◌∷◌, IfOk, IfErr, IfSome, OnErr, Some, None, true, false};
ghost use Rattle.quick_cache_model.specs.Hashing.{hash_of};
ghost use Rattle.quick_cache_locked.specs.Locked.{FromSome};
ghost use Rattle.quick_cache_sync.specs.Answers.{ReplacesSoBy};
ghost use Rattle.quick_cache_sync.specs.Shards.{shard_of_hash};

use quick_cache_model::{Lifecycle, Refusal, UnitWeighter, Weighter};
use quick_cache_shard::Ruled;
use quick_cache_sync::{Cache, DefaultLifecycle, TryError};
use std::alloc::Global;
use std::hash::{BuildHasher, Hash};
use std::sync::Wait;

/// A cache for 64 items has two shards at least, whatever it may weigh.
pub fn make_and_count(alloc: Global, weight: u64) -> Result<(usize, usize), Refusal>
    ensures items { IfOk result (λ counts. 1 < counts.0) }
    ensures weighted { IfOk result (λ counts. 1 < counts.1) }
{
    let by_items: Cache<u64, u64> = Cache::new(alloc, 64)?;
    let by_weight: Cache<u64, u64> = Cache::with_weighter(alloc, 64, weight, UnitWeighter)?;
    Ok((by_items.num_shards(), by_weight.num_shards()))
}

/// Equal keys have one shard, which is one of the cache's, and which their hash tells.
pub fn share_a_shard<K: Eq + Hash + Drop, V: Drop, We, B: BuildHasher, L: Lifecycle<K, V>>(
    cache: &Cache<K, V, We, B, L>,
    first: &K,
    second: &K,
) -> (usize, usize, usize)
    requires same { K.eq first.now second.now ≡ true }
    ensures one { result.0 ≡ result.1 }
    ensures there { result.0 < result.2 }
    ensures told { result.0 ≡ shard_of_hash cache.now.shards
        (hash_of B.BuildHasher B.Hasher.Hasher cache.now.builder (K.Hash.hash_input first.now)) }
{
    (
        cache.shard_index(first),
        cache.shard_index(second),
        cache.num_shards(),
    )
}

/// An insert that does not wait gives the pair back where it fails, and then the request state is
/// as it was.
pub fn try_or_take_back<
    K: Eq + Hash + Drop,
    V: Drop,
    We: Weighter<K, V>,
    B: BuildHasher,
    L: Lifecycle<K, V>,
>(
    cache: &Cache<K, V, We, B, L>,
    key: K,
    value: V,
    state: &mut L::RequestState,
) -> Result<(), (K, V, TryError)>
    requires fits { L.fits key value }
    ensures key { IfErr result (λ back. back.0 ≡ key) }
    ensures value { IfErr result (λ back. back.1 ≡ value) }
    ensures state { OnErr result (state.new ≡ state.old) }
{
    cache.try_insert_with_lifecycle(key, value, state)
}

/// So does one that waits.
pub fn insert_or_take_back<
    K: Eq + Hash + Drop,
    V: Drop,
    We: Weighter<K, V>,
    B: BuildHasher,
    L: Lifecycle<K, V>,
    R: Wait,
>(
    rt: &R,
    cache: &Cache<K, V, We, B, L>,
    key: K,
    value: V,
    state: &mut L::RequestState,
) -> Result<(), (K, V, Refusal)>
    requires fits { L.fits key value }
    ensures key { IfErr result (λ back. back.0 ≡ key) }
    ensures value { IfErr result (λ back. back.1 ≡ value) }
    ensures state { OnErr result (state.new ≡ state.old) }
{
    cache.insert_with_lifecycle(rt, key, value, state)
}

/// A put is refused for want of memory or of a slot, and of no ticket.
pub fn put_or_tell_why<
    K: Eq + Hash + Drop,
    V: Drop,
    We: Weighter<K, V>,
    B: BuildHasher,
    L: Lifecycle<K, V>,
    R: Wait,
>(rt: &R, cache: &Cache<K, V, We, B, L>, key: K, value: V) -> Result<(), Refusal>
where
    L::RequestState: Drop,
    requires fits { L.fits key value }
    ensures why { IfErr result (λ refusal. refusal ≡ Refusal.Memory ⊎ refusal ≡ Refusal.SlotsFull) }
{
    cache.put(rt, key, value)
}

/// A replace that is not soft answers as one that marks the item, of some shard.
pub fn replace_and_mark<
    K: Eq + Hash + Drop,
    V: Drop,
    We: Weighter<K, V>,
    B: BuildHasher,
    L: Lifecycle<K, V>,
    R: Wait,
>(
    rt: &R,
    cache: &Cache<K, V, We, B, L>,
    key: K,
    value: V,
    state: &mut L::RequestState,
) -> Result<(), (K, V)>
    requires fits { L.fits key value }
    ensures marks { FromSome L.Lifecycle K.eq (λ shard.
        ReplacesSoBy ⟦<Cache<K, V, We, B, L> as Ruled>⟧.goes K.eq shard
        false state.old key value result state.new) }
{
    cache.replace_with_lifecycle(rt, key, value, false, state)
}

/// A look-up is refused for memory alone, where the clone of a value failed.
pub fn get_or_none<
    K: Eq + Hash + Drop,
    V: Clone + Drop,
    We,
    B: BuildHasher,
    L: Lifecycle<K, V>,
    R: Wait,
>(rt: &R, cache: &Cache<K, V, We, B, L>, key: &K) -> Option<V> {
    match cache.get(rt, key) {
        Ok(found) => found,
        Err(Refusal::Memory) => None,
        Err(_) => unreachable!(),
    }
}

/// A look-up of numbers, whose clones cannot fail, is never refused.
pub fn get_number<K: Eq + Hash + Drop, We, B: BuildHasher, L: Lifecycle<K, u64>, R: Wait>(
    rt: &R,
    cache: &Cache<K, u64, We, B, L>,
    key: &K,
) -> Option<u64> {
    match cache.get(rt, key) {
        Ok(found) => found,
        Err(_) => unreachable!(),
    }
}

/// A removal by a test takes out only what passes it.
pub fn take_zero<K: Eq + Hash + Drop, We, B: BuildHasher, L: Lifecycle<K, u64>, R: Wait>(
    rt: &R,
    cache: &Cache<K, u64, We, B, L>,
    key: &K,
) -> Option<(K, u64)>
    ensures { IfSome result (λ pair. pair.1 ≡ 0) }
{
    cache.remove_if(rt, key, |value| *value == 0)
}

/// The default lifecycle keeps the first two pairs that leave, be they hot or cold, and no third.
pub fn keep_two<K: Eq + Drop, V: Drop>(
    first: (K, V),
    second: (K, V),
    third: (K, V),
) -> [Option<(K, V)>; 2]
    ensures { result ≡ Some first ∷ Some second ∷ [] }
{
    let lifecycle: DefaultLifecycle<K, V> = DefaultLifecycle::new();
    let mut state = [None, None];
    lifecycle.on_evict_cold(&mut state, first.0, first.1);
    lifecycle.on_evict_hot(&mut state, second.0, second.1);
    lifecycle.on_evict_cold(&mut state, third.0, third.1);
    state
}
