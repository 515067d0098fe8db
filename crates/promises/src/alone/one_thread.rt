//! What a user of the cache for one thread relies on.
ghost use Rattle.std.specs.Prelude.{◌≡◌, ◌↔◌, ◌<◌, IsTrue, IsSome, IfOk, IfErr, IsOk, OnErr, Err, Some, true, false};
ghost use Rattle.quick_cache_model.specs.CacheState.{SameButOrder, item_count};
ghost use Rattle.quick_cache_model.specs.Finding.{HasNoItem};
ghost use Rattle.quick_cache_model.specs.Refusals.{slots_taken, slot_count};
ghost use Rattle.quick_cache_unsync.specs.Copies.{ClonesAreEqual};
ghost use Rattle.quick_cache_model.specs.Sizes.{hot_target_of, ghost_limit_of, default_hot_share, default_ghost_share};
ghost use Rattle.quick_cache_laws.specs.Laws.{EvictionEnds, EvictionIsDetermined};
ghost use Rattle.quick_cache_unsync.specs.Touches.{no_touches};
ghost use Rattle.quick_cache_unsync.specs.Alone.{IsDoneAlone};
ghost use Rattle.quick_cache_shard.specs.Steps.{ReplacesBy};

use quick_cache_base::laws::{eviction_law, removal_law};
use quick_cache_shard::{NoTouches, Ruled};
use quick_cache_unsync::{Cache, Lifecycle, Options, Refusal, Weighter};
use std::alloc::Global;
use std::hash::{BuildHasher, Hash};

/// A cache that was made for so many items is empty and may hold as many.
pub fn make_for_items<K: Eq + Hash + Drop, V: Drop>(
    alloc: Global,
    items: usize,
) -> Result<(bool, u64, u64), Refusal>
    ensures succeeds { IsOk result }
    ensures empty { IfOk result (λ told. told.0 ≡ true) }
    ensures capacity { IfOk result (λ told. told.1 ≡ items) }
    ensures target { IfOk result (λ told. told.2 ≡ hot_target_of items default_hot_share) }
{
    let cache: Cache<K, V> = Cache::new(alloc, items)?;
    Ok((
        cache.is_empty(),
        cache.capacity(),
        cache.shard().hot_target(),
    ))
}

/// One that was made with a weigher may hold so much weight, and keeps ghosts by its items.
pub fn make_for_weight<K: Eq + Hash + Drop, V: Drop, We: Drop>(
    alloc: Global,
    items: usize,
    weight: u64,
    weigher: We,
) -> Result<(u64, usize), Refusal>
    ensures succeeds { IsOk result }
    ensures capacity { IfOk result (λ told. told.0 ≡ weight) }
    ensures limit { IfOk result (λ told. told.1 ≡ ghost_limit_of items default_ghost_share) }
{
    let cache: Cache<K, V, We> = Cache::with_weighter(alloc, items, weight, weigher)?;
    Ok((cache.capacity(), cache.shard().ghost_limit()))
}

/// One that was made by options has their hot share.
pub fn make_by_options<K: Eq + Hash + Drop, V: Drop, We: Drop, B: BuildHasher + Drop, L: Drop>(
    alloc: Global,
    options: Options,
    weigher: We,
    builder: B,
    lifecycle: L,
) -> Result<u64, Refusal>
    ensures succeeds { IsOk result }
    ensures target { IfOk result (λ target. target
        ≡ hot_target_of options.weight_capacity options.hot_allocation) }
{
    let cache: Cache<K, V, We, B, L> = Cache::with_options(
        alloc, options, weigher, builder, lifecycle,
    )?;
    Ok(cache.shard().hot_target())
}

/// A refused insert gives the pair back, and leaves the state as it was.
pub fn insert_or_take_back<
    K: Eq + Hash + Drop,
    V: Drop,
    We: Weighter<K, V>,
    B: BuildHasher,
    L: Lifecycle<K, V>,
>(cache: &mut Cache<K, V, We, B, L>, key: K, value: V) -> Result<(), (K, V, Refusal)>
where
    L::RequestState: Drop,
    ensures key { IfErr result (λ back. back.0 ≡ key) }
    ensures value { IfErr result (λ back. back.1 ≡ value) }
    ensures same { OnErr result (cache.new.state ≡ cache.old.state) }
{
    cache.insert(key, value)
}

/// Where room was reserved, an insert is not refused for memory.
pub fn insert_in_room<
    K: Eq + Hash + Drop,
    V: Drop,
    We: Weighter<K, V>,
    B: BuildHasher,
    L: Lifecycle<K, V>,
>(cache: &mut Cache<K, V, We, B, L>, key: K, value: V) -> Result<bool, Refusal>
where
    L::RequestState: Drop,
    requires slot { slots_taken cache.old.state < slot_count }
    ensures { IfOk result (λ for_memory. for_memory ≡ false) }
{
    cache.reserve(1)?;
    match cache.insert(key, value) {
        Ok(()) => Ok(false),
        Err((_, _, refusal)) => Ok(refusal == Refusal::Memory),
    }
}

/// Room is made in one way alone, which ends: the laws speak of the very rules that the contracts of
/// a cache for one thread name.
pub fn evict_in_one_way<K, V>()
    ensures ends { EvictionEnds K V no_touches }
    ensures determined { EvictionIsDetermined K V no_touches }
{
    eviction_law::<K, V, NoTouches>();
}

/// A second removal finds nothing.
pub fn remove_twice<K: Eq + Hash + Drop, V: Drop, We, B: BuildHasher, L>(
    cache: &mut Cache<K, V, We, B, L>,
    key: &K,
) -> bool
    ensures { result ≡ false }
{
    removal_law::<K, V>();
    let _ = cache.peek(key);
    let _ = cache.remove(key);
    cache.remove(key).is_some()
}

/// A look-up finds what a peek shows, as often as one peeks.
pub fn peek_twice_and_get<K: Eq + Hash, V: Copy, We, B: BuildHasher, L>(
    cache: &mut Cache<K, V, We, B, L>,
    key: &K,
) -> (Option<V>, Option<V>, Option<V>)
    ensures peeks { result.0 ≡ result.1 }
    ensures gets { result.0 ≡ result.2 }
{
    let first = cache.peek(key).copied();
    let second = cache.peek(key).copied();
    (first, second, cache.get(key).copied())
}

/// A key is there where a peek shows a value, and then the cache is not empty.
pub fn peek_and_ask<K: Eq + Hash, V: Copy, We, B: BuildHasher, L>(
    cache: &Cache<K, V, We, B, L>,
    key: &K,
) -> (bool, Option<V>, bool)
    ensures alike { IsTrue result.0 ↔ IsSome result.1 }
    ensures filled { result.0 ≡ true → result.2 ≡ false }
{
    (
        cache.contains_key(key),
        cache.peek(key).copied(),
        cache.is_empty(),
    )
}

/// A cache that was cleared is empty.
pub fn clear_all<K: Eq + Hash + Drop, V: Drop, We, B: BuildHasher, L>(
    cache: &mut Cache<K, V, We, B, L>,
) -> bool
    ensures { result ≡ true }
{
    cache.clear();
    cache.is_empty()
}

/// The capacity is the one that was set last.
pub fn set_and_tell<
    K: Eq + Hash + Drop,
    V: Drop,
    We: Weighter<K, V>,
    B: BuildHasher,
    L: Lifecycle<K, V>,
>(cache: &mut Cache<K, V, We, B, L>, capacity: u64) -> u64
where
    L::RequestState: Drop,
    ensures { result ≡ capacity }
{
    cache.set_capacity(capacity);
    cache.capacity()
}

/// A replace of an absent key gives the pair back and changes nothing, whether it is soft or not.
pub fn replace_absent<K: Eq + Hash + Drop, V: Drop, We: Weighter<K, V>, B: BuildHasher>(
    cache: &mut Cache<K, V, We, B>,
    key: K,
    value: V,
    soft: bool,
) -> Result<(), (K, V)>
    requires absent { HasNoItem (K.eq key) cache.old.state }
    ensures back { result ≡ Err (key, value) }
    ensures same { SameButOrder cache.old.state cache.new.state }
{
    // A peek tells that the state is valid.
    let _ = cache.peek(&key);
    cache.replace(key, value, soft)
}

/// A replace that is not soft is one that marks the item.
pub fn replace_and_mark<
    K: Eq + Hash + Drop,
    V: Drop,
    We: Weighter<K, V>,
    B: BuildHasher,
    L: Lifecycle<K, V>,
>(cache: &mut Cache<K, V, We, B, L>, key: K, value: V) -> Result<(), (K, V)>
where
    L::RequestState: Drop,
    ensures marks { IsDoneAlone L.RequestState.is_default
        (ReplacesBy ⟦<Cache<K, V, We, B, L> as Ruled>⟧.goes no_touches cache.old K.eq false key
        value result cache.new) }
{
    cache.replace(key, value, false)
}

/// A copy has as many items.
pub fn copy_whole<
    K: Eq + Hash + Clone + Drop,
    V: Clone + Drop,
    We: Clone,
    B: BuildHasher + Clone,
    L: Clone,
>(cache: &Cache<K, V, We, B, L>) -> Result<Cache<K, V, We, B, L>, Refusal>
    requires keys { ClonesAreEqual K.eq K.is_clone }
    ensures { IfOk result (λ copy. item_count copy.state ≡ item_count cache.now.state) }
{
    cache.try_clone()
}

/// A walk tells before how many items it shows.
pub fn tell_size<K: Eq + Hash, V, We, B: BuildHasher, L>(
    cache: &Cache<K, V, We, B, L>,
) -> (usize, Option<usize>)
    ensures { result ≡ (item_count cache.now.state, Some (item_count cache.now.state)) }
{
    cache.iter().size_hint()
}
