//! How many keys of a trace this project's cache has when they are asked for.
ghost use Rattle.std.specs.Prelude.{◌≡◌, ◌∷◌, [], IfOk};
ghost use Rattle.quick_cache_shard.specs.Steps.{rules_in};
ghost use Rattle.quick_cache_unsync.specs.Touches.{no_touches};
ghost use Rattle.qcsim.specs.Simulation.{Simulates, HasHits, counted, made_by};

use qcsim_parts::Trace;
use quick_cache_options::Options;
use quick_cache_shard::Ruled;
use quick_cache_unsync::{
    Cache, DefaultHashBuilder, DefaultLifecycle, Lifecycle, Refusal, UnitWeighter, Weighter,
};
use std::alloc::Global;
use std::hash::{BuildHasher, Hash};

/// Looks a key up, and puts it in where it is not found. It tells whether it was found.
fn ask_for<K: Eq + Hash + Copy + Drop, We: Weighter<K, ()>, B: BuildHasher, L: Lifecycle<K, ()>>(
    cache: &mut Cache<K, (), We, B, L>,
    key: K,
) -> Result<bool, Refusal>
where
    L::RequestState: Drop,
    ensures asks { L.steady cache.old.lifecycle → IfOk result (λ found. Simulates
        (rules_in ⟦<Cache<K, (), We, B, L> as Ruled>⟧.goes no_touches cache.old) K.eq cache.old.state (key ∷ []) (counted found) cache.new.state) }
    ensures same_weigher { cache.new.weigher ≡ cache.old.weigher }
    ensures same_builder { cache.new.builder ≡ cache.old.builder }
    ensures same_lifecycle { cache.new.lifecycle ≡ cache.old.lifecycle }
{
    if cache.get(&key).is_some() {
        return Ok(true);
    }
    match cache.insert(key, ()) {
        Ok(()) => Ok(false),
        Err((_, _, refusal)) => Err(refusal),
    }
}

/// How many keys of a trace a cache has when they are asked for. A key that it does not have is put
/// in.
fn ask_for_all<
    K: Eq + Hash + Copy + Drop,
    We: Weighter<K, ()>,
    B: BuildHasher,
    L: Lifecycle<K, ()>,
>(cache: &mut Cache<K, (), We, B, L>, keys: &[K]) -> Result<u64, Refusal>
where
    L::RequestState: Drop,
    ensures asks { L.steady cache.old.lifecycle → IfOk result (λ hits. Simulates
        (rules_in ⟦<Cache<K, (), We, B, L> as Ruled>⟧.goes no_touches cache.old) K.eq cache.old.state keys.now hits cache.new.state) }
{
    let mut hits = 0;
    let mut rest = keys;
    while let Some((key, tail)) = rest.split_first() {
        if ask_for(cache, *key)? {
            hits += 1;
        }
        rest = tail;
    }
    Ok(hits)
}

/// An empty cache with these options, in which each key weighs one.
fn cache_with(alloc: Global, options: Options) -> Result<Cache<u64, ()>, Refusal>
    ensures makes { IfOk result (λ cache. cache.state ≡ made_by options) }
{
    let (builder, lifecycle) = (DefaultHashBuilder::new(), DefaultLifecycle::new());
    Cache::with_options(alloc, options, UnitWeighter, builder, lifecycle)
}

/// How many keys of a trace a cache with these options has when they are asked for, where it is empty
/// at first and each key weighs one.
///
/// # Errors
///
/// `Memory` or `SlotsFull`, where a key could not be put in.
pub fn cache_hits(alloc: Global, keys: &[u64], options: Options) -> Result<u64, Refusal>
    ensures hits { IfOk result (HasHits options keys.now) }
{
    let mut cache = cache_with(alloc, options)?;
    ask_for_all(&mut cache, keys)
}

/// Weighs a key by its value.
#[derive(Drop)]
struct ByValue;

impl Weighter<u64, u32> for ByValue {
    ghost weight_of = { λ _ _ weight. weight };

    fn weight(&self, _key: &u64, weight: &u32) -> u64 {
        u64::from(*weight)
    }
}

/// The same of keys with weights of their own.
///
/// # Errors
///
/// `Memory` or `SlotsFull`, where a key could not be put in.
pub fn weighed_hits(alloc: Global, trace: &Trace, options: Options) -> Result<u64, Refusal> {
    let (builder, lifecycle) = (DefaultHashBuilder::new(), DefaultLifecycle::new());
    let mut cache = Cache::with_options(alloc, options, ByValue, builder, lifecycle)?;
    let mut hits = 0u64;
    for (index, key) in trace.keys().iter().enumerate() {
        if cache.get(key).is_some() {
            hits = hits.saturating_add(1);
        } else if let Err((_, _, refusal)) = cache.insert(*key, trace.weight(index)) {
            return Err(refusal);
        }
    }
    Ok(hits)
}
