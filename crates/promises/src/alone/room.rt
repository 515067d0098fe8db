//! How much room a cache makes.
ghost use Rattle.std.specs.Prelude.{◌≡◌, ◌<◌, ◌≤◌, ◌+◌, ◌*◌, min, false, IfOk};
ghost use Rattle.quick_cache_model.specs.Hashing.{StandsForGiven};
ghost use Rattle.quick_cache_model.specs.Refusals.{slots_taken, slot_count};

use quick_cache_model::ToKey;
use quick_cache_unsync::{Cache, Lifecycle, Refusal, UnitWeighter, Weighter};
use std::alloc::Global;
use std::hash::{BuildHasher, Hash};

/// A new cache that is asked for room has as much, and at most four times that and one group.
pub fn make_with_room<K: Eq + Hash + Drop, V: Drop>(
    alloc: Global,
    items: usize,
) -> Result<Cache<K, V>, Refusal>
    ensures enough { IfOk result (λ cache. min items slot_count ≤ cache.room) }
    ensures at_most { IfOk result (λ cache. cache.room ≤ 4 * items + 14) }
{
    let weight = items as u64;
    let mut cache: Cache<K, V> = Cache::with_weighter(alloc, items, weight, UnitWeighter)?;
    cache.reserve(items)?;
    Ok(cache)
}

/// Where room was reserved, a load is not refused for memory, if its key is had without fail.
pub fn load_in_room<
    K: Eq + Hash + Drop,
    V: Drop,
    We: Weighter<K, V>,
    B: BuildHasher,
    L: Lifecycle<K, V>,
    Q: ToKey<K>,
    E: Drop,
    F: FnOnce() -> Result<V, E> + Drop,
>(cache: &mut Cache<K, V, We, B, L>, query: &Q, loader: F) -> Result<bool, Refusal>
where
    L::RequestState: Drop,
    requires stands { StandsForGiven (Q.to_key_gives query.now) (Q.equivalent query.now) }
    requires loader { F.pre loader }
    requires key { Q.to_key_is_infallible query.now }
    requires slot { slots_taken cache.old.state < slot_count }
    ensures { IfOk result (λ for_memory. for_memory ≡ false) }
{
    cache.reserve(1)?;
    match cache.load(query, loader) {
        Ok(_) => Ok(false),
        Err(refusal) => Ok(refusal == Refusal::Memory),
    }
}
