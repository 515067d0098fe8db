//! What a user relies on who saves a shared cache, and puts pairs back into one.
ghost use Rattle.std.specs.Prelude.{◌≡◌, ◌⊎◌, IfOk, IfErr, IfSome};
ghost use Rattle.std.specs.List.{AllByRecursion};
ghost use Rattle.quick_cache_shard.specs.Copies.{ClonesAreEqual};
ghost use Rattle.quick_cache_locked.specs.Fitting.{ClonesFit};
ghost use Rattle.quick_cache_sync.specs.InTurn.{FitsHeated};

use quick_cache_model::{Lifecycle, Queue, Refusal, Weighter};
use quick_cache_sync::{Cache, Heated};
use std::alloc::Allocator;
use std::hash::{BuildHasher, Hash};
use std::sync::Wait;

/// Where clones are as their keys and values are, each saved pair fits, so that it may come back.
pub fn save_what_fits<
    K: Eq + Hash + Clone + Drop,
    V: Clone,
    We,
    B: BuildHasher,
    L: Lifecycle<K, V>,
    O: Allocator,
    R: Wait,
>(rt: &R, cache: &Cache<K, V, We, B, L>, alloc: O) -> Result<Vec<Heated<K, V>, O>, Refusal>
    requires keys { ClonesAreEqual K.eq K.is_clone }
    requires values { ClonesFit L.fits V.is_clone }
    ensures fits { IfOk result (λ list. AllByRecursion (FitsHeated L.Lifecycle) list.items) }
    ensures why { IfErr result (λ refusal. refusal ≡ Refusal.Memory) }
{
    cache.saved(rt, alloc)
}

/// A pair that does not come back is given back as it was. There is no memory or no slot for it, or
/// something is known of its key.
pub fn restore_or_take_back<
    K: Eq + Hash + Drop,
    V: Drop,
    We: Weighter<K, V>,
    B: BuildHasher,
    L: Lifecycle<K, V>,
    R: Wait,
>(
    rt: &R,
    cache: &Cache<K, V, We, B, L>,
    key: K,
    value: V,
    queue: Queue,
    mark: u8,
) -> Result<(), (K, V, Option<Refusal>)>
    requires fits { L.fits key value }
    ensures key { IfErr result (λ back. back.0 ≡ key) }
    ensures value { IfErr result (λ back. back.1 ≡ value) }
    ensures why { IfErr result (λ back. IfSome back.2 (λ refusal.
        refusal ≡ Refusal.Memory ⊎ refusal ≡ Refusal.SlotsFull)) }
{
    cache.restore(rt, key, value, queue, mark)
}
