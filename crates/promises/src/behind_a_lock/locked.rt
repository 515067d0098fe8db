//! What those rely on who have a shard behind a lock of their own.
ghost use Rattle.std.specs.Prelude.{◌≡◌, ◌<◌, Bool, IfOk, OnOk, true};
ghost use Rattle.std.specs.Fn.{FnReturnsAt};
ghost use Rattle.quick_cache_locked.specs.Asked.{MayBeAskedOfFitting};
ghost use Rattle.quick_cache_model.specs.CacheState.{item_count};
ghost use Rattle.quick_cache_model.specs.Refusals.{slots_taken, slot_count};
ghost use Rattle.quick_cache_model.specs.Sizes.{hot_target_of};
ghost use Rattle.quick_cache_shard.specs.Predicates.{IsAnsweredAs};

use quick_cache_base::options::Options;
use quick_cache_base::sizes::ShardSizes;
use quick_cache_locked::LockedShard;
use quick_cache_model::{Lifecycle, Refusal, Weighter};
use std::alloc::Global;
use std::hash::{BuildHasher, Hash};

/// One that is made by options has their hot share.
pub fn make_by_share<
    K: Eq + Hash + Drop,
    V: Drop,
    We: Drop,
    B: BuildHasher + Drop,
    L: Lifecycle<K, V> + Drop,
>(
    alloc: Global,
    options: &Options,
    sizes: ShardSizes,
    weigher: We,
    builder: B,
    lifecycle: L,
) -> Result<LockedShard<K, V, We, B, L>, Refusal>
    ensures target { IfOk result (λ shard. shard.state.hot_target
        ≡ hot_target_of sizes.weight options.now.hot_allocation) }
{
    LockedShard::new(alloc, options, sizes, weigher, builder, lifecycle)
}

/// Its capacity is the one that was set last.
pub fn set_last<
    K: Eq + Hash + Drop,
    V: Drop,
    We: Weighter<K, V>,
    B: BuildHasher,
    L: Lifecycle<K, V>,
>(shard: &mut LockedShard<K, V, We, B, L>, capacity: u64, state: &mut L::RequestState)
    ensures { shard.new.state.capacity ≡ capacity }
{
    shard.set_capacity(capacity, state);
}

/// Room that was reserved in it is there.
pub fn reserve_entry<K: Eq + Hash + Drop, V: Drop, We, B: BuildHasher, L: Lifecycle<K, V>>(
    shard: &mut LockedShard<K, V, We, B, L>,
) -> Result<(), Refusal>
    requires slot { slots_taken shard.old.state < slot_count }
    ensures { OnOk result (0 < shard.new.room) }
{
    shard.reserve(1)
}

/// A retain by a test that each pair passes drops none.
pub fn keep_all<
    K: Eq + Hash + Drop,
    V: Drop,
    We,
    B: BuildHasher,
    L: Lifecycle<K, V>,
    F: Fn(&K, &V) -> bool,
>(shard: &mut LockedShard<K, V, We, B, L>, keep: F)
    requires callable { MayBeAskedOfFitting L.fits F.Fn keep }
    requires passes { IsAnsweredAs F.Fn keep (λ key value. true) }
    ensures { item_count shard.new.state ≡ item_count shard.old.state }
{
    shard.retain(keep);
}

/// An invalidation by a test that each key passes leaves no item.
pub fn drop_all<
    K: Eq + Hash + Drop,
    V: Drop,
    We,
    B: BuildHasher,
    L: Lifecycle<K, V>,
    F: Fn(&K) -> bool,
>(shard: &mut LockedShard<K, V, We, B, L>, test: F)
    requires callable { F.IsAlwaysCallable test }
    requires passes { (key : K) (answer : Bool) → FnReturnsAt F.Fn test key answer → answer ≡ true }
    ensures { item_count shard.new.state ≡ 0 }
{
    let _ = shard.invalidate_if(test);
}
