//! The sizes of a cache: its hot target and ghost limit, how a new capacity rescales them, and its
//! shards. Products are taken in 128 bits, and nothing here allocates.
ghost use Rattle.std.specs.Prelude.{◌≡◌, ℕ, ◌+◌, ◌*◌, ◌/◌, ◌^◌, ◌<◌, ◌≤◌, min, max};
ghost use Rattle.quick_cache_model.specs.Sizes.{clamped_target, hot_target_of, ghost_limit_of, rescaled_target, rescaled_limit, shard_part};
ghost use Rattle.quick_cache_model.specs.Sizes.{default_hot_share, IsShardCount};

use crate::options::{DEFAULT_HOT_ALLOCATION, Options, WHOLE_ALLOCATION};

/// The least number of items for which a shard of its own is worth its lock.
const LEAST_SHARD_ITEMS: usize = 32;

/// The weight up to which items stay hot, by a share in parts per million.
pub fn hot_target(capacity: u64, share: u32) -> u64
    ensures value { result ≡ hot_target_of capacity share }
    ensures at_least { min capacity 1 ≤ result }
    ensures at_most { result ≤ capacity }
{
    clamp_target(capacity, share_of(capacity, share))
}

/// How many ghosts are kept, by a share in parts per million.
pub fn ghost_limit(items: usize, share: u32) -> usize
    ensures value { result ≡ ghost_limit_of items share }

    // A share of at most the whole is never cut.
    ensures floor { share ≤ 1000000 → result ≡ items * share / 1000000 }
    ensures at_most { share ≤ 1000000 → result ≤ items }
{
    share_of(items as u64, share).min(usize::MAX as u128) as usize
}

/// The hot target after the capacity has changed: in proportion, and from capacity 0 by the default
/// share.
pub fn rescaled_target(old_capacity: u64, new_capacity: u64, target: u64) -> u64
    ensures value { result ≡ rescaled_target old_capacity new_capacity target }
    ensures at_least { min new_capacity 1 ≤ result }
    ensures at_most { result ≤ new_capacity }

    // The present capacity leaves each target that it allows.
    ensures same { old_capacity ≡ new_capacity → min old_capacity 1 ≤ target
        → target ≤ old_capacity → result ≡ target }
{
    if old_capacity == 0 {
        return hot_target(new_capacity, DEFAULT_HOT_ALLOCATION);
    }
    let in_proportion = u128::from(new_capacity) * u128::from(target) / u128::from(old_capacity);
    clamp_target(new_capacity, in_proportion)
}

/// The ghost limit after the capacity has changed: in proportion, at most the greatest `usize`, and
/// from capacity 0 as it was.
pub fn rescaled_limit(old_capacity: u64, new_capacity: u64, limit: usize) -> usize
    ensures value { result ≡ rescaled_limit old_capacity new_capacity limit }

    // The present capacity leaves the limit.
    ensures same { old_capacity ≡ new_capacity → result ≡ limit }
{
    if old_capacity == 0 {
        return limit;
    }
    let in_proportion = limit as u128 * u128::from(new_capacity) / u128::from(old_capacity);
    in_proportion.min(usize::MAX as u128) as usize
}

/// A share of a total, in parts per million, rounded down.
fn share_of(total: u64, share: u32) -> u128
    ensures { result ≡ total * share / 1000000 }
{
    u128::from(total) * u128::from(share) / u128::from(WHOLE_ALLOCATION)
}

/// The target nearest to a wish that a capacity allows.
fn clamp_target(capacity: u64, wish: u128) -> u64
    ensures { result ≡ clamped_target capacity wish }
{
    (wish.min(u128::from(capacity)) as u64).max(capacity.min(1))
}

/// How many of all items one of so many shards is made for.
pub fn shard_items(items: usize, shards: usize) -> usize
    requires { 0 < shards }
    ensures { result ≡ shard_part items shards }
{
    items.saturating_add(shards - 1) / shards
}

/// How much of the weight capacity one of so many shards has.
pub fn shard_weight(weight: u64, shards: usize) -> u64
    requires { 0 < shards }
    ensures { result ≡ shard_part weight shards }
{
    let shards = shards as u64;
    weight.saturating_add(shards - 1) / shards
}

/// How many shards a cache has that was asked for so many and is made for so many items: the next
/// power of two, halved while a shard has fewer than 32 items and there is more than one.
pub fn shard_count(asked: usize, items: usize) -> usize
    requires { asked ≤ 2 ^ 63 }
    ensures count { IsShardCount asked items result }
    ensures some { 0 < result }
    ensures only { (other : ℕ) → IsShardCount asked items other → other ≡ result }
{
    let mut shards = asked.next_power_of_two();
    while shards > 1 && shard_items(items, shards) < LEAST_SHARD_ITEMS {
        shards /= 2;
    }
    shards
}

/// How a cache is divided into shards.
#[derive(Debug, Clone, Copy, PartialEq, Eq)]
pub struct ShardSizes {
    /// The number of shards, a power of two.
    pub shards: usize,
    /// How many items one shard is made for.
    pub items: usize,
    /// The weight that one shard may hold.
    pub weight: u64,
}

/// How a `sync` cache with these options is divided.
pub fn shard_sizes(options: &Options) -> ShardSizes
    ensures shards { IsShardCount options.now.shards options.now.estimated_items_capacity
        result.shards }
    ensures some { 0 < result.shards }
    ensures items { result.items
        ≡ shard_part options.now.estimated_items_capacity result.shards }
    ensures weight { result.weight ≡ shard_part options.now.weight_capacity result.shards }
{
    let shards = shard_count(options.shards(), options.estimated_items_capacity());
    ShardSizes {
        shards,
        items: shard_items(options.estimated_items_capacity(), shards),
        weight: shard_weight(options.weight_capacity(), shards),
    }
}
