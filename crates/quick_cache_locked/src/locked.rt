//! A shard as its lock keeps it: each call is one step of it, and moves no item that stays.
ghost use Rattle.std.specs.Prelude.{◌≡◌, IfOk, IfErr, IsOk};
ghost use Rattle.quick_cache_shard.specs.Shard.{made_with};
ghost use Rattle.quick_cache_locked.specs.Counts.{empty_of};
ghost use Rattle.quick_cache_locked.specs.Locked.{IsKept};

mod acting;
mod hottest;
mod invalidating;
mod loading;
mod reads;
mod removal;
mod saving;
mod sizes;
mod tested;
mod walks;
mod writes;

use quick_cache_loading::sharing::{Maker, SharedPlaceholder};
use quick_cache_model::{Lifecycle, Refusal, Weighter};
use quick_cache_options::options::Options;
use quick_cache_options::sizes::ShardSizes;
use quick_cache_shard::{CacheShard, Keyed, Ruled};
use std::alloc::{Allocator, Global};
use std::hash::{BuildHasher, Hash};
use std::marker::Model;

/// A shard behind a lock, whose state is valid and whose values fit their keys.
#[derive(Drop)]
pub struct LockedShard<
    K: Eq + Hash + Drop,
    V: Drop,
    We,
    B: BuildHasher,
    L: Lifecycle<K, V>,
    A: Allocator = Global,
> {
    shard: CacheShard<K, V, We, B, L, SharedPlaceholder<K, V, L, A>, A>,
    // What it makes placeholders with: an allocator.
    maker: Maker<A>,
}

impl<K: Eq + Hash + Drop, V: Drop, We, B: BuildHasher, L: Lifecycle<K, V>, A: Allocator> Model
    for LockedShard<K, V, We, B, L, A> {
    ghost use Rattle.quick_cache_shard.specs.Shard.{Shard};
    ghost use Rattle.quick_cache_locked.specs.Fitting.{AllFit};

    ghost Value = { Shard K V We B L };

    ghost view = { λ locked. locked.shard };

    ghost invariant = { λ locked. AllFit L.fits locked.shard.state };
}

impl<K: Eq + Hash + Drop, V: Drop, We, B: BuildHasher, L: Lifecycle<K, V>, A: Allocator> Keyed
    for LockedShard<K, V, We, B, L, A> {
    ghost use Rattle.quick_cache_model.specs.Hashing.{hash_of};

    type Builder = B;

    ghost hash = { hash_of B.BuildHasher B.Hasher.Hasher };
}

impl<
    K: Eq + Hash + Drop,
    V: Drop,
    We: Weighter<K, V>,
    B: BuildHasher,
    L: Lifecycle<K, V>,
    A: Allocator,
> Ruled for LockedShard<K, V, We, B, L, A> {
    ghost use Rattle.quick_cache_shard.specs.Goes.{goes_by};

    type Key = K;

    type Value = V;

    type Weigher = We;

    type Builder = B;

    type Life = L;

    type RequestState = L::RequestState;

    ghost goes = { goes_by K.Hash.hash_input We.Weighter B.BuildHasher B.Hasher.Hasher L.Lifecycle };
}

impl<
    K: Eq + Hash + Drop,
    V: Drop,
    We: Drop,
    B: BuildHasher + Drop,
    L: Lifecycle<K, V> + Drop,
    A: Allocator + Clone,
> LockedShard<K, V, We, B, L, A> {
    /// An empty shard of these sizes, with the shares and the greatest mark that the options tell.
    pub fn new(
        alloc: A,
        options: &Options,
        sizes: ShardSizes,
        weigher: We,
        builder: B,
        lifecycle: L,
    ) -> Result<Self, Refusal>
        ensures makes { IfOk result (λ locked. locked ≡ made_with
            (empty_of options.now sizes.items sizes.weight) weigher builder lifecycle) }
        ensures succeeds { A.is_infallible alloc → IsOk result }
        ensures refused { IfErr result (λ refusal. refusal ≡ Refusal.Memory) }
    {
        let own: Result<_, _> = alloc.clone();
        let Ok(own) = own else {
            return Err(Refusal::Memory);
        };
        let shard = CacheShard::new(
            alloc,
            options.hot_allocation(),
            options.ghost_allocation(),
            options.mark_cut(),
            sizes.items,
            sizes.weight,
            weigher,
            builder,
            lifecycle,
        )?;
        Ok(LockedShard {
            shard,
            maker: Maker::new(own),
        })
    }
}

impl<
    K: Eq + Hash + Drop,
    V: Drop,
    We,
    B: BuildHasher,
    L: Lifecycle<K, V>,
    A: Allocator,
> LockedShard<K, V, We, B, L, A> {
    /// Tells what always holds of it.
    fn facts(&self)
        ensures { IsKept L.Lifecycle K.eq self.now }
    {
        self.shard.len();
    }
}
