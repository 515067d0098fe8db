//! What a user relies on who makes a cache by a maker.
ghost use Rattle.std.specs.Prelude.{◌≡◌, IfOk, IsOk};
ghost use Rattle.std.specs.Int.{IsPowerOfTwo};

use quick_cache_expiring::Expiring;
use quick_cache_expiring_sync::SharedExpiring;
use quick_cache_listeners::ByLength;
use quick_cache_maker::{MakeError, Maker};
use quick_cache_model::UnitWeighter;
use quick_cache_sync::Cache as SharedCache;
use quick_cache_unsync::{Cache, Options, Refusal};
use read_through::{AnySource, ReadThrough};
use std::alloc::Global;
use std::hash::BuildHasher;

/// A cache of texts that is given so many bytes is made, has that capacity, and begins empty.
pub fn make_for_bytes(alloc: Global, bytes: u64) -> Result<Cache<u64, String, ByLength>, MakeError>
    ensures capacity { IfOk result (λ cache. cache.state.capacity ≡ bytes) }
    ensures made { IsOk result }
    ensures none { IfOk result (λ cache. cache.state.hits ≡ 0) }
{
    Maker::new()
        .items(100)
        .weight(bytes)
        .weigher(ByLength)
        .make_unsync(alloc)
}

/// A cache that threads share has a power of two of shards, whatever is asked for.
pub fn make_for_threads(alloc: Global, shards: usize) -> Result<SharedCache<u64, u64>, MakeError>
    ensures { IfOk result (λ cache. IsPowerOfTwo cache.shards) }
{
    Maker::new()
        .items(1000)
        .weight(1000)
        .shards(shards)
        .make_shared(alloc)
}

/// A cache whose entries end is made, has the capacity that was named, and begins empty.
pub fn make_ending(alloc: Global, weight: u64) -> Result<Expiring<u64, u64>, MakeError>
    ensures capacity { IfOk result (λ made. made.cache.state.capacity ≡ weight) }
    ensures made { IsOk result }
    ensures none { IfOk result (λ made. made.expired ≡ 0) }
{
    Maker::new().items(100).weight(weight).make_expiring(alloc)
}

/// So has one that threads share, whose entries end.
pub fn make_shared_ending(
    alloc: Global,
    shards: usize,
) -> Result<SharedExpiring<u64, u64>, MakeError>
    ensures { IfOk result (λ made. IsPowerOfTwo made.shards) }
{
    Maker::new()
        .items(1000)
        .weight(1000)
        .shards(shards)
        .make_shared_expiring(alloc)
}

/// A loader's values live for as long as was named, and none is answered for longer.
pub fn make_loader<F: Drop>(alloc: Global, loader: F) -> Result<ReadThrough<u64, u64, F>, MakeError>
    ensures lives { IfOk result (λ made. made.lives ≡ 60) }
    ensures grace { IfOk result (λ made. made.grace ≡ 0) }
{
    Maker::new()
        .items(100)
        .weight(100)
        .make_read_through(alloc, 60, loader)
}

/// So they do where keys are hashed by a builder of one's own, and there is a power of two of shards.
pub fn make_loader_by_builder<B: BuildHasher + Clone + Drop, F: Drop>(
    alloc: Global,
    options: Options,
    builder: B,
    loader: F,
) -> Result<ReadThrough<u64, u64, F, AnySource, Global, u64, UnitWeighter, B>, Refusal>
    ensures lives { IfOk result (λ made. made.lives ≡ 60) }
    ensures grace { IfOk result (λ made. made.grace ≡ 0) }
    ensures loader { IfOk result (λ made. made.loader ≡ loader) }
    ensures shards { IfOk result (λ made. IsPowerOfTwo made.shards) }
{
    ReadThrough::with_options(alloc, options, UnitWeighter, builder, 60, loader)
}
