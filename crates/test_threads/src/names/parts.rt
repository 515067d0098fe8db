//! The names at the top of `quick_cache`, and of its modules of options, sizes and loading.
use quick_cache::options::Error;
use quick_cache::protocol::{Answer, Core, Event, step};
use quick_cache::sizes::{hot_target, shard_count};
use quick_cache::unsync::{Cache, DefaultLifecycle};
use quick_cache::{
    DefaultHashBuilder, Equivalent, ItemStats, Lifecycle, LinkedSlab, MemoryUsed, Options,
    OptionsBuilder, Queue, Refusal, Table, ToKey, Token, UnitWeighter, Weighter, hash_of,
    linked_slab, table,
};
use std::alloc::Global;
use std::hash::BuildHasher;
use test_tools::{expect_eq, expect_ok};

/// Whether a query finds the key that it gives, and its weight.
fn by_traits<Q: ToKey<u64>, We: Weighter<u64, u64>>(
    query: &Q,
    weigher: &We,
) -> Result<(bool, u64), Refusal> {
    let key = query.to_key()?;
    Ok((stands_for(query, &key), weigher.weight(&key, &0)))
}

/// Whether a query stands for a key.
fn stands_for<Q: Equivalent<u64>>(query: &Q, key: &u64) -> bool {
    query.equivalent(key)
}

/// Whether a lifecycle pins a pair.
fn is_pinned<L: Lifecycle<u64, u64>>(lifecycle: &L) -> bool {
    lifecycle.is_pinned(&1, &10)
}

/// Whether a hash is that of the same number once more.
fn hashes_alike<B: BuildHasher>(builder: &B) -> bool {
    hash_of(builder, &7u64) == hash_of(builder, &7u64)
}

/// Options of this many shards.
fn options(shards: usize) -> Result<Options, Error> {
    let mut builder = OptionsBuilder::new();
    builder
        .shards(shards)
        .estimated_items_capacity(100)
        .weight_capacity(100)
        .build()
}

/// The first token of a slab, and how many places a table has.
fn containers(alloc: Global) -> Result<(Token, usize), Refusal> {
    let mut slab: LinkedSlab<u64> = linked_slab::LinkedSlab::with_capacity(alloc, 1)?;
    let places: Table = table::Table::new(alloc)?;
    match slab.insert(7) {
        Ok(token) => Ok((token, places.len())),
        Err((_, refusal)) => Err(refusal),
    }
}

/// What a cache tells of an item and of its memory.
fn told(cache: &Cache<u64, u64>) -> (Option<ItemStats>, MemoryUsed) {
    (cache.item_stats(&1), cache.memory_used())
}

#[test]
fn the_top_has_its_names(rt: HostRuntime) {
    let traits = expect_ok!(rt; by_traits(&7u64, &UnitWeighter));
    let hashes = hashes_alike(&DefaultHashBuilder::new());
    let pinned = is_pinned(&DefaultLifecycle::<u64, u64>::new());
    expect_eq!(rt; (traits, hashes, pinned), ((true, 1), true, false));
    let shards = options(3).map(|options| options.shards()).ok();
    let (token, places) = expect_ok!(rt; containers(rt.alloc()));
    let (stats, memory) = told(&expect_ok!(rt; Cache::new(rt.alloc(), 2)));
    let mut core: Core<u64> = Core::new(rt.alloc());
    let created = step(&mut core, Event::Create) == Answer::Created && Queue::Hot != Queue::Cold;
    expect_eq!(rt;
        (
            shards,
            shard_count(3, 100),
            hot_target(100, 970000),
            token.get(),
            places,
            stats.is_none(),
            memory.total(),
            created
        ),
        (Some(3), 2, 97, 1, 0, true, 0, true)
    );
}
