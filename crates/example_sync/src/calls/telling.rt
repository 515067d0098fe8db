//! What a cache tells of itself and of its shards.
use quick_cache::Stats;
use quick_cache::sync::Cache;
use std::test::Fail;
use test_tools::{expect, expect_eq};

#[test]
fn len_is_empty_weight_and_capacity(rt: HostRuntime) -> Result<(), Fail> {
    let cache: Cache<u64, u64> = Cache::new(rt.alloc(), 100)?;
    expect!(rt; cache.is_empty(&rt));
    expect_eq!(rt; cache.insert(&rt, 1, 10), Ok(()));
    expect!(rt; !cache.is_empty(&rt));
    expect_eq!(rt;
        (cache.len(&rt), cache.weight(&rt), cache.capacity(&rt)),
        (1, 1, 100)
    );
    Ok(())
}

#[test]
fn hits_and_misses(rt: HostRuntime) -> Result<(), Fail> {
    let cache: Cache<u64, u64> = Cache::new(rt.alloc(), 100)?;
    expect_eq!(rt; cache.insert(&rt, 1, 10), Ok(()));
    for key in [1, 1, 2] {
        cache.get(&rt, &key)?;
    }
    expect_eq!(rt; (cache.hits(&rt), cache.misses(&rt)), (2, 1));
    Ok(())
}

#[test]
fn stats(rt: HostRuntime) -> Result<(), Fail> {
    let cache: Cache<u64, u64> = Cache::new(rt.alloc(), 100)?;
    expect_eq!(rt; cache.insert(&rt, 1, 10), Ok(()));
    for key in [1, 2] {
        cache.get(&rt, &key)?;
    }
    let stats = Stats {
        entries: 1,
        weight: 1,
        capacity: 100,
        hits: 1,
        misses: 1,
        ..Stats::default()
    };
    expect_eq!(rt; cache.stats(&rt), stats);
    Ok(())
}

#[test]
fn num_shards_shard_index_and_shard_capacity(rt: HostRuntime) -> Result<(), Fail> {
    // Of 100 items two shards are made, each for 50 of them.
    let cache: Cache<u64, u64> = Cache::new(rt.alloc(), 100)?;
    expect_eq!(rt; cache.num_shards(), 2);
    expect!(rt; cache.shard_index(&1) < 2);
    expect_eq!(rt; cache.shard_capacity(&rt), 50);
    Ok(())
}

#[test]
fn memory_used(rt: HostRuntime) -> Result<(), Fail> {
    let cache: Cache<u64, u64> = Cache::new(rt.alloc(), 100)?;
    expect_eq!(rt; cache.insert(&rt, 1, 10), Ok(()));
    // In bytes: the slots, and the indexes that find them.
    expect!(rt; cache.memory_used(&rt).entries > 0);
    expect!(rt; cache.memory_used(&rt).map > 0);
    Ok(())
}
