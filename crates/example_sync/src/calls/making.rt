//! Caches are made, and given room.
use quick_cache::sync::{Cache, DefaultLifecycle};
use quick_cache::{DefaultHashBuilder, OptionsBuilder, UnitWeighter};
use quick_cache_listeners::ByBytes;
use std::test::Fail;
use test_tools::{expect, expect_eq};

#[test]
fn new(rt: HostRuntime) -> Result<(), Fail> {
    let cache = Cache::new(rt.alloc(), 100)?;
    expect!(rt; cache.insert(&rt, "square", 4).is_ok());
    expect_eq!(rt; (cache.len(&rt), cache.capacity(&rt)), (1, 100));
    Ok(())
}

#[test]
fn with_weighter(rt: HostRuntime) -> Result<(), Fail> {
    let cache = Cache::with_weighter(rt.alloc(), 100, 1000, ByBytes::with_overhead(80))?;
    // A key of eight bytes, six of the text, and 80 more.
    expect!(rt; cache.insert(&rt, 1u64, "square").is_ok());
    expect_eq!(rt;
        (cache.len(&rt), cache.weight(&rt), cache.capacity(&rt)),
        (1, 94, 1000)
    );
    Ok(())
}

#[test]
fn with(rt: HostRuntime) -> Result<(), Fail> {
    let cache: Cache<u64, u64> = Cache::with(
        rt.alloc(),
        100,
        50,
        UnitWeighter,
        DefaultHashBuilder::new(),
        DefaultLifecycle::new(),
    )?;
    expect!(rt; cache.insert(&rt, 1, 10).is_ok());
    expect_eq!(rt; (cache.weight(&rt), cache.capacity(&rt)), (1, 50));
    Ok(())
}

#[test]
fn with_options(rt: HostRuntime) -> Result<(), Fail> {
    let options = OptionsBuilder::new()
        .estimated_items_capacity(1000)
        .weight_capacity(1000)
        .shards(4)
        .build()?;
    let cache: Cache<u64, u64> = Cache::with_options(
        rt.alloc(),
        options,
        UnitWeighter,
        DefaultHashBuilder::new(),
        DefaultLifecycle::new(),
    )?;
    expect!(rt; cache.insert(&rt, 1, 10).is_ok());
    expect_eq!(rt; (cache.num_shards(), cache.shard_capacity(&rt)), (4, 250));
    Ok(())
}

#[test]
fn reserve(rt: HostRuntime) -> Result<(), Fail> {
    let cache: Cache<u64, u64> = Cache::new(rt.alloc(), 100)?;
    // Each of the two shards now has room for two entries, and for the ghosts of two inserts.
    expect_eq!(rt; cache.reserve(&rt, 3), Ok(()));
    expect_eq!(rt; cache.insert(&rt, 1, 10), Ok(()));
    Ok(())
}

#[test]
fn set_capacity(rt: HostRuntime) -> Result<(), Fail> {
    let cache: Cache<u64, u64> = Cache::new(rt.alloc(), 5)?;
    for key in 0..5u64 {
        expect_eq!(rt; cache.insert(&rt, key, key), Ok(()));
    }
    cache.set_capacity(&rt, 2);
    expect_eq!(rt; (cache.capacity(&rt), cache.len(&rt)), (2, 2));
    Ok(())
}

#[test]
fn set_capacity_with_lifecycle(rt: HostRuntime) -> Result<(), Fail> {
    let cache: Cache<u64, u64> = Cache::new(rt.alloc(), 5)?;
    for key in 0..5u64 {
        expect_eq!(rt; cache.insert(&rt, key, key), Ok(()));
    }
    // The default lifecycle keeps the first two pairs that leave in a call.
    let mut gone = [None, None];
    cache.set_capacity_with_lifecycle(&rt, 2, &mut gone);
    expect_eq!(rt; (cache.len(&rt), gone), (2, [Some((4, 4)), Some((0, 0))]));
    Ok(())
}
