//! Caches are made, copied, and given room.
use quick_cache_listeners::ByBytes;
use quick_cache_unsync::{
    Cache, DefaultHashBuilder, DefaultLifecycle, OptionsBuilder, UnitWeighter,
};
use std::test::Fail;
use test_tools::expect_eq;

#[test]
fn new(rt: HostRuntime) -> Result<(), Fail> {
    let mut cache = Cache::new(rt.alloc(), 100)?;
    cache.insert("square", 4)?;
    expect_eq!(rt; (cache.len(), cache.capacity()), (1, 100));
    Ok(())
}

#[test]
fn with_weighter(rt: HostRuntime) -> Result<(), Fail> {
    let mut cache = Cache::with_weighter(rt.alloc(), 100, 1000, ByBytes::with_overhead(80))?;
    // A key of eight bytes, six of the text, and 80 more.
    cache.insert(1u64, "square")?;
    expect_eq!(rt;
        (cache.len(), cache.weight(), cache.capacity()),
        (1, 94, 1000)
    );
    Ok(())
}

#[test]
fn with(rt: HostRuntime) -> Result<(), Fail> {
    let mut cache: Cache<u64, u64> = Cache::with(
        rt.alloc(),
        100,
        50,
        UnitWeighter,
        DefaultHashBuilder::new(),
        DefaultLifecycle::new(),
    )?;
    cache.insert(1, 10)?;
    expect_eq!(rt; (cache.weight(), cache.capacity()), (1, 50));
    Ok(())
}

#[test]
fn reserve(rt: HostRuntime) -> Result<(), Fail> {
    let mut cache: Cache<u64, u64> = Cache::new(rt.alloc(), 100)?;
    // Three inserts of new keys, and the ghosts that they leave, now ask for no memory.
    expect_eq!(rt; cache.reserve(3), Ok(()));
    cache.insert(1, 10)?;
    expect_eq!(rt; cache.len(), 1);
    Ok(())
}

#[test]
fn try_clone(rt: HostRuntime) -> Result<(), Fail> {
    let mut cache: Cache<u64, u64> = Cache::new(rt.alloc(), 5)?;
    cache.insert(1, 10)?;
    let mut copy = cache.try_clone()?;
    cache.insert(2, 20)?;
    expect_eq!(rt;
        (copy.get(&1).copied(), copy.get(&2).copied()),
        (Some(10), None)
    );
    expect_eq!(rt; cache.get(&2).copied(), Some(20));
    Ok(())
}

#[test]
fn with_options(rt: HostRuntime) -> Result<(), Fail> {
    let options = OptionsBuilder::new()
        .estimated_items_capacity(100)
        .weight_capacity(1000)
        .hot_allocation(900000)
        .ghost_allocation(400000)
        .mark_cut(3)
        .build()?;
    let mut cache: Cache<u64, u64> = Cache::with_options(
        rt.alloc(),
        options,
        UnitWeighter,
        DefaultHashBuilder::new(),
        DefaultLifecycle::new(),
    )?;
    cache.insert(1, 10)?;
    let shard = cache.shard();
    expect_eq!(rt; (shard.capacity(), shard.hot_target(), shard.ghost_limit()), (1000, 900, 40));
    Ok(())
}

#[test]
fn set_capacity(rt: HostRuntime) -> Result<(), Fail> {
    let mut cache: Cache<u64, u64> = Cache::new(rt.alloc(), 5)?;
    for key in 0..5u64 {
        cache.insert(key, key)?;
    }
    cache.set_capacity(2);
    expect_eq!(rt; (cache.capacity(), cache.len()), (2, 2));
    Ok(())
}
