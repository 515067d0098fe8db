//! Items are taken out.
use quick_cache::sync::Cache;
use std::test::Fail;
use test_tools::{expect, expect_eq};

#[test]
fn remove(rt: HostRuntime) -> Result<(), Fail> {
    let cache = Cache::new(rt.alloc(), 100)?;
    expect!(rt; cache.insert(&rt, "square", 4).is_ok());
    expect_eq!(rt; cache.remove(&rt, &"square"), Some(("square", 4)));
    expect_eq!(rt; cache.remove(&rt, &"square"), None);
    Ok(())
}

#[test]
fn remove_if(rt: HostRuntime) -> Result<(), Fail> {
    let cache = Cache::new(rt.alloc(), 100)?;
    expect!(rt; cache.insert(&rt, "square", 4).is_ok());
    expect_eq!(rt; cache.remove_if(&rt, &"square", |sides| *sides > 4), None);
    expect_eq!(rt;
        cache.remove_if(&rt, &"square", |sides| *sides == 4),
        Some(("square", 4))
    );
    Ok(())
}

#[test]
fn retain(rt: HostRuntime) -> Result<(), Fail> {
    let cache: Cache<u64, u64> = Cache::new(rt.alloc(), 100)?;
    for key in 1..4u64 {
        expect_eq!(rt; cache.insert(&rt, key, key * 10), Ok(()));
    }
    let dropped = cache.retain(&rt, |key, value| *key == 1 || *value == 30);
    expect_eq!(rt;
        (dropped, cache.len(&rt), cache.contains_key(&rt, &2)),
        (1, 2, false)
    );
    Ok(())
}

#[test]
fn retain_some(rt: HostRuntime) -> Result<(), Fail> {
    let cache: Cache<u64, u64> = Cache::new(rt.alloc(), 10)?;
    for key in 1..4u64 {
        expect_eq!(rt; cache.insert(&rt, key, key * 10), Ok(()));
    }
    // Shard after shard, at most a hundred items each time that its lock is taken.
    let mut dropped = 0usize;
    for shard in 0..cache.num_shards() {
        let (_, gone) = cache.retain_some(&rt, shard, None, 100, |key, _| *key == 2);
        dropped = dropped.saturating_add(gone);
    }
    expect_eq!(rt; (dropped, cache.len(&rt)), (2, 1));
    Ok(())
}

#[test]
fn invalidate_if(rt: HostRuntime) -> Result<(), Fail> {
    let cache: Cache<u64, u64> = Cache::new(rt.alloc(), 100)?;
    for key in 1..4u64 {
        expect_eq!(rt; cache.insert(&rt, key, key * 10), Ok(()));
    }
    expect_eq!(rt; cache.invalidate_if(&rt, |key| *key > 1), 2);
    expect_eq!(rt; cache.len(&rt), 1);
    Ok(())
}

#[test]
fn clear(rt: HostRuntime) -> Result<(), Fail> {
    let cache = Cache::new(rt.alloc(), 100)?;
    expect!(rt; cache.insert(&rt, "square", 4).is_ok());
    cache.clear(&rt);
    expect!(rt; cache.is_empty(&rt));
    Ok(())
}

#[test]
fn drain(rt: HostRuntime) -> Result<(), Fail> {
    let cache = Cache::new(rt.alloc(), 100)?;
    expect!(rt; cache.insert(&rt, "square", 4).is_ok());
    let mut drain = cache.drain(&rt);
    expect_eq!(rt; (drain.next(), drain.next()), (Some(("square", 4)), None));
    expect!(rt; cache.is_empty(&rt));
    Ok(())
}

#[test]
fn extract_if(rt: HostRuntime) -> Result<(), Fail> {
    let cache: Cache<u64, u64> = Cache::new(rt.alloc(), 100)?;
    for key in 1..4u64 {
        expect_eq!(rt; cache.insert(&rt, key, key * 10), Ok(()));
    }
    let mut odd = cache.extract_if(&rt, |key, _| *key % 2 == 1);
    let taken = (odd.next().is_some(), odd.next().is_some(), odd.next());
    expect_eq!(rt; (taken, cache.len(&rt)), ((true, true, None), 1));
    Ok(())
}
