//! Calls that take a lock only where it is to be had at once, and do not wait.
use quick_cache::sync::{Cache, LockContention, TryError};
use std::test::Fail;
use test_tools::{expect, expect_eq};

#[test]
fn try_get(rt: HostRuntime) -> Result<(), Fail> {
    let cache = Cache::new(rt.alloc(), 100)?;
    expect!(rt; cache.insert(&rt, "square", 4).is_ok());
    expect_eq!(rt; cache.try_get(&"square"), Ok(Some(4)));
    expect_eq!(rt; cache.try_get(&"circle"), Ok(None));
    expect_eq!(rt; (cache.hits(&rt), cache.misses(&rt)), (1, 1));
    Ok(())
}

#[test]
fn try_peek(rt: HostRuntime) -> Result<(), Fail> {
    let cache = Cache::new(rt.alloc(), 100)?;
    expect!(rt; cache.insert(&rt, "square", 4).is_ok());
    expect_eq!(rt; cache.try_peek(&"square"), Ok(Some(4)));
    expect_eq!(rt; (cache.hits(&rt), cache.misses(&rt)), (0, 0));
    Ok(())
}

#[test]
fn try_contains_key(rt: HostRuntime) -> Result<(), Fail> {
    let cache = Cache::new(rt.alloc(), 100)?;
    expect!(rt; cache.insert(&rt, "square", 4).is_ok());
    expect_eq!(rt; cache.try_contains_key(&"square"), Ok(true));
    // A predicate runs under the lock, so whoever does not wait for that meets contention.
    let met = cache.remove_if(&rt, &"square", |_| {
        cache.try_contains_key(&"square") == Err(LockContention)
    });
    expect_eq!(rt; met, Some(("square", 4)));
    Ok(())
}

#[test]
fn try_item_stats(rt: HostRuntime) -> Result<(), Fail> {
    let cache: Cache<u64, u64> = Cache::new(rt.alloc(), 100)?;
    expect_eq!(rt; cache.insert(&rt, 1, 10), Ok(()));
    expect_eq!(rt; cache.get(&rt, &1), Ok(Some(10)));
    let stats = cache.try_item_stats(&1)?;
    expect_eq!(rt; stats.map(|stats| stats.access_count), Some(1));
    Ok(())
}

#[test]
fn try_insert(rt: HostRuntime) -> Result<(), Fail> {
    let cache: Cache<u64, u64> = Cache::new(rt.alloc(), 100)?;
    expect_eq!(rt; cache.try_insert(1, 10), Ok(()));
    // With contention the pair comes back, and nothing changed.
    let contended = TryError::Contended(LockContention);
    let met = cache.remove_if(&rt, &1, |_| {
        cache.try_insert(1, 11) == Err((1, 11, contended))
    });
    expect_eq!(rt; met, Some((1, 10)));
    Ok(())
}

#[test]
fn try_insert_with_lifecycle(rt: HostRuntime) -> Result<(), Fail> {
    let cache: Cache<u64, u64> = Cache::new(rt.alloc(), 100)?;
    let mut gone = [None, None];
    for value in [10, 11] {
        expect_eq!(rt;
            cache.try_insert_with_lifecycle(1, value, &mut gone),
            Ok(())
        );
    }
    expect_eq!(rt; gone, [Some((1, 10)), None]);
    Ok(())
}

#[test]
fn try_remove(rt: HostRuntime) -> Result<(), Fail> {
    let cache = Cache::new(rt.alloc(), 100)?;
    expect!(rt; cache.insert(&rt, "square", 4).is_ok());
    expect_eq!(rt; cache.try_remove(&"square"), Ok(Some(("square", 4))));
    expect_eq!(rt; cache.try_remove(&"square"), Ok(None));
    Ok(())
}
