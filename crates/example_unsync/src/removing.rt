//! Pairs are taken out.
use quick_cache_unsync::Cache;
use std::test::Fail;
use test_tools::{expect, expect_eq};

#[test]
fn remove(rt: HostRuntime) -> Result<(), Fail> {
    let mut cache = Cache::new(rt.alloc(), 5)?;
    cache.insert("square", 4)?;
    expect_eq!(rt; cache.remove(&"square"), Some(("square", 4)));
    expect_eq!(rt; cache.remove(&"square"), None);
    Ok(())
}

#[test]
fn remove_if(rt: HostRuntime) -> Result<(), Fail> {
    let mut cache = Cache::new(rt.alloc(), 5)?;
    cache.insert("square", 4)?;
    expect_eq!(rt; cache.remove_if(&"square", |sides| *sides > 4), None);
    expect_eq!(rt;
        cache.remove_if(&"square", |sides| *sides == 4),
        Some(("square", 4))
    );
    Ok(())
}

#[test]
fn retain(rt: HostRuntime) -> Result<(), Fail> {
    let mut cache: Cache<u64, u64> = Cache::new(rt.alloc(), 5)?;
    for key in 1..4u64 {
        cache.insert(key, key * 10)?;
    }
    cache.retain(|key, value| *key == 1 || *value == 30);
    expect_eq!(rt; (cache.len(), cache.contains_key(&2)), (2, false));
    Ok(())
}

#[test]
fn retain_some(rt: HostRuntime) -> Result<(), Fail> {
    let mut cache: Cache<u64, u64> = Cache::new(rt.alloc(), 5)?;
    for key in 1..4u64 {
        cache.insert(key, key * 10)?;
    }
    // Two items are looked at, and the next call goes on behind them.
    let (stopped, first) = cache.retain_some(None, 2, |_, _| false);
    let (end, last) = cache.retain_some(stopped, 2, |_, _| false);
    expect_eq!(rt; (first, last, end, cache.is_empty()), (2, 1, None, true));
    Ok(())
}

#[test]
fn clear(rt: HostRuntime) -> Result<(), Fail> {
    let mut cache = Cache::new(rt.alloc(), 5)?;
    cache.insert("square", 4)?;
    cache.clear();
    expect!(rt; cache.is_empty());
    Ok(())
}

#[test]
fn drain(rt: HostRuntime) -> Result<(), Fail> {
    let mut cache: Cache<u64, u64> = Cache::new(rt.alloc(), 5)?;
    for key in 1..4u64 {
        cache.insert(key, key * 10)?;
    }
    let mut sum = 0u64;
    for (_, value) in cache.drain() {
        sum = sum.saturating_add(value);
    }
    expect_eq!(rt; (sum, cache.is_empty()), (60, true));
    Ok(())
}

#[test]
fn extract_if(rt: HostRuntime) -> Result<(), Fail> {
    let mut cache: Cache<u64, u64> = Cache::new(rt.alloc(), 5)?;
    for key in 1..4u64 {
        cache.insert(key, key * 10)?;
    }
    let mut sum = 0u64;
    for (_, value) in cache.extract_if(|key, _| *key != 2) {
        sum = sum.saturating_add(value);
    }
    expect_eq!(rt; (sum, cache.len(), cache.contains_key(&2)), (40, 1, true));
    Ok(())
}

#[test]
fn take_next_if(rt: HostRuntime) -> Result<(), Fail> {
    let mut cache: Cache<u64, u64> = Cache::new(rt.alloc(), 5)?;
    cache.insert(1, 10)?;
    cache.insert(2, 20)?;
    let wanted = |key: &u64, value: &u64| *key == 2 && *value == 20;
    let Some((token, key, value)) = cache.take_next_if(None, &wanted) else {
        panic!(rt; "the pair is there");
    };
    let next = cache.take_next_if(Some(token), &wanted);
    expect_eq!(rt; (key, value, next.is_none(), cache.len()), (2, 20, true, 1));
    Ok(())
}
