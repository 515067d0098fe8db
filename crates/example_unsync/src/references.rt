//! Values are written through references.
use quick_cache_unsync::Cache;
use std::test::Fail;
use test_tools::{expect, expect_eq};

#[test]
fn get_mut(rt: HostRuntime) -> Result<(), Fail> {
    let mut cache = Cache::new(rt.alloc(), 5)?;
    cache.insert("square", 4)?;
    if let Some(mut sides) = cache.get_mut(&"square") {
        *sides = 5;
    }
    expect_eq!(rt; cache.peek(&"square").copied(), Some(5));
    expect_eq!(rt; cache.hits(), 1);
    Ok(())
}

#[test]
fn get_mut_or_drop(rt: HostRuntime) -> Result<(), Fail> {
    let mut cache = Cache::new(rt.alloc(), 5)?;
    cache.insert("square", 4u64)?;
    if let Ok(mut sides) = cache.get_mut_or_drop(&"square", |sides: &u64| *sides < 5) {
        *sides = 5;
    }
    expect!(rt; cache.get_mut_or_drop(&"square", |sides: &u64| *sides < 5).is_err());
    expect_eq!(rt; (cache.hits(), cache.misses(), cache.len()), (1, 1, 0));
    Ok(())
}

#[test]
fn peek_mut(rt: HostRuntime) -> Result<(), Fail> {
    let mut cache = Cache::new(rt.alloc(), 5)?;
    cache.insert("square", 4)?;
    if let Some(mut sides) = cache.peek_mut(&"square") {
        *sides = 5;
    }
    expect_eq!(rt; cache.peek(&"square").copied(), Some(5));
    // It is no use of the item, and no hit.
    expect_eq!(rt; cache.hits(), 0);
    Ok(())
}
