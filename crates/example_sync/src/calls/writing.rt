//! Pairs are written.
use quick_cache::sync::Cache;
use std::test::Fail;
use test_tools::{expect, expect_eq};

#[test]
fn insert(rt: HostRuntime) -> Result<(), Fail> {
    let cache = Cache::new(rt.alloc(), 100)?;
    expect!(rt; cache.insert(&rt, "square", 4).is_ok());
    expect!(rt; cache.insert(&rt, "square", 16).is_ok());
    expect_eq!(rt; cache.peek(&rt, &"square"), Ok(Some(16)));
    Ok(())
}

#[test]
fn insert_with_lifecycle(rt: HostRuntime) -> Result<(), Fail> {
    let cache: Cache<u64, u64> = Cache::new(rt.alloc(), 2)?;
    // The default lifecycle keeps the first two pairs that leave in a call.
    let mut gone = [None, None];
    for key in [1, 2, 3] {
        expect_eq!(rt;
            cache.insert_with_lifecycle(&rt, key, key, &mut gone),
            Ok(())
        );
    }
    expect_eq!(rt; cache.len(&rt), 2);
    expect!(rt; gone[0].is_some() && gone[1].is_none());
    Ok(())
}

#[test]
fn replace(rt: HostRuntime) -> Result<(), Fail> {
    let cache = Cache::new(rt.alloc(), 100)?;
    expect!(rt; cache.insert(&rt, "square", 4).is_ok());
    expect_eq!(rt; cache.replace(&rt, "square", 16, false), Ok(()));
    // A replace writes over items alone.
    expect_eq!(rt; cache.replace(&rt, "circle", 3, false), Err(("circle", 3)));
    expect_eq!(rt; cache.peek(&rt, &"square"), Ok(Some(16)));
    Ok(())
}

#[test]
fn replace_with_lifecycle(rt: HostRuntime) -> Result<(), Fail> {
    let cache: Cache<u64, u64> = Cache::new(rt.alloc(), 100)?;
    expect_eq!(rt; cache.insert(&rt, 1, 10), Ok(()));
    let mut gone = [None, None];
    expect_eq!(rt;
        cache.replace_with_lifecycle(&rt, 1, 11, true, &mut gone),
        Ok(())
    );
    // The pair that stood there left.
    expect_eq!(rt; gone, [Some((1, 10)), None]);
    Ok(())
}

#[test]
fn fill(rt: HostRuntime) -> Result<(), Fail> {
    let cache: Cache<u64, u64> = Cache::new(rt.alloc(), 100)?;
    expect!(rt; cache.fill(&rt, (1..4).map(|key| (key, key))).is_ok());
    expect_eq!(rt; cache.peek(&rt, &3), Ok(Some(3)));
    Ok(())
}
