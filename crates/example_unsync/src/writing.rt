//! Pairs are written.
use quick_cache_listeners::{Listener, OnLeave};
use quick_cache_unsync::{Cache, DefaultHashBuilder, UnitWeighter};
use std::test::Fail;
use test_tools::{expect, expect_eq};

/// Counts what leaves.
#[derive(Drop)]
struct Leaving;

impl Listener<u64, u64> for Leaving {
    type State = u64;

    fn tell(&self, left: &mut u64, _key: u64, _val: u64) {
        *left = left.saturating_add(1);
    }
}

#[test]
fn insert(rt: HostRuntime) -> Result<(), Fail> {
    let mut cache = Cache::new(rt.alloc(), 5)?;
    cache.insert("square", 4)?;
    cache.insert("square", 16)?;
    expect_eq!(rt; cache.peek(&"square").copied(), Some(16));
    Ok(())
}

#[test]
fn insert_with_lifecycle(rt: HostRuntime) -> Result<(), Fail> {
    let mut cache = Cache::with(
        rt.alloc(),
        2,
        2,
        UnitWeighter,
        DefaultHashBuilder::new(),
        OnLeave(Leaving),
    )?;
    let mut left = 0;
    for key in [1, 2, 3] {
        cache.insert_with_lifecycle(key, key, &mut left)?;
    }
    expect_eq!(rt; (cache.len(), left), (2, 1));
    Ok(())
}

#[test]
fn replace(rt: HostRuntime) -> Result<(), Fail> {
    let mut cache = Cache::new(rt.alloc(), 5)?;
    cache.insert("square", 4)?;
    expect_eq!(rt; cache.replace("square", 16, false), Ok(()));
    // A replace writes over items alone.
    expect_eq!(rt; cache.replace("circle", 3, false), Err(("circle", 3)));
    expect_eq!(rt; cache.peek(&"square").copied(), Some(16));
    Ok(())
}

#[test]
fn replace_with_lifecycle(rt: HostRuntime) -> Result<(), Fail> {
    let mut cache = Cache::with(
        rt.alloc(),
        5,
        5,
        UnitWeighter,
        DefaultHashBuilder::new(),
        OnLeave(Leaving),
    )?;
    cache.insert(1, 10)?;
    let mut left = 0;
    expect_eq!(rt;
        cache.replace_with_lifecycle(1, 11, true, &mut left),
        Ok(())
    );
    // The pair that stood there left.
    expect_eq!(rt; (cache.peek(&1).copied(), left), (Some(11), 1));
    Ok(())
}

#[test]
fn set_capacity_with_lifecycle(rt: HostRuntime) -> Result<(), Fail> {
    let mut cache = Cache::with(
        rt.alloc(),
        5,
        5,
        UnitWeighter,
        DefaultHashBuilder::new(),
        OnLeave(Leaving),
    )?;
    for key in 0..5u64 {
        cache.insert(key, key)?;
    }
    let mut left = 0;
    cache.set_capacity_with_lifecycle(2, &mut left);
    expect_eq!(rt; (cache.len(), left), (2, 3));
    Ok(())
}

#[test]
fn fill(rt: HostRuntime) -> Result<(), Fail> {
    let mut cache: Cache<u64, u64> = Cache::new(rt.alloc(), 5)?;
    expect!(rt; cache.fill((1..4).map(|key| (key, key))).is_ok());
    expect_eq!(rt; (cache.len(), cache.peek(&3).copied()), (3, Some(3)));
    Ok(())
}
