//! What does not stand in a cache is loaded, or a guard is given to fill it in.
use quick_cache_unsync::{Cache, NotLoaded};
use std::test::Fail;
use test_tools::expect_eq;

/// How many sides a shape has.
fn sides(shape: &'static str) -> Result<u64, &'static str> {
    if shape == "square" {
        Ok(4)
    } else {
        Err("no such shape")
    }
}

#[test]
fn get_or_insert_with(rt: HostRuntime) -> Result<(), Fail> {
    let mut cache = Cache::new(rt.alloc(), 5)?;
    match cache.get_or_insert_with(&"square", || sides("square")) {
        Ok(value) => expect_eq!(rt; *value, 4),
        Err(_) => return Err(Fail::new("nothing was loaded")),
    }
    match cache.get_or_insert_with(&"circle", || sides("circle")) {
        Err(NotLoaded::Failed(error)) => expect_eq!(rt; error, "no such shape"),
        _ => return Err(Fail::new("there is no such shape")),
    }
    // A loader that fails leaves nothing.
    expect_eq!(rt; (cache.len(), cache.misses()), (1, 2));
    Ok(())
}

#[test]
fn get_mut_or_insert_with(rt: HostRuntime) -> Result<(), Fail> {
    let mut cache = Cache::new(rt.alloc(), 5)?;
    match cache.get_mut_or_insert_with(&"square", || sides("square")) {
        Ok(mut value) => *value = 5,
        Err(_) => return Err(Fail::new("nothing was loaded")),
    }
    expect_eq!(rt; cache.peek(&"square").copied(), Some(5));
    Ok(())
}

#[test]
fn load(rt: HostRuntime) -> Result<(), Fail> {
    let mut cache = Cache::new(rt.alloc(), 5)?;
    // It tells whether the key is resident then, or why nothing was loaded.
    expect_eq!(rt; cache.load(&"square", || sides("square"))?, Ok(true));
    expect_eq!(rt;
        cache.load(&"circle", || sides("circle"))?,
        Err("no such shape")
    );
    expect_eq!(rt; cache.peek(&"square").copied(), Some(4));
    Ok(())
}

#[test]
fn get_ref_or_guard(rt: HostRuntime) -> Result<(), Fail> {
    let mut cache: Cache<&'static str, u64> = Cache::new(rt.alloc(), 5)?;
    match cache.get_ref_or_guard(&"square")? {
        Ok(_) => return Err(Fail::new("nothing is there yet")),
        Err(guard) => guard.insert(4),
    }
    match cache.get_ref_or_guard(&"square")? {
        Ok(value) => expect_eq!(rt; *value, 4),
        Err(_) => return Err(Fail::new("the guard filled it")),
    }
    Ok(())
}

#[test]
fn get_mut_or_guard(rt: HostRuntime) -> Result<(), Fail> {
    let mut cache: Cache<&'static str, u64> = Cache::new(rt.alloc(), 5)?;
    for sides in [4, 5] {
        match cache.get_mut_or_guard(&"square")? {
            Ok(mut value) => *value = sides,
            Err(guard) => guard.insert_with_lifecycle(sides, &mut ()),
        }
        expect_eq!(rt; cache.peek(&"square").copied(), Some(sides));
    }
    // A guard that goes unused leaves nothing.
    let _ = cache.get_mut_or_guard(&"circle")?;
    expect_eq!(rt; cache.len(), 1);
    Ok(())
}
