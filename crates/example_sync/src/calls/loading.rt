//! What is not there is loaded.
use futures::executor::block_on;
use quick_cache::sync::{Cache, EntryAction, EntryResult, GuardResult};
use std::test::Fail;
use test_tools::{expect, expect_eq};

#[test]
fn get_or_insert_told(rt: HostRuntime) -> Result<(), Fail> {
    let cache: Cache<u64, u64> = Cache::new(rt.alloc(), 100)?;
    for is_new in [true, false] {
        let told: Result<_, ()> = cache.get_or_insert_told(&rt, &4, || Ok(16))?;
        // It tells whether the value is of this call's loader.
        expect!(rt; matches!(told, Ok(told) if told.value == 16 && told.loaded == is_new));
    }
    Ok(())
}

#[test]
fn abandon(rt: HostRuntime) -> Result<(), Fail> {
    let cache: Cache<u64, u64> = Cache::new(rt.alloc(), 100)?;
    let GuardResult::Guard(guard) = cache.get_value_or_guard(&rt, &4, None) else {
        panic!(rt; "the key is absent");
    };
    // Nobody waits, so the key is absent again.
    guard.abandon();
    expect_eq!(rt; cache.get(&rt, &4), Ok(None));
    Ok(())
}

#[test]
fn a_guard_by_insert_with_lifecycle(rt: HostRuntime) -> Result<(), Fail> {
    let cache: Cache<u64, u64> = Cache::new(rt.alloc(), 2)?;
    cache.put(&rt, 1, 1)?;
    cache.put(&rt, 2, 4)?;
    let GuardResult::Guard(guard) = cache.get_value_or_guard(&rt, &3, None) else {
        panic!(rt; "the key is absent");
    };
    // The default lifecycle keeps the first two pairs that leave in a call.
    let mut gone = [None, None];
    expect!(rt; guard.insert_with_lifecycle(9, &mut gone).is_ok());
    expect!(rt; gone[0].is_some() && gone[1].is_none());
    Ok(())
}

#[test]
fn entry_async(rt: HostRuntime) -> Result<(), Fail> {
    let cache: Cache<u64, u64> = Cache::new(rt.alloc(), 100)?;
    expect_eq!(rt; cache.insert(&rt, 4, 16), Ok(()));
    let add = |_key: &u64, value: &mut u64| {
        *value = value.saturating_add(1);
        EntryAction::Retain(*value)
    };
    let added = block_on(&rt, cache.entry_async(&rt, &4, add));
    expect!(rt; matches!(added, Ok(EntryResult::Retained(17))));
    expect_eq!(rt; cache.peek(&rt, &4), Ok(Some(17)));
    Ok(())
}
