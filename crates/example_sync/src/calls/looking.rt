//! What stands in a cache is looked up, or looked at.
use quick_cache::sync::{Cache, Miss};
use quick_cache::sync_placeholder::GuardResult;
use std::test::Fail;
use test_tools::{expect, expect_eq};

#[test]
fn get(rt: HostRuntime) -> Result<(), Fail> {
    let cache = Cache::new(rt.alloc(), 100)?;
    expect!(rt; cache.insert(&rt, "square", 4).is_ok());
    // It gives a clone of the value, or says that there was no memory for one.
    expect_eq!(rt; cache.get(&rt, &"square"), Ok(Some(4)));
    expect_eq!(rt; cache.get(&rt, &"circle"), Ok(None));
    expect_eq!(rt; (cache.hits(&rt), cache.misses(&rt)), (1, 1));
    Ok(())
}

#[test]
fn find(rt: HostRuntime) -> Result<(), Fail> {
    let cache = Cache::new(rt.alloc(), 100)?;
    expect!(rt; cache.insert(&rt, "square", 4).is_ok());
    let found = (cache.find(&rt, &"square"), cache.find(&rt, &"circle"));
    expect_eq!(rt; found, (Ok(Some(4)), Ok(None)));
    // What is there counts as a hit, and what is not there counts as no miss.
    expect_eq!(rt; (cache.hits(&rt), cache.misses(&rt)), (1, 0));
    Ok(())
}

#[test]
fn peek(rt: HostRuntime) -> Result<(), Fail> {
    let cache = Cache::new(rt.alloc(), 100)?;
    expect!(rt; cache.insert(&rt, "square", 4).is_ok());
    expect_eq!(rt; cache.peek(&rt, &"square"), Ok(Some(4)));
    // A look is no use of the item, and no hit.
    expect_eq!(rt; (cache.hits(&rt), cache.misses(&rt)), (0, 0));
    Ok(())
}

#[test]
fn get_if(rt: HostRuntime) -> Result<(), Fail> {
    let cache = Cache::new(rt.alloc(), 100)?;
    expect!(rt; cache.insert(&rt, "square", 4).is_ok());
    let few = |sides: &u64| *sides < 5;
    let looks = [
        cache.get_if(&rt, &"square", few),
        cache.find_if(&rt, &"square", few),
        cache.peek_if(&rt, &"square", few),
        // What fails stays, and is not cloned.
        cache.get_if(&rt, &"square", |sides: &u64| *sides > 4),
        cache.get_if(&rt, &"circle", few),
        cache.find_if(&rt, &"circle", few),
    ];
    let (given, failed, absent) = (Ok(Ok(4)), Ok(Err(Miss::Failed)), Ok(Err(Miss::Absent)));
    expect_eq!(rt; looks, [given, given, given, failed, absent, absent]);
    // Only `get_if` counts a miss, and a peek is no hit.
    expect_eq!(rt; (cache.hits(&rt), cache.misses(&rt)), (2, 2));
    Ok(())
}

#[test]
fn change_or_take(rt: HostRuntime) -> Result<(), Fail> {
    let cache = Cache::new(rt.alloc(), 100)?;
    expect!(rt; cache.insert(&rt, "square", 4).is_ok());
    let few = |sides: &u64| *sides < 5;
    // It tells what the callback tells, here what stood there.
    let add = |sides: &mut u64| {
        *sides = sides.saturating_add(1);
        *sides
    };
    let changes = [
        cache.change_or_take(&rt, &"square", few, add),
        // What fails the test is taken out.
        cache.change_or_take(&rt, &"square", few, add),
        cache.change_or_take(&rt, &"square", few, add),
    ];
    expect_eq!(rt; changes, [Ok(5), Err(Some(("square", 5))), Err(None)]);
    expect_eq!(rt; (cache.hits(&rt), cache.misses(&rt)), (1, 2));
    Ok(())
}

#[test]
fn contains_key(rt: HostRuntime) -> Result<(), Fail> {
    let cache = Cache::new(rt.alloc(), 100)?;
    expect!(rt; cache.insert(&rt, "square", 4).is_ok());
    expect!(rt; cache.contains_key(&rt, &"square"));
    expect!(rt; !cache.contains_key(&rt, &"circle"));
    Ok(())
}

#[test]
fn item_stats(rt: HostRuntime) -> Result<(), Fail> {
    let cache: Cache<u64, u64> = Cache::new(rt.alloc(), 100)?;
    expect_eq!(rt; cache.insert(&rt, 1, 10), Ok(()));
    expect_eq!(rt; cache.get(&rt, &1), Ok(Some(10)));
    expect_eq!(rt; cache.peek(&rt, &1), Ok(Some(10)));
    expect_eq!(rt;
        cache.item_stats(&rt, &1).map(|stats| stats.access_count),
        Some(1)
    );
    Ok(())
}

#[test]
fn get_value_or_guard(rt: HostRuntime) -> Result<(), Fail> {
    let cache = Cache::new(rt.alloc(), 100)?;
    let GuardResult::Guard(guard) = cache.get_value_or_guard(&rt, &"square", None) else {
        panic!(rt; "the key is absent");
    };
    expect!(rt; guard.insert(4).is_ok());
    let found = cache.get_value_or_guard(&rt, &"square", None);
    expect!(rt; matches!(found, GuardResult::Value(4)));
    Ok(())
}

#[test]
fn get_many(rt: HostRuntime) -> Result<(), Fail> {
    let cache: Cache<u64, u64> = Cache::new(rt.alloc(), 100)?;
    expect_eq!(rt; cache.insert(&rt, 1, 10), Ok(()));
    let found = cache.get_many(&rt, rt.alloc(), &[1u64, 2])?;
    expect_eq!(rt; found.as_slice(), [Some(10), None].as_slice());
    Ok(())
}

#[test]
fn hottest(rt: HostRuntime) -> Result<(), Fail> {
    let cache = Cache::new(rt.alloc(), 100)?;
    for name in ["circle", "square", "square"] {
        expect_eq!(rt; cache.put(&rt, name, 4), Ok(()));
    }
    // Each is shown with its ring and its mark.
    let shown = cache.hottest(&rt, rt.alloc(), 1)?;
    expect_eq!(rt; shown.len(), 1);
    expect_eq!(rt; (shown[0].key, shown[0].mark), ("square", 1));
    Ok(())
}

#[test]
fn iter(rt: HostRuntime) -> Result<(), Fail> {
    let cache = Cache::new(rt.alloc(), 100)?;
    expect!(rt; cache.insert(&rt, "square", 4).is_ok());
    // A walk shows clones, and holds no lock between its steps.
    let mut walk = cache.iter(&rt);
    expect_eq!(rt; (walk.next(), walk.next()), (Some(Ok(("square", 4))), None));
    Ok(())
}
