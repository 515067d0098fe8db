//! What stands in a cache is looked up, or looked at.
use quick_cache_unsync::{Cache, Miss, Queue};
use std::test::Fail;
use test_tools::{expect, expect_eq};

#[test]
fn get(rt: HostRuntime) -> Result<(), Fail> {
    let mut cache = Cache::new(rt.alloc(), 5)?;
    cache.insert("square", 4)?;
    expect_eq!(rt; cache.get(&"square").copied(), Some(4));
    expect_eq!(rt; cache.get(&"circle").copied(), None);
    expect_eq!(rt; (cache.hits(), cache.misses()), (1, 1));
    Ok(())
}

#[test]
fn get_if(rt: HostRuntime) -> Result<(), Fail> {
    let mut cache = Cache::new(rt.alloc(), 5)?;
    cache.insert("square", 4u64)?;
    expect_eq!(rt; cache.get_if(&"square", |sides: &u64| *sides < 5).copied(), Ok(4));
    expect_eq!(rt; cache.get_if(&"square", |sides: &u64| *sides > 4).copied(), Err(Miss::Failed));
    expect_eq!(rt; cache.get_if(&"circle", |sides: &u64| *sides > 4).copied(), Err(Miss::Absent));
    expect_eq!(rt; (cache.hits(), cache.misses(), cache.len()), (1, 2, 1));
    Ok(())
}

#[test]
fn get_or_drop(rt: HostRuntime) -> Result<(), Fail> {
    let mut cache = Cache::new(rt.alloc(), 5)?;
    cache.insert("square", 4u64)?;
    expect_eq!(rt; cache.get_or_drop(&"square", |sides: &u64| *sides < 5).copied(), Ok(4));
    let found = cache
        .get_or_drop(&"square", |sides: &u64| *sides > 4)
        .copied();
    expect_eq!(rt; found, Err(Miss::Failed));
    expect_eq!(rt; (cache.hits(), cache.misses(), cache.len()), (1, 1, 0));
    Ok(())
}

#[test]
fn look_up_or_take(rt: HostRuntime) -> Result<(), Fail> {
    let mut cache = Cache::new(rt.alloc(), 5)?;
    cache.insert("square", 4u64)?;
    let Ok(token) = cache.look_up_or_take(&"square", |sides: &u64| *sides < 5) else {
        return Ok(());
    };
    expect_eq!(rt; cache.shard().peek_token(token).copied(), Some(4));
    let taken = cache.look_up_or_take(&"square", |sides: &u64| *sides > 4);
    expect_eq!(rt; taken, Err(Some(("square", 4))));
    Ok(())
}

#[test]
fn find(rt: HostRuntime) -> Result<(), Fail> {
    let mut cache = Cache::new(rt.alloc(), 5)?;
    cache.insert("square", 4)?;
    expect_eq!(rt; cache.find(&"square")?, Some(4));
    expect_eq!(rt; cache.find(&"circle")?, None);
    // No miss is counted: what loads the value then counts it.
    expect_eq!(rt; (cache.hits(), cache.misses()), (1, 0));
    Ok(())
}

#[test]
fn peek(rt: HostRuntime) -> Result<(), Fail> {
    let mut cache = Cache::new(rt.alloc(), 5)?;
    cache.insert("square", 4)?;
    expect_eq!(rt; cache.peek(&"square").copied(), Some(4));
    // A look is no use of the item, and no hit.
    expect_eq!(rt; (cache.hits(), cache.misses()), (0, 0));
    Ok(())
}

#[test]
fn contains_key(rt: HostRuntime) -> Result<(), Fail> {
    let mut cache = Cache::new(rt.alloc(), 5)?;
    cache.insert("square", 4)?;
    expect!(rt; cache.contains_key(&"square"));
    expect!(rt; !cache.contains_key(&"circle"));
    Ok(())
}

#[test]
fn shard(rt: HostRuntime) -> Result<(), Fail> {
    let mut cache: Cache<u64, u64> = Cache::new(rt.alloc(), 100)?;
    cache.insert(1, 10)?;
    cache.get(&1);
    let mut marks = 0u64;
    for (key, value, mark) in cache.shard().iter_hot() {
        expect_eq!(rt; (*key, *value, mark), (1, 10, 1));
        marks = marks.saturating_add(1);
    }
    expect_eq!(rt; marks, 1);
    expect_eq!(rt;
        (cache.shard().hot_target(), cache.shard().ghost_limit()),
        (97, 50)
    );
    Ok(())
}

#[test]
fn len_is_empty_weight_and_capacity(rt: HostRuntime) -> Result<(), Fail> {
    let mut cache: Cache<u64, u64> = Cache::new(rt.alloc(), 5)?;
    expect!(rt; cache.is_empty());
    cache.insert(1, 10)?;
    expect!(rt; !cache.is_empty());
    expect_eq!(rt; (cache.len(), cache.weight(), cache.capacity()), (1, 1, 5));
    Ok(())
}

#[test]
fn hits_and_misses(rt: HostRuntime) -> Result<(), Fail> {
    let mut cache: Cache<u64, u64> = Cache::new(rt.alloc(), 5)?;
    cache.insert(1, 10)?;
    for key in [1, 1, 2] {
        cache.get(&key);
    }
    expect_eq!(rt; (cache.hits(), cache.misses()), (2, 1));
    Ok(())
}

#[test]
fn stats(rt: HostRuntime) -> Result<(), Fail> {
    let mut cache: Cache<u64, u64> = Cache::new(rt.alloc(), 5)?;
    cache.insert(1, 10)?;
    for key in [1, 1, 2] {
        cache.get(&key);
    }
    let stats = cache.stats();
    expect_eq!(rt; (stats.looks(), stats.hits_of_a_million()), (3, Some(666_666)));
    // Lines for a page of metrics.
    let lines = "cache_entries 1\ncache_weight 1\ncache_capacity 5\ncache_hits_total 2\n\
        cache_misses_total 1\ncache_expired_total 0\ncache_loads_total 0\n\
        cache_failed_loads_total 0";
    expect_eq!(rt; format!(in rt.alloc(); "{stats}")?.as_str(), lines);
    Ok(())
}

#[test]
fn item_stats(rt: HostRuntime) -> Result<(), Fail> {
    let mut cache: Cache<u64, u64> = Cache::new(rt.alloc(), 5)?;
    cache.insert(1, 10)?;
    cache.get(&1);
    cache.peek(&1);
    expect_eq!(rt;
        cache.item_stats(&1).map(|stats| stats.access_count),
        Some(1)
    );
    Ok(())
}

#[test]
fn iter(rt: HostRuntime) -> Result<(), Fail> {
    let mut cache: Cache<u64, u64> = Cache::new(rt.alloc(), 5)?;
    cache.insert(1, 10)?;
    cache.insert(2, 20)?;
    let mut sum = 0u64;
    for (key, value) in cache.iter() {
        sum = sum.saturating_add(*key).saturating_add(*value);
    }
    expect_eq!(rt; sum, 33);
    Ok(())
}

#[test]
fn hottest(rt: HostRuntime) -> Result<(), Fail> {
    let mut cache: Cache<u64, u64> = Cache::new(rt.alloc(), 5)?;
    for key in [1, 2, 3] {
        cache.insert(key, key)?;
    }
    cache.get(&2);
    // The first has a mark, and of the others the one that is visited next comes first.
    let mut keys = 0u64;
    for (key, _) in &cache.hottest(rt.alloc(), 2)? {
        keys = keys.saturating_mul(10).saturating_add(**key);
    }
    expect_eq!(rt; keys, 21);
    Ok(())
}

/// Puts all items of a cache into another one.
fn put_back(cache: &Cache<u64, u64>, again: &mut Cache<u64, u64>) -> Result<(), Fail> {
    for (key, value, queue, mark) in cache.saved() {
        again.restore(*key, *value, queue, mark)?;
    }
    Ok(())
}

#[test]
fn saved_and_restored(rt: HostRuntime) -> Result<(), Fail> {
    let mut cache: Cache<u64, u64> = Cache::new(rt.alloc(), 5)?;
    cache.insert(1, 10)?;
    cache.get(&1);
    let mut again: Cache<u64, u64> = Cache::new(rt.alloc(), 5)?;
    put_back(&cache, &mut again)?;
    // The pair has its mark again.
    expect_eq!(rt; again.saved().next(), Some((&1, &10, Queue::Hot, 1)));
    expect_eq!(rt; again.len(), 1);
    // What stands is not put back once more.
    expect_eq!(rt; again.restore(1, 11, Queue::Cold, 0), Err((1, 11, None)));
    Ok(())
}

#[test]
fn restore_all(rt: HostRuntime) -> Result<(), Fail> {
    let mut cache: Cache<u64, u64> = Cache::new(rt.alloc(), 5)?;
    cache.insert(1, 10)?;
    let saved = [(1, 11, Queue::Cold, 0), (2, 20, Queue::Hot, 2)];
    cache.restore_all(saved.into_iter())?;
    // Of key 1 something was known, so it was passed over.
    let values = (cache.peek(&1).copied(), cache.peek(&2).copied());
    expect_eq!(rt; values, (Some(10), Some(20)));
    Ok(())
}

#[test]
fn memory_used(rt: HostRuntime) -> Result<(), Fail> {
    let mut cache: Cache<u64, u64> = Cache::new(rt.alloc(), 5)?;
    cache.insert(1, 10)?;
    // In bytes: the slots, and the index that finds them.
    expect!(rt; cache.memory_used().entries > 0);
    expect!(rt; cache.memory_used().map > 0);
    Ok(())
}
