//! The calls that do not wait, while another call has a lock to write. A predicate of `remove_if`
//! runs under that lock, and tries them on the same cache: an item that leaves says that each of
//! them gave the answer that is wanted.
use crate::shards::divided;
use quick_cache::sync::{Cache, LockContention, TryError};
use std::test::Fail;
use test_tools::{expect_eq, expect_ok};

/// Whether each call that does not wait answers contention under this key, and gives back the pair
/// and the request state as they were.
fn each_is_contended(cache: &Cache<u64, u64>, key: u64) -> bool {
    let contended = TryError::Contended(LockContention);
    let mut gone = [Some((8, 80)), None];
    cache.try_contains_key(&key) == Err(LockContention)
        && cache.try_item_stats(&key) == Err(LockContention)
        && cache.try_peek(&key) == Err(contended)
        && cache.try_get(&key) == Err(contended)
        && cache.try_remove(&key) == Err(LockContention)
        && cache.try_insert(key, 30) == Err((key, 30, contended))
        && cache.try_insert_with_lifecycle(key, 30, &mut gone) == Err((key, 30, contended))
        && gone == [Some((8, 80)), None]
}

#[test]
fn each_call_answers_contention_while_every_lock_is_held(rt: HostRuntime) {
    let cache: Cache<u64, u64> = expect_ok!(rt; Cache::new(rt.alloc(), 100));
    let (rt, shared) = (&rt, &cache);
    let Some(other) = (5..100u64).find(|key| shared.shard_index(key) != shared.shard_index(&4))
    else {
        panic!(rt; "each shard has keys");
    };
    for key in [1, 4, other] {
        expect_eq!(rt; cache.insert(rt, key, 10), Ok(()));
    }
    // There are two shards: one predicate runs under the lock of each.
    let under_both = |_: &u64| (1..4u64).all(|key| each_is_contended(shared, key));
    let under_one = |_: &u64| shared.remove_if(rt, &other, under_both).is_some();
    expect_eq!(rt; cache.num_shards(), 2);
    expect_eq!(rt; cache.remove_if(rt, &4, under_one), Some((4, 10)));
    // Nothing else changed, and the locks are free again.
    expect_eq!(rt; cache.try_contains_key(&3), Ok(false));
    expect_eq!(rt; cache.try_peek(&1), Ok(Some(10)));
    expect_eq!(rt; (cache.len(rt), cache.hits(rt), cache.misses(rt)), (1, 0, 0));
}

#[test]
fn a_lock_is_of_its_shard_alone(rt: HostRuntime) -> Result<(), Fail> {
    let Some(cache) = divided(rt.alloc(), 2, 100) else {
        panic!(rt; "there is memory");
    };
    let shared = &cache;
    let Some(other) = (2..100u64).find(|key| shared.shard_index(key) != shared.shard_index(&1))
    else {
        panic!(rt; "each shard has keys");
    };
    expect_eq!(rt; cache.insert(&rt, 1, 10), Ok(()));
    let acts_on_the_other = |_: &u64| {
        shared.try_contains_key(&1) == Err(LockContention)
            && shared.try_insert(other, 20) == Ok(())
            && shared.try_get(&other) == Ok(Some(20))
            && shared.try_peek(&other) == Ok(Some(20))
            && shared.try_contains_key(&other) == Ok(true)
            && shared.try_remove(&other) == Ok(Some((other, 20)))
    };
    expect_eq!(rt; cache.remove_if(&rt, &1, acts_on_the_other), Some((1, 10)));
    Ok(())
}
