//! Four threads that load two thousand keys, in orders that a generator makes of a seed.
use crate::begun::numbers;
use quick_cache_guard::GuardResult;
use quick_cache_sync::Cache;
use std::sync::Wait;
use std::sync::atomic::{AtomicU64, Ordering};
use std::thread::map_indices;
use std::time::Clock;
use test_tools::{expect_eq, expect_ok};

const KEYS: u64 = 2000;

// The next number of a generator.
fn next(seed: u64) -> u64 {
    seed.wrapping_mul(6_364_136_223_846_793_005)
        .wrapping_add(1_442_695_040_888_963_407)
}

// The keys in the order of a seed. Its step is odd and no multiple of 5, so each key comes once.
fn key_at(seed: u64, turn: u64) -> u64 {
    let last = match seed % 4 {
        0 => 1,
        1 => 3,
        2 => 7,
        _ => 9u64,
    };
    let start = next(seed) % KEYS;
    let step = (next(start) % 100).wrapping_mul(10).wrapping_add(last);
    start.wrapping_add(turn.wrapping_mul(step)) % KEYS
}

// Asks for each key, and loads those that it is the first to ask for. It counts the right answers.
fn loads_each<R: Wait>(rt: &R, cache: &Cache<u64, u64>, calls: &AtomicU64, seed: u64) -> u64 {
    let mut right = 0u64;
    for turn in 0..KEYS {
        let key = key_at(seed, turn);
        let loaded: Result<Result<u64, ()>, _> = cache.get_or_insert_with(rt, &key, || {
            calls.fetch_add(1, Ordering::SeqCst);
            Ok(key.wrapping_add(5))
        });
        right = right.saturating_add(u64::from(loaded == Ok(Ok(key.wrapping_add(5)))));
    }
    right
}

// The same by guards, of which every third is dropped. Who drops one asks again.
fn drops_some<R: Wait + Clock>(
    rt: &R,
    cache: &Cache<u64, u64>,
    calls: &AtomicU64,
    seed: u64,
) -> u64 {
    let mut right = 0u64;
    let mut coin = seed;
    for turn in 0..KEYS {
        let key = key_at(seed, turn);
        for _ in 0..100 {
            coin = next(coin);
            match cache.get_value_or_guard(rt, &key, None) {
                GuardResult::Value(value) => {
                    right = right.saturating_add(u64::from(value == key.wrapping_add(5)));
                    break;
                }
                GuardResult::Guard(guard) => {
                    if coin >> 32 & 3 == 0 {
                        drop(guard);
                    } else {
                        calls.fetch_add(1, Ordering::SeqCst);
                        drop(guard.insert(key.wrapping_add(5)));
                    }
                }
                _ => break,
            }
        }
    }
    right
}

// The seed of a thread: eleven times so many.
fn seed_of(first: u64, thread: usize) -> u64 {
    first.wrapping_add(thread as u64).wrapping_mul(11)
}

#[test]
fn each_key_is_loaded_once(rt: HostRuntime) {
    let cache = numbers(&rt, 8000);
    let (rt, cache, loads) = (&rt, &cache, &AtomicU64::new(0));
    expect_ok!(rt; println!(rt; "seeds 11, 22, 33, 44"));
    let calls = &|thread: usize| loads_each(rt, cache, loads, seed_of(1, thread));
    let right = expect_ok!(rt; map_indices(rt, rt.alloc(), 4, calls));
    expect_eq!(rt; right.as_slice(), [KEYS; 4].as_slice());
    expect_eq!(rt;
        (loads.load(Ordering::SeqCst), cache.len(rt)),
        (KEYS, KEYS as usize)
    );
}

#[test]
fn each_key_is_loaded_once_where_guards_are_dropped(rt: HostRuntime) {
    let cache = numbers(&rt, 8000);
    let (rt, cache, loads) = (&rt, &cache, &AtomicU64::new(0));
    expect_ok!(rt; println!(rt; "seeds 55, 66, 77, 88"));
    let calls = &|thread: usize| drops_some(rt, cache, loads, seed_of(5, thread));
    let right = expect_ok!(rt; map_indices(rt, rt.alloc(), 4, calls));
    expect_eq!(rt; right.as_slice(), [KEYS; 4].as_slice());
    expect_eq!(rt;
        (loads.load(Ordering::SeqCst), cache.len(rt)),
        (KEYS, KEYS as usize)
    );
}
