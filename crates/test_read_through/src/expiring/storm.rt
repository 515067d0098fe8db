//! Four threads that ask for a thousand keys, by a clock that rises with each call.
use quick_cache_expiring_sync::{Refusal, SharedExpiring};
use std::alloc::{AllocError, Global};
use std::sync::Wait;
use std::sync::atomic::{AtomicU64, Ordering};
use std::thread::map_indices;
use std::time::Clock;
use test_tools::{expect_eq, expect_ok};

const KEYS: u64 = 1000;

const CALLS: u64 = 25_000;

const LIFE: u64 = 5000;

/// A key and the moment of its load.
type Loaded = (u64, u64);

/// For each key where its part of the draws ends: that of the k-th, from 0, goes with 1 / (k + 1).
fn zipf(alloc: Global) -> Result<Vec<u64>, AllocError> {
    let mut ends = Vec::with_capacity(alloc, KEYS as usize)?;
    let mut end = 0u64;
    for key in 0..KEYS {
        end = end.saturating_add(1_000_000 / (key + 1));
        ends.push(end)?;
    }
    Ok(ends)
}

/// The key that a state draws.
fn key_of(ends: &[u64], state: u64) -> u64 {
    let Some(all) = ends.last() else {
        return 0;
    };
    let place = (state >> 32).wrapping_mul(*all) >> 32;
    ends.partition_point(|end| *end <= place) as u64
}

/// The state that comes after.
fn drawn(state: u64) -> u64 {
    state
        .wrapping_mul(6_364_136_223_846_793_005)
        .wrapping_add(1_442_695_040_888_963_407)
}

/// A load that comes within the life of the one before of its key. Loads of one key come one after
/// another, so each sees the moment of the one before.
fn is_early(last: &[AtomicU64], key: u64, now: u64) -> bool {
    let Some(last) = last.get(key as usize) else {
        return true;
    };
    let before = last.swap(now, Ordering::SeqCst);
    before > 0 && now < before.saturating_add(LIFE)
}

/// An answer that is no value of the key, or is over.
fn is_wrong(answer: Result<Result<Loaded, ()>, Refusal>, key: u64, now: u64) -> bool {
    match answer {
        Ok(Ok((of, moment))) => of != key || now >= moment.saturating_add(LIFE),
        _ => true,
    }
}

/// Asks so often, and counts what is no value of the key, or over, and loads that come early.
fn asks<R: Wait + Clock>(
    rt: &R,
    entries: &SharedExpiring<u64, Loaded>,
    ends: &[u64],
    last: &[AtomicU64],
    clock: &AtomicU64,
    seed: u64,
) -> u64 {
    let mut state = seed;
    let wrong = AtomicU64::new(0);
    for _ in 0..CALLS {
        state = drawn(state);
        let key = key_of(ends, state);
        let now = clock.fetch_add(1, Ordering::SeqCst);
        let loader = || -> Result<Loaded, ()> {
            wrong.fetch_add(u64::from(is_early(last, key, now)), Ordering::SeqCst);
            Ok((key, now))
        };
        let answer = entries.get_or_insert_with(rt, &key, now, LIFE, loader);
        wrong.fetch_add(u64::from(is_wrong(answer, key, now)), Ordering::SeqCst);
    }
    wrong.load(Ordering::SeqCst)
}

#[test]
fn nothing_over_is_served_and_one_loads_a_key_and_life(rt: HostRuntime) {
    let ends = expect_ok!(rt; zipf(rt.alloc()));
    let mut last = expect_ok!(rt; Vec::with_capacity(rt.alloc(), KEYS as usize));
    for _ in 0..KEYS {
        expect_ok!(rt; last.push(AtomicU64::new(0)));
    }
    let entries = expect_ok!(rt; SharedExpiring::new(rt.alloc(), 8000));
    let (ends, last, clock) = (ends.as_slice(), last.as_slice(), &AtomicU64::new(1));
    let wrong = expect_ok!(rt; map_indices(
        &rt,
        rt.alloc(),
        4,
        &|index| asks(&rt, &entries, ends, last, clock, index as u64),
    ));
    expect_eq!(rt; wrong.as_slice(), [0, 0, 0, 0].as_slice());
    expect_eq!(rt; entries.len(&rt), 1000);
}
