//! Four threads that ask for a thousand keys, by a clock that rises with each get.
use crate::caches::drawn;
use read_through::{ReadThrough, Refusal};
use std::alloc::{AllocError, Global};
use std::sync::Wait;
use std::sync::atomic::{AtomicU64, Ordering};
use std::thread::{Threads, map_indices};
use std::time::Clock;

const KEYS: u64 = 1000;

const GETS: u64 = 25_000;

const LIFE: u64 = 5000;

/// What the threads saw.
#[derive(Drop)]
pub struct Seen {
    /// Answers that are no value of their key, of a moment whose life has not ended.
    pub wrong: u64,
    /// Loads within the life of the one before of their key.
    pub early: u64,
}

/// What is loaded for a key at a moment.
fn hundreds(key: u64, now: u64) -> u64 {
    key.wrapping_mul(100).wrapping_add(now)
}

/// For each key where its part of the draws ends: that of the k-th, from 0, goes with 1 / (k + 1).
fn zipf(alloc: Global) -> Result<Vec<u64>, AllocError> {
    let mut ends = Vec::with_capacity(alloc, KEYS as usize)?;
    let mut end = 0u64;
    for key in 0..KEYS {
        end = end.saturating_add(1_000_000 / (key + 1));
        ends.push(end)?;
    }
    Ok(ends)
}

/// The key that a state draws.
fn key_of(ends: &[u64], state: u64) -> u64 {
    let Some(all) = ends.last() else {
        return 0;
    };
    let place = (state >> 32).wrapping_mul(*all) >> 32;
    ends.partition_point(|end| *end <= place) as u64
}

/// Asks so often, and counts the wrong answers.
fn asks<R: Wait + Clock, F: Fn(&u64, u64) -> u64>(
    rt: &R,
    loaded: &ReadThrough<u64, u64, F>,
    ends: &[u64],
    clock: &AtomicU64,
    seed: u64,
) -> u64
    requires { F.IsAlwaysCallable loaded.now.loader }
{
    let mut state = seed;
    let mut wrong = 0u64;
    for _ in 0..GETS {
        state = drawn(state);
        let key = key_of(ends, state);
        let now = clock.fetch_add(1, Ordering::SeqCst);
        let is_right = match loaded.get(rt, &key, now) {
            Ok(value) => now < value.wrapping_sub(hundreds(key, 0)).wrapping_add(LIFE),
            Err(_) => false,
        };
        if !is_right {
            wrong = wrong.saturating_add(1);
        }
    }
    wrong
}

/// A load is early that comes within the life of the one before of its key. Loads of one key come
/// one after another, so each sees the moment of the one before.
fn is_early(last: &[AtomicU64], key: u64, now: u64) -> bool {
    let Some(last) = last.get(key as usize) else {
        return true;
    };
    let before = last.swap(now, Ordering::SeqCst);
    before > 0 && now < before.wrapping_add(LIFE)
}

/// Lets four threads make 100,000 gets.
pub fn storm<R: Threads + Wait + Clock + Sync>(rt: &R, alloc: Global) -> Result<Seen, Refusal> {
    let Ok(ends) = zipf(alloc) else {
        return Err(Refusal::Memory);
    };
    let Ok(mut last) = Vec::with_capacity(alloc, KEYS as usize) else {
        return Err(Refusal::Memory);
    };
    for _ in 0..KEYS {
        if last.push(AtomicU64::new(0)).is_err() {
            return Err(Refusal::Memory);
        }
    }
    let (ends, last, early) = (ends.as_slice(), last.as_slice(), &AtomicU64::new(0));
    let loaded: ReadThrough<u64, u64, _> = ReadThrough::new(
        alloc,
        8000,
        LIFE,
        |key: &u64, now: u64| {
            if is_early(last, *key, now) {
                early.fetch_add(1, Ordering::SeqCst);
            }
            hundreds(*key, now)
        },
    )?;
    let clock = AtomicU64::new(1);
    let Ok(counts) = map_indices(
        rt,
        alloc,
        4,
        &|index| asks(rt, &loaded, ends, &clock, index as u64),
    ) else {
        return Err(Refusal::Memory);
    };
    let mut wrong = 0u64;
    for count in counts {
        wrong = wrong.saturating_add(count);
    }
    Ok(Seen {
        wrong,
        early: early.load(Ordering::SeqCst),
    })
}
