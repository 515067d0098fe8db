//! Rows of calls that load or act on an entry, each with what it is told, which one thread makes.
use crate::begun::numbers;
use crate::schedules::running::{Numbers, Running};
use crate::schedules::steps::{Step, Told};
use quick_cache_guard::Fetched;
use quick_cache_model::Refusal;
use quick_cache_shard::EntryAction;
use std::alloc::AllocGlobal;
use std::process::Abort;
use std::random::RandomSource;
use std::sync::Wait;
use std::time::{Clock, Duration};
use test_tools::expect;

/// What an entry call makes of an item.
#[derive(Clone, Copy)]
pub enum Choice {
    /// It is raised by one and stays.
    Raise,
    /// It goes if it is below 100.
    RemoveSmall,
    /// It gives its place to a guard.
    Replace,
}

/// A call of a row.
#[derive(Clone, Copy)]
pub enum Call {
    /// A step of a schedule.
    Step(Step),
    /// Loads the key by a loader that gives this value, or none where it is 0. It is told whether the
    /// loader was called.
    Load(u64, u64),
    /// The same, by the call that tells whose loader gave the value.
    LoadTold(u64, u64),
    /// Loads the key by a loader that loads the next key of the same cache, with this value.
    LoadBoth(u64, u64),
    /// Acts on the entry of a key, and does not wait.
    ActAs(u64, Choice),
    /// Removes even keys, and takes from their loads the right to be stored.
    InvalidateEven,
    Hits,
    Misses,
}

/// What a load is told: the value as one that was loaded or found, that its loader gave none, or that it
/// was refused.
fn told(answer: Result<Result<u64, ()>, Refusal>, is_loaded: bool) -> Told {
    match answer {
        Ok(Ok(value)) => {
            if is_loaded {
                Told::Loaded(value)
            } else {
                Told::Value(value)
            }
        }
        Ok(Err(())) => Told::Failed,
        Err(_) => Told::Refused,
    }
}

/// What a loader gives.
fn given(value: u64) -> Result<u64, ()> {
    if value == 0 { Err(()) } else { Ok(value) }
}

/// Loads a key, and is told whether the loader was called.
fn load<R: Wait>(rt: &R, cache: &Numbers, key: u64, value: u64) -> Told {
    let mut is_called = false;
    let answer = cache.get_or_insert_with(rt, &key, || {
        is_called = true;
        given(value)
    });
    told(answer, is_called)
}

/// Loads a key by a loader that loads the next one.
fn load_both<R: Wait>(rt: &R, cache: &Numbers, key: u64, value: u64) -> Told {
    let next = key.saturating_add(1);
    let answer = cache.get_or_insert_with(rt, &key, || match load(rt, cache, next, value) {
        Told::Loaded(value) => Ok(value),
        _ => Err(()),
    });
    told(answer, true)
}

/// Loads a key by the call that tells whose loader gave the value.
fn load_told<R: Wait>(rt: &R, cache: &Numbers, key: u64, value: u64) -> Told {
    match cache.get_or_insert_told(rt, &key, || given(value)) {
        Ok(Ok(Fetched { value, loaded })) => told(Ok(Ok(value)), loaded),
        Ok(Err(())) => Told::Failed,
        Err(_) => Told::Refused,
    }
}

/// What becomes of an item.
fn chosen(choice: Choice, value: &mut u64) -> EntryAction<u64> {
    match choice {
        Choice::Raise => {
            *value = value.saturating_add(1);
            EntryAction::Retain(*value)
        }
        Choice::RemoveSmall if *value < 100 => EntryAction::Remove,
        Choice::RemoveSmall => EntryAction::Retain(*value),
        Choice::Replace => EntryAction::ReplaceWithGuard,
    }
}

/// Makes a call.
fn make<R: Wait + Clock + RandomSource + AllocGlobal>(
    running: &mut Running<'_, R>,
    call: Call,
) -> Told {
    let (rt, cache) = (running.rt, running.cache);
    match call {
        Call::Step(step) => running.step(step),
        Call::Load(key, value) => load(rt, cache, key, value),
        Call::LoadTold(key, value) => load_told(rt, cache, key, value),
        Call::LoadBoth(key, value) => load_both(rt, cache, key, value),
        Call::ActAs(key, choice) => {
            let callback = |_: &u64, value: &mut u64| chosen(choice, value);
            let answer = cache.entry(rt, &key, Some(Duration::from_millis(0)), callback);
            running.acted(answer)
        }
        Call::InvalidateEven => Told::Count(cache.invalidate_if(rt, |key| *key % 2 == 0)),
        Call::Hits => Told::Count(cache.hits(rt) as usize),
        Call::Misses => Told::Count(cache.misses(rt) as usize),
    }
}

/// Makes the calls of a row on a new cache for so many items, and stops the test at the first that is
/// told something else.
pub fn answers<R: Wait + Clock + RandomSource + AllocGlobal + Abort>(
    rt: &R,
    items: usize,
    row: &[(Call, Told)],
) {
    let cache = numbers(rt, items);
    let keys = [0, 1, 2, 3];
    let mut running = Running::new(rt, &cache, &keys);
    for (call, told) in row {
        expect!(rt; make(&mut running, *call) == *told);
    }
}
