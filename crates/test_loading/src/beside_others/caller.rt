//! A thread's calls: each is made on a key with a value of its own, and tells what it found.
ghost use Rattle.std.specs.Prelude.{◌%◌};

use crate::beside_others::board::{Found, KEYS};
use crate::schedules::later::Later;
use futures::task::Poll;
use futures::test::MockTask;
use quick_cache_guard::{EntryResult, GuardResult, PlaceholderGuard};
use quick_cache_locked::LockedShard;
use quick_cache_model::{DefaultHashBuilder, Refusal, Weighter};
use quick_cache_shard::EntryAction;
use quick_cache_sync::{Cache, DefaultLifecycle, Iter};
use std::alloc::AllocGlobal;
use std::random::RandomSource;
use std::sync::Wait;
use std::thread::yield_now;
use std::time::{Clock, Duration};

/// Weighs each item by its value: 0, 1 or 2.
#[derive(Clone, Drop)]
pub struct ByValue;

impl Weighter<u64, u64> for ByValue {
    ghost weight_of = { λ _ _ value. value % 3 };

    fn weight(&self, _key: &u64, val: &u64) -> u64 {
        *val % 3
    }
}

/// A cache of such items.
pub type Weighed = Cache<u64, u64, ByValue>;

type Dropping = DefaultLifecycle<u64, u64>;

type Shard = LockedShard<u64, u64, ByValue, DefaultHashBuilder, Dropping>;

type Guard<'a, R> = PlaceholderGuard<'a, u64, u64, Dropping, Shard, R>;

/// A call: its key, a value that it may write, and a random number.
#[derive(Clone, Copy)]
pub struct Call {
    pub key: u64,
    pub value: u64,
    pub coin: u64,
}

/// Makes a call of a random kind.
pub fn make<R: Wait + Clock + RandomSource + AllocGlobal>(
    rt: &R,
    cache: &Weighed,
    call: Call,
) -> Found {
    match call.coin >> 32 & 15 {
        0 | 1 => item(cache.get(rt, &call.key).ok().flatten()),
        2 => item(cache.peek(rt, &call.key).ok().flatten()),
        3 => item(cache.remove(rt, &call.key).map(|pair| pair.1)),
        4 | 5 => write(rt, cache, call),
        6 | 7 | 8 => ask(rt, cache, call),
        9 => load(rt, cache, call),
        10 => load_by_task(rt, cache, call),
        11 => act(rt, cache, call),
        12 => act_by_task(rt, cache, call),
        13 | 14 => wait(rt, cache, call),
        _ => on_all(rt, cache, call),
    }
}

/// What a look-up found.
fn item(found: Option<u64>) -> Found {
    match found {
        Some(value) => Found::Item(value),
        None => Found::Nothing,
    }
}

/// Writes, takes out, or looks up without waiting.
fn write<R: Wait>(rt: &R, cache: &Weighed, call: Call) -> Found {
    match call.coin >> 40 & 7 {
        0 => drop(cache.replace(rt, call.key, call.value, call.coin >> 50 & 1 == 0)),
        1 => drop(cache.try_insert(call.key, call.value)),
        2 => {
            if let Some(pair) = cache.remove_if(rt, &call.key, |value| *value % 2 == 0) {
                return Found::Item(pair.1);
            }
        }
        3 => {
            if let Ok(taken) = cache.try_remove(&call.key) {
                return item(taken.map(|pair| pair.1));
            }
        }
        4 => {
            if let Ok(found) = cache.try_get(&call.key) {
                return item(found);
            }
        }
        _ => drop(cache.insert(rt, call.key, call.value)),
    }
    Found::Unknown
}

/// Lets others go on for some turns, and fills a guard or lets it go. No item was there.
fn end<R: Wait>(guard: Guard<'_, R>, call: Call) -> Found {
    for _ in 0..call.coin >> 44 & 7 {
        yield_now();
    }
    if call.coin >> 52 & 3 == 0 {
        guard.abandon();
    } else {
        drop(guard.insert(call.value));
    }
    Found::Nothing
}

/// Asks for a value or a guard, and waits for a millisecond or not at all.
fn ask<R: Wait + Clock>(rt: &R, cache: &Weighed, call: Call) -> Found {
    let limit = Duration::from_millis(call.coin >> 48 & 1);
    match cache.get_value_or_guard(rt, &call.key, Some(limit)) {
        GuardResult::Value(value) => Found::Item(value),
        GuardResult::Guard(guard) => end(guard, call),
        GuardResult::Timeout => Found::Nothing,
        GuardResult::Refused(_) => Found::Unknown,
    }
}

/// Loads, where nobody has, or fails to.
fn load<R: Wait>(rt: &R, cache: &Weighed, call: Call) -> Found {
    let loaded: Result<Result<u64, ()>, Refusal> = cache.get_or_insert_with(rt, &call.key, || {
        yield_now();
        if call.coin >> 52 & 3 == 0 {
            Err(())
        } else {
            Ok(call.value)
        }
    });
    match loaded {
        Ok(Ok(value)) => Found::Item(value),
        Ok(Err(())) => Found::Nothing,
        Err(_) => Found::Unknown,
    }
}

/// What the callback of an entry call chooses: to write the call's value, to let the item go, or to
/// leave a guard.
fn choose(call: Call, value: &mut u64) -> EntryAction<u64> {
    match call.coin >> 50 & 3 {
        0 => EntryAction::Remove,
        1 => EntryAction::ReplaceWithGuard,
        _ => EntryAction::Retain(std::mem::replace(value, call.value)),
    }
}

/// What came of an entry call.
fn acted<R: Wait>(acted: EntryResult<u64, u64, u64, Guard<'_, R>>, call: Call) -> Found {
    match acted {
        EntryResult::Retained(value) => Found::Item(value),
        EntryResult::Removed(_, value) => Found::Item(value),
        EntryResult::Replaced(guard, value) => {
            end(guard, call);
            Found::Item(value)
        }
        EntryResult::Vacant(guard) => end(guard, call),
        EntryResult::Timeout => Found::Nothing,
        EntryResult::Refused(_) => Found::Unknown,
    }
}

/// Acts on the entry, and waits for a millisecond or not at all.
fn act<R: Wait + Clock>(rt: &R, cache: &Weighed, call: Call) -> Found {
    let limit = Duration::from_millis(call.coin >> 48 & 1);
    let callback = |_: &u64, value: &mut u64| choose(call, value);
    acted(cache.entry(rt, &call.key, Some(limit), callback), call)
}

/// Polls a future up to twenty times, lets others go on between, and drops it.
fn wait<R: Wait + RandomSource + AllocGlobal>(rt: &R, cache: &Weighed, call: Call) -> Found {
    let Ok(task) = MockTask::new(rt) else {
        return Found::Unknown;
    };
    let mut future = cache.get_value_or_guard_async(rt, &call.key);
    let mut found = Found::Nothing;
    for turn in 0..20u64 {
        if let Poll::Ready(answer) = task.poll(&mut future) {
            found = waited(answer, turn, call);
            break;
        }
        yield_now();
    }
    found
}

/// What came to a future by a poll.
fn waited<R: Wait>(
    answer: Result<Result<u64, Guard<'_, R>>, Refusal>,
    turn: u64,
    call: Call,
) -> Found {
    match answer {
        Ok(Ok(value)) => came(turn, value),
        Ok(Err(guard)) => end(guard, call),
        Err(_) => Found::Unknown,
    }
}

/// The same by a future that loads, with a loader that comes late or fails.
fn load_by_task<R: Wait + RandomSource + AllocGlobal>(
    rt: &R,
    cache: &Weighed,
    call: Call,
) -> Found {
    let Ok(task) = MockTask::new(rt) else {
        return Found::Unknown;
    };
    let loader = Later {
        turns: call.coin >> 44 & 3,
        given: (call.coin >> 52 & 3 > 0).then_some(call.value),
    };
    let mut future = cache.get_or_insert_async(rt, &call.key, loader);
    let mut found = Found::Nothing;
    for turn in 0..20u64 {
        if let Poll::Ready(answer) = task.poll(&mut future) {
            found = loaded(answer, turn, call);
            break;
        }
        yield_now();
    }
    found
}

/// What a load told by a poll. A guard came where the value is the loader's.
fn loaded(answer: Result<Result<u64, ()>, Refusal>, turn: u64, call: Call) -> Found {
    match answer {
        Ok(Ok(value)) if value != call.value => came(turn, value),
        Ok(_) => Found::Nothing,
        Err(_) => Found::Unknown,
    }
}

/// The same by a future that acts on the entry.
fn act_by_task<R: Wait + RandomSource + AllocGlobal>(rt: &R, cache: &Weighed, call: Call) -> Found {
    let Ok(task) = MockTask::new(rt) else {
        return Found::Unknown;
    };
    let callback = |_: &u64, value: &mut u64| choose(call, value);
    let mut future = cache.entry_async(rt, &call.key, callback);
    let mut found = Found::Nothing;
    for _ in 0..20 {
        if let Poll::Ready(answer) = task.poll(&mut future) {
            found = acted(answer, call);
            break;
        }
        yield_now();
    }
    found
}

/// A value that a future found by a poll. One that did not find it at once has waited for it.
fn came(turn: u64, value: u64) -> Found {
    if turn > 0 {
        Found::Waited(value)
    } else {
        Found::Item(value)
    }
}

/// A walk over such a cache.
pub type Walk<'a, R> = Iter<'a, u64, u64, ByValue, DefaultHashBuilder, Dropping, R>;

/// The next pair of a walk, or nothing at its end.
pub fn next_pair<R: Wait>(walk: &mut Walk<'_, R>) -> Option<(u64, u64)> {
    walk.next()?.ok()
}

/// Whether the first steps of a walk show a value of another key.
fn walk_is_wrong<R: Wait>(rt: &R, cache: &Weighed, steps: u64) -> bool {
    let mut walk = cache.iter(rt);
    for _ in 0..steps {
        let Some((key, value)) = next_pair(&mut walk) else {
            break;
        };
        if value % KEYS != key {
            return true;
        }
    }
    false
}

/// A call on all keys. Where it shows a value of another key, it tells of one that none writes.
fn on_all<R: Wait>(rt: &R, cache: &Weighed, call: Call) -> Found {
    match call.coin >> 40 & 63 {
        0 => cache.clear(rt),
        1 => {
            cache.retain(rt, |_, value| *value % 2 == 1);
        }
        2 => cache.set_capacity(rt, (call.coin >> 50 & 63).saturating_add(100)),
        3 => drop(cache.reserve(rt, 4)),
        4 => drop(cache.drain(rt).next()),
        5 => drop(cache.item_stats(rt, &call.key)),
        _ => {
            if walk_is_wrong(rt, cache, call.coin >> 50 & 7) {
                return Found::Item(0);
            }
        }
    }
    Found::Unknown
}
