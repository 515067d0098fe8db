//! Walks over the shared cache, and drains of it.
use crate::shards::divided;
use quick_cache::sync::Cache;
use quick_cache::{DefaultHashBuilder, UnitWeighter};
use quick_cache_listeners::{Cause, Collect, Collected, OnLeaveWhy, Request, TellsTaken};
use std::alloc::Global;
use std::sync::Wait;
use std::sync::atomic::{AtomicBool, Ordering};
use std::thread::join;
use test_tools::{expect, expect_eq, expect_ok};

/// The keys that a walk shows, or that a drain takes, in ascending order, where each value is as
/// its key.
fn met<R: Wait>(rt: &R, alloc: Global, cache: &Cache<u64, u64>, drains: bool) -> Option<Vec<u64>> {
    let mut keys = Vec::new(alloc);
    let mut walk = cache.iter(rt);
    let mut drain = cache.drain(rt);
    for _ in 0..80000 {
        let step = if drains {
            drain.next()
        } else {
            walk.next().and_then(|step| step.ok())
        };
        let Some((key, value)) = step else {
            break;
        };
        if key != value {
            return None;
        }
        keys.push(key).ok()?;
    }
    keys.sort().ok()?;
    Some(keys)
}

/// Whether these are the numbers up to so many, each once, and greater ones behind them.
fn begin_with_numbers(keys: &Vec<u64>, count: usize) -> bool {
    for (index, key) in keys.iter().enumerate() {
        let is_right = if index < count {
            *key == index as u64
        } else {
            *key >= count as u64
        };
        if !is_right {
            return false;
        }
    }
    keys.len() >= count
}

#[test]
fn walks_print_their_names(rt: HostRuntime) {
    let cache: Cache<u64, u64> = expect_ok!(rt; Cache::new(rt.alloc(), 8));
    let text = expect_ok!(rt;
        format!(in rt.alloc(); "{:?}, {:?}", cache.iter(&rt), cache.drain(&rt)));
    expect_eq!(rt; text.as_str(), "Iter { .. }, Drain { .. }");
}

#[test]
fn a_walk_shows_each_item_once_and_a_drain_takes_it(rt: HostRuntime) {
    let Some(cache) = divided(rt.alloc(), 2, 140000) else {
        panic!(rt; "there is memory");
    };
    for number in 0..70000 {
        expect!(rt; cache.insert(&rt, number, number).is_ok());
    }
    for drains in [false, true] {
        let Some(keys) = met(&rt, rt.alloc(), &cache, drains) else {
            panic!(rt; "each value is as its key");
        };
        expect!(rt; begin_with_numbers(&keys, 70000) && keys.len() == 70000);
    }
    expect_eq!(rt; cache.len(&rt), 0);
}

#[test]
fn what_a_predicate_wants_is_taken_and_told_and_the_rest_stays(rt: HostRuntime) {
    let told = OnLeaveWhy(Collect);
    let builder = DefaultHashBuilder::new();
    let cache = expect_ok!(rt; Cache::with(rt.alloc(), 100, 100, UnitWeighter, builder, told));
    for number in 0..9u64 {
        expect_ok!(rt; cache.put(&rt, number, number));
    }
    let mut left = Request::default();
    left.state = Collected::with(Vec::new(rt.alloc()));
    let wanted = cache.extract_if(&rt, |key, _| *key % 3 == 0);
    OnLeaveWhy(Collect).tell_each_taken(&mut left, wanted, Cause::Retained);
    let (mut keys, mut causes) = (0u64, 0u64);
    left.state.each(|key, (_, cause)| {
        keys = keys.saturating_add(key);
        causes = causes.saturating_add(u64::from(cause == Cause::Retained));
    });
    expect_eq!(rt; (keys, causes, cache.len(&rt)), (9, 3, 6));
    let mut none = cache.extract_if(&rt, |key, _| *key % 3 == 0);
    expect!(rt; none.next().is_none());
    let text = expect_ok!(rt; format!(in rt.alloc(); "{none:?}"));
    expect_eq!(rt; text.as_str(), "ExtractIf { .. }");
}

/// Walks twenty times, and counts the walks that show each of the keys 0 to 499 once.
fn right_walks<R: Wait>(rt: &R, alloc: Global, cache: &Cache<u64, u64>) -> u64 {
    let mut right = 0u64;
    for _ in 0..20 {
        if let Some(keys) = met(rt, alloc, cache, false) {
            right = right.saturating_add(u64::from(begin_with_numbers(&keys, 500)));
        }
    }
    right
}

/// Inserts the keys 1000 to 1299 and takes them out again, until it is told to stop. It counts the
/// rounds.
fn comes_and_goes<R: Wait>(rt: &R, cache: &Cache<u64, u64>, is_over: &AtomicBool) -> u64 {
    let mut rounds = 0u64;
    for _ in 0..100000 {
        for key in 1000..1300 {
            drop(cache.insert(rt, key, key));
        }
        for key in 1000..1300 {
            drop(cache.remove(rt, &key));
        }
        rounds = rounds.saturating_add(1);
        if is_over.load(Ordering::SeqCst) {
            break;
        }
    }
    rounds
}

#[test]
fn a_walk_beside_a_thread_shows_what_stays_once(rt: HostRuntime) {
    let cache: Cache<u64, u64> = expect_ok!(rt; Cache::new(rt.alloc(), 4000));
    for number in 0..500 {
        expect!(rt; cache.insert(&rt, number, number).is_ok());
    }
    let is_over = AtomicBool::new(false);
    let (shared, is_over, alloc) = (&cache, &is_over, rt.alloc());
    let (right, rounds) = join(
        &rt,
        || {
            let right = right_walks(&rt, alloc, shared);
            is_over.store(true, Ordering::SeqCst);
            right
        },
        || comes_and_goes(&rt, shared, is_over),
    );
    expect_ok!(rt; println!(rt; "{rounds} rounds beside the walks"));
    expect_eq!(rt; (right, cache.len(&rt)), (20, 500));
}

/// The two of the keys 1 to 3 that are not this one.
fn others_than(key: u64) -> (u64, u64) {
    match key {
        1 => (2, 3),
        2 => (1, 3),
        _ => (1, 2),
    }
}

#[test]
fn a_walk_goes_on_beside_other_calls(rt: HostRuntime) {
    let cache: Cache<u64, u64> = expect_ok!(rt; Cache::new(rt.alloc(), 8));
    for number in 1..4u64 {
        expect!(rt; cache.insert(&rt, number, number).is_ok());
    }
    let mut walk = cache.iter(&rt);
    let Some((first, _)) = walk.next().and_then(|step| step.ok()) else {
        panic!(rt; "there are three items");
    };
    let (gone, stays) = others_than(first);
    expect_eq!(rt; cache.remove(&rt, &gone), Some((gone, gone)));
    expect!(rt; cache.insert(&rt, 9, 9).is_ok());
    let second = walk.next().and_then(|step| step.ok());
    let third = walk.next().and_then(|step| step.ok());
    let fourth = walk.next().and_then(|step| step.ok());
    let (kept, new) = (Some((stays, stays)), Some((9, 9)));
    // The new item has the slot that became free, which is behind the walk or ahead of it.
    let is_right = (second == kept && (third.is_none() || third == new))
        || (second == new && third == kept);
    expect!(rt; is_right && fourth.is_none());
}
