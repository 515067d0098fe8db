//! Four threads with random calls of all kinds, for two seconds. None is told a value of another
//! key, nor one that had been written before somebody found the key absent; and the cache is sound.
use crate::beside_others::board::{Board, Found, KEYS, may_be, value_of};
use crate::beside_others::caller::{ByValue, Call, Weighed, make, next_pair};
use crate::schedules::generator::next;
use quick_cache_guard::GuardResult;
use quick_cache_sync::Cache;
use std::alloc::AllocGlobal;
use std::random::RandomSource;
use std::sync::Wait;
use std::thread::map_indices;
use std::time::{Clock, Duration, Instant};
use test_tools::{expect_eq, expect_ok};

/// What a thread saw: how many turns it made, in how many of them a value came to it for which it
/// had waited, and the key of a value that it should not have been told.
#[derive(Clone, Copy)]
struct Seen {
    turns: u64,
    waited: u64,
    wrong: Option<u64>,
}

/// Makes a thread's next call, half of all on four keys.
fn make_next<R: Wait + Clock + RandomSource + AllocGlobal>(
    rt: &R,
    cache: &Weighed,
    board: &Board,
    thread: u64,
    seed: u64,
    seen: &mut Seen,
) {
    seen.turns = seen.turns.saturating_add(1);
    let key = if seed >> 63 == 0 {
        seed >> 40 & 3
    } else {
        seed >> 40 & 255
    };
    let value = value_of(key, thread, seen.turns);
    let coin = next(seed);
    let (gone, before) = (board.gone(key), board.ended());
    let found = make(rt, cache, Call { key, value, coin });
    board.end(thread, seen.turns, key, found, &before);
    if let Found::Waited(_) = found {
        seen.waited = seen.waited.saturating_add(1);
    }
    if !may_be(key, found, &gone, &before) {
        seen.wrong = Some(key);
    }
}

/// Makes calls for two seconds, and for more where nothing came yet for which it had waited; or until
/// one is told what may not be.
fn make_calls<R: Wait + Clock + RandomSource + AllocGlobal>(
    rt: &R,
    cache: &Weighed,
    board: &Board,
    thread: u64,
) -> Seen {
    let mut seen = Seen {
        turns: 0,
        waited: 0,
        wrong: None,
    };
    let Ok(start) = Instant::now(rt) else {
        return seen;
    };
    let mut seed = thread;
    for _ in 0..u64::MAX {
        seed = next(seed);
        make_next(rt, cache, board, thread, seed, &mut seen);
        let millis = if seen.waited > 0 { 2000 } else { 15000 };
        let is_over = match start.elapsed(rt) {
            Ok(elapsed) => elapsed >= Duration::from_millis(millis),
            Err(_) => true,
        };
        if is_over || seen.wrong.is_some() {
            break;
        }
    }
    seen
}

/// What a walk shows: how many items, and what they weigh; or nothing where a value is another key's.
fn walked<R: Wait>(rt: &R, cache: &Weighed) -> Option<(usize, u64)> {
    let (mut items, mut weight) = (0usize, 0u64);
    let mut walk = cache.iter(rt);
    for _ in 0..2 * KEYS {
        let Some((key, value)) = next_pair(&mut walk) else {
            break;
        };
        if value % KEYS != key {
            return None;
        }
        items = items.saturating_add(1);
        weight = weight.saturating_add(value % 3);
    }
    Some((items, weight))
}

/// What is wrong with a cache that nobody uses any more.
fn fault<R: Wait + Clock>(rt: &R, cache: &Weighed) -> Option<&'static str> {
    if walked(rt, cache) != Some((cache.len(rt), cache.weight(rt))) {
        return Some("a walk shows what is not there");
    }
    if cache.weight(rt) > cache.capacity(rt) {
        return Some("it weighs too much");
    }
    for key in 0..KEYS {
        let limit = Some(Duration::from_millis(0));
        if let GuardResult::Timeout = cache.get_value_or_guard(rt, &key, limit) {
            return Some("a key is being loaded for good");
        }
    }
    None
}

#[test]
fn calls_of_four_threads_leave_a_sound_cache(rt: HostRuntime) {
    let cache: Weighed = expect_ok!(rt; Cache::with_weighter(rt.alloc(), 100, 120, ByValue));
    let board = expect_ok!(rt; Board::new(rt.alloc()));
    let (rt, cache, board) = (&rt, &cache, &board);
    let calls = &|thread: usize| make_calls(rt, cache, board, thread as u64);
    let all = expect_ok!(rt; map_indices(rt, rt.alloc(), 4, calls));
    let (mut turns, mut waited, mut wrong) = (0u64, 0u64, None);
    for seen in &all {
        turns = turns.saturating_add(seen.turns);
        waited = waited.saturating_add(seen.waited);
        wrong = wrong.or(seen.wrong);
    }
    expect_ok!(rt; println!(rt; "{turns} turns, and {waited} values to those who waited"));
    expect_eq!(rt; (wrong, fault(rt, cache), waited > 0), (None, None, true));
}
