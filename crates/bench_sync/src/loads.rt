//! Look-ups of keys that are there by one thread, by `get` and by the calls that load.
use crate::caches::{Numbers, drawn, filled, key_below, out_of_memory};
use quick_cache::Refusal;
use quick_cache::sync_placeholder::GuardResult;
use std::alloc::Global;
use std::io;
use std::sync::Wait;
use std::time::{Clock, Instant};

fn get<R: Wait>(rt: &R, cache: &Numbers, key: u64) -> bool {
    matches!(cache.get(rt, &key), Ok(Some(_)))
}

fn value_or_guard<R: Wait + Clock>(rt: &R, cache: &Numbers, key: u64) -> bool {
    matches!(
        cache.get_value_or_guard(rt, &key, None),
        GuardResult::Value(_)
    )
}

fn or_insert<R: Wait>(rt: &R, cache: &Numbers, key: u64) -> bool {
    let loaded: Result<Result<u64, ()>, Refusal> = cache.get_or_insert_with(rt, &key, || Err(()));
    matches!(loaded, Ok(Ok(_)))
}

/// The numbers are those of operations, of items and of rounds. It prints a line a round: the
/// nanoseconds of all gets, of all calls for the value or a guard, and of all calls with a loader,
/// which is never called. A small round prints in place of the times how many calls of each kind
/// found an item.
pub fn time<R: Print + Clock + Wait>(rt: &R, alloc: Global, numbers: &[u32]) -> io::Result<()> {
    let (operations, items, rounds, is_timed) = match numbers {
        [operations, items, rounds] => (*operations, *items, *rounds, true),
        _ => (1000, 100, 1, false),
    };
    for _ in 0..rounds {
        let cache = filled(rt, alloc, items).map_err(out_of_memory)?;
        let mut found = [0u64; 3];
        let mut times = [0u128; 3];
        for kind in 0..3usize {
            let mut state = 1u64;
            let start = Instant::now(rt)?;
            for _ in 0..operations {
                state = drawn(state);
                let key = key_below(items, state);
                let is_found = match kind {
                    0 => get(rt, &cache, key),
                    1 => value_or_guard(rt, &cache, key),
                    _ => or_insert(rt, &cache, key),
                };
                found[kind] = found[kind].wrapping_add(u64::from(is_found));
            }
            times[kind] = start.elapsed(rt)?.as_nanos();
        }
        if is_timed {
            println!(rt; "{} {} {}", times[0], times[1], times[2])?;
        } else {
            println!(rt; "{found:?} found")?;
        }
    }
    Ok(())
}
