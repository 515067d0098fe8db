//! Hits of a loader with its cache, and of a cache whose entries end, beside hits by `get`, and the
//! loads of four threads.
use crate::caches::{Numbers, drawn, filled, key_below, out_of_memory};
use crate::storm::storm;
use quick_cache_expiring_sync::SharedExpiring;
use read_through::ReadThrough;
use std::alloc::Global;
use std::io;
use std::sync::Wait;
use std::thread::Threads;
use std::time::{Clock, Instant};

/// How many gets of a cache found an item.
fn gets<R: Wait>(rt: &R, cache: &Numbers, operations: u32, items: u32) -> u64 {
    let mut state = 1u64;
    let mut found = 0u64;
    for _ in 0..operations {
        state = drawn(state);
        let is_found = matches!(cache.get(rt, &key_below(items, state)), Ok(Some(_)));
        found = found.wrapping_add(u64::from(is_found));
    }
    found
}

/// The same of a loader with its cache, at one moment.
fn asks<R: Wait + Clock, F: Fn(&u64, u64) -> u64>(
    rt: &R,
    loaded: &ReadThrough<u64, u64, F>,
    operations: u32,
    items: u32,
) -> u64
    requires { F.IsAlwaysCallable loaded.now.loader }
{
    let mut state = 1u64;
    let mut found = 0u64;
    for _ in 0..operations {
        state = drawn(state);
        let is_found = loaded.get(rt, &key_below(items, state), 1).is_ok();
        found = found.wrapping_add(u64::from(is_found));
    }
    found
}

/// The same of a cache whose entries end.
fn looks<R: Wait>(rt: &R, entries: &SharedExpiring<u64, u64>, operations: u32, items: u32) -> u64 {
    let mut state = 1u64;
    let mut found = 0u64;
    for _ in 0..operations {
        state = drawn(state);
        let is_found = matches!(entries.get(rt, &key_below(items, state), 1), Ok(Some(_)));
        found = found.wrapping_add(u64::from(is_found));
    }
    found
}

/// The numbers are those of operations, of items and of rounds. It prints a line a round: the
/// nanoseconds of all gets of the cache, of the loader with its cache, and of the cache whose entries
/// end. A small round lets four threads ask for a thousand keys, drawn by Zipf, by a clock that rises
/// with each get, and prints how many answers were wrong, and how many loads came within the life of
/// the one before of their key.
pub fn time<R: Print + Clock + Wait + Threads + Sync>(
    rt: &R,
    alloc: Global,
    numbers: &[u32],
) -> io::Result<()> {
    let [operations, items, rounds] = numbers else {
        let seen = storm(rt, alloc).map_err(out_of_memory)?;
        return println!(rt;
            "{} answers were wrong, {} loads came early",
            seen.wrong, seen.early
        );
    };
    for _ in 0..*rounds {
        let cache = filled(rt, alloc, *items).map_err(out_of_memory)?;
        let loaded: ReadThrough<u64, u64, _> = ReadThrough::new(
            alloc,
            (*items as usize).saturating_mul(2),
            10,
            |key: &u64, _now: u64| *key,
        )
        .map_err(out_of_memory)?;
        for key in 0..u64::from(*items) {
            loaded.get(rt, &key, 1).map_err(out_of_memory)?;
        }
        let entries: SharedExpiring<u64, u64> = SharedExpiring::new(
            alloc,
            (*items as usize).saturating_mul(2),
        ).map_err(out_of_memory)?;
        for key in 0..u64::from(*items) {
            entries.put(rt, key, key, 1, 10).map_err(out_of_memory)?;
        }
        let start = Instant::now(rt)?;
        let found = gets(rt, &cache, *operations, *items);
        let by_cache = start.elapsed(rt)?;
        let start = Instant::now(rt)?;
        let answered = asks(rt, &loaded, *operations, *items);
        let by_loader = start.elapsed(rt)?;
        let start = Instant::now(rt)?;
        let living = looks(rt, &entries, *operations, *items);
        let by_entries = start.elapsed(rt)?;
        println!(rt;
            "{} {} {} ({found} {answered} {living})",
            by_cache.as_nanos(),
            by_loader.as_nanos(),
            by_entries.as_nanos()
        )?;
    }
    Ok(())
}
