//! Gets and inserts by so many threads over 16 shards.
use crate::caches::{drawn, empty, fill, key_below, out_of_memory};
use std::alloc::Global;
use std::io;
use std::sync::Wait;
use std::thread::{Threads, map_indices};
use std::time::{Clock, Instant};

/// How much is done, and by how many threads.
#[derive(Drop)]
struct Trace {
    threads: u32,
    operations: u32,
    items: u32,
    rounds: u32,
    is_timed: bool,
}

impl Trace {
    /// What four numbers say, or one small round where there are not four.
    fn of(numbers: &[u32]) -> Self {
        match numbers {
            [threads, operations, items, rounds] => Trace {
                threads: *threads,
                operations: *operations,
                items: *items,
                rounds: *rounds,
                is_timed: true,
            },
            _ => Trace {
                threads: 4,
                operations: 4000,
                items: 1000,
                rounds: 1,
                is_timed: false,
            },
        }
    }

    /// What each thread does of the operations.
    fn part(&self) -> u32 {
        self.operations / self.threads.max(1)
    }
}

/// The numbers are those of threads, of operations in all, of items and of rounds. It prints a line
/// a round: the nanoseconds of all gets, of all inserts, and of both mixed. A small round prints in
/// place of the times how many gets found an item.
///
/// All gets are of items that are there, and all inserts are of fresh keys into a cache that is
/// full. Mixed, each get is of any of half as many keys again as there are items, and an insert
/// follows where it finds none. Each thread does its part of them.
pub fn time<R: Print + Clock + Wait + Threads + Sync>(
    rt: &R,
    alloc: Global,
    numbers: &[u32],
) -> io::Result<()> {
    let trace = Trace::of(numbers);
    let (threads, part, items) = (trace.threads as usize, trace.part(), trace.items);
    for _ in 0..trace.rounds {
        let known = empty(alloc, items.saturating_mul(2)).map_err(out_of_memory)?;
        let full = empty(alloc, items).map_err(out_of_memory)?;
        fill(rt, &known, u64::from(items)).map_err(out_of_memory)?;
        fill(rt, &full, u64::from(items).saturating_mul(2)).map_err(out_of_memory)?;
        let start = Instant::now(rt)?;
        let found = map_indices(
            rt,
            alloc,
            threads,
            &|index| {
                let mut state = index as u64;
                let mut found = 0u64;
                for _ in 0..part {
                    state = drawn(state);
                    if let Ok(Some(_)) = known.get(rt, &key_below(items, state)) {
                        found = found.wrapping_add(1);
                    }
                }
                found
            },
        )?;
        let gets = start.elapsed(rt)?;
        let start = Instant::now(rt)?;
        let stored = map_indices(
            rt,
            alloc,
            threads,
            &|index| {
                let mut key = (index as u64).wrapping_add(1).wrapping_mul(1 << 33);
                let mut stored = 0u64;
                for _ in 0..part {
                    if full.insert(rt, key, key).is_ok() {
                        stored = stored.wrapping_add(1);
                    }
                    key = key.wrapping_add(1);
                }
                stored
            },
        )?;
        let inserts = start.elapsed(rt)?;
        let keys = items.saturating_add(items / 2);
        let start = Instant::now(rt)?;
        let made = map_indices(
            rt,
            alloc,
            threads,
            &|index| {
                let mut state = index as u64;
                let mut made = 0u64;
                for _ in 0..part {
                    state = drawn(state);
                    let key = key_below(keys, state);
                    let found = full.get(rt, &key).unwrap_or(None).is_some();
                    if found || full.insert(rt, key, key).is_ok() {
                        made = made.wrapping_add(1);
                    }
                }
                made
            },
        )?;
        let both = start.elapsed(rt)?;
        if trace.is_timed {
            println!(rt;
                "{} {} {}",
                gets.as_nanos(),
                inserts.as_nanos(),
                both.as_nanos()
            )?;
        } else {
            println!(rt; "{found:?} found, {stored:?} stored, {made:?} found or stored")?;
        }
    }
    Ok(())
}
