//! The most hits that a cache can have which knows all that comes. L. A. Belady, "A study of
//! replacement algorithms for a virtual-storage computer", 1966: the key whose next use is farthest
//! goes, and here it may be the new one. The count is the same as by M. C. Carlisle and E. L. Lloyd,
//! "On the k-coloring of intervals", 1995, which needs no look ahead: a key is there again if a place
//! was free from its last use on, and of the places that were it takes the one that was free last. By
//! weights no such count is known, and there is a bound: D. S. Berger, N. Beckmann and M.
//! Harchol-Balter, "Practical bounds on optimal caching with variable object sizes", 2018, of which it
//! is PFOO-L.

use crate::trace::Trace;
use std::alloc::{AllocError, Global};
use std::collections::{BTreeSet, HashMap};

/// The places of a cache: since when each is free.
#[derive(Drop)]
struct Places {
    /// Each time from which on a place is free.
    free: BTreeSet<usize>,
    /// How many places were never taken.
    untaken: u64,
}

impl Places {
    /// Takes a place that is free from a time on, up to another one. It tells whether there is one.
    fn take(&mut self, from: usize, to: usize) -> Result<bool, AllocError> {
        let latest = self.free.range(..=from).next_back().copied();
        match latest {
            Some(time) => {
                let _ = self.free.remove(&time);
            }
            None if self.untaken == 0 => return Ok(false),
            None => self.untaken = self.untaken.saturating_sub(1),
        }
        match self.free.insert(to) {
            Ok(_) => Ok(true),
            Err(_) => Err(AllocError),
        }
    }
}

/// The most hits at this capacity, where each key weighs one.
fn exact_hits(alloc: Global, keys: &[u64], capacity: u64) -> Result<u64, AllocError> {
    let mut places = Places {
        free: BTreeSet::new(alloc),
        untaken: capacity,
    };
    let mut last_uses = HashMap::new(alloc);
    let mut hits = 0u64;
    for (time, key) in keys.iter().enumerate() {
        let Ok(last) = last_uses.insert(*key, time) else {
            return Err(AllocError);
        };
        if let Some(last) = last {
            if places.take(last, time)? {
                hits = hits.saturating_add(1);
            }
        }
    }
    Ok(hits)
}

/// When a key was last asked for, and the least that it weighed so far.
#[derive(Clone, Copy)]
struct Use {
    time: usize,
    weight: u32,
}

/// What it takes to keep each key from one use to its next: its weight, as many times as keys come
/// meanwhile.
fn costs(alloc: Global, trace: &Trace, capacity: u64) -> Result<Vec<u64>, AllocError> {
    let mut last_uses = HashMap::new(alloc);
    let mut costs = Vec::new(alloc);
    for (time, key) in trace.keys().iter().enumerate() {
        let mut weight = trace.weight(time);
        if let Some(
            Use {
                time: last,
                weight: before,
            },
        ) = last_uses.get(key).copied()
        {
            weight = weight.min(before);
            if u64::from(weight) <= capacity {
                let length = time.saturating_sub(last) as u64;
                costs.push(length.saturating_mul(u64::from(weight)))?;
            }
        }
        if last_uses.insert(*key, Use { time, weight }).is_err() {
            return Err(AllocError);
        }
    }
    Ok(costs)
}

/// A bound of the hits at this capacity: as many of the least costs as there is room for in all.
fn bounded_hits(alloc: Global, trace: &Trace, capacity: u64) -> Result<u64, AllocError> {
    let mut costs = costs(alloc, trace, capacity)?;
    costs.sort_unstable();
    let mut left = capacity.saturating_mul(trace.keys().len() as u64);
    let mut hits = 0u64;
    for cost in costs.iter() {
        let Some(rest) = left.checked_sub(*cost) else {
            break;
        };
        left = rest;
        hits = hits.saturating_add(1);
    }
    Ok(hits)
}

/// The most hits that a cache can have at this capacity, or where keys have weights, a bound of them.
///
/// # Errors
///
/// Where there was no memory.
pub fn best_hits(alloc: Global, trace: &Trace, capacity: u64) -> Result<u64, AllocError> {
    if trace.is_weighted() {
        bounded_hits(alloc, trace, capacity)
    } else {
        exact_hits(alloc, trace.keys(), capacity)
    }
}
