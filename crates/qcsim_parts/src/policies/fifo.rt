//! FIFO, which drops the key that came first: L. A. Belady, "A study of replacement algorithms for a
//! virtual-storage computer", 1966. With weights, keys go until the new one fits.
ghost use Rattle.std.specs.Prelude.{◌≡◌, [], IfOk};
ghost use Rattle.std.specs.NonZero.{non_zero_usize_get};
ghost use Rattle.qcsim_parts.specs.Policies.{by_age, hits_by};

use crate::policies::queue::{Entry, Queue};
use crate::policies::simulated::{Simulated, hits_of};
use crate::trace::Trace;
use lru::LruCache;
use std::alloc::{AllocError, Global};
use std::num::NonZeroUsize;

/// How many keys of a trace a FIFO cache of so many keys has when they are asked for. A key that it
/// does not have is put in.
///
/// # Errors
///
/// Where there was no memory.
pub fn hits_by_age(alloc: Global, keys: &[u64], capacity: NonZeroUsize) -> Result<u64, AllocError>
    ensures hits { IfOk result (λ hits. hits ≡ hits_by (by_age (non_zero_usize_get capacity)) []
        keys.now) }
{
    // A look at a key leaves its place, so that the last one is the one that came first.
    let mut cache = LruCache::sparse(alloc, capacity)?;
    let mut hits = 0;
    let mut rest = keys;
    while let Some((key, tail)) = rest.split_first() {
        if cache.contains(key) {
            hits += 1;
        } else if cache.put(*key, ()).is_err() {
            return Err(AllocError);
        }
        rest = tail;
    }
    Ok(hits)
}

#[derive(Drop)]
struct ByAge {
    queue: Queue,
    capacity: u64,
}

impl Simulated for ByAge {
    fn ask(&mut self, key: u64, weight: u32) -> Result<bool, AllocError> {
        if self.queue.contains(key) {
            return Ok(true);
        }
        if u64::from(weight) <= self.capacity {
            self.queue.make_room(weight, self.capacity);
            self.queue.put(key, Entry::new(weight))?;
        }
        Ok(false)
    }
}

/// How many keys of a trace a FIFO cache has at this capacity.
///
/// # Errors
///
/// Where there was no memory.
pub fn fifo_hits(alloc: Global, trace: &Trace, capacity: u64) -> Result<u64, AllocError> {
    match NonZeroUsize::new(capacity as usize) {
        Some(places) if !trace.is_weighted() => hits_by_age(alloc, trace.keys(), places),
        _ => {
            let queue = Queue::new(alloc)?;
            hits_of(&mut ByAge { queue, capacity }, trace)
        }
    }
}
