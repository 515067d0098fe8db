//! LRU, which drops the key that was used longest ago: R. L. Mattson, J. Gecsei, D. R. Slutz and I. L.
//! Traiger, "Evaluation techniques for storage hierarchies", 1970. With weights, keys go until the new
//! one fits.
ghost use Rattle.std.specs.Prelude.{◌≡◌, [], IfOk};
ghost use Rattle.std.specs.NonZero.{non_zero_usize_get};
ghost use Rattle.qcsim_parts.specs.Policies.{by_use, hits_by};

use crate::policies::queue::{Entry, Queue};
use crate::policies::simulated::{Simulated, hits_of};
use crate::trace::Trace;
use lru::LruCache;
use std::alloc::{AllocError, Global};
use std::num::NonZeroUsize;

/// How many keys of a trace an LRU cache of so many keys has when they are asked for. A key that it
/// does not have is put in.
///
/// # Errors
///
/// Where there was no memory.
pub fn hits_by_use(alloc: Global, keys: &[u64], capacity: NonZeroUsize) -> Result<u64, AllocError>
    ensures hits { IfOk result (λ hits. hits ≡ hits_by (by_use (non_zero_usize_get capacity)) []
        keys.now) }
{
    let mut cache = LruCache::sparse(alloc, capacity)?;
    let mut hits = 0;
    let mut rest = keys;
    while let Some((key, tail)) = rest.split_first() {
        match cache.put(*key, ()) {
            Ok(Some(())) => hits += 1,
            Ok(None) => {}
            Err(_) => return Err(AllocError),
        }
        rest = tail;
    }
    Ok(hits)
}

#[derive(Drop)]
struct ByUse {
    queue: Queue,
    capacity: u64,
}

impl Simulated for ByUse {
    fn ask(&mut self, key: u64, weight: u32) -> Result<bool, AllocError> {
        if self.queue.promote(key) {
            return Ok(true);
        }
        if u64::from(weight) <= self.capacity {
            self.queue.make_room(weight, self.capacity);
            self.queue.put(key, Entry::new(weight))?;
        }
        Ok(false)
    }
}

/// How many keys of a trace an LRU cache has at this capacity.
///
/// # Errors
///
/// Where there was no memory.
pub fn lru_hits(alloc: Global, trace: &Trace, capacity: u64) -> Result<u64, AllocError> {
    match NonZeroUsize::new(capacity as usize) {
        Some(places) if !trace.is_weighted() => hits_by_use(alloc, trace.keys(), places),
        _ => {
            let queue = Queue::new(alloc)?;
            hits_of(&mut ByUse { queue, capacity }, trace)
        }
    }
}
