//! CLOCK: F. J. Corbató, "A paging experiment with the Multics system", 1968. Keys stand in a ring,
//! each with a bit that a use sets. The hand drops the first key whose bit is not set, and clears the
//! bits that it passes. The ring is a queue here: a key that the hand passes goes to the front.

use crate::policies::queue::{Entry, Queue};
use crate::policies::simulated::{Simulated, hits_of};
use crate::trace::Trace;
use std::alloc::{AllocError, Global};

#[derive(Drop)]
struct Clock {
    ring: Queue,
    capacity: u64,
}

impl Clock {
    /// Passes the key at the hand, or drops it.
    fn turn(&mut self) -> Result<(), AllocError> {
        let Some((key, entry)) = self.ring.take_last() else {
            return Ok(());
        };
        if entry.uses == 0 {
            return Ok(());
        }
        self.ring.put(key, Entry::new(entry.weight))
    }
}

impl Simulated for Clock {
    fn ask(&mut self, key: u64, weight: u32) -> Result<bool, AllocError> {
        if self.ring.count_use(key, 1) {
            return Ok(true);
        }
        if u64::from(weight) > self.capacity {
            return Ok(false);
        }
        // Each key is passed once at most, and then dropped.
        for _ in 0..self.ring.len().saturating_mul(2) {
            if !self.ring.exceeds(weight, self.capacity) {
                break;
            }
            self.turn()?;
        }
        self.ring.put(key, Entry::new(weight))?;
        Ok(false)
    }
}

/// How many keys of a trace CLOCK has at this capacity. A new key's bit is not set.
///
/// # Errors
///
/// Where there was no memory.
pub fn clock_hits(alloc: Global, trace: &Trace, capacity: u64) -> Result<u64, AllocError> {
    let mut cache = Clock {
        ring: Queue::new(alloc)?,
        capacity,
    };
    hits_of(&mut cache, trace)
}
