//! S3-FIFO: J. Yang, Y. Zhang, Z. Qiu, Y. Yue and R. Vinayak, "FIFO queues are all you need for cache
//! eviction", 2023. A small queue of a tenth takes new keys. Those that were used twice there go on to
//! the main queue, and of the others the ghost queue keeps the names: one of these that comes back
//! goes straight to the main queue.

use crate::policies::queue::{Entry, Queue};
use crate::policies::simulated::{Simulated, hits_of};
use crate::trace::Trace;
use std::alloc::{AllocError, Global};

/// Up to how many uses of a key are counted.
const MOST_USES: u8 = 3;

/// How many uses take a key from the small queue to the main one.
const PROMOTING_USES: u8 = 2;

#[derive(Drop)]
struct S3Fifo {
    small: Queue,
    main: Queue,
    ghosts: Queue,
    capacity: u64,
    small_capacity: u64,
}

impl S3Fifo {
    fn main_capacity(&self) -> u64 {
        self.capacity.saturating_sub(self.small_capacity)
    }

    /// Keeps the name of a key that was dropped.
    fn remember(&mut self, key: u64, weight: u32) -> Result<(), AllocError> {
        let limit = self.main_capacity();
        self.ghosts.make_room(weight, limit);
        if self.ghosts.exceeds(weight, limit) {
            return Ok(());
        }
        self.ghosts.put(key, Entry::new(weight))
    }

    /// Drops the first key from the end of the main queue that was not used. Those before it go to
    /// the front, with one use less.
    fn evict_from_main(&mut self) -> Result<(), AllocError> {
        let turns = self.main.len().saturating_mul(usize::from(MOST_USES) + 1);
        for _ in 0..turns {
            let Some((key, mut entry)) = self.main.take_last() else {
                break;
            };
            if entry.uses == 0 {
                break;
            }
            entry.uses = entry.uses.saturating_sub(1);
            self.main.put(key, entry)?;
        }
        Ok(())
    }

    /// Drops the first key from the end of the small queue that was not used twice, and remembers
    /// it. Those before it go to the main queue.
    fn evict_from_small(&mut self) -> Result<(), AllocError> {
        for _ in 0..self.small.len() {
            let Some((key, entry)) = self.small.take_last() else {
                break;
            };
            if entry.uses < PROMOTING_USES {
                return self.remember(key, entry.weight);
            }
            self.main.put(key, Entry::new(entry.weight))?;
            if self.main.exceeds(0, self.main_capacity()) {
                self.evict_from_main()?;
            }
        }
        Ok(())
    }

    fn evict(&mut self) -> Result<(), AllocError> {
        if self.main.len() == 0 || self.small.weight() >= self.small_capacity {
            self.evict_from_small()
        } else {
            self.evict_from_main()
        }
    }

    /// Drops keys until one of this weight fits.
    fn make_room(&mut self, weight: u32) -> Result<(), AllocError> {
        let limit = self.capacity.saturating_sub(u64::from(weight));
        let keys = self.small.len().saturating_add(self.main.len());
        for _ in 0..keys.saturating_mul(2) {
            if self.small.weight().saturating_add(self.main.weight()) <= limit {
                break;
            }
            self.evict()?;
        }
        Ok(())
    }
}

impl Simulated for S3Fifo {
    fn ask(&mut self, key: u64, weight: u32) -> Result<bool, AllocError> {
        if self.small.count_use(key, MOST_USES) || self.main.count_use(key, MOST_USES) {
            return Ok(true);
        }
        if u64::from(weight) > self.capacity {
            return Ok(false);
        }
        self.make_room(weight)?;
        if self.ghosts.take(key).is_some() {
            self.main.put(key, Entry::new(weight))?;
        } else {
            self.small.put(key, Entry::new(weight))?;
        }
        Ok(false)
    }
}

/// How many keys of a trace S3-FIFO has at this capacity.
///
/// # Errors
///
/// Where there was no memory.
pub fn s3_fifo_hits(alloc: Global, trace: &Trace, capacity: u64) -> Result<u64, AllocError> {
    let mut cache = S3Fifo {
        small: Queue::new(alloc)?,
        main: Queue::new(alloc)?,
        ghosts: Queue::new(alloc)?,
        capacity,
        small_capacity: (capacity / 10).max(1),
    };
    hits_of(&mut cache, trace)
}
