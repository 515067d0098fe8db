//! W-TinyLFU: G. Einziger, R. Friedman and B. Manes, "TinyLFU: a highly efficient cache admission
//! policy", 2017, as the caches Caffeine and moka have it. A new key comes to a window of a hundredth.
//! The key that the window drops is put into the main part where there is room, or where it was asked
//! for more often of late than the key that the main part would drop. The main part is segmented: a
//! key that is used there is protected, in up to four fifths of it. Not taken over: that the window
//! grows and shrinks by the hits, and that now and then a key is let in by chance.

use crate::policies::queue::{Entry, Queue};
use crate::policies::simulated::{Simulated, hits_of};
use crate::policies::sketch::Sketch;
use crate::trace::Trace;
use std::alloc::{AllocError, Global};

#[derive(Drop)]
struct TinyLfu {
    sketch: Sketch,
    window: Queue,
    probation: Queue,
    protected: Queue,
    capacity: u64,
    window_capacity: u64,
    protected_capacity: u64,
}

impl TinyLfu {
    /// Moves a key from probation to the protected segment, and what that is too full for back.
    fn protect(&mut self, key: u64, entry: Entry) -> Result<(), AllocError> {
        self.protected.put(key, entry)?;
        for _ in 0..self.protected.len() {
            if !self.protected.exceeds(0, self.protected_capacity) {
                break;
            }
            if let Some((last, entry)) = self.protected.take_last() {
                self.probation.put(last, entry)?;
            }
        }
        Ok(())
    }

    /// The key that the main part drops next.
    fn victim(&self) -> Option<u64> {
        match self.probation.last() {
            Some(key) => Some(key),
            None => self.protected.last(),
        }
    }

    /// Whether one more key of this weight is too much for the main part.
    fn is_main_full(&self, weight: u32) -> bool {
        let limit = self.capacity.saturating_sub(self.window_capacity);
        let limit = limit.saturating_sub(self.protected.weight());
        self.probation.exceeds(weight, limit)
    }

    /// Puts a key that the window dropped into the main part, unless one that it would have to take
    /// the place of was asked for as often.
    fn admit(&mut self, key: u64, entry: Entry) -> Result<(), AllocError> {
        let estimate = self.sketch.estimate(key);
        for _ in 0..self.probation.len().saturating_add(self.protected.len()) {
            if !self.is_main_full(entry.weight) {
                break;
            }
            let Some(victim) = self.victim() else {
                break;
            };
            if estimate <= self.sketch.estimate(victim) {
                return Ok(());
            }
            if self.probation.take(victim).is_none() {
                let _ = self.protected.take(victim);
            }
        }
        if self.is_main_full(entry.weight) {
            return Ok(());
        }
        self.probation.put(key, entry)
    }

    fn bring_new(&mut self, key: u64, weight: u32) -> Result<(), AllocError> {
        self.window.put(key, Entry::new(weight))?;
        for _ in 0..self.window.len() {
            if !self.window.exceeds(0, self.window_capacity) {
                break;
            }
            if let Some((last, entry)) = self.window.take_last() {
                self.admit(last, entry)?;
            }
        }
        Ok(())
    }
}

impl Simulated for TinyLfu {
    fn ask(&mut self, key: u64, weight: u32) -> Result<bool, AllocError> {
        self.sketch.count(key);
        if self.window.promote(key) || self.protected.promote(key) {
            return Ok(true);
        }
        if let Some(entry) = self.probation.take(key) {
            self.protect(key, entry)?;
            return Ok(true);
        }
        if u64::from(weight) <= self.capacity {
            self.bring_new(key, weight)?;
        }
        Ok(false)
    }
}

/// How many keys of a trace W-TinyLFU has at this capacity.
///
/// # Errors
///
/// Where there was no memory.
pub fn tiny_lfu_hits(alloc: Global, trace: &Trace, capacity: u64) -> Result<u64, AllocError> {
    let window_capacity = (capacity / 100).max(1);
    let main = capacity.saturating_sub(window_capacity);
    let mut cache = TinyLfu {
        sketch: Sketch::new(alloc, trace.keys_within(capacity))?,
        window: Queue::new(alloc)?,
        probation: Queue::new(alloc)?,
        protected: Queue::new(alloc)?,
        capacity,
        window_capacity,
        protected_capacity: main.saturating_sub(main / 5),
    };
    hits_of(&mut cache, trace)
}
