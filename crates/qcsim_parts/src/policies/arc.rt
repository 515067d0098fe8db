//! ARC: N. Megiddo and D. S. Modha, "ARC: a self-tuning, low overhead replacement cache", 2003. Keys
//! that were asked for once stand in one list, and those asked for again in another. Each list has the
//! names of the keys that it dropped, and one of these that comes back shifts room to its list. The
//! paper counts pages; with weights each list is measured by its weight.

use crate::policies::queue::{Entry, Queue};
use crate::policies::simulated::{Simulated, hits_of};
use crate::trace::Trace;
use std::alloc::{AllocError, Global};

#[derive(Drop)]
struct Arc {
    once: Queue,
    again: Queue,
    once_dropped: Queue,
    again_dropped: Queue,
    /// The weight that `once` is to have.
    target: u64,
    capacity: u64,
}

/// How far a key that comes back shifts the target: by the share of the other list's names in this
/// one's, and by its weight at least.
fn shift(other: u64, this: u64, weight: u32) -> u64 {
    let share = other.checked_div(this).unwrap_or(0).max(1);
    share.saturating_mul(u64::from(weight))
}

impl Arc {
    /// Drops a key and keeps its name: from `once` where that is above its target, or where it is
    /// at its target and the key that comes was dropped from `again`.
    fn replace(&mut self, was_again: bool) -> Result<(), AllocError> {
        let weight = self.once.weight();
        let from_once = weight > self.target || was_again && weight == self.target;
        if self.once.len() > 0 && (from_once || self.again.len() == 0) {
            if let Some((key, entry)) = self.once.take_last() {
                self.once_dropped.put(key, entry)?;
            }
        } else if let Some((key, entry)) = self.again.take_last() {
            self.again_dropped.put(key, entry)?;
        }
        Ok(())
    }

    /// Drops keys until one of this weight fits.
    fn make_room(&mut self, weight: u32, was_again: bool) -> Result<(), AllocError> {
        let limit = self.capacity.saturating_sub(u64::from(weight));
        for _ in 0..self.once.len().saturating_add(self.again.len()) {
            if self.once.weight().saturating_add(self.again.weight()) <= limit {
                break;
            }
            self.replace(was_again)?;
        }
        Ok(())
    }

    /// Puts a key in that came back.
    fn bring_back(&mut self, key: u64, weight: u32, was_again: bool) -> Result<(), AllocError> {
        self.make_room(weight, was_again)?;
        self.again.put(key, Entry::new(weight))
    }

    /// Forgets names, so that there is room for that of a new key: the lists of one kind have the
    /// capacity at most, and all lists twice the capacity.
    fn forget(&mut self, weight: u32) {
        let limit = self.capacity.saturating_sub(self.once.weight());
        self.once_dropped.make_room(weight, limit);
        self.once.make_room(weight, self.capacity);
        let others = self.once.weight().saturating_add(self.again.weight());
        let others = others.saturating_add(self.once_dropped.weight());
        let limit = self.capacity.saturating_mul(2).saturating_sub(others);
        self.again_dropped.make_room(weight, limit);
    }

    /// Puts a key in that is in none of the lists.
    fn bring_new(&mut self, key: u64, weight: u32) -> Result<(), AllocError> {
        self.forget(weight);
        self.make_room(weight, false)?;
        self.once.put(key, Entry::new(weight))
    }
}

impl Simulated for Arc {
    fn ask(&mut self, key: u64, weight: u32) -> Result<bool, AllocError> {
        if self.again.promote(key) {
            return Ok(true);
        }
        if let Some(entry) = self.once.take(key) {
            self.again.put(key, entry)?;
            return Ok(true);
        }
        if u64::from(weight) > self.capacity {
            return Ok(false);
        }
        let (once, again) = (self.once_dropped.weight(), self.again_dropped.weight());
        if self.once_dropped.take(key).is_some() {
            let more = self.target.saturating_add(shift(again, once, weight));
            self.target = more.min(self.capacity);
            self.bring_back(key, weight, false)?;
        } else if self.again_dropped.take(key).is_some() {
            self.target = self.target.saturating_sub(shift(once, again, weight));
            self.bring_back(key, weight, true)?;
        } else {
            self.bring_new(key, weight)?;
        }
        Ok(false)
    }
}

/// How many keys of a trace ARC has at this capacity.
///
/// # Errors
///
/// Where there was no memory.
pub fn arc_hits(alloc: Global, trace: &Trace, capacity: u64) -> Result<u64, AllocError> {
    let mut cache = Arc {
        once: Queue::new(alloc)?,
        again: Queue::new(alloc)?,
        once_dropped: Queue::new(alloc)?,
        again_dropped: Queue::new(alloc)?,
        target: 0,
        capacity,
    };
    hits_of(&mut cache, trace)
}
