//! Keys in an order, each with its weight: what the policies are made of.

use lru::LruCache;
use std::alloc::{AllocError, Global};

/// What a policy keeps of a key.
#[derive(Clone, Copy)]
pub struct Entry {
    /// What the key weighed when it was put in.
    pub weight: u32,
    /// How often it was used since, as far as its policy counts.
    pub uses: u8,
}

impl Entry {
    /// The entry of a key that was not used since it was put in.
    pub fn new(weight: u32) -> Entry {
        Entry { weight, uses: 0 }
    }
}

/// Keys from the front to the end, and their weight in all.
#[derive(Drop)]
pub struct Queue {
    entries: LruCache<u64, Entry>,
    weight: u64,
}

impl Queue {
    /// A queue of no keys.
    pub fn new(alloc: Global) -> Result<Queue, AllocError> {
        Ok(Queue {
            entries: LruCache::unbounded(alloc)?,
            weight: 0,
        })
    }

    /// What all keys weigh.
    pub fn weight(&self) -> u64 {
        self.weight
    }

    /// How many keys there are.
    pub fn len(&self) -> usize {
        self.entries.len()
    }

    /// Whether the key is there.
    pub fn contains(&self, key: u64) -> bool {
        self.entries.contains(&key)
    }

    /// Whether so much weight beside that of the keys is more than a limit.
    pub fn exceeds(&self, more: u32, limit: u64) -> bool {
        self.weight.saturating_add(u64::from(more)) > limit
    }

    /// Puts a key that is not there in front.
    pub fn put(&mut self, key: u64, entry: Entry) -> Result<(), AllocError> {
        if self.entries.put(key, entry).is_err() {
            return Err(AllocError);
        }
        self.weight = self.weight.saturating_add(u64::from(entry.weight));
        Ok(())
    }

    /// Moves a key to the front, and tells whether it is there.
    pub fn promote(&mut self, key: u64) -> bool {
        self.entries.promote(&key)
    }

    /// Counts a use of a key, up to so many, and tells whether the key is there.
    pub fn count_use(&mut self, key: u64, most: u8) -> bool {
        let Some(entry) = self.entries.peek_mut(&key) else {
            return false;
        };
        entry.uses = entry.uses.saturating_add(1).min(most);
        true
    }

    /// The key at the end.
    pub fn last(&self) -> Option<u64> {
        match self.entries.peek_lru() {
            Some((key, _)) => Some(*key),
            None => None,
        }
    }

    /// Takes a key out, where it is there.
    pub fn take(&mut self, key: u64) -> Option<Entry> {
        let entry = self.entries.pop(&key)?;
        self.weight = self.weight.saturating_sub(u64::from(entry.weight));
        Some(entry)
    }

    /// Takes the key at the end out.
    pub fn take_last(&mut self) -> Option<(u64, Entry)> {
        let (key, entry) = self.entries.pop_lru()?;
        self.weight = self.weight.saturating_sub(u64::from(entry.weight));
        Some((key, entry))
    }

    /// Takes keys from the end out, until so much more weight is within a limit.
    pub fn make_room(&mut self, more: u32, limit: u64) {
        for _ in 0..self.len() {
            if !self.exceeds(more, limit) {
                break;
            }
            let _ = self.take_last();
        }
    }
}
