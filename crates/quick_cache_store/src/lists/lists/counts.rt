//! What the lists tell of themselves, each in constant time.
ghost use Rattle.std.specs.Prelude.{◌≡◌, ◌<◌, ◌^◌, sum_by, length};
ghost use Rattle.quick_cache_model.specs.CacheState.{ring_place};
ghost use Rattle.quick_cache_store.specs.Lists.{items_at, item_count};

use crate::lists::lists::Lists;
use quick_cache_model::{MemoryUsed, Queue};
use std::alloc::Allocator;

impl<K, V, P, T, A: Allocator> Lists<K, V, P, T, A> {
    /// How many items stand in a ring.
    pub fn count(&self, queue: Queue) -> usize
        ensures { result ≡ length (items_at (ring_place queue) self.now) }
    {
        self.rings.queue(queue).len()
    }

    /// What the items of a ring weigh.
    pub fn weight(&self, queue: Queue) -> u128
        ensures weight { result ≡ sum_by (λ held. held.item.weight)
            (items_at (ring_place queue) self.now) }
        ensures within { result < 2 ^ 96 }
    {
        self.rings.weight(queue)
    }

    /// How many items there are, those of weight 0 with them.
    pub fn item_count(&self) -> usize
        ensures { result ≡ item_count self.now }
    {
        self.index.len() - self.rings.ghosts().len() - self.loading
    }

    /// How many ghosts there are.
    pub fn ghost_count(&self) -> usize
        ensures { result ≡ length self.now.ghosts }
    {
        self.rings.ghosts().len()
    }

    /// The allocator that the slots are from.
    pub fn allocator(&self) -> &A {
        self.slots.allocator()
    }

    /// How many bytes the slots with the rings take, and how many the index.
    pub fn memory_used(&self) -> MemoryUsed {
        let slots = self.slots.memory_used();
        MemoryUsed {
            entries: slots.saturating_add(self.rings.memory_used()),
            map: self.index.allocation_size(),
        }
    }
}
