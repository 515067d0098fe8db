//! Walks over the lists: over a ring in its order, and over all items in none.
ghost use Rattle.std.specs.Prelude.{◌≡◌};
ghost use Rattle.std.specs.List.Sorted.{IsPermutation};
ghost use Rattle.quick_cache_model.specs.CacheState.{ring_place};
ghost use Rattle.quick_cache_store.specs.Lists.{items_at};
ghost use Rattle.quick_cache_store.specs.Views.{items_of, hashes_of, residents};

use crate::lists::lists::Lists;
use crate::lists::walk::{GhostIter, ItemIter, RingIter, Walk};
use quick_cache_model::Queue;
use std::alloc::Allocator;

impl<K, V, P, T, A: Allocator> Lists<K, V, P, T, A> {
    /// The items of a ring, the next to be visited first.
    pub fn iter_ring(&self, queue: Queue) -> RingIter<'_, K, V, P, T, A>
        ensures { result ≡ items_of (items_at (ring_place queue) self.now) }
    {
        let tokens = self.rings.queue(queue);
        RingIter {
            walk: Walk {
                slots: &self.slots,
                queue: tokens,
                passed: 0,
                left: tokens.len(),
            },
        }
    }

    /// The hashes of the ghosts, the oldest first.
    pub fn iter_ghosts(&self) -> GhostIter<'_, K, V, P, T, A>
        ensures { result ≡ hashes_of self.now.ghosts }
    {
        let tokens = self.rings.ghosts();
        GhostIter {
            walk: Walk {
                slots: &self.slots,
                queue: tokens,
                passed: 0,
                left: tokens.len(),
            },
        }
    }

    /// All items, those of weight 0 too, by ascending token.
    pub fn iter_items(&self) -> ItemIter<'_, K, V, P, T>
        ensures { IsPermutation (residents self.now) result }
    {
        ItemIter {
            slots: self.slots.iter(),
            left: self.item_count(),
        }
    }
}
