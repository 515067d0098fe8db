//! Takes the items out of a `LinkedSlab`, by ascending token.
ghost use Rattle.std.specs.Prelude.{◌≡◌, ◌+◌, ◌≤◌};

use crate::linked_slab::{LinkedSlab, past};
use std::alloc::{Allocator, Global};
use std::iter::FusedIterator;

/// Takes the items out of a slab, and leaves it empty once dropped, with its room.
pub struct Drain<'a, T, A: Allocator = Global> {
    pub(super) slab: &'a mut LinkedSlab<T, A>,
    // How many slots were visited.
    pub(super) passed: usize,
}

impl<'a, T: Drop, A: Allocator> Drop for Drain<'a, T, A> {
    ghost use Rattle.quick_cache_containers.specs.LinkedSlab.{emptied};
    ghost use Rattle.quick_cache_containers.specs.SlabDrain.{drain_room};

    fn drop(self)
        ensures { self.exit.0.now ≡ emptied (drain_room self.entry) }
    {
        let Drain { slab, passed: _ } = self;
        slab.empty();
    }
}

impl<'a, T: Drop, A: Allocator> Iterator for Drain<'a, T, A> {
    ghost use Rattle.std.specs.Iterator.{item_count};
    ghost use Rattle.quick_cache_containers.specs.SlabDrain.{drain_rest, DrainSteps, DrainCanStep};

    type Item = T;

    ghost can_next = { DrainCanStep };

    ghost next_gives = { DrainSteps };

    ghost remaining = { item_count drain_rest };

    fn next(&mut self) -> Option<T> {
        while self.passed < self.slab.slot_count() {
            let token = past(self.passed);
            self.passed += 1;
            if self.slab.contains(token) {
                let (item, _) = self.slab.remove(token)?;
                return Some(item);
            }
        }
        None
    }
}

impl<'a, T: Drop, A: Allocator> FusedIterator for Drain<'a, T, A> {}
