//! How a `LinkedSlab` makes room.
ghost use Rattle.std.specs.Prelude.{◌≡◌, ◌+◌, ◌-◌, ◌*◌, ◌≤◌, min, max, length, IsOk, IfErr, OnOk, OnErr, vec_len, vec_capacity};
ghost use Rattle.quick_cache_containers.specs.LinkedSlab.{spare, left, IsParted};

use crate::linked_slab::links::next_of;
use crate::linked_slab::{LinkedSlab, MAX_SLOTS};
use quick_cache_model::Refusal;
use std::alloc::{AllocError, Allocator};

/// Makes room for so many more where there is less, and then at least twice what there was.
pub fn make_room<N, A: Allocator>(
    nodes: &mut Vec<N, A>,
    additional: usize,
) -> Result<(), AllocError>
    ensures items { nodes.new.items ≡ nodes.old.items }
    ensures len { vec_len nodes.new ≡ vec_len nodes.old }
    ensures ok { OnOk result (vec_len nodes.old + additional ≤ vec_capacity nodes.new) }
    ensures capacity { vec_capacity nodes.old ≤ vec_capacity nodes.new }
    ensures at_most { vec_capacity nodes.new ≤ max (vec_capacity nodes.old)
        (2 * (vec_len nodes.old + additional) + 4) }
    ensures had_room { vec_len nodes.old + additional ≤ vec_capacity nodes.old
        → IsOk result × (vec_capacity nodes.new ≡ vec_capacity nodes.old) }
    ensures err { OnErr result (vec_capacity nodes.new ≡ vec_capacity nodes.old) }
{
    if additional <= nodes.capacity() - nodes.len() {
        return Ok(());
    }
    let doubled = nodes.capacity().saturating_mul(2).max(4) - nodes.len();
    nodes.reserve_exact(additional.max(doubled))
}

impl<T, A: Allocator> LinkedSlab<T, A> {
    /// Makes room for so many more items, or for all that a slab can still have.
    ///
    /// Free slots count, so where these and the room suffice it asks for no memory. It reads at
    /// most as many slots as are asked for. A refusal is for want of memory.
    pub fn reserve(&mut self, additional: usize) -> Result<(), Refusal>
        ensures kept { self.new ≡ record self.old { room = self.new.room } }
        ensures room { OnOk result (min additional (left self.old) ≤ spare self.new) }
        ensures grows { self.old.room ≤ self.new.room }
        ensures at_most { length self.old.slots + self.new.room
            ≤ max (length self.old.slots + self.old.room)
            (2 * (length self.old.slots + (additional - length self.old.free)) + 4) }
        ensures parted { IsParted self.new }

        // It is refused only where that room was missing. Where it was there, no more is made.
        ensures succeeds { min additional (left self.old) ≤ spare self.old
            → IsOk result × (self.new ≡ self.old) }
        ensures memory { IfErr result (λ refused. refused ≡ Refusal.Memory) }
        ensures unchanged { OnErr result (self.new ≡ self.old) }
    {
        let wanted = additional - self.free_up_to(additional);
        let wanted = wanted.min(MAX_SLOTS - self.nodes.len());
        match make_room(&mut self.nodes, wanted) {
            Ok(()) => Ok(()),
            Err(_) => Err(Refusal::Memory),
        }
    }

    /// How many slots are free, of so many that are looked for. It reads as many as it finds.
    pub fn free_up_to(&self, most: usize) -> usize
        ensures { result ≡ min most (length self.now.free) }
    {
        let nodes = self.nodes.as_slice();
        let mut token = self.next_free;
        let mut found = 0;
        while found < most && token.get() as usize <= nodes.len() {
            found += 1;
            let link = next_of(nodes, token);
            if link.get() == token.get() {
                return found;
            }
            token = link;
        }
        found
    }
}
