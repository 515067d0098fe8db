//! How a `Pool` makes room.
ghost use Rattle.std.specs.Prelude.{◌≡◌, ◌+◌, ◌-◌, ◌*◌, ◌≤◌, min, max, length, IsOk, IfErr, OnOk, OnErr, vec_len, vec_capacity};
ghost use Rattle.quick_cache_store.specs.Pool.{spare, left, IsParted};

use crate::pool::{Blank, MAX_SLOTS, Pool};
use quick_cache_model::Refusal;
use std::alloc::{AllocError, Allocator};

/// Makes room for so many more where there is less, and then for at least a quarter more than there
/// was.
pub fn make_room<X, A: Allocator>(
    items: &mut Vec<X, A>,
    additional: usize,
) -> Result<(), AllocError>
    ensures items { items.new.items ≡ items.old.items }
    ensures len { vec_len items.new ≡ vec_len items.old }
    ensures ok { OnOk result (vec_len items.old + additional ≤ vec_capacity items.new) }
    ensures capacity { vec_capacity items.old ≤ vec_capacity items.new }
    ensures at_most { vec_capacity items.new ≤ max (vec_capacity items.old)
        (2 * (vec_len items.old + additional) + 4) }
    ensures had_room { vec_len items.old + additional ≤ vec_capacity items.old
        → IsOk result × (vec_capacity items.new ≡ vec_capacity items.old) }
    ensures err { OnErr result (vec_capacity items.new ≡ vec_capacity items.old) }
{
    let had = items.capacity();
    if additional <= had - items.len() {
        return Ok(());
    }
    let grown = had.saturating_add((had / 4).max(4));
    items.reserve_exact(additional.max(grown - items.len()))
}

impl<T: Blank, A: Allocator> Pool<T, A> {
    /// Makes room for so many more items, or for all that a pool can still have.
    ///
    /// Free slots count, so where these and the room suffice it asks for no memory. A refusal is for
    /// want of memory: it may keep room that it got, and changes nothing else.
    pub fn reserve(&mut self, additional: usize) -> Result<(), Refusal>
        ensures kept { self.new ≡ record self.old { room = self.new.room } }
        ensures room { OnOk result (min additional (left self.old) ≤ spare self.new) }
        ensures grows { self.old.room ≤ self.new.room }
        ensures at_most { length self.old.slots + self.new.room
            ≤ max (length self.old.slots + self.old.room)
            (2 * (length self.old.slots + (additional - length self.old.free)) + 4) }
        ensures parted { IsParted self.new }

        // It is refused only where that room was missing. Where it was there, no more is made.
        ensures succeeds { min additional (left self.old) ≤ spare self.old
            → IsOk result × (self.new ≡ self.old) }
        ensures memory { IfErr result (λ refused. refused ≡ Refusal.Memory) }
    {
        let len = self.items.len();
        let wanted = additional - self.free_up_to(additional);
        let slots = len + wanted.min(MAX_SLOTS - len);
        let tokens = slots - self.free.len();
        let Ok(()) = make_room(&mut self.free, tokens) else {
            return Err(Refusal::Memory);
        };
        let Ok(()) = make_room(&mut self.items, slots - len) else {
            return Err(Refusal::Memory);
        };
        Ok(())
    }
}
