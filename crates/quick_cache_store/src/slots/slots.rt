//! The slots of a shard, and room for them.
ghost use Rattle.std.specs.Prelude.{◌≡◌, ◌+◌, ◌-◌, ◌*◌, ◌≤◌, ◌<◌, ◌↔◌, min, max, count_by, is_some, length, IsOk, IfOk, IfErr, OnOk};
ghost use Rattle.std.specs.Prelude.{IsTrue, Some};
ghost use Rattle.std.specs.Int.NonZero.{non_zero_u32_get as number};
ghost use Rattle.quick_cache_store.specs.Pool.{item_at, IsOccupied, next_token, spare, left, IsFull, placed, removed, IsParted, emptied};

mod copies;
mod fills;
mod iter;
mod looks;
mod values;
mod writes;

use crate::pool::Pool;
use crate::slots::asides::Asides;
use crate::slots::entry::Slot;
use crate::slots::stored::{StoredEntry, store, unstore};
pub use copies::Copying;
pub use iter::{SlotIter, SlotsFrom};
use quick_cache_model::{Refusal, Token};
use std::alloc::{Allocator, Global};
use std::marker::Model;

/// How many slots there may be.
const MAX_SLOTS: usize = 4294967294;

/// The entries alone. A slot has no tag but theirs.
pub(crate) type Entries<K, V, P, T, A> = Pool<StoredEntry<K, V, P, T>, A>;

/// Entries under tokens, each with its hash. None is linked to another.
///
/// A token keeps its entry until that is removed, and only then is it given out again.
#[derive(Drop)]
pub struct Slots<K, V, P, T, A: Allocator = Global> {
    pool: Entries<K, V, P, T, A>,
    // What stands beside each slot, in the order of the slots.
    asides: Asides<A>,
}

impl<K, V, P, T, A: Allocator> Model for Slots<K, V, P, T, A> {
    ghost use Rattle.quick_cache_store.specs.Pool.{Pool};
    ghost use Rattle.quick_cache_store.specs.declared.slots.entry.Slot.{Slot};

    ghost Value = { Pool (Slot K V P T) };

    ghost use Rattle.quick_cache_store.specs.Asides.{besides_of, room_of};
    ghost use Rattle.quick_cache_store.specs.Joined.{joined, AreAllBeside};

    ghost view = { λ s. joined s.pool (besides_of s.asides) (room_of s.asides) };

    ghost invariant = { λ s. AreAllBeside s.pool s.asides };
}

/// Where in a list the things of a token stand.
#[inline(always)]
fn place(token: Token) -> usize
    ensures { result + 1 ≡ number token }
{
    (token.get() - 1) as usize
}

impl<K, V, P, T, A: Allocator> Slots<K, V, P, T, A> {
    /// No slots, and no room for any. It asks for no memory.
    pub fn new(for_slots: A, for_free: A, for_asides: A, for_marks: A) -> Self
        ensures { result ≡ emptied 0 }
    {
        Slots {
            pool: Pool::new(for_slots, for_free),
            asides: Asides::new(for_asides, for_marks),
        }
    }

    /// Stores an entry under the token that was freed last, or under a new one. It takes one of the
    /// room, and no memory.
    #[inline(always)]
    pub fn insert_reserved(&mut self, slot: Slot<K, V, P, T>) -> Token
        requires { 0 < spare self.old }
        ensures token { number result ≡ next_token self.old }
        ensures placed { self.new
            ≡ record (placed self.old.free self.old slot) { room = self.new.room } }
        ensures spare { spare self.new + 1 ≡ spare self.old }
        ensures parted { IsParted self.new }
    {
        let (entry, beside) = store(slot);
        let token = self.pool.insert_reserved(entry);
        let place = place(token);
        if place < self.asides.len() {
            self.asides.put(place, beside);
        } else {
            self.asides.push_reserved(beside);
        }
        token
    }

    /// Takes the entry of a token out of its slot, and answers it. The token is the next that is
    /// given out.
    #[inline(always)]
    pub fn remove(&mut self, token: Token) -> Slot<K, V, P, T>
        requires { IsOccupied self.old (number token) }
        ensures item { item_at self.old (number token) ≡ Some result }
        ensures removed { self.new ≡ removed self.old (number token) }
        ensures parted { IsParted self.new }
    {
        let stored = self.pool.remove(token);
        unstore(stored, &self.asides.get(place(token)))
    }

    /// Makes room for so many more entries, or for all that can still come.
    ///
    /// Free slots count, so where these and the room suffice it asks for no memory. A refusal is
    /// for want of memory: it may keep room that it got, and changes nothing else.
    pub fn reserve(&mut self, additional: usize) -> Result<(), Refusal>
        ensures kept { self.new ≡ record self.old { room = self.new.room } }
        ensures room { OnOk result (min additional (left self.old) ≤ spare self.new) }
        ensures grows { self.old.room ≤ self.new.room }
        ensures at_most { length self.old.slots + self.new.room
            ≤ max (length self.old.slots + self.old.room)
            (2 * (length self.old.slots + (additional - length self.old.free)) + 4) }
        ensures parted { IsParted self.new }

        // It is refused only where that room was missing. Where it was there, no more is made.
        ensures succeeds { min additional (left self.old) ≤ spare self.old
            → IsOk result × (self.new ≡ self.old) }
        ensures memory { IfErr result (λ refused. refused ≡ Refusal.Memory) }
    {
        self.pool.facts();
        let wanted = additional - self.pool.free_up_to(additional);
        let wanted = wanted.min(MAX_SLOTS - self.asides.len());
        self.pool.reserve(additional)?;
        self.asides.reserve(wanted)?;
        Ok(())
    }

    /// Whether the next entry needs no memory: a token is free, or there is room for a new one.
    #[inline(always)]
    pub fn has_room(&self) -> bool
        ensures { IsTrue result ↔ 0 < spare self.now }
    {
        self.pool.facts();
        let token = self.pool.next_free().get() as usize;
        let len = self.asides.len();
        if token <= len {
            return true;
        }
        if !self.asides.has_room() {
            return false;
        }
        self.pool.has_room() && len < MAX_SLOTS
    }

    /// How many more entries need no memory: those for which a token is free, or there is room for
    /// a new one.
    pub fn spare(&self) -> usize
        ensures { result ≡ spare self.now }
    {
        self.pool.facts();
        let free = self.asides.len() - self.pool.len();
        free + self.pool.room().min(self.asides.room())
    }

    /// The token that the next entry gets: 4294967295 where all slots are taken.
    pub fn next_free(&self) -> Token
        ensures token { number result ≡ next_token self.now }
        ensures full { (number result ≡ 4294967295) ↔ IsFull self.now }
    {
        self.pool.next_free()
    }

    /// How many entries there are.
    pub fn len(&self) -> usize
        ensures items { result ≡ count_by is_some self.now.slots }
        // Each slot has an entry or is free.
        ensures free { result + length self.now.free ≡ length self.now.slots }
    {
        self.pool.len()
    }

    /// Does nothing: what it promises always holds of slots.
    #[inline(always)]
    pub fn facts(&self)
        ensures { IsParted self.now }
    {
        self.pool.facts();
    }

    /// Drops every entry, and keeps the room.
    pub fn clear(&mut self)
    where
        K: Drop,
        V: Drop,
        P: Drop,
        T: Drop,
        ensures { self.new ≡ emptied (self.old.room + length self.old.slots) }
    {
        self.pool.clear();
        self.asides.clear();
    }

    /// The allocator that the slots are from.
    pub fn allocator(&self) -> &A {
        self.pool.allocator()
    }

    /// The bytes of the slots, whether occupied, free or room, and of what stands beside them.
    pub fn memory_used(&self) -> usize {
        let beside = self.asides.memory_used();
        self.pool.memory_used().saturating_add(beside)
    }
}
