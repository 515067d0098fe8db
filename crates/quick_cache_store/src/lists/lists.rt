//! The lists of a shard, and room for them.
ghost use Rattle.std.specs.Prelude.{◌≡◌, ◌+◌, ◌≤◌, ◌<◌, ◌⊎◌, ◌↔◌, min, max, IsOk, IfOk, IfErr, OnOk, OnErr};
ghost use Rattle.quick_cache_store.specs.Lists.{no_lists, entry_count, slots_left, AreApart};
ghost use Rattle.quick_cache_store.specs.Room.{most_room};

mod changes;
mod copies;
mod counts;
mod fills;
mod looks;
mod moves;
mod placeholders;
mod tokens;
mod values;
mod walks;

use crate::lists::store::grow_index;
use crate::rings::Rings;
use crate::slots::Slots;
pub use placeholders::Meaning;
use quick_cache_index::Index;
use quick_cache_model::Refusal;
use std::alloc::{Allocator, Global};
use std::marker::Model;

/// How many entries there can be.
const MOST_ENTRIES: usize = 4294967294;

/// Entries in slots: the items of a hot and of a cold ring, the ghosts in a ring of
/// their own, and items of weight 0 and placeholders in none. Each is found by its hash.
#[derive(Drop)]
pub struct Lists<K, V, P, T, A: Allocator = Global> {
    slots: Slots<K, V, P, T, A>,
    index: Index<A>,
    rings: Rings<A>,
    // How many placeholders there are.
    loading: usize,
}

impl<K, V, P, T, A: Allocator> Model for Lists<K, V, P, T, A> {
    ghost use Rattle.quick_cache_store.specs.Lists.{Lists};

    ghost Value = { Lists K V P };

    ghost use Rattle.quick_cache_store.specs.Sound.{lists_of, IsSound};

    ghost view = { λ l. lists_of l.slots l.index l.rings };

    ghost invariant = { λ l. IsSound l.slots l.index l.rings l.loading };
}

impl<K, V, P, T, A: Allocator> Lists<K, V, P, T, A> {
    /// Empty lists, which have no room.
    pub fn new(alloc: A) -> Result<Self, Refusal>
    where
        A: Clone,
        ensures empty { IfOk result (λ lists. lists ≡ no_lists) }
        ensures succeeds { A.is_infallible alloc → IsOk result }
        ensures refused { OnErr result (result ≡ Err Refusal.Memory) }
    {
        let Ok(for_slots) = alloc.clone() else {
            return Err(Refusal::Memory);
        };
        let Ok(for_free) = alloc.clone() else {
            return Err(Refusal::Memory);
        };
        let Ok(for_asides) = alloc.clone() else {
            return Err(Refusal::Memory);
        };
        let Ok(for_marks) = alloc.clone() else {
            return Err(Refusal::Memory);
        };
        let rings = Rings::new(&alloc)?;
        let index = Index::new(alloc)?;
        let slots = Slots::new(for_slots, for_free, for_asides, for_marks);
        Ok(Lists {
            slots,
            index,
            rings,
            loading: 0,
        })
    }

    /// Makes room for so many more entries, or for all that can still come.
    ///
    /// The slots grow first, then the index, which takes the token of each slot anew, then the
    /// rings: so these have room for no more entries than slots and index. A refusal is for want of
    /// memory: it may keep room that it got, and changes nothing else.
    pub fn reserve(&mut self, additional: usize) -> Result<(), Refusal>
        ensures lists { self.new ≡ record self.old { room = self.new.room } }
        ensures room { OnOk result (min additional (slots_left self.old) ≤ self.new.room) }
        ensures grows { self.old.room ≤ self.new.room }
        ensures at_most { self.new.room
            ≤ max self.old.room (most_room (entry_count self.old) additional) }

        // Where there is room it succeeds, and nothing changes.
        ensures had_room { min additional (slots_left self.old) ≤ self.old.room
            → IsOk result × (self.new ≡ self.old) }
        ensures memory { IfErr result (λ refused. refused ≡ Refusal.Memory) }
    {
        let entries = self.index.len();
        if additional.min(MOST_ENTRIES - entries) <= self.rings.capacity() - entries {
            return Ok(());
        }
        self.slots.facts();
        self.slots.reserve(additional)?;
        grow_index(&self.slots, &mut self.index, additional)?;
        // For as many as slots and index have room for, so that rings are moved seldom.
        let room = self.slots.spare().min(self.index.room());
        self.rings
            .reserve(entries + room.min(additional.max(entries)))?;
        Ok(())
    }

    /// Makes room for one more entry where there is none.
    #[inline(always)]
    pub fn make_room(&mut self) -> Result<(), Refusal>
        ensures lists { self.new ≡ record self.old { room = self.new.room } }
        ensures room { OnOk result (0 < self.new.room) }
        ensures grows { self.old.room ≤ self.new.room }

        // Where there is room it succeeds, and nothing changes. It is refused where all slots are
        // taken, or for want of memory.
        ensures had_room { 0 < self.old.room → IsOk result × (self.new ≡ self.old) }
        ensures full { (result ≡ Err Refusal.SlotsFull) ↔ (slots_left self.old ≡ 0) }
        ensures refusals { IfErr result
            (λ refused. (refused ≡ Refusal.SlotsFull) ⊎ (refused ≡ Refusal.Memory)) }
    {
        // Slots and index have room where the rings do.
        if self.index.len() < self.rings.capacity() {
            return Ok(());
        }
        self.grow()
    }

    // Makes room for one more entry. It is a call of its own, since it is seldom made.
    #[cold]
    #[inline(never)]
    fn grow(&mut self) -> Result<(), Refusal>
        requires { self.old.room ≡ 0 }
        ensures lists { self.new ≡ record self.old { room = self.new.room } }
        ensures room { OnOk result (0 < self.new.room) }
        ensures full { (result ≡ Err Refusal.SlotsFull) ↔ (slots_left self.old ≡ 0) }
        ensures refusals { IfErr result
            (λ refused. (refused ≡ Refusal.SlotsFull) ⊎ (refused ≡ Refusal.Memory)) }
    {
        self.slots.facts();
        if self.index.len() >= MOST_ENTRIES {
            return Err(Refusal::SlotsFull);
        }
        self.reserve(1)
    }

    /// Drops every entry, and keeps the memory.
    pub fn clear(&mut self)
    where
        K: Drop,
        V: Drop,
        P: Drop,
        T: Drop,
        ensures { self.new ≡ record no_lists { room = self.old.room + entry_count self.old } }
    {
        self.slots.facts();
        self.slots.clear();
        self.index.clear();
        self.rings.clear();
        self.loading = 0;
    }

    /// Each token has one entry at most, and there are no more entries than there can be.
    pub fn facts(&self)
        ensures apart { AreApart self.now }
        ensures within { entry_count self.now ≤ 4294967294 }
    {
        self.slots.facts();
    }
}
