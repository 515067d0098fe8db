//! The lists and the numbers of a cache.
ghost use Rattle.std.specs.Prelude.{◌≡◌, ℕ, IfOk, IfErr, IsOk, OnOk, ◌<◌, ◌≤◌, ◌+◌, ◌-◌, ◌^◌, min, max};
ghost use Rattle.quick_cache_store.specs.Room.{most_room};
ghost use Rattle.quick_cache_model.specs.CacheState.{empty_state};
ghost use Rattle.quick_cache_model.specs.Refusals.{slot_count, slots_taken};
ghost use Rattle.quick_cache_policy.specs.Contents.{AreSizes, IsSound, state_of, work_of};
ghost use Rattle.quick_cache_policy.specs.Work.{no_work};

use quick_cache_model::{Refusal, SharedPlaceholder};
use quick_cache_store::lists::Lists;
use std::alloc::{Allocator, Global};
use std::hash::Hash;

/// The lists of a cache, its sizes and its counts. The steps of a call are its methods.
#[derive(Drop)]
pub struct Contents<K: Eq + Hash, V, P: SharedPlaceholder<K>, A: Allocator = Global> {
    /// What readers counted of hits and misses, each through a shared reference. A hit stands at its
    /// item until the touch is taken in, or leaves with the item. They come first, beside the word of
    /// a lock round the contents: a reader writes to it, so that cores hand one line to each other
    /// and not two.
    pub shared_hits: P::Touch,
    pub shared_misses: P::Touch,
    pub lists: Lists<K, V, P::Kept, P::Touch, A>,
    pub capacity: u64,
    pub hot_target: u64,
    pub ghost_limit: usize,
    /// The greatest mark of an item. It stands beside the hits: a look-up reads it and writes those,
    /// and so has one line for both.
    pub mark_cut: u8,
    pub hits: u64,
    pub misses: u64,
    /// The ticket of the next placeholder.
    pub next_ticket: u64,
    /// How many hot advances were made, and how many visits in them. Only contracts read these.
    pub advances: u64,
    pub visits: u64,
}

impl<K: Eq + Hash, V, P: SharedPlaceholder<K>, A: Allocator> Contents<K, V, P, A> {
    /// The contents of an empty cache. It takes no memory; `Memory` is a refused clone of the
    /// allocator.
    pub fn new(
        alloc: A,
        capacity: u64,
        hot_target: u64,
        ghost_limit: usize,
        mark_cut: u8,
    ) -> Result<Self, Refusal>
    where
        A: Clone,
        requires sized { AreSizes capacity hot_target ghost_limit mark_cut }
        ensures state { IfOk result (λ made. state_of P.ticket_of made
            ≡ record (empty_state capacity hot_target ghost_limit) { mark_cut = mark_cut }) }
        ensures sound { IfOk result
            (λ made. (hashed : K → ℕ) → IsSound P.ticket_of K.eq hashed made) }
        ensures room { IfOk result (λ made. made.lists.room ≡ 0) }
        ensures work { IfOk result (λ made. work_of made ≡ no_work) }
        ensures succeeds { A.is_infallible alloc → IsOk result }
        ensures refused { IfErr result (λ refusal. refusal ≡ Refusal.Memory) }
    {
        Ok(Contents {
            lists: Lists::new(alloc)?,
            capacity,
            hot_target,
            ghost_limit,
            mark_cut,
            hits: 0,
            misses: 0,
            shared_hits: P::Touch::default(),
            shared_misses: P::Touch::default(),
            next_ticket: 1,
            advances: 0,
            visits: 0,
        })
    }

    /// For the prover alone: the counts of work are what a u64 holds.
    pub(crate) fn facts(&self)
        ensures advances { self.now.advances < 2 ^ 64 }
        ensures visits { self.now.visits < 2 ^ 64 }
    {
        let _advances = self.advances;
        let _visits = self.visits;
    }

    /// Makes room for so many more entries, and for the ghosts that as many inserts can leave.
    pub fn reserve(&mut self, additional: usize) -> Result<(), Refusal>
        ensures room { OnOk result (min additional
            (slot_count - slots_taken (state_of P.ticket_of self.old)) ≤ self.new.lists.room) }
        ensures grows { self.old.lists.room ≤ self.new.lists.room }
        ensures at_most { self.new.lists.room ≤ max self.old.lists.room
            (most_room (slots_taken (state_of P.ticket_of self.old))
            (additional + min additional self.old.ghost_limit)) }

        // Where there is that room already it succeeds.
        ensures succeeds { min (additional + min additional self.old.ghost_limit)
            (slot_count - slots_taken (state_of P.ticket_of self.old)) ≤ self.old.lists.room
            → IsOk result }
        ensures refused { IfErr result (λ refusal. refusal ≡ Refusal.Memory) }
        ensures same { self.new ≡ record self.old {
          lists = record self.old.lists {
            room = self.new.lists.room;
          };
        } }
    {
        let ghosts = additional.min(self.ghost_limit);
        self.lists.reserve(additional.saturating_add(ghosts))
    }
}
