//! What a `LinkedSlab` tells of itself.
ghost use Rattle.std.specs.Prelude.{◌≡◌, ◌↔◌, ◌+◌, ◌<◌, length, count_by, is_some, IsTrue};
ghost use Rattle.std.specs.Int.NonZero.{non_zero_u32_get as number};
ghost use Rattle.quick_cache_containers.specs.LinkedSlab.{next_token, spare, IsFull, IsParted};

use crate::linked_slab::{LinkedSlab, MAX_SLOTS, links};
use quick_cache_model::Token;
use std::alloc::Allocator;
use std::mem;

impl<T, A: Allocator> LinkedSlab<T, A> {
    /// The token that the next `insert` gives out: 4294967295 where the slab is full.
    pub fn next_free(&self) -> Token
        ensures token { number result ≡ next_token self.now }
        ensures full { (number result ≡ 4294967295) ↔ IsFull self.now }
    {
        self.next_free
    }

    /// Whether the next `insert` needs no memory: a token is free, or there is room for a new one.
    #[inline(always)]
    pub fn has_room(&self) -> bool
        ensures { IsTrue result ↔ 0 < spare self.now }
    {
        let len = self.nodes.len();
        let token = self.next_free.get() as usize;
        token <= len || len < self.nodes.capacity().min(MAX_SLOTS)
    }

    /// How many items there are. It looks at each slot.
    pub fn len(&self) -> usize
        ensures items { result ≡ count_by is_some self.now.slots }
        // Each slot has an item or is free.
        ensures free { result + length self.now.free ≡ length self.now.slots }
    {
        links::occupied_count(self.nodes.as_slice())
    }

    /// Does nothing: what it promises always holds of a slab.
    pub fn validate(&self)
        ensures { IsParted self.now }
    {
        let _ = &self.nodes;
    }

    /// The allocator that the slots are from.
    pub fn allocator(&self) -> &A {
        self.nodes.allocator()
    }

    /// The bytes of the slots, whether occupied or free.
    pub fn memory_used(&self) -> usize {
        mem::size_of_val(self.nodes.as_slice())
    }
}
