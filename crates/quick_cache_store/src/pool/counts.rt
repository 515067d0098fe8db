//! What a `Pool` tells of itself.
ghost use Rattle.std.specs.Prelude.{◌≡◌, ◌↔◌, ◌+◌, ◌<◌, min, length, count_by, is_some, IsTrue};
ghost use Rattle.std.specs.Int.NonZero.{non_zero_u32_get as number};
ghost use Rattle.quick_cache_store.specs.Pool.{next_token, spare, IsFull, IsParted};

use crate::pool::{Blank, MAX_SLOTS, Pool, past};
use quick_cache_model::Token;
use std::alloc::Allocator;
use std::mem::{size_of, size_of_val};

impl<T: Blank, A: Allocator> Pool<T, A> {
    /// The token that the next item gets: 4294967295 where all slots are taken.
    pub fn next_free(&self) -> Token
        ensures token { number result ≡ next_token self.now }
        ensures full { (number result ≡ 4294967295) ↔ IsFull self.now }
    {
        let count = self.free.len();
        if count == 0 {
            return past(self.items.len());
        }
        unsafe { Token::new_unchecked(self.free[count - 1]) }
    }

    /// Whether the next item needs no memory: a token is free, or there is room for a new one.
    #[inline(always)]
    pub fn has_room(&self) -> bool
        ensures { IsTrue result ↔ 0 < spare self.now }
    {
        let room = self.items.capacity().min(self.free.capacity());
        !self.free.is_empty() || self.items.len() < room.min(MAX_SLOTS)
    }

    /// How many slots more there can be with no allocation, apart from free ones.
    pub fn room(&self) -> usize
        ensures { result ≡ self.now.room }
    {
        let room = self.items.capacity().min(self.free.capacity());
        room.min(MAX_SLOTS) - self.items.len()
    }

    /// How many items there are.
    pub fn len(&self) -> usize
        ensures items { result ≡ count_by is_some self.now.slots }
        // Each slot has an item or is free.
        ensures free { result + length self.now.free ≡ length self.now.slots }
    {
        self.items.len() - self.free.len()
    }

    /// How many tokens are free, of so many that are looked for.
    pub fn free_up_to(&self, most: usize) -> usize
        ensures { result ≡ min most (length self.now.free) }
    {
        most.min(self.free.len())
    }

    /// Does nothing: what it promises always holds of a pool.
    #[inline(always)]
    pub fn facts(&self)
        ensures { IsParted self.now }
    {
        let _ = &self.items;
    }

    /// The allocator that the slots are from.
    pub fn allocator(&self) -> &A {
        self.items.allocator()
    }

    /// The bytes of the slots, whether occupied, free or room, and of the stack of free tokens.
    pub fn memory_used(&self) -> usize {
        let blank = T::blank(0);
        let a_slot = size_of_val(&blank);
        blank.discard();
        let items = self.items.capacity().saturating_mul(a_slot);
        let free = self.free.capacity().saturating_mul(size_of::<u32>());
        items.saturating_add(free)
    }
}
