//! Walks along a ring, from its first token on, and over all items. A step along a ring is one look
//! at a slot.
ghost use Rattle.std.specs.Prelude.{◌≡◌, length, IfSome, Some};
ghost use Rattle.std.specs.Iterator.{YieldsFirst, item_count, at_most, UpTo};
ghost use Rattle.std.specs.Iterator.SizeHint.{IsWithinCount};

use crate::queue::TokenQueue;
use crate::slots::{ItemRef, SlotIter, SlotRef, Slots};
use std::alloc::{Allocator, Global};
use std::iter::FusedIterator;
use std::marker::Model;

/// The slots of a ring that are left.
#[derive(Drop)]
pub(crate) struct Walk<'a, K, V, P, T, A: Allocator = Global> {
    pub(crate) slots: &'a Slots<K, V, P, T, A>,
    pub(crate) queue: &'a TokenQueue<A>,
    // How many places of the queue it has come past.
    pub(crate) passed: usize,
    // How many slots are left.
    pub(crate) left: usize,
}

impl<'a, K, V, P, T, A: Allocator> Model for Walk<'a, K, V, P, T, A> {
    ghost use Rattle.std.specs.Prelude.{List};
    ghost use Rattle.quick_cache_store.specs.declared.slots.entry.Slot.{Slot};

    ghost Value = { List (Slot K V P T) };

    ghost use Rattle.quick_cache_store.specs.Queues.{tokens_from};
    ghost use Rattle.quick_cache_store.specs.ListWalks.{walk_of, IsWalk};

    ghost view = { λ w. walk_of w.slots.now (tokens_from w.queue.now w.passed) };

    ghost invariant = { λ w. IsWalk w.slots.now (tokens_from w.queue.now w.passed) w.left };
}

impl<'a, K, V, P, T, A: Allocator> Walk<'a, K, V, P, T, A> {
    /// How many slots are left.
    pub(crate) fn left(&self) -> usize
        ensures { result ≡ length self.now }
    {
        self.left
    }
}

impl<'a, K, V, P, T, A: Allocator> Iterator for Walk<'a, K, V, P, T, A> {
    type Item = SlotRef<'a, K, V, P, T>;

    ghost next_gives = { YieldsFirst (λ rest. rest) };

    ghost remaining = { item_count (λ rest. rest) };

    fn next(&mut self) -> Option<SlotRef<'a, K, V, P, T>> {
        let (token, behind) = self.queue.first_from(self.passed)?;
        self.passed = behind;
        self.left -= 1;
        Some(self.slots.slot(token))
    }

    fn size_hint(&self) -> (usize, Option<usize>)
        ensures lower { IsWithinCount result.0 (at_most (length self.now)) }
        ensures upper { IfSome result.1 (UpTo (at_most (length self.now))) }
        // It is exact.
        ensures exact { result ≡ (length self.now, Some (length self.now)) }
    {
        (self.left, Some(self.left))
    }
}

/// The items of a ring; the next to be visited comes first.
#[derive(Drop)]
pub struct RingIter<'a, K, V, P, T, A: Allocator = Global> {
    pub(crate) walk: Walk<'a, K, V, P, T, A>,
}

impl<'a, K, V, P, T, A: Allocator> Model for RingIter<'a, K, V, P, T, A> {
    ghost use Rattle.std.specs.Prelude.{◌≡◌, List, true};
    ghost use Rattle.std.specs.List.{AllByRecursion};
    ghost use Rattle.quick_cache_model.specs.CacheState.{Item};

    ghost Value = { List (Item K V) };

    ghost use Rattle.quick_cache_store.specs.ListSlots.{is_item};
    ghost use Rattle.quick_cache_store.specs.ListWalks.{items_in};

    ghost view = { λ it. items_in it.walk };

    ghost invariant = { λ it. AllByRecursion (λ slot. is_item slot ≡ true) it.walk };
}

impl<'a, K, V, P, T, A: Allocator> Iterator for RingIter<'a, K, V, P, T, A> {
    type Item = ItemRef<'a, K, V, T>;

    ghost next_gives = { YieldsFirst (λ rest. rest) };

    ghost remaining = { item_count (λ rest. rest) };

    fn next(&mut self) -> Option<ItemRef<'a, K, V, T>> {
        let slot = self.walk.next()?;
        match slot.as_item() {
            Some(item) => Some(item),
            None => unreachable!(),
        }
    }

    fn size_hint(&self) -> (usize, Option<usize>)
        ensures lower { IsWithinCount result.0 (at_most (length self.now)) }
        ensures upper { IfSome result.1 (UpTo (at_most (length self.now))) }
        // It is exact.
        ensures exact { result ≡ (length self.now, Some (length self.now)) }
    {
        let count = self.walk.left();
        (count, Some(count))
    }
}

impl<'a, K, V, P, T, A: Allocator> ExactSizeIterator for RingIter<'a, K, V, P, T, A> {
    fn len(&self) -> usize {
        self.walk.left()
    }
}

impl<'a, K, V, P, T, A: Allocator> FusedIterator for RingIter<'a, K, V, P, T, A> {}

/// The hashes of the ghosts, the oldest first.
#[derive(Drop)]
pub struct GhostIter<'a, K, V, P, T, A: Allocator = Global> {
    pub(crate) walk: Walk<'a, K, V, P, T, A>,
}

impl<'a, K, V, P, T, A: Allocator> Model for GhostIter<'a, K, V, P, T, A> {
    ghost use Rattle.std.specs.Prelude.{ℕ, List};

    ghost Value = { List ℕ };

    ghost use Rattle.quick_cache_store.specs.ListWalks.{hashes_in};

    ghost view = { λ it. hashes_in it.walk };
}

impl<'a, K, V, P, T, A: Allocator> Iterator for GhostIter<'a, K, V, P, T, A> {
    type Item = u64;

    ghost next_gives = { YieldsFirst (λ rest. rest) };

    ghost remaining = { item_count (λ rest. rest) };

    fn next(&mut self) -> Option<u64> {
        let slot = self.walk.next()?;
        Some(slot.hash())
    }

    fn size_hint(&self) -> (usize, Option<usize>)
        ensures lower { IsWithinCount result.0 (at_most (length self.now)) }
        ensures upper { IfSome result.1 (UpTo (at_most (length self.now))) }
        // It is exact.
        ensures exact { result ≡ (length self.now, Some (length self.now)) }
    {
        (self.walk.left(), Some(self.walk.left()))
    }
}

impl<'a, K, V, P, T, A: Allocator> ExactSizeIterator for GhostIter<'a, K, V, P, T, A> {
    fn len(&self) -> usize {
        self.walk.left()
    }
}

impl<'a, K, V, P, T, A: Allocator> FusedIterator for GhostIter<'a, K, V, P, T, A> {}

/// All items, those of weight 0 too, by ascending token. A step looks at each slot up to the next
/// item.
#[derive(Drop)]
pub struct ItemIter<'a, K, V, P, T> {
    pub(crate) slots: SlotIter<'a, K, V, P, T>,
    // How many items are left.
    pub(crate) left: usize,
}

impl<'a, K, V, P, T> Model for ItemIter<'a, K, V, P, T> {
    ghost use Rattle.std.specs.Prelude.{◌≡◌, List, length};
    ghost use Rattle.quick_cache_model.specs.CacheState.{Item};

    ghost Value = { List (Item K V) };

    ghost use Rattle.quick_cache_store.specs.ListWalks.{items_in};

    ghost view = { λ it. items_in it.slots };

    ghost invariant = { λ it. length (items_in it.slots) ≡ it.left };
}

impl<'a, K, V, P, T> Iterator for ItemIter<'a, K, V, P, T> {
    type Item = ItemRef<'a, K, V, T>;

    ghost next_gives = { YieldsFirst (λ rest. rest) };

    ghost remaining = { item_count (λ rest. rest) };

    fn next(&mut self) -> Option<ItemRef<'a, K, V, T>> {
        while let Some(slot) = self.slots.next() {
            if let Some(item) = slot.as_item() {
                self.left -= 1;
                return Some(item);
            }
        }
        None
    }

    fn size_hint(&self) -> (usize, Option<usize>)
        ensures lower { IsWithinCount result.0 (at_most (length self.now)) }
        ensures upper { IfSome result.1 (UpTo (at_most (length self.now))) }
        // It is exact.
        ensures exact { result ≡ (length self.now, Some (length self.now)) }
    {
        (self.left, Some(self.left))
    }
}

impl<'a, K, V, P, T> ExactSizeIterator for ItemIter<'a, K, V, P, T> {
    fn len(&self) -> usize {
        self.left
    }
}

impl<'a, K, V, P, T> FusedIterator for ItemIter<'a, K, V, P, T> {}
