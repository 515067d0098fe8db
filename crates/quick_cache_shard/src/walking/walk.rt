//! Walks over what a shard holds: over a ring in the order in which it would be visited, and over
//! all items in none.
ghost use Rattle.std.specs.Prelude.{◌≡◌, length, IfSome, Some, codes};
ghost use Rattle.std.specs.Iterator.{YieldsFirst, YieldsFirstBy, item_count, at_most, UpTo};
ghost use Rattle.std.specs.Iterator.SizeHint.{IsWithinCount};

use quick_cache_policy::SharedPlaceholder;
use quick_cache_store::lists::{GhostIter as Ghosts, ItemIter as Items, RingIter as Ring};
use std::alloc::{Allocator, Global};
use std::fmt::{Debug, Formatter, Write};
use std::hash::Hash;
use std::iter::FusedIterator;
use std::marker::Model;

/// The items of a ring, each as its key, its value and its mark; the next to be visited comes
/// first.
#[derive(Drop)]
pub struct RingIter<'a, K: Eq + Hash, V, P: SharedPlaceholder<K>, A: Allocator = Global> {
    pub(crate) items: Ring<'a, K, V, P::Kept, P::Touch, A>,
}

impl<'a, K: Eq + Hash, V, P: SharedPlaceholder<K>, A: Allocator> Model
    for RingIter<'a, K, V, P, A> {
    ghost use Rattle.std.specs.Prelude.{ℕ, List, map};
    ghost use Rattle.quick_cache_shard.specs.Shard.{shown};

    ghost Value = { List (K × V × ℕ) };

    ghost view = { λ it. map shown it.items };
}

impl<'a, K: Eq + Hash, V, P: SharedPlaceholder<K>, A: Allocator> Iterator
    for RingIter<'a, K, V, P, A> {
    type Item = (&'a K, &'a V, u8);

    ghost next_gives = { YieldsFirstBy (λ item. (item.0.now, item.1.now, item.2)) (λ rest. rest) };

    ghost remaining = { item_count (λ rest. rest) };

    fn next(&mut self) -> Option<(&'a K, &'a V, u8)> {
        let item = self.items.next()?;
        Some((item.key(), item.value(), item.mark()))
    }

    fn size_hint(&self) -> (usize, Option<usize>)
        ensures lower { IsWithinCount result.0 (at_most (length self.now)) }
        ensures upper { IfSome result.1 (UpTo (at_most (length self.now))) }
        // It is exact.
        ensures exact { result ≡ (length self.now, Some (length self.now)) }
    {
        (self.items.len(), Some(self.items.len()))
    }
}

impl<'a, K: Eq + Hash, V, P: SharedPlaceholder<K>, A: Allocator> ExactSizeIterator
    for RingIter<'a, K, V, P, A> {
    fn len(&self) -> usize {
        self.items.len()
    }
}

impl<'a, K: Eq + Hash, V, P: SharedPlaceholder<K>, A: Allocator> FusedIterator
    for RingIter<'a, K, V, P, A> {}

/// The hashes of the ghosts, the oldest first.
#[derive(Drop)]
pub struct GhostIter<'a, K: Eq + Hash, V, P: SharedPlaceholder<K>, A: Allocator = Global> {
    pub(crate) hashes: Ghosts<'a, K, V, P::Kept, P::Touch, A>,
}

impl<'a, K: Eq + Hash, V, P: SharedPlaceholder<K>, A: Allocator> Model
    for GhostIter<'a, K, V, P, A> {
    ghost use Rattle.std.specs.Prelude.{ℕ, List};

    ghost Value = { List ℕ };

    ghost view = { λ it. it.hashes };
}

impl<'a, K: Eq + Hash, V, P: SharedPlaceholder<K>, A: Allocator> Iterator
    for GhostIter<'a, K, V, P, A> {
    type Item = u64;

    ghost next_gives = { YieldsFirst (λ rest. rest) };

    ghost remaining = { item_count (λ rest. rest) };

    fn next(&mut self) -> Option<u64> {
        self.hashes.next()
    }

    fn size_hint(&self) -> (usize, Option<usize>)
        ensures lower { IsWithinCount result.0 (at_most (length self.now)) }
        ensures upper { IfSome result.1 (UpTo (at_most (length self.now))) }
        // It is exact.
        ensures exact { result ≡ (length self.now, Some (length self.now)) }
    {
        (self.hashes.len(), Some(self.hashes.len()))
    }
}

impl<'a, K: Eq + Hash, V, P: SharedPlaceholder<K>, A: Allocator> ExactSizeIterator
    for GhostIter<'a, K, V, P, A> {
    fn len(&self) -> usize {
        self.hashes.len()
    }
}

impl<'a, K: Eq + Hash, V, P: SharedPlaceholder<K>, A: Allocator> FusedIterator
    for GhostIter<'a, K, V, P, A> {}

/// All items, those of weight 0 too, each once as its key and its value, in no order that is told.
#[derive(Drop)]
pub struct Iter<'a, K: Eq + Hash, V, P: SharedPlaceholder<K>> {
    pub(crate) items: Items<'a, K, V, P::Kept, P::Touch>,
}

impl<'a, K: Eq + Hash, V, P: SharedPlaceholder<K>> Model for Iter<'a, K, V, P> {
    ghost use Rattle.std.specs.Prelude.{List, map};
    ghost use Rattle.quick_cache_model.specs.Removal.{pair_of};

    ghost Value = { List (K × V) };

    ghost view = { λ it. map pair_of it.items };
}

impl<'a, K: Eq + Hash, V, P: SharedPlaceholder<K>> Iterator for Iter<'a, K, V, P> {
    type Item = (&'a K, &'a V);

    ghost next_gives = { YieldsFirstBy (λ pair. (pair.0.now, pair.1.now)) (λ rest. rest) };

    ghost remaining = { item_count (λ rest. rest) };

    fn next(&mut self) -> Option<(&'a K, &'a V)> {
        let item = self.items.next()?;
        Some(item.pair())
    }

    fn size_hint(&self) -> (usize, Option<usize>)
        ensures lower { IsWithinCount result.0 (at_most (length self.now)) }
        ensures upper { IfSome result.1 (UpTo (at_most (length self.now))) }
        // It is exact.
        ensures exact { result ≡ (length self.now, Some (length self.now)) }
    {
        (self.items.len(), Some(self.items.len()))
    }
}

impl<'a, K: Eq + Hash, V, P: SharedPlaceholder<K>> ExactSizeIterator for Iter<'a, K, V, P> {
    fn len(&self) -> usize {
        self.items.len()
    }
}

impl<'a, K: Eq + Hash, V, P: SharedPlaceholder<K>> FusedIterator for Iter<'a, K, V, P> {}

impl<'a, K: Eq + Hash, V, P: SharedPlaceholder<K>> Debug for Iter<'a, K, V, P> {
    ghost debug_output = { λ _. Some (codes "Iter { .. }") };

    fn fmt<W: Write>(&self, f: &mut Formatter<W>) -> std::fmt::Result {
        f.write_str("Iter { .. }")
    }
}
