//! A walk over all items, as they are saved.
ghost use Rattle.std.specs.Prelude.{◌≡◌, IfSome, length};
ghost use Rattle.std.specs.Iterator.{YieldsFirst, YieldsFirstBy, item_count, at_most, UpTo};
ghost use Rattle.std.specs.Iterator.SizeHint.{IsWithinCount};
ghost use Rattle.quick_cache_shard.specs.Saved.{saved_of};

use quick_cache_model::Queue;
use quick_cache_policy::SharedPlaceholder;
use quick_cache_store::lists::{ItemIter, ItemRef, RingIter};
use std::alloc::{Allocator, Global};
use std::hash::Hash;
use std::iter::FusedIterator;
use std::marker::Model;

/// The items that weigh nothing, in no order that is told.
#[derive(Drop)]
pub(crate) struct Weightless<'a, K: Eq + Hash, V, P: SharedPlaceholder<K>> {
    pub(crate) items: ItemIter<'a, K, V, P::Kept, P::Touch>,
}

impl<'a, K: Eq + Hash, V, P: SharedPlaceholder<K>> Model for Weightless<'a, K, V, P> {
    ghost use Rattle.std.specs.Prelude.{List};
    ghost use Rattle.std.specs.List.{filter};
    ghost use Rattle.quick_cache_model.specs.CacheState.{Item};
    ghost use Rattle.quick_cache_shard.specs.Saved.{is_weightless};

    ghost Value = { List (Item K V) };

    ghost view = { λ it. filter is_weightless it.items };
}

impl<'a, K: Eq + Hash, V, P: SharedPlaceholder<K>> Weightless<'a, K, V, P> {
    /// The next one.
    fn next(&mut self) -> Option<ItemRef<'a, K, V, P::Touch>>
        ensures { YieldsFirst (λ rest. rest) self.old result self.new }
    {
        while let Some(item) = self.items.next() {
            if item.weight() == 0 {
                return Some(item);
            }
        }
        None
    }
}

/// All items, each as its key, its value, its ring and its mark: those of the hot ring, the next to
/// be visited first, those of the cold ring in the same way, and then what weighs nothing.
#[derive(Drop)]
pub struct SavedIter<'a, K: Eq + Hash, V, P: SharedPlaceholder<K>, A: Allocator = Global> {
    pub(crate) hot: RingIter<'a, K, V, P::Kept, P::Touch, A>,
    pub(crate) cold: RingIter<'a, K, V, P::Kept, P::Touch, A>,
    pub(crate) weightless: Weightless<'a, K, V, P>,
}

impl<'a, K: Eq + Hash, V, P: SharedPlaceholder<K>, A: Allocator> Model
    for SavedIter<'a, K, V, P, A> {
    ghost use Rattle.std.specs.Prelude.{ℕ, List, ◌++◌, map};
    ghost use Rattle.quick_cache_model.specs.declared.queue.Queue.{Queue};
    ghost use Rattle.quick_cache_shard.specs.Saved.{saved_of};

    ghost Value = { List (K × V × Queue × ℕ) };

    ghost view = { λ it. map saved_of (it.hot ++ it.cold ++ it.weightless) };
}

impl<'a, K: Eq + Hash, V, P: SharedPlaceholder<K>, A: Allocator> SavedIter<'a, K, V, P, A> {
    /// The next item.
    fn next_item(&mut self) -> Option<ItemRef<'a, K, V, P::Touch>>
        ensures { YieldsFirstBy saved_of (λ rest. rest) self.old result self.new }
    {
        if let Some(item) = self.hot.next() {
            return Some(item);
        }
        if let Some(item) = self.cold.next() {
            return Some(item);
        }
        self.weightless.next()
    }
}

impl<'a, K: Eq + Hash, V, P: SharedPlaceholder<K>, A: Allocator> Iterator
    for SavedIter<'a, K, V, P, A> {
    type Item = (&'a K, &'a V, Queue, u8);

    ghost next_gives = { YieldsFirstBy (λ item. (item.0.now, item.1.now, item.2, item.3))
        (λ rest. rest) };

    ghost remaining = { item_count (λ rest. rest) };

    fn next(&mut self) -> Option<(&'a K, &'a V, Queue, u8)> {
        let item = self.next_item()?;
        Some((item.key(), item.value(), item.queue(), item.mark()))
    }

    fn size_hint(&self) -> (usize, Option<usize>)
        ensures lower { IsWithinCount result.0 (at_most (length self.now)) }
        ensures upper { IfSome result.1 (UpTo (at_most (length self.now))) }
    {
        (0, None)
    }
}

impl<'a, K: Eq + Hash, V, P: SharedPlaceholder<K>, A: Allocator> FusedIterator
    for SavedIter<'a, K, V, P, A> {}
