//! Walks over the slots, by ascending token.
ghost use Rattle.std.specs.Prelude.{◌≡◌, MatchOption, IfSome};
ghost use Rattle.std.specs.Int.NonZero.{non_zero_u32_get as number};
ghost use Rattle.std.specs.Iterator.{YieldsFirst, YieldsFirstBy, item_count, at_most, UpTo};
ghost use Rattle.quick_cache_store.specs.Pool.{items, entries_after};

use crate::pool::IterFrom;
use crate::slots::asides::AsideLists;
use crate::slots::refs::SlotRef;
use crate::slots::slots::{Slots, place};
use crate::slots::stored::StoredEntry;
use quick_cache_model::Token;
use std::alloc::Allocator;
use std::iter::FusedIterator;
use std::marker::Model;

/// The occupied slots that are left, each under its token.
#[derive(Drop)]
pub struct SlotsFrom<'a, K, V, P, T> {
    entries: IterFrom<'a, StoredEntry<K, V, P, T>>,
    asides: AsideLists<'a>,
}

impl<'a, K, V, P, T> Model for SlotsFrom<'a, K, V, P, T> {
    ghost use Rattle.std.specs.Prelude.{ℕ, List};
    ghost use Rattle.quick_cache_store.specs.declared.slots.entry.Slot.{Slot};

    ghost Value = { List (ℕ × Slot K V P T) };

    ghost use Rattle.quick_cache_store.specs.Walks.{entries_beside, AreCovered};

    ghost view = { λ it. entries_beside it.asides it.entries };

    ghost invariant = { λ it. AreCovered it.asides it.entries };
}

impl<'a, K, V, P, T> Iterator for SlotsFrom<'a, K, V, P, T> {
    type Item = (Token, SlotRef<'a, K, V, P, T>);

    ghost use Rattle.std.specs.Int.NonZero.{non_zero_u32_get as number};

    ghost next_gives = { YieldsFirstBy (λ entry. (number entry.0, entry.1)) (λ rest. rest) };

    ghost remaining = { item_count (λ rest. rest) };

    fn next(&mut self) -> Option<(Token, SlotRef<'a, K, V, P, T>)> {
        let (token, entry) = self.entries.next()?;
        let beside = self.asides.at(place(token));
        Some((token, SlotRef { entry, beside }))
    }
}

impl<'a, K, V, P, T> FusedIterator for SlotsFrom<'a, K, V, P, T> {}

/// The occupied slots that are left.
#[derive(Drop)]
pub struct SlotIter<'a, K, V, P, T> {
    slots: SlotsFrom<'a, K, V, P, T>,
}

impl<'a, K, V, P, T> Model for SlotIter<'a, K, V, P, T> {
    ghost use Rattle.std.specs.Prelude.{List, map};
    ghost use Rattle.quick_cache_store.specs.declared.slots.entry.Slot.{Slot};

    ghost Value = { List (Slot K V P T) };

    ghost view = { λ it. map (λ entry. entry.1) it.slots };
}

impl<'a, K, V, P, T> Iterator for SlotIter<'a, K, V, P, T> {
    type Item = SlotRef<'a, K, V, P, T>;

    ghost next_gives = { YieldsFirst (λ rest. rest) };

    ghost remaining = { item_count (λ rest. rest) };

    fn next(&mut self) -> Option<SlotRef<'a, K, V, P, T>> {
        let (_, slot) = self.slots.next()?;
        Some(slot)
    }
}

impl<'a, K, V, P, T> FusedIterator for SlotIter<'a, K, V, P, T> {}

impl<K, V, P, T, A: Allocator> Slots<K, V, P, T, A> {
    /// The occupied slots, by ascending token.
    pub fn iter(&self) -> SlotIter<'_, K, V, P, T>
        ensures { result ≡ items self.now }
    {
        SlotIter {
            slots: self.iter_from(None),
        }
    }

    /// The occupied slots of greater token than this, or all of them, by ascending token, each under
    /// its token.
    pub fn iter_from(&self, token: Option<Token>) -> SlotsFrom<'_, K, V, P, T>
        ensures { MatchOption token (result ≡ entries_after self.now 0)
            (λ token. result ≡ entries_after self.now (number token)) }
    {
        SlotsFrom {
            entries: self.pool.iter_from(token),
            asides: self.asides.lists(),
        }
    }
}
