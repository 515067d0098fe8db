//! A walk over a `Pool`, by ascending token.
ghost use Rattle.std.specs.Prelude.{◌≡◌, ◌+◌, length};
ghost use Rattle.std.specs.Int.NonZero.{non_zero_u32_get as number};
ghost use Rattle.std.specs.Iterator.{YieldsFirstBy, item_count};

use crate::pool::blank::{Blank, occupant};
use crate::pool::past;
use quick_cache_model::Token;
use std::iter::FusedIterator;
use std::marker::Model;

/// The tokens and items of a pool from some token on, seen as the list of those that are left.
#[derive(Drop)]
pub struct IterFrom<'a, T: Blank> {
    pub(super) items: &'a [T],
    pub(super) free: &'a [u32],
    // How many slots come before these.
    pub(super) passed: usize,
}

impl<'a, T: Blank> Model for IterFrom<'a, T> {
    ghost use Rattle.std.specs.Prelude.{ℕ, List};

    ghost Value = { List (ℕ × T) };

    ghost use Rattle.quick_cache_store.specs.Pool.{entries_past};
    ghost use Rattle.quick_cache_store.specs.Stack.{slots_past, AreLeft};

    ghost view = { λ it. entries_past it.passed (slots_past it.free.now it.passed it.items.now) };

    ghost invariant = { λ it. AreLeft T.is_blank T.note_of it.free.now it.passed it.items.now };
}

impl<'a, T: Blank> Iterator for IterFrom<'a, T> {
    type Item = (Token, &'a T);

    ghost next_gives = { YieldsFirstBy (λ entry. (number entry.0, entry.1.now)) (λ rest. rest) };

    ghost remaining = { item_count (λ rest. rest) };

    fn next(&mut self) -> Option<(Token, &'a T)> {
        while let Some((first, rest)) = self.items.split_first() {
            let token = past(self.passed);
            self.items = rest;
            self.passed += 1;
            if let Some(item) = occupant(self.free, token, first) {
                return Some((token, item));
            }
        }
        None
    }
}

impl<'a, T: Blank> FusedIterator for IterFrom<'a, T> {}
