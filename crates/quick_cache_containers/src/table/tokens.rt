//! The tokens of one hash, one after another.
ghost use Rattle.std.specs.Prelude.{◌≡◌};
ghost use Rattle.std.specs.Iterator.{YieldsFirstBy, item_count};
ghost use Rattle.std.specs.Int.NonZero.{non_zero_u32_get};

use super::Token;
use super::walk::Walk;
use std::iter::FusedIterator;
use std::marker::Model;

/// The tokens of one hash, seen as the list of those that are left.
#[derive(Drop)]
pub struct Tokens<'a> {
    pub(crate) walk: Walk<'a>,
}

impl<'a> Model for Tokens<'a> {
    ghost use Rattle.std.specs.Prelude.{ℕ, List};

    ghost Value = { List ℕ };

    ghost use Rattle.quick_cache_containers.specs.TableGroups.{IsWalk, tokens_left};

    ghost view = { λ it. tokens_left it.walk };

    ghost invariant = { λ it. IsWalk it.walk };
}

impl<'a> Iterator for Tokens<'a> {
    type Item = Token;

    ghost next_gives = { YieldsFirstBy non_zero_u32_get (λ rest. rest) };

    ghost remaining = { item_count (λ rest. rest) };

    fn next(&mut self) -> Option<Token> {
        let position = self.walk.next_position()?;
        Some(unsafe { Token::new_unchecked(self.walk.places.token(position)) })
    }
}

impl<'a> FusedIterator for Tokens<'a> {}
