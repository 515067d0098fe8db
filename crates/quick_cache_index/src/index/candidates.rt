//! Tokens that may be of a hash, one after another.
ghost use Rattle.std.specs.Prelude.{◌≡◌};
ghost use Rattle.std.specs.Iterator.{YieldsFirstBy, item_count};
ghost use Rattle.std.specs.Int.NonZero.{non_zero_u32_get};
ghost use Rattle.quick_cache_index.specs.Index.{IsSeen};

use super::Token;
use super::walk::Walk;
use std::iter::FusedIterator;
use std::marker::Model;

/// What a look at the home group of a hash tells of its candidates.
#[derive(Clone, Copy)]
pub enum Look {
    /// The first of them.
    At(Token),
    /// That there are none.
    Nothing,
    /// That they are farther out, if there are any.
    Beyond,
}

/// Tokens that may be of a hash, seen as the list of those that are left.
#[derive(Drop)]
pub struct Candidates<'a> {
    pub(crate) walk: Walk<'a>,
}

impl<'a> Model for Candidates<'a> {
    ghost use Rattle.std.specs.Prelude.{ℕ, List};

    ghost Value = { List ℕ };

    ghost use Rattle.quick_cache_index.specs.IndexGroups.{IsWalk, candidates_left};

    ghost view = { λ it. candidates_left it.walk };

    ghost invariant = { λ it. IsWalk it.walk };
}

impl<'a> Candidates<'a> {
    /// What the group that is being read tells of them: it reads no other.
    #[inline(always)]
    pub fn look(&self) -> Look
        ensures { IsSeen self.now result }
    {
        self.walk.look()
    }
}

impl<'a> Iterator for Candidates<'a> {
    type Item = Token;

    ghost next_gives = { YieldsFirstBy non_zero_u32_get (λ rest. rest) };

    ghost remaining = { item_count (λ rest. rest) };

    #[inline(always)]
    fn next(&mut self) -> Option<Token> {
        let position = self.walk.next_tagged()?;
        let tokens = self.walk.tokens;
        Some(unsafe { Token::new_unchecked(tokens[position]) })
    }
}

impl<'a> FusedIterator for Candidates<'a> {}
