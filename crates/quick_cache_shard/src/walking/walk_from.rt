//! A walk by tokens, which shows what stands behind one.
ghost use Rattle.std.specs.Prelude.{◌≡◌, ℕ, ◌<◌, IfSome};
ghost use Rattle.std.specs.Iterator.{UpTo};
ghost use Rattle.std.specs.Iterator.SizeHint.{IsWithinCount};
ghost use Rattle.std.specs.List.{Contains};
ghost use Rattle.quick_cache_store.specs.Lists.{number_or_zero};
ghost use Rattle.quick_cache_shard.specs.Shard.{residents, IsSoundShard};
ghost use Rattle.quick_cache_shard.specs.WalksFrom.{WalkFrom};

use crate::shard::CacheShard;
use quick_cache_model::Token;
use quick_cache_policy::SharedPlaceholder;
use quick_cache_store::lists::Lists;
use std::alloc::{Allocator, Global};
use std::hash::{BuildHasher, Hash};
use std::marker::Model;

/// The items of greater token than one, those of weight 0 too, by ascending token: each as its
/// token, its key and its value.
#[derive(Drop)]
pub struct IterFrom<'a, K: Eq + Hash, V, P: SharedPlaceholder<K>, A: Allocator = Global> {
    lists: &'a Lists<K, V, P::Kept, P::Touch, A>,
    // The token behind which it goes on.
    after: Option<Token>,
}

impl<'a, K: Eq + Hash, V, P: SharedPlaceholder<K>, A: Allocator> Model
    for IterFrom<'a, K, V, P, A> {
    ghost use Rattle.quick_cache_store.specs.Lists.{number_or_zero};
    ghost use Rattle.quick_cache_store.specs.Views.{residents};
    ghost use Rattle.quick_cache_policy.specs.Places.{places_of};
    ghost use Rattle.quick_cache_shard.specs.WalksFrom.{WalkFrom};

    ghost Value = { WalkFrom K V };

    ghost view = { λ it. record {
      places = places_of it.lists.now;
      residents = residents it.lists.now;
      after = number_or_zero it.after;
    } };
}

impl<'a, K: Eq + Hash, V, P: SharedPlaceholder<K>, A: Allocator> Iterator
    for IterFrom<'a, K, V, P, A> {
    ghost use Rattle.quick_cache_shard.specs.WalksFrom.{GivesNext, tokens_left};

    type Item = (Token, &'a K, &'a V);

    ghost next_gives = { GivesNext };

    ghost remaining = { tokens_left };

    fn next(&mut self) -> Option<(Token, &'a K, &'a V)> {
        let Some(token) = self.lists.first_above(self.after) else {
            return None;
        };
        let item = self.lists.item(token);
        self.after = Some(token);
        Some((token, item.key(), item.value()))
    }

    fn size_hint(&self) -> (usize, Option<usize>)
        ensures lower { IsWithinCount result.0 (tokens_left self.now) }
        ensures upper { IfSome result.1 (UpTo (tokens_left self.now)) }
    {
        (0, None)
    }
}

impl<K: Eq + Hash, V, We, B: BuildHasher, L, P: SharedPlaceholder<K>, A: Allocator> CacheShard<
    K,
    V,
    We,
    B,
    L,
    P,
    A,
> {
    /// Shows the items of greater token than this one, by ascending token, and all where none is
    /// given. Nothing changes: it is no use of them. Each step looks at the slots up to the next
    /// item.
    pub fn iter_from(&self, after: Option<Token>) -> IterFrom<'_, K, V, P, A>
        ensures begins { result ≡ record {
          places = self.now.places;
          residents = residents self.now.state;
          after = number_or_zero after;
        } }
        // So a walk that begins with none meets each item.
        ensures numbered { (place : ℕ × K) → Contains self.now.places place → 0 < place.0 }
        ensures sound { IsSoundShard K.eq self.now }
    {
        self.facts();
        self.contents.lists.numbered();
        IterFrom {
            lists: &self.contents.lists,
            after,
        }
    }
}
