//! Items by their tokens.
ghost use Rattle.std.specs.Prelude.{◌≡◌, ◌≤◌, IfSome, MatchOption};
ghost use Rattle.std.specs.Int.NonZero.{non_zero_u32_get as number};
ghost use Rattle.std.specs.Option.{option_map};
ghost use Rattle.quick_cache_store.specs.Lists.{HasItemToken, IsFirstAbove, IsItemOf, number_or_zero};
ghost use Rattle.quick_cache_model.specs.CacheState.{item_count};
ghost use Rattle.quick_cache_policy.specs.Contents.{state_of};
ghost use Rattle.quick_cache_policy.specs.Stays.{KeepsSound};
ghost use Rattle.quick_cache_policy.specs.Tokens.{TakesItem, TakesToken};

use crate::contents::Contents;
use quick_cache_model::{SharedPlaceholder, Token};
use quick_cache_store::lists::{Entry, ItemRef, Order};
use std::alloc::Allocator;
use std::hash::Hash;

impl<K: Eq + Hash, V, P: SharedPlaceholder<K>, A: Allocator> Contents<K, V, P, A> {
    /// The item of a token, if one stands there. Nothing changes.
    pub fn peek_token(&self, token: Token) -> Option<ItemRef<'_, K, V, P::Touch>>
        ensures { MatchOption result
            (¬ HasItemToken self.now.lists (number token))
            (λ item. IsItemOf self.now.lists (number token) item) }
    {
        self.lists.item_at(token)
    }

    /// Takes the item of a token out and gives its pair, if one stands there.
    pub fn remove_token(&mut self, token: Token) -> Option<(K, V)>
        ensures removes { MatchOption result
            (¬ HasItemToken self.old.lists (number token) × (self.new ≡ self.old))
            (λ pair. TakesToken self.old (number token) pair self.new) }
        ensures takes { MatchOption result
            (state_of P.ticket_of self.new ≡ state_of P.ticket_of self.old)
            (λ pair. TakesItem (state_of P.ticket_of self.old) pair
            (state_of P.ticket_of self.new)) }
        ensures sound { KeepsSound P.ticket_of K.eq self.old self.new }
        ensures room { self.old.lists.room ≤ self.new.lists.room }
        ensures same { self.new ≡ record self.old { lists = self.new.lists } }
    {
        self.lists.facts();
        if self.lists.item_at(token).is_some() {
            return Some(self.take_item(token));
        }
        None
    }

    /// Takes out the item of the least token above this one, or of the least token of all where none
    /// is given, and gives its token, its key and its value. It looks at the slots between.
    pub fn remove_next(&mut self, after: Option<Token>) -> Option<(Token, K, V)>
        ensures first { IsFirstAbove self.old.lists (number_or_zero after)
            (option_map (λ taken. taken.0) result) }
        ensures token { MatchOption result
            (self.new ≡ self.old)
            (λ taken. TakesToken self.old (number taken.0) (taken.1, taken.2) self.new) }
        ensures takes { IfSome result
            (λ taken. TakesItem (state_of P.ticket_of self.old) (taken.1, taken.2)
            (state_of P.ticket_of self.new)) }
        ensures sound { KeepsSound P.ticket_of K.eq self.old self.new }
        ensures room { self.old.lists.room ≤ self.new.lists.room }
        ensures same { self.new ≡ record self.old { lists = self.new.lists } }
    {
        self.lists.facts();
        let Some(token) = self.lists.first_above(after) else {
            return None;
        };
        let (key, value) = self.take_item(token);
        Some((token, key, value))
    }

    /// Takes out the item of the least token above this one, or of the least token of all where no
    /// item stands above it, and gives its token and its pair.
    pub fn take_next(&mut self, after: Option<Token>) -> Option<(Token, (K, V))>
        ensures takes { MatchOption result
            ((item_count (state_of P.ticket_of self.old) ≡ 0) × (self.new ≡ self.old))
            (λ taken. TakesItem (state_of P.ticket_of self.old) taken.1
            (state_of P.ticket_of self.new)) }
        ensures token { IfSome result
            (λ taken. TakesToken self.old (number taken.0) taken.1 self.new) }
        ensures sound { KeepsSound P.ticket_of K.eq self.old self.new }
        ensures room { self.old.lists.room ≤ self.new.lists.room }
        ensures same { self.new ≡ record self.old { lists = self.new.lists } }
    {
        self.lists.facts();
        let token = self.token_above(after)?;
        Some((token, self.take_item(token)))
    }

    // The least token of an item above this one, or of all where no item stands above it.
    fn token_above(&self, after: Option<Token>) -> Option<Token>
        ensures { MatchOption result
            (item_count (state_of P.ticket_of self.now) ≡ 0)
            (λ token. HasItemToken self.now.lists (number token)) }
    {
        self.lists.numbered();
        if let Some(token) = self.lists.first_above(after) {
            return Some(token);
        }
        self.lists.first_above(None)
    }

    /// Takes the item of a token out and gives its pair. Its ring keeps the order of the rest.
    pub(crate) fn take_item(&mut self, token: Token) -> (K, V)
        requires { HasItemToken self.old.lists (number token) }
        ensures takes { TakesToken self.old (number token) result self.new }
        ensures sound { KeepsSound P.ticket_of K.eq self.old self.new }
    {
        self.lists.facts();
        let slot = self.lists.take(token, Order::Kept);
        match slot.entry {
            Entry::Item(item) => {
                self.keep_hits(&item);
                item.into_pair()
            }
            Entry::Loading(_) => unreachable!(),
            Entry::Ghost => unreachable!(),
        }
    }
}
