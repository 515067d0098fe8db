//! A look that changes nothing.
ghost use Rattle.std.specs.Prelude.{◌≡◌, ◌<◌, true, IfNone, IfSome, MatchOption};
ghost use Rattle.std.specs.Int.NonZero.{non_zero_u32_get as number};
ghost use Rattle.quick_cache_store.specs.Lists.{FindsItem, FindsItemOfAnyHash, IsItemOf};
ghost use Rattle.quick_cache_model.specs.Finding.{HasNoItem};
ghost use Rattle.quick_cache_policy.specs.Contents.{state_of};
ghost use Rattle.quick_cache_policy.specs.Finding.{AreUnder, IsThere};
ghost use Rattle.quick_cache_policy.specs.References.{count_under};

use crate::contents::Contents;
use quick_cache_model::{Equivalent, SharedPlaceholder, Token};
use quick_cache_store::lists::ItemRef;
use std::alloc::Allocator;
use std::hash::Hash;

impl<K: Eq + Hash, V, P: SharedPlaceholder<K>, A: Allocator> Contents<K, V, P, A> {
    /// The item under the query. Nothing changes.
    #[inline(always)]
    pub fn peek<Q: Equivalent<K>>(
        &self,
        hash: u64,
        query: &Q,
    ) -> Option<ItemRef<'_, K, V, P::Touch>>
        requires under { AreUnder (Q.equivalent query.now) hash self.now.lists }
        ensures { MatchOption result
            (HasNoItem (Q.equivalent query.now) (state_of P.ticket_of self.now))
            (λ item. IsThere (Q.equivalent query.now) (state_of P.ticket_of self.now) item) }
    {
        self.lists.facts();
        let Some(token) = self.find_item(hash, query) else {
            return None;
        };
        Some(self.lists.item(token))
    }

    /// The token of the item under the query, if there is one. Nothing changes.
    #[inline]
    pub fn token_of<Q: Equivalent<K>>(&self, hash: u64, query: &Q) -> Option<Token>
        requires under { AreUnder (Q.equivalent query.now) hash self.now.lists }
        ensures absent { IfNone result
            (HasNoItem (Q.equivalent query.now) (state_of P.ticket_of self.now)) }
        ensures finds { IfSome result
            (λ token. FindsItem (Q.equivalent query.now) hash self.now.lists (number token)) }
        ensures there { IfSome result
            (λ _. 0 < count_under (Q.equivalent query.now) (state_of P.ticket_of self.now)) }
    {
        self.find_item(hash, query)
    }

    /// The item under the query, of which it is thought that it stands at that token: where it
    /// does, nothing is searched. Nothing changes.
    #[inline]
    pub fn peek_from<Q: Equivalent<K>>(
        &self,
        token: Token,
        hash: u64,
        query: &Q,
    ) -> Option<ItemRef<'_, K, V, P::Touch>>
        requires under { AreUnder (Q.equivalent query.now) hash self.now.lists }
        ensures { MatchOption result
            (HasNoItem (Q.equivalent query.now) (state_of P.ticket_of self.now))
            (λ item. IsThere (Q.equivalent query.now) (state_of P.ticket_of self.now) item) }
    {
        if let Some(item) = self.item_if_under(token, query) {
            return Some(item);
        }
        self.peek(hash, query)
    }

    /// The item that stands at the token, if the query stands for its key. Nothing is searched.
    #[inline]
    pub(crate) fn item_if_under<Q: Equivalent<K>>(
        &self,
        token: Token,
        query: &Q,
    ) -> Option<ItemRef<'_, K, V, P::Touch>>
        ensures { MatchOption result
            (¬ FindsItemOfAnyHash (Q.equivalent query.now) self.now.lists (number token))
            (λ item. IsItemOf self.now.lists (number token) item
            × (Q.equivalent query.now item.key ≡ true)) }
    {
        self.lists.facts();
        let Some(item) = self.lists.item_at(token) else {
            return None;
        };
        if query.equivalent(item.key()) {
            return Some(item);
        }
        None
    }
}
