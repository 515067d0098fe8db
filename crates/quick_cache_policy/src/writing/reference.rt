//! A value that is written where it stands, and its item, which is weighed anew.
ghost use Rattle.std.specs.Prelude.{◌<◌};
ghost use Rattle.std.specs.Borrow.{sem};
ghost use Rattle.std.specs.Int.NonZero.{non_zero_u32_get as number};
ghost use Rattle.quick_cache_store.specs.Lists.{FindsItem, HasItemToken, IsValueAt};
ghost use Rattle.quick_cache_policy.specs.Contents.{IsSound, state_of};
ghost use Rattle.quick_cache_policy.specs.Finding.{AreUnder};
ghost use Rattle.quick_cache_policy.specs.Policies.{rules_by};
ghost use Rattle.quick_cache_policy.specs.References.{count_under, ReweighsUnder};
ghost use Rattle.quick_cache_policy.specs.Stays.{KeepsEntries};

use crate::contents::Contents;
use crate::policy::Policy;
use quick_cache_model::{Equivalent, SharedPlaceholder, Token};
use std::alloc::Allocator;
use std::hash::Hash;

impl<K: Eq + Hash, V, P: SharedPlaceholder<K>, A: Allocator> Contents<K, V, P, A> {
    ghost use Rattle.quick_cache_policy.specs.Lent.{lends_value_at};

    /// The token of the item under the query. Where that is the one at which the item is thought to
    /// stand, nothing is searched.
    #[inline]
    pub fn token_under<Q: Equivalent<K>>(
        &self,
        thought: Option<Token>,
        hash: u64,
        query: &Q,
    ) -> Token
        requires under { AreUnder (Q.equivalent query.now) hash self.now.lists }
        requires there { 0 < count_under (Q.equivalent query.now) (state_of P.ticket_of self.now) }
        ensures { FindsItem (Q.equivalent query.now) hash self.now.lists (number result) }
    {
        if let Some(token) = thought {
            if let Some(_) = self.item_if_under(token, query) {
                return token;
            }
        }
        self.find_item(hash, query).unwrap()
    }

    /// The value of the item of a token, to write. The item keeps its place and its weight.
    #[inline]
    pub fn value_mut(&mut self, token: Token) -> &mut V
        requires { HasItemToken self.old.lists (number token) }
        ensures* writes_back { sem 𝓛 (lends_value_at K.row V.row P.row A.row P.Touch.row
            P.Kept.row A.Allocator self.entry (number token) result) }
        ensures value { IsValueAt self.old.lists (number token) result.now }
    {
        self.lists.value_mut(token)
    }

    /// Weighs the item under the query anew, which is found as by `token_under`. One that lost its
    /// weight leaves its ring, which begins behind it; one that gained weight is put last in the
    /// ring of its queue; and any other keeps its place. Nothing leaves the cache, whatever the
    /// weight.
    pub fn reweigh<M: Policy<K, V>, Q: Equivalent<K>>(
        &mut self,
        thought: Option<Token>,
        hash: u64,
        query: &Q,
        terms: &M,
    )
        requires under { AreUnder (Q.equivalent query.now) hash self.old.lists }
        requires there { 0 < count_under (Q.equivalent query.now) (state_of P.ticket_of self.old) }
        requires sound { IsSound P.ticket_of K.eq (M.hashed terms.now) self.old }
        ensures reweighs { ReweighsUnder (Q.equivalent query.now)
            (rules_by M.Policy P.Touch.may_count terms.now) (state_of P.ticket_of self.old)
            (state_of P.ticket_of self.new) }
        ensures there { 0 < count_under (Q.equivalent query.now) (state_of P.ticket_of self.new) }
        ensures stays { KeepsEntries P.ticket_of K.eq (M.hashed terms.now) self.old self.new }
    {
        let token = self.token_under(thought, hash, query);
        self.weigh_item(token, hash, query, terms);
    }

    /// Weighs the item of a token anew, as `reweigh` says.
    pub(crate) fn weigh_item<M: Policy<K, V>, Q: Equivalent<K>>(
        &mut self,
        token: Token,
        hash: u64,
        _query: &Q,
        terms: &M,
    )
        requires found { FindsItem (Q.equivalent _query.now) hash self.old.lists (number token) }
        requires sound { IsSound P.ticket_of K.eq (M.hashed terms.now) self.old }
        ensures reweighs { ReweighsUnder (Q.equivalent _query.now)
            (rules_by M.Policy P.Touch.may_count terms.now) (state_of P.ticket_of self.old)
            (state_of P.ticket_of self.new) }
        ensures there { 0 < count_under (Q.equivalent _query.now) (state_of P.ticket_of self.new) }
        ensures stays { KeepsEntries P.ticket_of K.eq (M.hashed terms.now) self.old self.new }
    {
        self.lists.facts();
        let item = self.lists.item(token);
        let weight = terms.weigh(item.key(), item.value());
        self.lists.reweigh(token, weight);
    }
}
