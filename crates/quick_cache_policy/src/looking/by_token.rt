//! The item of a token, which is weighed anew.
ghost use Rattle.std.specs.Prelude.{ℕ, Bool};
ghost use Rattle.std.specs.List.{Contains};
ghost use Rattle.std.specs.Int.NonZero.{non_zero_u32_get as number};
ghost use Rattle.quick_cache_store.specs.Lists.{FindsItem, HasItemToken};
ghost use Rattle.quick_cache_policy.specs.Contents.{IsSound, state_of};
ghost use Rattle.quick_cache_policy.specs.Places.{places_of};
ghost use Rattle.quick_cache_policy.specs.Policies.{rules_by};
ghost use Rattle.quick_cache_policy.specs.References.{ReweighsUnder};
ghost use Rattle.quick_cache_policy.specs.Stays.{KeepsEntries};

use crate::contents::Contents;
use crate::policy::Policy;
use quick_cache_model::{SharedPlaceholder, Token};
use std::alloc::Allocator;
use std::hash::Hash;

impl<K: Eq + Hash, V, P: SharedPlaceholder<K>, A: Allocator> Contents<K, V, P, A> {
    /// Weighs the item of a token anew, as `reweigh` does for the query that it is found by.
    pub fn reweigh_token<M: Policy<K, V>>(&mut self, token: Token, terms: &M)
        requires there { HasItemToken self.old.lists (number token) }
        requires sound { IsSound P.ticket_of K.eq (M.hashed terms.now) self.old }
        ensures reweighs { (stands_for : K → Bool) (hash : ℕ)
            → FindsItem stands_for hash self.old.lists (number token)
            → ReweighsUnder stands_for (rules_by M.Policy P.Touch.may_count terms.now)
            (state_of P.ticket_of self.old) (state_of P.ticket_of self.new) }
        // An item stands at the token still.
        ensures there { (key : K) × Contains (places_of self.new.lists) (number token, key) }
        ensures stays { KeepsEntries P.ticket_of K.eq (M.hashed terms.now) self.old self.new }
    {
        self.lists.facts();
        let item = self.lists.item(token);
        let weight = terms.weigh(item.key(), item.value());
        self.lists.reweigh(token, weight);
    }
}
