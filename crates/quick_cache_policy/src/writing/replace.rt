//! A replace: a pair comes in over an item alone.
ghost use Rattle.quick_cache_policy.specs.Contents.{IsSound, state_of};
ghost use Rattle.std.specs.Prelude.{◌≡◌};
ghost use Rattle.quick_cache_policy.specs.Places.{KeepsPlaces};
ghost use Rattle.quick_cache_policy.specs.Policies.{rules_by};
ghost use Rattle.quick_cache_policy.specs.Stays.{WritesWithin};
ghost use Rattle.quick_cache_policy.specs.Replaces.{Replaces};

use crate::contents::Contents;
use crate::policy::Policy;
use crate::strategy::InsertStrategy;
use crate::writing::admission::Admission;
use quick_cache_model::SharedPlaceholder;
use quick_cache_store::lists::Found;
use std::alloc::Allocator;
use std::hash::Hash;

impl<K: Eq + Hash + Drop, V: Drop, P: SharedPlaceholder<K>, A: Allocator> Contents<K, V, P, A> {
    /// Writes a pair over the item under its key. The pair comes back where there is none, and where
    /// it is too heavy, and then the item has left.
    pub fn replace<M: Policy<K, V>>(
        &mut self,
        terms: &M,
        state: &mut M::RequestState,
        hash: u64,
        key: K,
        value: V,
        soft: bool,
    ) -> Result<(), (K, V)>
        requires sound { IsSound P.ticket_of K.eq (M.hashed terms.now) self.old }
        requires hash_is { hash ≡ M.hashed terms.now key }
        ensures answers { Replaces (M.steady terms.now) (M.hooks terms.now)
            (rules_by M.Policy P.Touch.may_count terms.now) K.eq (state_of P.ticket_of self.old)
            soft state.old key value result (state_of P.ticket_of self.new) state.new }
        // No item that stays moves, and it takes no room.
        ensures stays { WritesWithin P.ticket_of K.eq (M.hashed terms.now) (KeepsPlaces K.eq) 0
            self.old self.new }
    {
        self.facts();
        let found = self.lists.find(hash, &key);
        match self.admit(terms, state, &key, value) {
            Admission::Admitted(weighed) => {
                let Found::Item(token) = found else {
                    return Err((key, weighed.value));
                };
                let strategy = InsertStrategy::Replace { soft };
                self.overwrite(token, terms, state, hash, key, weighed, strategy);
                Ok(())
            }
            Admission::TooHeavy(value) => {
                self.take_out_item(found, terms, state, &key, hash);
                Err((key, value))
            }
        }
    }
}
