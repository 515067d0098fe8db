//! A pair that a cache had before comes back to where it stood.
ghost use Rattle.std.specs.Prelude.{◌≡◌, ◌+◌, ◌≤◌, IfErr, Some};
ghost use Rattle.quick_cache_policy.specs.Contents.{IsSound, state_of};
ghost use Rattle.quick_cache_policy.specs.Places.{KeepsPlaces, places_of};
ghost use Rattle.quick_cache_policy.specs.Policies.{rules_by};
ghost use Rattle.quick_cache_policy.specs.Restoring.{AnswersRestore};

use crate::contents::Contents;
use crate::policy::Policy;
use quick_cache_model::{Queue, Refusal, SharedPlaceholder};
use quick_cache_store::lists::{Entry, Found, Marked};
use std::alloc::Allocator;
use std::hash::Hash;

impl<K: Eq + Hash + Drop, V: Drop, P: SharedPlaceholder<K>, A: Allocator> Contents<K, V, P, A> {
    /// Puts a pair last in that ring, or among the weightless, with that mark or the greatest there
    /// is. It comes in where nothing is known of its key. Nothing leaves for it, whatever it weighs,
    /// and no hook is called. All growth comes first, so that a pair that is given back has changed
    /// nothing.
    pub fn restore<M: Policy<K, V>>(
        &mut self,
        terms: &M,
        hash: u64,
        key: K,
        value: V,
        queue: Queue,
        mark: u8,
    ) -> Result<(), (K, V, Option<Refusal>)>
        requires sound { IsSound P.ticket_of K.eq (M.hashed terms.now) self.old }
        requires hash_is { hash ≡ M.hashed terms.now key }
        ensures answers { AnswersRestore (rules_by M.Policy P.Touch.may_count terms.now) K.eq
            key value queue mark (state_of P.ticket_of self.old) result
            (state_of P.ticket_of self.new) }
        // It asks for memory only where there is no room.
        ensures asks { IfErr result
            (λ back. back.2 ≡ Some Refusal.Memory → self.old.lists.room ≡ 0) }
        ensures sound { IsSound P.ticket_of K.eq (M.hashed terms.now) self.new }
        // No item moves, and it takes room for one entry at most.
        ensures places { KeepsPlaces K.eq (places_of self.old.lists) (places_of self.new.lists) }
        ensures room { self.old.lists.room ≤ self.new.lists.room + 1 }
        ensures same { self.new ≡ record self.old { lists = self.new.lists } }
    {
        let found = self.lists.find(hash, &key);
        let Found::Nothing = found else {
            return Err((key, value, None));
        };
        if let Err(refusal) = self.provide(found) {
            return Err((key, value, Some(refusal)));
        }
        let weight = terms.weigh(&key, &value);
        let mark = mark.min(self.mark_cut);
        let item = Marked::new(key, value, weight, mark, queue, P::Touch::default());
        let _ = self.lists.put(hash, Entry::Item(item));
        Ok(())
    }
}
