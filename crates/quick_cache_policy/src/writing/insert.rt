//! An insert: a pair comes in over whatever stands under its key.
ghost use Rattle.std.specs.Prelude.{◌≡◌, ◌+◌, ◌≤◌, ◌<◌, None, IfErr};
ghost use Rattle.quick_cache_store.specs.Lists.{Finds, entry_count};
ghost use Rattle.quick_cache_model.specs.Hooks.{Calls};
ghost use Rattle.quick_cache_model.specs.Writes.{Insert};
ghost use Rattle.quick_cache_policy.specs.Contents.{IsSound, state_of};
ghost use Rattle.quick_cache_policy.specs.Finding.{Provides, TakesSlot};
ghost use Rattle.quick_cache_policy.specs.Inserts.{Inserts};
ghost use Rattle.quick_cache_policy.specs.Places.{KeepsPlaces, WritesPlace};
ghost use Rattle.quick_cache_policy.specs.Policies.{rules_by};
ghost use Rattle.quick_cache_policy.specs.Stays.{WritesWithin};
ghost use Rattle.quick_cache_policy.specs.Writing.{queue_by, WritingAdmitted};

use crate::contents::Contents;
use crate::policy::Policy;
use crate::strategy::InsertStrategy;
use crate::writing::admission::{Admission, Weighed};
use quick_cache_model::{Queue, Refusal, SharedPlaceholder};
use quick_cache_store::lists::{Entry, Found, Marked};
use std::alloc::Allocator;
use std::hash::Hash;

impl<K: Eq + Hash + Drop, V: Drop, P: SharedPlaceholder<K>, A: Allocator> Contents<K, V, P, A> {
    /// The queue of a pair of that weight that comes in: hot if it fits the hot target, or else this
    /// one.
    #[inline(always)]
    pub(crate) fn choose_queue(&self, weight: u64, otherwise: Queue) -> Queue
        ensures { result ≡ queue_by (state_of P.ticket_of self.now) weight otherwise }
    {
        let hot_weight = self.lists.weight(Queue::Hot) + u128::from(weight);
        if hot_weight <= u128::from(self.hot_target) {
            return Queue::Hot;
        }
        otherwise
    }

    /// Inserts a pair under a key of which nothing is known. Its ring is chosen before room is
    /// made.
    fn insert_new<M: Policy<K, V>>(
        &mut self,
        terms: &M,
        state: &mut M::RequestState,
        hash: u64,
        key: K,
        weighed: Weighed<V>,
    )
        requires sound { IsSound P.ticket_of K.eq (M.hashed terms.now) self.old }
        requires hash_is { hash ≡ M.hashed terms.now key }
        requires weight_is { weighed.weight ≡ M.weight_of terms.now key weighed.value }
        requires found { Finds (K.eq key) hash self.old.lists Found.Nothing }
        requires room { 0 < self.old.lists.room }
        ensures writes { Calls (M.hooks terms.now)
            (WritingAdmitted (M.steady terms.now)
            (rules_by M.Policy P.Touch.may_count terms.now) (K.eq key) key Insert
            (state_of P.ticket_of self.old) weighed.value None (state_of P.ticket_of self.new))
            state.old state.new }
        // No other item moves.
        ensures stays { WritesWithin P.ticket_of K.eq (M.hashed terms.now) (WritesPlace K.eq key) 1
            self.old self.new }
    {
        let Weighed { value, weight } = weighed;
        let queue = self.choose_queue(weight, Queue::Cold);
        self.evict_to_capacity(weight, terms, state);
        let item = Marked::new(key, value, weight, 0, queue, P::Touch::default());
        let _ = self.lists.put(hash, Entry::Item(item));
    }

    /// Inserts a pair that was admitted over what was found under its key.
    #[inline(always)]
    fn insert_admitted<M: Policy<K, V>>(
        &mut self,
        found: Found,
        terms: &M,
        state: &mut M::RequestState,
        hash: u64,
        key: K,
        weighed: Weighed<V>,
    )
        requires sound { IsSound P.ticket_of K.eq (M.hashed terms.now) self.old }
        requires hash_is { hash ≡ M.hashed terms.now key }
        requires weight_is { weighed.weight ≡ M.weight_of terms.now key weighed.value }
        requires found { Finds (K.eq key) hash self.old.lists found }
        requires room { TakesSlot found → 0 < self.old.lists.room }
        ensures writes { Calls (M.hooks terms.now)
            (WritingAdmitted (M.steady terms.now)
            (rules_by M.Policy P.Touch.may_count terms.now) (K.eq key) key Insert
            (state_of P.ticket_of self.old) weighed.value None (state_of P.ticket_of self.new))
            state.old state.new }
        // No other item moves.
        ensures stays { WritesWithin P.ticket_of K.eq (M.hashed terms.now) (WritesPlace K.eq key) 1
            self.old self.new }
    {
        match found {
            Found::Nothing => self.insert_new(terms, state, hash, key, weighed),
            Found::Ghost(token) => {
                self.enter_at(token, Queue::Hot, 0, terms, state, hash, key, weighed);
            }
            Found::Loading(token) => {
                self.lists.facts();
                let queue = self.lists.awaited(token).queue();
                self.enter_at(token, queue, 1, terms, state, hash, key, weighed);
            }
            Found::Item(token) => {
                let strategy = InsertStrategy::Insert;
                self.overwrite(token, terms, state, hash, key, weighed, strategy);
            }
        }
    }

    /// Makes room for an entry where nothing was found, or answers why there is none.
    pub(crate) fn provide(&mut self, found: Found) -> Result<(), Refusal>
        ensures lists { self.new ≡ record self.old {
          lists = record self.old.lists {
            room = self.new.lists.room;
          };
        } }
        ensures grows { self.old.lists.room ≤ self.new.lists.room }
        ensures provides { Provides found (entry_count self.old.lists) self.new.lists.room result }
        // Memory is asked for only where there is no room.
        ensures asks { IfErr result
            (λ refusal. refusal ≡ Refusal.Memory → self.old.lists.room ≡ 0) }
    {
        let Found::Nothing = found else {
            return Ok(());
        };
        self.lists.make_room()
    }

    /// Inserts a pair. All growth comes first, so that a refused insert has changed nothing and
    /// called no hook.
    pub fn insert<M: Policy<K, V>>(
        &mut self,
        terms: &M,
        state: &mut M::RequestState,
        hash: u64,
        key: K,
        value: V,
    ) -> Result<(), (K, V, Refusal)>
        requires sound { IsSound P.ticket_of K.eq (M.hashed terms.now) self.old }
        requires hash_is { hash ≡ M.hashed terms.now key }
        ensures answers { Inserts (M.steady terms.now) (M.hooks terms.now)
            (rules_by M.Policy P.Touch.may_count terms.now) K.eq (state_of P.ticket_of self.old)
            state.old key value result (state_of P.ticket_of self.new) state.new }
        // It asks for memory only where there is no room.
        ensures asks { IfErr result (λ back. back.2 ≡ Refusal.Memory → self.old.lists.room ≡ 0) }
        // No item that stays moves, and it takes room for one entry at most.
        ensures stays { WritesWithin P.ticket_of K.eq (M.hashed terms.now) (KeepsPlaces K.eq) 1
            self.old self.new }
    {
        self.facts();
        let found = self.lists.find(hash, &key);
        if let Err(refusal) = self.provide(found) {
            return Err((key, value, refusal));
        }
        match self.admit(terms, state, &key, value) {
            Admission::Admitted(weighed) => {
                self.insert_admitted(found, terms, state, hash, key, weighed);
                Ok(())
            }
            Admission::TooHeavy(value) => {
                self.turn_away(found, terms, state, hash, key, value);
                Ok(())
            }
        }
    }
}
