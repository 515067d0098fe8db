//! How room is made: advances, one after another.
ghost use Rattle.std.specs.Prelude.{◌≡◌, ◌+◌, ◌*◌, ◌≤◌, if◌then◌else◌};
ghost use Rattle.quick_cache_model.specs.Eviction.{EvictsToTarget, AdvancesCold, EvictsToCapacity};
ghost use Rattle.quick_cache_model.specs.Hooks.{Calls};
ghost use Rattle.quick_cache_policy.specs.Advances.{Evicting};
ghost use Rattle.quick_cache_policy.specs.Contents.{IsSound, state_of, ring_count};
ghost use Rattle.quick_cache_policy.specs.Policies.{rules_by};
ghost use Rattle.quick_cache_policy.specs.Stays.{MakesRoom};

use crate::contents::Contents;
use crate::evicting::cold::Search;
use crate::policy::Policy;
use quick_cache_model::{Queue, SharedPlaceholder};
use std::alloc::Allocator;
use std::hash::Hash;

impl<K: Eq + Hash + Drop, V: Drop, P: SharedPlaceholder<K>, A: Allocator> Contents<K, V, P, A> {
    /// Makes hot advances while the hot ring weighs more than its target, up to one that answers
    /// no.
    pub(crate) fn evict_to_target<M: Policy<K, V>>(
        &mut self,
        terms: &M,
        state: &mut M::RequestState,
    )
        requires sound { IsSound P.ticket_of K.eq (M.hashed terms.now) self.old }
        ensures evicts { Calls (M.hooks terms.now)
            (Evicting (M.steady terms.now)
            (EvictsToTarget (rules_by M.Policy P.Touch.may_count terms.now))
            (state_of P.ticket_of self.old) (state_of P.ticket_of self.new))
            state.old state.new }
        ensures fewer { ring_count Queue.Hot self.new ≤ ring_count Queue.Hot self.old }
        ensures cold { ring_count Queue.Cold self.new ≡ ring_count Queue.Cold self.old }
        ensures stays { MakesRoom P.ticket_of K.eq (M.hashed terms.now) 1 self.old self.new }
    {
        self.facts();
        while self.lists.weight(Queue::Hot) > u128::from(self.hot_target) {
            if !self.advance_hot(terms, state) {
                return;
            }
        }
    }

    /// Takes the first item that is marked or unpinned out of the cold ring: a marked one goes to
    /// the hot ring, which is then brought to its target, an unmarked one leaves. Where there is
    /// none it is a hot advance.
    #[inline(always)]
    pub(crate) fn advance_cold<M: Policy<K, V>>(
        &mut self,
        terms: &M,
        state: &mut M::RequestState,
    ) -> bool
        requires sound { IsSound P.ticket_of K.eq (M.hashed terms.now) self.old }
        ensures advances { Calls (M.hooks terms.now)
            (Evicting (M.steady terms.now)
            (λ old. AdvancesCold (rules_by M.Policy P.Touch.may_count terms.now) old result)
            (state_of P.ticket_of self.old) (state_of P.ticket_of self.new))
            state.old state.new }
        ensures falls { ring_count Queue.Hot self.new + 2 * ring_count Queue.Cold self.new
            + (if result then 1 else 0)
            ≤ ring_count Queue.Hot self.old + 2 * ring_count Queue.Cold self.old }
        ensures stays { MakesRoom P.ticket_of K.eq (M.hashed terms.now) (if result then 0 else 1)
            self.old self.new }
    {
        self.facts();
        match self.search_cold(terms) {
            Search::Marked => {
                self.promote_first(terms);
                self.evict_to_target(terms, state);
                true
            }
            Search::Victim => {
                self.evict_cold(terms, state);
                true
            }
            Search::AllPassed => self.advance_hot(terms, state),
        }
    }

    /// Makes cold advances while all items and what is needed weigh more than the capacity, up to
    /// one that answers no.
    #[inline(always)]
    pub(crate) fn evict_to_capacity<M: Policy<K, V>>(
        &mut self,
        need: u64,
        terms: &M,
        state: &mut M::RequestState,
    )
        requires sound { IsSound P.ticket_of K.eq (M.hashed terms.now) self.old }
        ensures evicts { Calls (M.hooks terms.now)
            (Evicting (M.steady terms.now)
            (EvictsToCapacity (rules_by M.Policy P.Touch.may_count terms.now) need)
            (state_of P.ticket_of self.old) (state_of P.ticket_of self.new))
            state.old state.new }
        ensures stays { MakesRoom P.ticket_of K.eq (M.hashed terms.now) 1 self.old self.new }
    {
        self.facts();
        while self.lists.weight(Queue::Hot) + self.lists.weight(Queue::Cold) + u128::from(need)
            > u128::from(self.capacity)
        {
            if !self.advance_cold(terms, state) {
                return;
            }
        }
    }
}
