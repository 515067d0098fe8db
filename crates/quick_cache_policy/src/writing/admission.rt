//! Whether a pair may come in at all, and what becomes of one that may not.
ghost use Rattle.std.specs.Prelude.{◌≡◌, [], ◌∷◌, None};
ghost use Rattle.quick_cache_store.specs.Lists.{Finds};
ghost use Rattle.quick_cache_model.specs.Hooks.{Calls, RunsHooks, evicted};
ghost use Rattle.quick_cache_model.specs.Writes.{Insert, TakesOutItem};
ghost use Rattle.quick_cache_policy.specs.Contents.{IsSound, state_of};
ghost use Rattle.quick_cache_policy.specs.Policies.{rules_by};
ghost use Rattle.quick_cache_policy.specs.Stays.{LosesEntries};
ghost use Rattle.quick_cache_policy.specs.Writing.{Checks, IsReplacement, Rejecting};

use crate::contents::Contents;
use crate::policy::Policy;
use quick_cache_model::{Queue, SharedPlaceholder};
use quick_cache_store::lists::{Entry, Found, Order};
use std::alloc::Allocator;
use std::hash::Hash;

/// A value that was weighed.
#[derive(Drop)]
pub(crate) struct Weighed<V> {
    pub(crate) value: V,
    pub(crate) weight: u64,
}

/// The answer of a check, with the value as it then is.
pub(crate) enum Admission<V> {
    Admitted(Weighed<V>),
    TooHeavy(V),
}

/// Tells a pair that leaves to the hook of its queue.
pub(crate) fn report<K: Eq + Hash, V, M: Policy<K, V>>(
    queue: Queue,
    terms: &M,
    state: &mut M::RequestState,
    key: K,
    value: V,
)
    ensures { RunsHooks (M.hooks terms.now) (evicted queue key value ∷ []) state.old state.new }
{
    match queue {
        Queue::Hot => terms.on_evict_hot(state, key, value),
        Queue::Cold => terms.on_evict_cold(state, key, value),
    }
}

impl<K: Eq + Hash + Drop, V: Drop, P: SharedPlaceholder<K>, A: Allocator> Contents<K, V, P, A> {
    /// A pair of at most the hot target's weight is admitted, and so is a pinned one. Else
    /// `before_evict` may lighten it, and it is weighed once more.
    pub(crate) fn admit<M: Policy<K, V>>(
        &self,
        terms: &M,
        state: &mut M::RequestState,
        key: &K,
        value: V,
    ) -> Admission<V>
        ensures checks { Calls (M.hooks terms.now)
            (Checks (M.steady terms.now) (rules_by M.Policy P.Touch.may_count terms.now)
            self.now.hot_target key.now value result)
            state.old state.new }
    {
        let weight = terms.weigh(key, &value);
        if weight <= self.hot_target {
            return Admission::Admitted(Weighed { value, weight });
        }
        if terms.is_pinned(key, &value) {
            return Admission::Admitted(Weighed { value, weight });
        }
        let mut value = value;
        terms.before_evict(state, key, &mut value);
        let weight = terms.weigh(key, &value);
        if weight <= self.hot_target {
            return Admission::Admitted(Weighed { value, weight });
        }
        Admission::TooHeavy(value)
    }

    /// Takes the item out that was to be written over, if there is one, and tells it to its hook.
    pub(crate) fn take_out_item<M: Policy<K, V>>(
        &mut self,
        found: Found,
        terms: &M,
        state: &mut M::RequestState,
        key: &K,
        hash: u64,
    )
        requires sound { IsSound P.ticket_of K.eq (M.hashed terms.now) self.old }
        requires hash_is { hash ≡ M.hashed terms.now key.now }
        requires found { Finds (K.eq key.now) hash self.old.lists found }
        ensures takes { Calls (M.hooks terms.now)
            (λ calls. TakesOutItem (K.eq key.now) (state_of P.ticket_of self.old) calls
            (state_of P.ticket_of self.new) × IsReplacement calls)
            state.old state.new }
        ensures stays { LosesEntries P.ticket_of K.eq (M.hashed terms.now) self.old self.new }
    {
        let Found::Item(token) = found else {
            return;
        };
        self.lists.facts();
        let slot = self.lists.take(token, Order::Kept);
        match slot.entry {
            Entry::Item(item) => {
                self.keep_hits(&item);
                let queue = item.queue();
                let (old_key, old_value) = item.into_pair();
                report(queue, terms, state, old_key, old_value);
            }
            Entry::Loading(_) => unreachable!(),
            Entry::Ghost => unreachable!(),
        }
    }

    /// Turns away a pair that is too heavy to be inserted: the item under its key leaves, and the
    /// pair is told to the cold hook.
    pub(crate) fn turn_away<M: Policy<K, V>>(
        &mut self,
        found: Found,
        terms: &M,
        state: &mut M::RequestState,
        hash: u64,
        key: K,
        value: V,
    )
        requires sound { IsSound P.ticket_of K.eq (M.hashed terms.now) self.old }
        requires hash_is { hash ≡ M.hashed terms.now key }
        requires found { Finds (K.eq key) hash self.old.lists found }
        ensures rejects { Calls (M.hooks terms.now)
            (Rejecting (K.eq key) key Insert (state_of P.ticket_of self.old) value None
            (state_of P.ticket_of self.new))
            state.old state.new }
        ensures stays { LosesEntries P.ticket_of K.eq (M.hashed terms.now) self.old self.new }
    {
        self.take_out_item(found, terms, state, &key, hash);
        terms.on_evict_cold(state, key, value);
    }
}
