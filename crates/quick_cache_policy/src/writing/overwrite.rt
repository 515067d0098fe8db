//! A pair over what stands under its key: an item, a placeholder, or a ghost of its hash.
ghost use Rattle.std.specs.Prelude.{◌≡◌, ◌+◌, None};
ghost use Rattle.quick_cache_store.specs.Lists.{Finds};
ghost use Rattle.quick_cache_model.specs.Hooks.{Calls};
ghost use Rattle.quick_cache_model.specs.Writes.{Insert};
ghost use Rattle.quick_cache_policy.specs.Contents.{IsSound, state_of};
ghost use Rattle.quick_cache_policy.specs.Places.{WritesPlace};
ghost use Rattle.quick_cache_policy.specs.Finding.{EntersAt};
ghost use Rattle.quick_cache_policy.specs.Policies.{rules_by};
ghost use Rattle.quick_cache_policy.specs.Stays.{WritesWithin};
ghost use Rattle.quick_cache_policy.specs.Writing.{strategy_of, WritingAdmitted};

use crate::contents::Contents;
use crate::policy::Policy;
use crate::strategy::InsertStrategy;
use crate::writing::admission::{Weighed, report};
use quick_cache_model::{Queue, SharedPlaceholder, Token, Touches};
use quick_cache_store::lists::{Entry, Found, Marked, Order};
use std::alloc::Allocator;
use std::hash::Hash;

impl<K: Eq + Hash + Drop, V: Drop, P: SharedPlaceholder<K>, A: Allocator> Contents<K, V, P, A> {
    /// Writes a pair over an item: it takes the item's queue and its place, and the item's touches
    /// are taken in before.
    pub(crate) fn overwrite<M: Policy<K, V>>(
        &mut self,
        token: Token,
        terms: &M,
        state: &mut M::RequestState,
        hash: u64,
        key: K,
        weighed: Weighed<V>,
        strategy: InsertStrategy,
    )
        requires sound { IsSound P.ticket_of K.eq (M.hashed terms.now) self.old }
        requires hash_is { hash ≡ M.hashed terms.now key }
        requires weight_is { weighed.weight ≡ M.weight_of terms.now key weighed.value }
        requires found { Finds (K.eq key) hash self.old.lists (Found.Item token) }
        ensures writes { Calls (M.hooks terms.now)
            (WritingAdmitted (M.steady terms.now)
            (rules_by M.Policy P.Touch.may_count terms.now) (K.eq key) key (strategy_of strategy)
            (state_of P.ticket_of self.old) weighed.value None (state_of P.ticket_of self.new))
            state.old state.new }
        // No other item moves.
        ensures stays { WritesWithin P.ticket_of K.eq (M.hashed terms.now) (WritesPlace K.eq key) 0
            self.old self.new }
    {
        self.lists.facts();
        let touches = self.lists.take_touch(token);
        self.shared_hits.add_all(touches);
        let item = self.lists.item(token);
        let queue = item.queue();
        let touched = u64::from(item.mark())
            .saturating_add(touches)
            .min(u64::from(self.mark_cut)) as u8;
        let mark = strategy.mark_after(self.mark_cut, touched);
        let Weighed { value, weight } = weighed;
        // It goes on with the old item's counter, which was emptied.
        let item = Marked::new(key, value, weight, mark, queue, P::Touch::default());
        let (old_key, old_value) = self.lists.rewrite(token, item).into_pair();
        report(queue, terms, state, old_key, old_value);
        self.evict_to_capacity(0, terms, state);
    }

    /// Inserts a pair in the place of a ghost of its hash or of the placeholder of its key, with
    /// this queue and this mark.
    pub(crate) fn enter_at<M: Policy<K, V>>(
        &mut self,
        token: Token,
        queue: Queue,
        mark: u8,
        terms: &M,
        state: &mut M::RequestState,
        hash: u64,
        key: K,
        weighed: Weighed<V>,
    )
        requires sound { IsSound P.ticket_of K.eq (M.hashed terms.now) self.old }
        requires hash_is { hash ≡ M.hashed terms.now key }
        requires weight_is { weighed.weight ≡ M.weight_of terms.now key weighed.value }
        requires enters { EntersAt (K.eq key) hash self.old.lists token queue mark }
        ensures writes { Calls (M.hooks terms.now)
            (WritingAdmitted (M.steady terms.now)
            (rules_by M.Policy P.Touch.may_count terms.now) (K.eq key) key Insert
            (state_of P.ticket_of self.old) weighed.value None (state_of P.ticket_of self.new))
            state.old state.new }
        // No other item moves.
        ensures stays { WritesWithin P.ticket_of K.eq (M.hashed terms.now) (WritesPlace K.eq key) 0
            self.old self.new }
    {
        self.lists.facts();
        let Weighed { value, weight } = weighed;
        let entered = Marked::new(key, value, weight, mark, queue, P::Touch::default());
        let _ = self.lists.replace(token, Order::Kept, Entry::Item(entered));
        self.evict_to_capacity(0, terms, state);
    }
}
