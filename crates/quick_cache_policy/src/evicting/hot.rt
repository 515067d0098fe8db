//! Hot advances: items are visited from the head of the hot ring, round and round, and pay a mark
//! each time, up to the first that is not pinned and has no mark to pay.
ghost use Rattle.std.specs.Prelude.{◌≡◌, ◌+◌, ◌<◌, if◌then◌else◌};
ghost use Rattle.std.specs.Int.NonZero.{non_zero_u32_get as number};
ghost use Rattle.quick_cache_store.specs.Lists.{HasItemToken};
ghost use Rattle.quick_cache_model.specs.Eviction.{AdvancesHot};
ghost use Rattle.quick_cache_model.specs.Hooks.{Calls};
ghost use Rattle.quick_cache_policy.specs.Advances.{Evicting, HasTakenTouches, IsVisited};
ghost use Rattle.quick_cache_policy.specs.Contents.{IsSound, state_of, ring_count};
ghost use Rattle.quick_cache_policy.specs.HotRounds.{VisitsHot, VisitsFirst, RoundEnds, SeekEnds};
ghost use Rattle.quick_cache_policy.specs.Places.{places_in, LosesOnly};
ghost use Rattle.quick_cache_policy.specs.Policies.{rules_by};
ghost use Rattle.quick_cache_policy.specs.Stays.{MakesRoom};

use crate::contents::Contents;
use crate::policy::Policy;
use quick_cache_model::{Queue, SharedPlaceholder, Token, Touches};
use std::alloc::Allocator;
use std::hash::Hash;

/// What a visit met.
#[derive(Clone, Copy)]
pub(crate) enum Visit {
    Pinned,
    Marked,
    Victim,
}

/// How a round ended.
#[derive(Clone, Copy)]
pub(crate) enum Round {
    AllPinned,
    SomeUnpinned,
    /// The victim is the first item now.
    Victim,
}

impl<K: Eq + Hash + Drop, V: Drop, P: SharedPlaceholder<K>, A: Allocator> Contents<K, V, P, A> {
    /// Takes in what readers counted at an item.
    pub(crate) fn take_touches(&mut self, token: Token)
        requires { HasItemToken self.old.lists (number token) }
        ensures { HasTakenTouches P.Touch.may_count (number token) self.old self.new }
    {
        self.lists.facts();
        let count = self.lists.take_touch(token);
        if count == 0 {
            return;
        }
        self.shared_hits.add_all(count);
        let item = self.lists.item(token);
        let mark = u64::from(item.mark())
            .saturating_add(count)
            .min(u64::from(self.mark_cut)) as u8;
        let reads = item.reads().saturating_add(count);
        self.lists.set_counts(token, mark, reads);
    }

    /// Visits an item: its mark falls by one, not below 0, and it is asked once whether it is
    /// pinned.
    fn visit<M: Policy<K, V>>(&mut self, token: Token, terms: &M) -> Visit
        requires { HasItemToken self.old.lists (number token) }
        ensures { IsVisited (M.steady terms.now) (M.pinned terms.now) (number token) self.old result
            self.new }
    {
        self.visits = self.visits.saturating_add(1);
        let item = self.lists.item(token);
        let mark = item.mark();
        let is_pinned = terms.is_pinned(item.key(), item.value());
        self.lists.set_mark(token, mark.saturating_sub(1));
        if is_pinned {
            return Visit::Pinned;
        }
        if mark > 0 {
            return Visit::Marked;
        }
        Visit::Victim
    }

    /// Visits the first item of the hot ring. Where it is to take its touches it takes them before.
    fn visit_first<M: Policy<K, V>>(&mut self, takes_touches: bool, terms: &M) -> Visit
        requires there { 0 < ring_count Queue.Hot self.old }
        ensures { VisitsFirst (M.steady terms.now) (M.pinned terms.now) takes_touches
            P.Touch.may_count self.old result self.new }
    {
        let Some(token) = self.lists.first(Queue::Hot) else {
            unreachable!();
        };
        if takes_touches {
            self.lists.facts();
            self.take_touches(token);
        }
        self.lists.facts();
        self.visit(token, terms)
    }

    /// Visits each item of the hot ring once, up to a victim. In the first round of an advance each
    /// takes its touches before.
    fn go_round<M: Policy<K, V>>(&mut self, takes_touches: bool, terms: &M) -> Round
        requires sound { IsSound P.ticket_of K.eq (M.hashed terms.now) self.old }
        ensures ends { VisitsHot (RoundEnds (M.steady terms.now) (M.pinned terms.now) takes_touches
            self.old.mark_cut P.Touch.may_count result) self.old self.new }
        ensures sound { IsSound P.ticket_of K.eq (M.hashed terms.now) self.new }
        ensures count { ring_count Queue.Hot self.new ≡ ring_count Queue.Hot self.old }
        ensures places { LosesOnly (places_in self.old.lists.hot) (places_in self.new.lists.hot) }
        ensures same { self.new ≡ record self.old {
          lists = record self.old.lists { hot = self.new.lists.hot };
          visits = self.new.visits;
        } }
    {
        self.facts();
        let mut is_unpinned = false;
        for _ in 0..self.lists.count(Queue::Hot) {
            match self.visit_first(takes_touches, terms) {
                Visit::Pinned => {}
                Visit::Marked => {
                    is_unpinned = true;
                }
                Visit::Victim => {
                    return Round::Victim;
                }
            }
            self.lists.turn(Queue::Hot);
        }
        if is_unpinned {
            return Round::SomeUnpinned;
        }
        Round::AllPinned
    }

    /// Goes round and round the hot ring, up to a victim, which is the first item then. Where all
    /// are pinned there is none.
    fn seek_victim<M: Policy<K, V>>(&mut self, terms: &M) -> bool
        requires sound { IsSound P.ticket_of K.eq (M.hashed terms.now) self.old }
        ensures ends { VisitsHot (SeekEnds (M.steady terms.now) (M.pinned terms.now)
            self.old.mark_cut P.Touch.may_count result) self.old self.new }
        ensures sound { IsSound P.ticket_of K.eq (M.hashed terms.now) self.new }
        ensures count { ring_count Queue.Hot self.new ≡ ring_count Queue.Hot self.old }
        ensures places { LosesOnly (places_in self.old.lists.hot) (places_in self.new.lists.hot) }
        ensures same { self.new ≡ record self.old {
          lists = record self.old.lists { hot = self.new.lists.hot };
          visits = self.new.visits;
        } }
    {
        self.facts();
        let mut takes_touches = true;
        loop {
            match self.go_round(takes_touches, terms) {
                Round::AllPinned => {
                    return false;
                }
                Round::SomeUnpinned => {}
                Round::Victim => {
                    return true;
                }
            }
            takes_touches = false;
        }
    }

    /// Takes the first victim out of the hot ring, if not all are pinned. A victim that weighs
    /// nothing any more stays beside the rings.
    pub(crate) fn advance_hot<M: Policy<K, V>>(
        &mut self,
        terms: &M,
        state: &mut M::RequestState,
    ) -> bool
        requires sound { IsSound P.ticket_of K.eq (M.hashed terms.now) self.old }
        ensures advances { Calls (M.hooks terms.now)
            (Evicting (M.steady terms.now)
            (λ old. AdvancesHot (rules_by M.Policy P.Touch.may_count terms.now) old result)
            (state_of P.ticket_of self.old) (state_of P.ticket_of self.new))
            state.old state.new }
        ensures falls { ring_count Queue.Hot self.new + (if result then 1 else 0)
            ≡ ring_count Queue.Hot self.old }
        ensures cold { ring_count Queue.Cold self.new ≡ ring_count Queue.Cold self.old }
        ensures stays { MakesRoom P.ticket_of K.eq (M.hashed terms.now) (if result then 0 else 1)
            self.old self.new }
    {
        self.advances = self.advances.saturating_add(1);
        if !self.seek_victim(terms) {
            return false;
        }
        self.evict_hot(terms, state);
        true
    }
}
