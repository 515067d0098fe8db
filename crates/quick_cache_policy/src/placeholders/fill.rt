//! A placeholder that is filled with a value, or given up.
ghost use Rattle.std.specs.Prelude.{◌≡◌, ◌+◌, ◌≤◌, ◌<◌, MatchOption, ◌==◌, None, if◌then◌else◌};
ghost use Rattle.std.specs.Int.NonZero.{non_zero_u32_get as number};
ghost use Rattle.quick_cache_store.specs.Placeholders.{FindsPlaceholder};
ghost use Rattle.quick_cache_model.specs.CacheState.{UpToOrder};
ghost use Rattle.quick_cache_model.specs.Hooks.{Calls};
ghost use Rattle.quick_cache_model.specs.Placeholders.{GivesUpPlaceholder, HasNoTicket};
ghost use Rattle.quick_cache_policy.specs.Places.{places_of, KeepsPlaces, LosesOnly};
ghost use Rattle.quick_cache_policy.specs.Contents.{IsSound, state_of};
ghost use Rattle.quick_cache_policy.specs.Advances.{Evicting};
ghost use Rattle.quick_cache_policy.specs.Filling.{AnswersFill, AwaitsKey, Fills, MakesRoomBehind};
ghost use Rattle.quick_cache_policy.specs.Policies.{rules_by};
ghost use Rattle.quick_cache_policy.specs.Stays.{MakesRoom, WritesWithin, KeepsSound};

use crate::contents::Contents;
use crate::policy::Policy;
use crate::writing::admission::{Admission, Weighed};
use quick_cache_model::{SharedPlaceholder, Token};
use quick_cache_store::lists::{Entry, Meaning, Order};
use std::alloc::Allocator;
use std::hash::Hash;

// The placeholder of the same ticket.
#[derive(Drop)]
struct SameTicket<'a, P> {
    placeholder: &'a P,
}

impl<'a, K: Eq + Hash, P: SharedPlaceholder<K>> Meaning<K, P::Kept> for SameTicket<'a, P> {
    ghost means = { λ same kept. P.own_ticket same.placeholder.now == P.ticket_of kept };

    fn means(&self, kept: &P::Kept) -> bool {
        self.placeholder.keeps(kept)
    }
}

/// The mark of a value that comes in, where others waited for it or not.
fn mark_if(waited: bool) -> u8
    ensures { result ≡ (if waited then 1 else 0) }
{
    if waited { 1 } else { 0 }
}

impl<K: Eq + Hash + Drop, V: Drop, P: SharedPlaceholder<K>, A: Allocator> Contents<K, V, P, A> {
    /// Evicts to the capacity behind a pair of that weight, which came in, if it weighs something.
    #[inline(always)]
    fn make_room_for<M: Policy<K, V>>(
        &mut self,
        weight: u64,
        terms: &M,
        state: &mut M::RequestState,
    )
        requires sound { IsSound P.ticket_of K.eq (M.hashed terms.now) self.old }
        ensures makes { Calls (M.hooks terms.now)
            (Evicting (M.steady terms.now)
            (MakesRoomBehind (rules_by M.Policy P.Touch.may_count terms.now) weight)
            (state_of P.ticket_of self.old) (state_of P.ticket_of self.new))
            state.old state.new }
        ensures stays { MakesRoom P.ticket_of K.eq (M.hashed terms.now) 1 self.old self.new }
    {
        self.facts();
        if weight == 0 {
            return;
        }
        self.evict_to_capacity(0, terms, state);
    }

    /// Fills the placeholder of a token: its pair is put in where the placeholder stands, and room
    /// is made behind it where it weighs something, or the placeholder goes and the pair is turned
    /// away. It is hot if it fits the hot target, and else of the placeholder's queue.
    #[inline(always)]
    fn fill<M: Policy<K, V>>(
        &mut self,
        token: Token,
        terms: &M,
        state: &mut M::RequestState,
        placeholder: &P,
        marked: bool,
        value: V,
    )
        requires sound { IsSound P.ticket_of K.eq (M.hashed terms.now) self.old }
        requires found { FindsPlaceholder
            (λ kept. P.own_ticket placeholder.now == P.ticket_of kept)
            self.old.lists (number token) }
        ensures fills { Calls (M.hooks terms.now)
            (Fills (M.steady terms.now) (P.own_ticket placeholder.now)
            (state_of P.ticket_of self.old) (rules_by M.Policy P.Touch.may_count terms.now)
            marked value (state_of P.ticket_of self.new))
            state.old state.new }
        ensures stays { WritesWithin P.ticket_of K.eq (M.hashed terms.now) (KeepsPlaces K.eq) 0
            self.old self.new }
    {
        self.facts();
        self.lists.facts();
        let awaited = self.lists.awaited(token);
        let otherwise = awaited.queue();
        match self.admit(terms, state, awaited.key(), value) {
            Admission::Admitted(weighed) => {
                let Weighed { value, weight } = weighed;
                let queue = self.choose_queue(weight, otherwise);
                let mark = mark_if(marked);
                let touch = P::Touch::default();
                self.lists.fill(token, queue, mark, weight, value, touch);
                self.make_room_for(weight, terms, state);
            }
            Admission::TooHeavy(value) => {
                let slot = self.lists.take(token, Order::Kept);
                let gone = match slot.entry {
                    Entry::Loading(gone) => gone,
                    Entry::Item(_) => unreachable!(),
                    Entry::Ghost => unreachable!(),
                };
                terms.on_evict_cold(state, gone.key, value);
            }
        }
    }

    /// Fills the placeholder of that ticket with a value, marked where others waited for it. The
    /// value comes back where the placeholder is gone.
    ///
    /// It asks for no memory. Where the placeholder is not in the slot that it names, and some key
    /// is being loaded, each slot is looked at.
    #[inline(always)]
    pub fn replace_placeholder<M: Policy<K, V>>(
        &mut self,
        terms: &M,
        state: &mut M::RequestState,
        placeholder: &P,
        marked: bool,
        value: V,
    ) -> Result<(), V>
        requires sound { IsSound P.ticket_of K.eq (M.hashed terms.now) self.old }
        ensures fills { Calls (M.hooks terms.now)
            (AnswersFill (M.steady terms.now) (P.own_ticket placeholder.now)
            (state_of P.ticket_of self.old) (rules_by M.Policy P.Touch.may_count terms.now)
            marked value result (state_of P.ticket_of self.new))
            state.old state.new }
        ensures stays { WritesWithin P.ticket_of K.eq (M.hashed terms.now) (KeepsPlaces K.eq) 0
            self.old self.new }
    {
        self.facts();
        let named = placeholder.idx();
        let Some(token) = self
            .lists
            .find_placeholder(named, &SameTicket { placeholder })
        else {
            return Err(value);
        };
        self.fill(token, terms, state, placeholder, marked, value);
        Ok(())
    }

    /// The key of the placeholder of that ticket, if it is there. It is looked for as by
    /// `replace_placeholder`, and nothing changes.
    pub fn awaited_key(&self, placeholder: &P) -> Option<&K>
        ensures { MatchOption result
            (HasNoTicket (P.own_ticket placeholder.now) (state_of P.ticket_of self.now))
            (λ key. AwaitsKey (P.own_ticket placeholder.now) (state_of P.ticket_of self.now)
            key.now) }
    {
        self.lists.facts();
        let named = placeholder.idx();
        let Some(token) = self
            .lists
            .find_placeholder(named, &SameTicket { placeholder })
        else {
            return None;
        };
        let awaited = self.lists.awaited(token);
        Some(awaited.key())
    }

    /// Takes the placeholder of that ticket out, if it is there. It is looked for as by
    /// `replace_placeholder`.
    pub fn remove_placeholder(&mut self, placeholder: &P)
        ensures gives_up { UpToOrder
            (GivesUpPlaceholder (P.own_ticket placeholder.now) (state_of P.ticket_of self.old))
            (state_of P.ticket_of self.new) }
        ensures sound { KeepsSound P.ticket_of K.eq self.old self.new }
        ensures places { LosesOnly (places_of self.old.lists) (places_of self.new.lists) }
        ensures room { self.old.lists.room ≤ self.new.lists.room }
        ensures same { self.new ≡ record self.old { lists = self.new.lists } }
    {
        self.lists.facts();
        let named = placeholder.idx();
        let Some(token) = self
            .lists
            .find_placeholder(named, &SameTicket { placeholder })
        else {
            return;
        };
        let _ = self.lists.take(token, Order::Kept);
    }
}
