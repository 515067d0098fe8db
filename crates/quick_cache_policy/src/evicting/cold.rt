//! The search of a cold advance.
ghost use Rattle.std.specs.Prelude.{◌≡◌, ◌<◌};
ghost use Rattle.quick_cache_store.specs.Views.{items_of};
ghost use Rattle.quick_cache_policy.specs.Advances.{Searches, LooksAt};
ghost use Rattle.quick_cache_policy.specs.Contents.{IsSound, ring_count};
ghost use Rattle.quick_cache_policy.specs.Places.{places_in, LosesOnly};

use crate::contents::Contents;
use crate::policy::Policy;
use quick_cache_model::{Queue, SharedPlaceholder};
use std::alloc::Allocator;
use std::hash::Hash;

/// What was found among the items that were looked at: it is the first item then.
#[derive(Clone, Copy)]
pub(crate) enum Search {
    Marked,
    Victim,
    AllPassed,
}

impl<K: Eq + Hash + Drop, V: Drop, P: SharedPlaceholder<K>, A: Allocator> Contents<K, V, P, A> {
    /// Turns the cold ring up to the first item that is marked or unpinned.
    pub(crate) fn search_cold<M: Policy<K, V>>(&mut self, terms: &M) -> Search
        requires sound { IsSound P.ticket_of K.eq (M.hashed terms.now) self.old }
        ensures searches { Searches (M.steady terms.now) (M.pinned terms.now)
            self.old.mark_cut P.Touch.may_count
            (items_of self.old.lists.cold) result (items_of self.new.lists.cold) }
        ensures sound { IsSound P.ticket_of K.eq (M.hashed terms.now) self.new }
        ensures count { ring_count Queue.Cold self.new ≡ ring_count Queue.Cold self.old }
        ensures places { LosesOnly (places_in self.old.lists.cold) (places_in self.new.lists.cold) }
        ensures same { self.new ≡ record self.old {
          lists = record self.old.lists { cold = self.new.lists.cold };
        } }
    {
        for _ in 0..self.lists.count(Queue::Cold) {
            match self.look_cold(terms) {
                Search::AllPassed => self.lists.turn(Queue::Cold),
                found => return found,
            }
        }
        Search::AllPassed
    }

    /// Takes in the touches of the first cold item, then looks at its mark, and then at its pin.
    fn look_cold<M: Policy<K, V>>(&mut self, terms: &M) -> Search
        requires sound { IsSound P.ticket_of K.eq (M.hashed terms.now) self.old }
        requires there { 0 < ring_count Queue.Cold self.old }
        ensures looks { LooksAt (M.steady terms.now) (M.pinned terms.now)
            self.old.mark_cut P.Touch.may_count
            (items_of self.old.lists.cold) result (items_of self.new.lists.cold) }
        ensures sound { IsSound P.ticket_of K.eq (M.hashed terms.now) self.new }
        ensures places { LosesOnly (places_in self.old.lists.cold) (places_in self.new.lists.cold) }
        ensures same { self.new ≡ record self.old {
          lists = record self.old.lists { cold = self.new.lists.cold };
        } }
    {
        self.lists.facts();
        let Some(token) = self.lists.first(Queue::Cold) else {
            unreachable!();
        };
        self.take_touches(token);
        self.lists.facts();
        let item = self.lists.item(token);
        if item.mark() > 0 {
            return Search::Marked;
        }
        if !terms.is_pinned(item.key(), item.value()) {
            return Search::Victim;
        }
        Search::AllPassed
    }
}
