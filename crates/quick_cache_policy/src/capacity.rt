//! Setting the capacity: new sizes, the ghosts within their limit, and eviction.
ghost use Rattle.std.specs.Prelude.{◌≡◌, ◌+◌, ◌-◌, ◌<◌, ◌≤◌, length, drop};
ghost use Rattle.quick_cache_store.specs.Views.{hashes_of};
ghost use Rattle.quick_cache_model.specs.Capacity.{SetsCapacity};
ghost use Rattle.quick_cache_model.specs.Hooks.{Calls};
ghost use Rattle.quick_cache_model.specs.Sizes.{rescaled_target, rescaled_limit};
ghost use Rattle.quick_cache_policy.specs.Advances.{Evicting};
ghost use Rattle.quick_cache_policy.specs.Contents.{IsSound, state_of, ring_count, work_of};
ghost use Rattle.quick_cache_policy.specs.Places.{places_of, LosesOnly};
ghost use Rattle.quick_cache_policy.specs.Policies.{rules_by};
ghost use Rattle.quick_cache_policy.specs.Work.{WorksWithin};

use crate::contents::Contents;
use crate::policy::Policy;
use quick_cache_model::{Queue, SharedPlaceholder};
use std::alloc::Allocator;
use std::hash::Hash;

impl<K: Eq + Hash + Drop, V: Drop, P: SharedPlaceholder<K>, A: Allocator> Contents<K, V, P, A> {
    /// Sets the capacity, with the hot target and the ghost limit that are handed in, and makes
    /// what is there fit. It takes no memory.
    pub fn set_capacity<M: Policy<K, V>>(
        &mut self,
        terms: &M,
        state: &mut M::RequestState,
        capacity: u64,
        hot_target: u64,
        ghost_limit: usize,
    )
        requires sound { IsSound P.ticket_of K.eq (M.hashed terms.now) self.old }
        requires target_is { hot_target
            ≡ rescaled_target self.old.capacity capacity self.old.hot_target }
        requires limit_is { ghost_limit
            ≡ rescaled_limit self.old.capacity capacity self.old.ghost_limit }
        ensures sets { Calls (M.hooks terms.now)
            (Evicting (M.steady terms.now)
            (SetsCapacity (rules_by M.Policy P.Touch.may_count terms.now) capacity)
            (state_of P.ticket_of self.old) (state_of P.ticket_of self.new))
            state.old state.new }
        ensures sound { IsSound P.ticket_of K.eq (M.hashed terms.now) self.new }
        ensures places { LosesOnly (places_of self.old.lists) (places_of self.new.lists) }
        ensures room { self.old.lists.room ≤ self.new.lists.room }
        ensures work { WorksWithin self.old.mark_cut
            (ring_count Queue.Hot self.old + ring_count Queue.Cold self.old + 1)
            (work_of self.old) (work_of self.new) }
        ensures same { self.new ≡ record self.old {
          lists = self.new.lists;
          capacity = capacity;
          hot_target = hot_target;
          ghost_limit = ghost_limit;
          advances = self.new.advances;
          visits = self.new.visits;
        } }
    {
        self.capacity = capacity;
        self.hot_target = hot_target;
        self.ghost_limit = ghost_limit;
        // Before the eviction: a ghost that it leaves is then one too many at most.
        self.forget_ghosts();
        self.evict_to_capacity(0, terms, state);
    }

    /// Forgets the oldest ghosts, until they are within their limit.
    fn forget_ghosts(&mut self)
        ensures ghosts { hashes_of self.new.lists.ghosts
            ≡ drop (length self.old.lists.ghosts - self.old.ghost_limit)
            (hashes_of self.old.lists.ghosts) }
        ensures room { self.old.lists.room ≤ self.new.lists.room }
        ensures same { self.new ≡ record self.old {
          lists = record self.old.lists {
            ghosts = self.new.lists.ghosts;
            next = self.new.lists.next;
            room = self.new.lists.room;
          };
        } }
    {
        while self.lists.ghost_count() > self.ghost_limit {
            self.forget_ghost();
        }
    }
}
