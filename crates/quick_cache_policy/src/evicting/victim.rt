//! The items that leave a ring.
ghost use Rattle.std.specs.Prelude.{◌≡◌, ◌+◌, ◌-◌, ◌<◌, ◌≤◌, length, drop};
ghost use Rattle.quick_cache_store.specs.Views.{hashes_of};
ghost use Rattle.quick_cache_model.specs.Hooks.{Calls};
ghost use Rattle.quick_cache_policy.specs.Advances.{AreEvictions, Decides, FirstIsEvicted, FirstIsPromoted};
ghost use Rattle.quick_cache_policy.specs.Contents.{IsSound, state_of, ring_count};
ghost use Rattle.quick_cache_policy.specs.Policies.{rules_by};
ghost use Rattle.quick_cache_policy.specs.Stays.{LosesEntries, KeepsEntries};

use crate::contents::Contents;
use crate::policy::Policy;
use quick_cache_model::{Queue, SharedPlaceholder, Touches};
use quick_cache_store::lists::{Entry, Marked, Order};
use std::alloc::Allocator;
use std::hash::Hash;

/// What becomes of a victim.
enum Fate<K, V, T> {
    Stays(Marked<K, V, T>),
    Leaves(K, V),
}

/// Tells an item to `before_evict`, which may change its value, and weighs it then.
fn decide<K: Eq + Hash, V, T: Touches, M: Policy<K, V>>(
    item: Marked<K, V, T>,
    terms: &M,
    state: &mut M::RequestState,
) -> Fate<K, V, T>
    ensures { Decides (M.weight_of terms.now) (M.hooks terms.now) item state.old result state.new }
{
    let (mark, reads, queue) = (item.mark(), item.reads(), item.queue());
    let (key, mut value) = item.into_pair();
    terms.before_evict(state, &key, &mut value);
    if terms.weigh(&key, &value) == 0 {
        let item = Marked::new(key, value, 0, mark, queue, T::default());
        return Fate::Stays(item.with_reads(reads));
    }
    Fate::Leaves(key, value)
}

impl<K: Eq + Hash + Drop, V: Drop, P: SharedPlaceholder<K>, A: Allocator> Contents<K, V, P, A> {
    /// Lets the first hot item go. `before_evict` may change its value, which is then weighed: of
    /// weight 0 it stays, beside the rings; else it leaves.
    pub(crate) fn evict_hot<M: Policy<K, V>>(&mut self, terms: &M, state: &mut M::RequestState)
        requires sound { IsSound P.ticket_of K.eq (M.hashed terms.now) self.old }
        requires there { 0 < ring_count Queue.Hot self.old }
        ensures evicts { Calls (M.hooks terms.now)
            (λ calls. FirstIsEvicted (rules_by M.Policy P.Touch.may_count terms.now) Queue.Hot
            (state_of P.ticket_of self.old) calls (state_of P.ticket_of self.new)
            × AreEvictions calls)
            state.old state.new }
        ensures falls { ring_count Queue.Hot self.new + 1 ≡ ring_count Queue.Hot self.old }
        ensures cold { ring_count Queue.Cold self.new ≡ ring_count Queue.Cold self.old }
        ensures stays { LosesEntries P.ticket_of K.eq (M.hashed terms.now) self.old self.new }
    {
        let Some(token) = self.lists.first(Queue::Hot) else {
            unreachable!();
        };
        self.lists.facts();
        let slot = self.lists.take(token, Order::Kept);
        let hash = slot.hash;
        match slot.entry {
            Entry::Item(item) => match decide(item, terms, state) {
                Fate::Stays(item) => {
                    let _ = self.lists.put(hash, Entry::Item(item));
                }
                Fate::Leaves(key, value) => terms.on_evict_hot(state, key, value),
            },
            Entry::Loading(_) => unreachable!(),
            Entry::Ghost => unreachable!(),
        }
    }

    /// Lets the first cold item go, as `evict_hot` does. Where it leaves, its hash becomes the
    /// newest ghost.
    #[inline(always)]
    pub(crate) fn evict_cold<M: Policy<K, V>>(&mut self, terms: &M, state: &mut M::RequestState)
        requires sound { IsSound P.ticket_of K.eq (M.hashed terms.now) self.old }
        requires there { 0 < ring_count Queue.Cold self.old }
        ensures evicts { Calls (M.hooks terms.now)
            (λ calls. FirstIsEvicted (rules_by M.Policy P.Touch.may_count terms.now) Queue.Cold
            (state_of P.ticket_of self.old) calls (state_of P.ticket_of self.new)
            × AreEvictions calls)
            state.old state.new }
        ensures falls { ring_count Queue.Cold self.new + 1 ≡ ring_count Queue.Cold self.old }
        ensures hot { ring_count Queue.Hot self.new ≡ ring_count Queue.Hot self.old }
        ensures stays { LosesEntries P.ticket_of K.eq (M.hashed terms.now) self.old self.new }
    {
        let Some(token) = self.lists.first(Queue::Cold) else {
            unreachable!();
        };
        self.lists.facts();
        match decide(self.lists.bury(token), terms, state) {
            Fate::Stays(item) => {
                self.lists.facts();
                let _ = self.lists.replace(token, Order::Kept, Entry::Item(item));
            }
            Fate::Leaves(key, value) => {
                self.forget_oldest();
                terms.on_evict_cold(state, key, value);
            }
        }
    }

    /// Forgets the oldest ghost where there are more than the limit.
    #[inline(always)]
    fn forget_oldest(&mut self)
        requires one { length self.old.lists.ghosts ≤ self.old.ghost_limit + 1 }
        ensures ghosts { hashes_of self.new.lists.ghosts
            ≡ drop (length self.old.lists.ghosts - self.old.ghost_limit)
            (hashes_of self.old.lists.ghosts) }
        ensures room { self.old.lists.room ≤ self.new.lists.room }
        ensures same { self.new ≡ record self.old {
          lists = record self.old.lists {
            ghosts = self.new.lists.ghosts;
            next = self.new.lists.next;
            room = self.new.lists.room;
          };
        } }
    {
        if self.lists.ghost_count() <= self.ghost_limit {
            return;
        }
        self.forget_ghost();
    }

    /// Forgets the oldest ghost, and brings near the one that is the oldest then: mostly it goes at
    /// the next eviction, and would be waited for there.
    #[inline(always)]
    pub(crate) fn forget_ghost(&mut self)
        requires some { 0 < length self.old.lists.ghosts }
        ensures ghosts { hashes_of self.new.lists.ghosts
            ≡ drop 1 (hashes_of self.old.lists.ghosts) }
        ensures room { self.old.lists.room ≤ self.new.lists.room }
        ensures same { self.new ≡ record self.old {
          lists = record self.old.lists {
            ghosts = self.new.lists.ghosts;
            next = self.new.lists.next;
            room = self.new.lists.room;
          };
        } }
    {
        let Some(oldest) = self.lists.oldest_ghost() else {
            unreachable!();
        };
        self.lists.facts();
        self.lists.forget_first(oldest);
        self.lists.bring_oldest_ghost_near();
    }

    /// Makes the first cold item the last hot one: it pays a mark.
    pub(crate) fn promote_first<M: Policy<K, V>>(&mut self, terms: &M)
        requires sound { IsSound P.ticket_of K.eq (M.hashed terms.now) self.old }
        requires there { 0 < ring_count Queue.Cold self.old }
        ensures promotes { FirstIsPromoted (state_of P.ticket_of self.old)
            (state_of P.ticket_of self.new) }
        ensures stays { KeepsEntries P.ticket_of K.eq (M.hashed terms.now) self.old self.new }
    {
        let Some(token) = self.lists.first(Queue::Cold) else {
            unreachable!();
        };
        self.lists.facts();
        let item = self.lists.item(token);
        let mark = item.mark().saturating_sub(1);
        let weight = item.weight();
        self.lists
            .requeue(token, Order::Kept, Queue::Hot, mark, weight);
    }
}
