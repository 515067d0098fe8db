//! Removals by a predicate of the caller, and of all that there is.
ghost use Rattle.std.specs.Prelude.{◌≡◌, ◌+◌, ◌≤◌};
ghost use Rattle.std.specs.Fn.{FnOnceReturnsAt};
ghost use Rattle.quick_cache_model.specs.CacheState.{UpToOrder};
ghost use Rattle.quick_cache_model.specs.Removal.{cleared};
ghost use Rattle.quick_cache_store.specs.Lists.{entry_count};
ghost use Rattle.quick_cache_policy.specs.Contents.{state_of};
ghost use Rattle.quick_cache_policy.specs.Finding.{AreUnder};
ghost use Rattle.quick_cache_policy.specs.Places.{places_of, LosesOnly};
ghost use Rattle.quick_cache_policy.specs.Predicates.{Answers, MayBeAskedUnder, MayBeAskedOfEach, RemovesAsked, RetainsAsked};
ghost use Rattle.quick_cache_policy.specs.Stays.{KeepsSound};

use crate::contents::Contents;
use quick_cache_model::{Equivalent, SharedPlaceholder, Touches};
use std::alloc::Allocator;
use std::hash::Hash;

impl<K: Eq + Hash, V, P: SharedPlaceholder<K>, A: Allocator> Contents<K, V, P, A> {
    /// Takes the item under the query out where its value is wanted, and gives its pair. The value
    /// is shown once. A placeholder and a ghost stay.
    pub fn remove_if<Q: Equivalent<K>, F: FnOnce(&V) -> bool>(
        &mut self,
        hash: u64,
        query: &Q,
        wanted: F,
    ) -> Option<(K, V)>
        requires under { AreUnder (Q.equivalent query.now) hash self.old.lists }
        requires callable { MayBeAskedUnder F.FnOnce wanted (Q.equivalent query.now)
            (state_of P.ticket_of self.old) }
        ensures removes { UpToOrder (RemovesAsked (Q.equivalent query.now)
            (state_of P.ticket_of self.old) (FnOnceReturnsAt F.FnOnce wanted) result)
            (state_of P.ticket_of self.new) }
        ensures sound { KeepsSound P.ticket_of K.eq self.old self.new }
        ensures places { LosesOnly (places_of self.old.lists) (places_of self.new.lists) }
        ensures room { self.old.lists.room ≤ self.new.lists.room }
        ensures same { self.new ≡ record self.old { lists = self.new.lists } }
    {
        self.lists.facts();
        let Some((token, goes)) = self.test_item(hash, query, wanted) else {
            return None;
        };
        if !goes {
            return None;
        }
        Some(self.take_item(token))
    }

    /// Shows each item to the predicate, by ascending token, and drops those that it does not keep.
    /// Each ring keeps the order of the rest. It asks for no memory.
    pub fn retain<F: Fn(&K, &V) -> bool>(&mut self, keep: F)
    where
        K: Drop,
        V: Drop,
        requires callable { MayBeAskedOfEach F.Fn keep (state_of P.ticket_of self.old) }
        ensures retains { UpToOrder (RetainsAsked (Answers F.Fn keep)
            (state_of P.ticket_of self.old)) (state_of P.ticket_of self.new) }
        ensures sound { KeepsSound P.ticket_of K.eq self.old self.new }
        ensures places { LosesOnly (places_of self.old.lists) (places_of self.new.lists) }
        ensures room { self.old.lists.room ≤ self.new.lists.room }
        ensures same { self.new ≡ record self.old { lists = self.new.lists } }
    {
        self.lists.numbered();
        let mut at = None;
        while let Some(token) = self.lists.first_above(at) {
            self.lists.facts();
            let (key, value) = self.lists.item(token).pair();
            if !keep(key, value) {
                let _ = self.take_item(token);
            }
            at = Some(token);
        }
    }

    /// Drops all items, placeholders and ghosts, and keeps the memory.
    pub fn clear(&mut self)
    where
        K: Drop,
        V: Drop,
        ensures clears { state_of P.ticket_of self.new ≡ cleared (state_of P.ticket_of self.old) }
        ensures sound { KeepsSound P.ticket_of K.eq self.old self.new }
        ensures room { self.new.lists.room ≡ self.old.lists.room + entry_count self.old.lists }
        ensures same { self.new ≡ record self.old { lists = self.new.lists } }
    {
        self.shared_hits.add_all(self.touches_seen());
        self.lists.clear();
    }
}
