//! A look-up beside other readers, which adds to counts alone.
ghost use Rattle.std.specs.Prelude.{MatchOption};
ghost use Rattle.quick_cache_model.specs.Finding.{HasNoItem};
ghost use Rattle.quick_cache_policy.specs.Contents.{state_of};
ghost use Rattle.quick_cache_policy.specs.Finding.{AreUnder, IsThere};

use crate::contents::Contents;
use quick_cache_model::{Equivalent, SharedPlaceholder, Touches};
use quick_cache_store::lists::{ItemRef, Marked};
use std::alloc::Allocator;
use std::hash::Hash;

impl<K: Eq + Hash, V, P: SharedPlaceholder<K>, A: Allocator> Contents<K, V, P, A> {
    /// The item under the query, at which a touch is counted, and a hit; or a miss is. The lists
    /// and the marks stay: the next advance or overwrite takes the touch in.
    pub fn get_shared<Q: Equivalent<K>>(
        &self,
        hash: u64,
        query: &Q,
    ) -> Option<ItemRef<'_, K, V, P::Touch>>
        requires under { AreUnder (Q.equivalent query.now) hash self.now.lists }
        ensures { MatchOption result
            (HasNoItem (Q.equivalent query.now) (state_of P.ticket_of self.now))
            (λ item. IsThere (Q.equivalent query.now) (state_of P.ticket_of self.now) item) }
    {
        let Some(item) = self.peek(hash, query) else {
            self.count_shared_miss();
            return None;
        };
        self.count_shared_hit(&item);
        Some(item)
    }

    /// Counts a look-up that found this item, beside other readers: by its touch alone, which is a
    /// hit too.
    pub fn count_shared_hit(&self, item: &ItemRef<'_, K, V, P::Touch>) {
        item.touch().add();
    }

    /// Counts a look-up that found nothing, beside other readers.
    pub fn count_shared_miss(&self) {
        self.shared_misses.add();
    }

    /// Counts the touches of an item that leaves as hits that readers made.
    pub(crate) fn keep_hits(&self, item: &Marked<K, V, P::Touch>) {
        self.shared_hits.add_all(item.touch().seen());
    }

    /// How many touches stand at the items. Where readers count, it looks at each slot.
    pub(crate) fn touches_seen(&self) -> u64
        ensures { P.Touch.may_count result }
    {
        let touches = P::Touch::default();
        if P::Touch::counts() {
            for item in self.lists.iter_items() {
                touches.add_all(item.touch().seen());
            }
        }
        touches.seen()
    }

    /// How many look-ups readers counted that found an item: the touches that were taken in or left
    /// with their items, and those of the items that stand.
    pub fn hits_seen(&self) -> u64
        ensures { P.Touch.may_count result }
    {
        let hits = P::Touch::default();
        hits.add_all(self.shared_hits.seen());
        hits.add_all(self.touches_seen());
        hits.seen()
    }

    /// How many look-ups readers counted that found none.
    pub fn misses_seen(&self) -> u64
        ensures { P.Touch.may_count result }
    {
        self.shared_misses.seen()
    }
}
