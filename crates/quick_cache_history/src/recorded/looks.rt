//! Looks beside `get`: what the seat has then seen ends where the shard shows this.
ghost use Rattle.std.specs.Prelude.{◌≡◌};
ghost use Rattle.std.specs.Bool.{OnTrue, OnFalse};
ghost use mathlib.Core.List.{IsPrefix};
ghost use Rattle.quick_cache_model.specs.Finding.{HasNoItem};
ghost use Rattle.quick_cache_locked.specs.Peeks.{Peeks};
ghost use Rattle.quick_cache_shard.specs.Shard.{Shard, HasItem};
ghost use Rattle.quick_cache_history.specs.KeptShards.{AtEnd};
ghost use Rattle.quick_cache_history.specs.Rows.{Counts, OnEach, shard_of};

use crate::law::Naming;
use crate::recorded::Recorded;
use crate::seat::Seat;
use quick_cache_locked::Count;
use quick_cache_model::{Equivalent, Lifecycle, Refusal, Weighter};
use quick_cache_shard::Ruled;
use std::alloc::Allocator;
use std::hash::{BuildHasher, Hash};
use std::sync::Wait;

impl<
    K: Eq + Hash + Drop,
    V: Clone,
    We: Weighter<K, V>,
    B: BuildHasher,
    L: Lifecycle<K, V>,
    J: Naming,
    A: Allocator,
> Recorded<K, V, We, B, L, J, A> {
    /// Looks at the query's key and gives a clone of its value, made under the lock. It is no use of
    /// the item, and nothing changes. It takes the read lock of the key's shard.
    ///
    /// # Errors
    ///
    /// `Memory` where the clone failed.
    pub fn peek<Q: Equivalent<K>, R: Wait>(
        &self,
        rt: &R,
        seat: &mut Seat<K, V, J>,
        query: &Q,
    ) -> Result<Option<V>, Refusal>
        ensures longer { IsPrefix seat.old.seen seat.new.seen }
        ensures seat { seat.new ≡ record seat.old { seen = seat.new.seen } }
        // At the end of what the seat has then seen, the key's shard shows this.
        ensures shows { AtEnd ⟦<Self as Ruled>⟧.goes L.RequestState.is_default K.eq
            (shard_of B.BuildHasher B.Hasher.Hasher self.now (Q.hash_input query.now)) seat.new.seen
            (λ (shard : Shard K V We B L). Peeks (Q.equivalent query.now) V.is_clone shard.state
            result) }
    {
        let place = self.place_of(rt, query);
        place.lock.read(rt).look(rt, &place.head, seat).peek(query)
    }
}

impl<
    K: Eq + Hash + Drop,
    V: Drop,
    We: Weighter<K, V>,
    B: BuildHasher,
    L: Lifecycle<K, V>,
    J: Naming,
    A: Allocator,
> Recorded<K, V, We, B, L, J, A> {
    /// Whether an item stands under the query's key. It is no use of the item, and nothing changes.
    /// It takes the read lock of the key's shard, and no memory.
    pub fn contains_key<Q: Equivalent<K>, R: Wait>(
        &self,
        rt: &R,
        seat: &mut Seat<K, V, J>,
        query: &Q,
    ) -> bool
        ensures longer { IsPrefix seat.old.seen seat.new.seen }
        ensures seat { seat.new ≡ record seat.old { seen = seat.new.seen } }
        // At the end of what the seat has then seen, the key's shard has an item of it, or none.
        ensures shows { AtEnd ⟦<Self as Ruled>⟧.goes L.RequestState.is_default K.eq
            (shard_of B.BuildHasher B.Hasher.Hasher self.now (Q.hash_input query.now)) seat.new.seen
            (λ (shard : Shard K V We B L). OnTrue result (HasItem (Q.equivalent query.now)
            shard.state) × OnFalse result (HasNoItem (Q.equivalent query.now) shard.state)) }
    {
        let place = self.place_of(rt, query);
        place
            .lock
            .read(rt)
            .look(rt, &place.head, seat)
            .contains_key(query)
    }

    /// How many items there are, those of weight 0 too, up to the greatest `usize`. It takes the read
    /// lock of each shard in turn.
    pub fn len<R: Wait>(&self, rt: &R, seat: &mut Seat<K, V, J>) -> usize
        // Each shard is counted at the end of what the seat had seen by then.
        ensures counts { OnEach (Counts ⟦<Self as Ruled>⟧.goes L.RequestState.is_default K.eq)
            (seat.old, 0) self.now.shards (seat.new, result) }
    {
        let mut total: u64 = 0;
        for number in 0..self.places.len() {
            let place = self.place_at(rt, number);
            let items = place
                .lock
                .read(rt)
                .look(rt, &place.head, seat)
                .count(Count::Items);
            total = total.saturating_add(items);
        }
        total as usize
    }
}
