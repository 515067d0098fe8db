//! Writes beside `insert` and `remove`.
ghost use Rattle.std.specs.Prelude.{is_some, IfErr};
ghost use Rattle.std.specs.Fn.{FnOnceReturnsAt};
ghost use Rattle.quick_cache_model.specs.declared.calls.call.Call.{Call};
ghost use Rattle.quick_cache_model.specs.declared.calls.reply.Reply.{Reply};
ghost use Rattle.quick_cache_locked.specs.Asked.{MayBeAskedOfFittingUnder};
ghost use Rattle.quick_cache_shard.specs.Shard.{Shard};
ghost use Rattle.quick_cache_history.specs.declared.entry.Entry.{Entry};
ghost use Rattle.quick_cache_history.specs.Histories.{reply_of_replace};
ghost use Rattle.quick_cache_history.specs.KeptShards.{AtEnd, LeftByAsking};
ghost use Rattle.quick_cache_history.specs.Rows.{Clears, OnEach, shard_of};
ghost use Rattle.quick_cache_history.specs.Seats.{Extends};

use crate::law::Naming;
use crate::recorded::Recorded;
use crate::seat::Seat;
use quick_cache_model::{Lifecycle, Weighter};
use quick_cache_shard::Ruled;
use std::alloc::Allocator;
use std::hash::{BuildHasher, Hash};
use std::sync::Wait;

impl<
    K: Eq + Hash + Drop,
    V: Drop,
    We: Weighter<K, V>,
    B: BuildHasher,
    L: Lifecycle<K, V>,
    J: Naming,
    A: Allocator,
> Recorded<K, V, We, B, L, J, A> {
    /// Replaces the item under the key by the pair, and hands what leaves to the lifecycle, with a
    /// request state of its own. The pair takes the item's place, and its mark rises by one, unless
    /// the replace is soft. It takes the write lock of the key's shard, and no memory.
    ///
    /// # Errors
    ///
    /// The pair where it was not admitted, as the admission check left it: no item stood under its
    /// key, or it is too heavy, and then the item under its key has left. The call was made.
    pub fn replace<R: Wait>(
        &self,
        rt: &R,
        seat: &mut Seat<K, V, J>,
        key: K,
        value: V,
        soft: bool,
    ) -> Result<(), (K, V)>
    where
        L::RequestState: Drop,
        requires fits { L.fits key value }
        ensures extends { Extends seat.old (Entry.Made seat.old.turn seat.new.turn (shard_of
            B.BuildHasher B.Hasher.Hasher self.now (K.hash_input key)) (Call.Replace key value soft)
            (reply_of_replace result)) seat.new }
        ensures run { AtEnd ⟦<Self as Ruled>⟧.goes L.RequestState.is_default K.eq
            (shard_of B.BuildHasher B.Hasher.Hasher self.now (K.hash_input key)) seat.new.seen
            (λ shard. Unit {0}) }
        ensures fits { IfErr result (λ pair. L.fits pair.0 pair.1) }
    {
        let mut state = L::RequestState::default();
        let place = self.place_of(rt, &key);
        place
            .lock
            .write(rt)
            .replace(rt, &place.head, seat, key, value, soft, &mut state)
    }

    /// Takes the item under the key out where its value is wanted. A ghost stays, and no hook is
    /// called. It takes the write lock of the key's shard, under which the predicate runs, and no
    /// memory.
    pub fn remove_if<F: FnOnce(&V) -> bool, R: Wait>(
        &self,
        rt: &R,
        seat: &mut Seat<K, V, J>,
        key: &K,
        wanted: F,
    ) -> Option<(K, V)>
        // The value that the predicate sees fits an equal key.
        requires callable { MayBeAskedOfFittingUnder L.fits (K.eq key.now) F.FnOnce wanted }
        ensures extends { Extends seat.old (Entry.Made seat.old.turn seat.new.turn (shard_of
            B.BuildHasher B.Hasher.Hasher self.now (K.hash_input key.now))
            (Call.RemoveIf key.now (is_some result)) (Reply.Pair result)) seat.new }
        // The item went or stayed by what the predicate answered.
        ensures run { AtEnd ⟦<Self as Ruled>⟧.goes L.RequestState.is_default K.eq
            (shard_of B.BuildHasher B.Hasher.Hasher self.now (K.hash_input key.now)) seat.new.seen
            (λ (shard : Shard K V We B L). LeftByAsking (K.eq key.now) (FnOnceReturnsAt F.FnOnce
            wanted) result shard.state) }
    {
        let place = self.place_of(rt, key);
        place
            .lock
            .write(rt)
            .remove_if(rt, &place.head, seat, key, wanted)
    }

    /// Drops all items, and forgets those that left, one shard after the other: a call of each shard.
    /// The counts, the sizes and the memory stay. No hook is called. It takes the write lock of each
    /// shard in turn.
    pub fn clear<R: Wait>(&self, rt: &R, seat: &mut Seat<K, V, J>)
        ensures clears { OnEach (Clears ⟦<Self as Ruled>⟧.goes L.RequestState.is_default K.eq)
            seat.old self.now.shards seat.new }
    {
        for number in 0..self.places.len() {
            let place = self.place_at(rt, number);
            place.lock.write(rt).clear(rt, &place.head, seat);
        }
    }
}
