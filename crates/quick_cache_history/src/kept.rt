//! A shard behind its lock, with the history that it stands for.
ghost use Rattle.std.specs.Prelude.{◌≡◌, ◌++◌, ◌∷◌, [], Option, true, is_some, IsErr, OnOk, OnErr, IfOk, IfErr};
ghost use Rattle.std.specs.Fn.{FnOnceReturnsAt};
ghost use mathlib.Core.List.{IsPrefix};
ghost use Rattle.quick_cache_model.specs.declared.calls.call.Call.{Call};
ghost use Rattle.quick_cache_model.specs.declared.calls.reply.Reply.{Reply};
ghost use Rattle.quick_cache_model.specs.declared.refusal.Refusal.{Refusal};
ghost use Rattle.quick_cache_locked.specs.Asked.{MayBeAskedOfFittingUnder};
ghost use Rattle.quick_cache_locked.specs.Counts.{empty_of};
ghost use Rattle.quick_cache_locked.specs.Peeks.{Peeks};
ghost use Rattle.quick_cache_history.specs.declared.choice.Choice.{Choice};
ghost use Rattle.quick_cache_history.specs.declared.entry.Entry.{Entry};
ghost use Rattle.quick_cache_history.specs.Histories.{calls_of, first_in, is_in, is_of, next_of, reply_of_replace};
ghost use Rattle.quick_cache_history.specs.KeptShards.{HasMade, LeftByAsking, Makes, StandsAtEnd};
ghost use Rattle.quick_cache_history.specs.Loads.{Enters, MayShow};
ghost use Rattle.quick_cache_history.specs.Seats.{Extends};

use crate::choice::{Choice, Entered};
use crate::entry::Entry;
use crate::head::Head;
use crate::law::{
    Cleared, Inserted, Law, Naming, Nothing, Removed, RemovedIf, Replaced, Replacing,
};
use crate::past::Past;
use crate::seat::Seat;
use crate::turn::Turn;
use logbook::Offer;
use quick_cache_locked::LockedShard;
use quick_cache_model::{Equivalent, Lifecycle, Refusal, Weighter};
use quick_cache_options::Options;
use quick_cache_options::sizes::ShardSizes;
use quick_cache_shard::Ruled;
use std::alloc::{Allocator, Global};
use std::hash::{BuildHasher, Hash};
use std::marker::Model;
use std::sync::Wait;

/// A shard, which is what its calls in the history make of an empty one.
pub(crate) struct Kept<
    K: Eq + Hash + Drop,
    V: Drop,
    We: Weighter<K, V>,
    B: BuildHasher,
    L: Lifecycle<K, V>,
    J: Naming,
    A: Allocator = Global,
> {
    shard: LockedShard<K, V, We, B, L, A>,
    past: Past<K, V, J>,
}

// By hand: the derived one would hand the shard on by value, for which the kit has no proof.
impl<
    K: Eq + Hash + Drop,
    V: Drop,
    We: Weighter<K, V> + Drop,
    B: BuildHasher + Drop,
    L: Lifecycle<K, V> + Drop,
    J: Naming,
    A: Allocator,
> Drop for Kept<K, V, We, B, L, J, A> {
    fn drop(self) {
        let Kept { shard: _, past: _ } = self;
    }
}

impl<
    K: Eq + Hash + Drop,
    V: Drop,
    We: Weighter<K, V>,
    B: BuildHasher,
    L: Lifecycle<K, V>,
    J: Naming,
    A: Allocator,
> Model for Kept<K, V, We, B, L, J, A> {
    ghost use Rattle.quick_cache_shard.specs.Goes.{goes_by};
    ghost use Rattle.quick_cache_history.specs.KeptShards.{KeptShard, StandsAtEnd};

    ghost Value = { KeptShard K V We B L };

    ghost view = { λ kept. record { shard = kept.shard; known = kept.past } };

    // An invariant cannot quote an impl at type parameters, so what the shard goes by is written
    // out.
    ghost invariant = { λ kept. StandsAtEnd
        (goes_by K.Hash.hash_input We.Weighter B.BuildHasher B.Hasher.Hasher L.Lifecycle)
        L.RequestState.is_default K.eq kept.past.shard kept.past.log kept.shard };
}

impl<
    K: Eq + Hash + Drop,
    V: Drop,
    We: Weighter<K, V> + Drop,
    B: BuildHasher + Drop,
    L: Lifecycle<K, V> + Drop,
    J: Naming,
    A: Allocator + Clone,
> Kept<K, V, We, B, L, J, A> {
    /// An empty shard, of which no call was made.
    pub(crate) fn new(
        alloc: A,
        options: &Options,
        sizes: ShardSizes,
        weigher: We,
        builder: B,
        lifecycle: L,
        past: Past<K, V, J>,
    ) -> Result<Self, Refusal>
        requires none { calls_of past.shard past.log ≡ [] }
        requires empty { first_in past.log ≡ empty_of options.now sizes.items sizes.weight }
        ensures refused { IfErr result (λ refusal. refusal ≡ Refusal.Memory) }
    {
        let shard = LockedShard::new(alloc, options, sizes, weigher, builder, lifecycle)?;
        Ok(Kept { shard, past })
    }
}

impl<
    K: Eq + Hash + Drop,
    V: Drop,
    We: Weighter<K, V>,
    B: BuildHasher,
    L: Lifecycle<K, V>,
    J: Naming,
    A: Allocator,
> Kept<K, V, We, B, L, J, A> {
    /// Adds a call that the shard made, which the seat has seen then.
    fn add<R: Wait>(
        past: &mut Past<K, V, J>,
        shard: &LockedShard<K, V, We, B, L, A>,
        rt: &R,
        head: &Head<K, V, J>,
        seat: &mut Seat<K, V, J>,
        next: Turn<J>,
        entry: Offer<Entry<K, V>, u64, Law<K, V>, Nothing>,
    )
        requires number { head.now.number ≡ past.old.shard }
        requires own { is_of past.old.shard entry.ask ≡ true }
        requires turn { is_in seat.old.turn entry.ask ≡ true }
        requires next { next_of entry.ask ≡ next }
        requires names { entry.names ≡ [] }
        requires made { HasMade ⟦<LockedShard<K, V, We, B, L, A> as Ruled>⟧.goes
            L.RequestState.is_default K.eq past.old.shard past.old.log entry.ask shard.now }
        ensures extends { Extends seat.old entry.ask seat.new }
        ensures one_more { calls_of past.old.shard seat.new.seen
            ≡ calls_of past.old.shard past.old.log ++ entry.ask ∷ [] }
        ensures turn { seat.new.turn ≡ next }
        ensures knows { past.new ≡ record past.old { log = seat.new.seen } }
        ensures stands { StandsAtEnd ⟦<LockedShard<K, V, We, B, L, A> as Ruled>⟧.goes
            L.RequestState.is_default K.eq past.old.shard seat.new.seen shard.now }
    {
        past.add(rt, head, seat, next, entry);
    }

    /// Inserts a pair whose value fits its key, with this request state.
    ///
    /// # Errors
    ///
    /// As of the shard: no call was made then.
    pub(crate) fn insert<R: Wait>(
        &mut self,
        rt: &R,
        head: &Head<K, V, J>,
        seat: &mut Seat<K, V, J>,
        key: K,
        value: V,
        state: &mut L::RequestState,
    ) -> Result<(), (K, V, Refusal)>
        requires fits { L.fits key value }
        requires fresh { L.RequestState.is_default state.old }
        ensures extends { OnOk result (Extends seat.old (Entry.Made seat.old.turn seat.new.turn
            head.now.number (Call.Insert key value) Reply.Done) seat.new) }
        ensures next { OnOk result (calls_of head.now.number seat.new.seen
            ≡ calls_of head.now.number self.old.known.log ++ Entry.Made seat.old.turn seat.new.turn
            head.now.number (Call.Insert key value) Reply.Done ∷ []) }
        ensures run { OnOk result (StandsAtEnd
            ⟦<LockedShard<K, V, We, B, L, A> as Ruled>⟧.goes L.RequestState.is_default K.eq
            head.now.number seat.new.seen self.new.shard) }
        ensures makes { OnOk result (Makes ⟦<LockedShard<K, V, We, B, L, A> as Ruled>⟧.goes
            L.RequestState.is_default K.eq self.old.shard (Call.Insert key value) Reply.Done
            self.new.shard) }
        ensures back { IfErr result (λ back. (back.0 ≡ key) × (back.1 ≡ value)) }
        ensures refused { OnErr result (seat.new ≡ seat.old) }
    {
        self.past.meet(rt, head);
        let next = head.turn();
        let entry = self
            .past
            .made::<_, Inserted>(&seat.turn, &next, &(&key, &value));
        match self.shard.insert(key, value, state) {
            Ok(()) => {
                Self::add(&mut self.past, &self.shard, rt, head, seat, next, entry);
                Ok(())
            }
            Err(back) => Err(back),
        }
    }

    /// Takes the item under the key out, or a ghost of its hash.
    pub(crate) fn remove<R: Wait>(
        &mut self,
        rt: &R,
        head: &Head<K, V, J>,
        seat: &mut Seat<K, V, J>,
        key: &K,
    ) -> Option<(K, V)>
        ensures extends { Extends seat.old (Entry.Made seat.old.turn seat.new.turn head.now.number
            (Call.Remove key.now) (Reply.Pair result)) seat.new }
        ensures next { calls_of head.now.number seat.new.seen
            ≡ calls_of head.now.number self.old.known.log ++ Entry.Made seat.old.turn seat.new.turn
            head.now.number (Call.Remove key.now) (Reply.Pair result) ∷ [] }
        ensures run { StandsAtEnd ⟦<LockedShard<K, V, We, B, L, A> as Ruled>⟧.goes
            L.RequestState.is_default K.eq head.now.number seat.new.seen self.new.shard }
        ensures makes { Makes ⟦<LockedShard<K, V, We, B, L, A> as Ruled>⟧.goes
            L.RequestState.is_default K.eq self.old.shard (Call.Remove key.now) (Reply.Pair result)
            self.new.shard }
    {
        self.past.meet(rt, head);
        let pair = self.shard.remove(key);
        let next = head.turn();
        let entry = self
            .past
            .made::<_, Removed>(&seat.turn, &next, &(key, &pair));
        Self::add(&mut self.past, &self.shard, rt, head, seat, next, entry);
        pair
    }

    /// Replaces the item under the key by a pair whose value fits it, with this request state.
    pub(crate) fn replace<R: Wait>(
        &mut self,
        rt: &R,
        head: &Head<K, V, J>,
        seat: &mut Seat<K, V, J>,
        key: K,
        value: V,
        soft: bool,
        state: &mut L::RequestState,
    ) -> Result<(), (K, V)>
        requires fits { L.fits key value }
        requires fresh { L.RequestState.is_default state.old }
        ensures extends { Extends seat.old (Entry.Made seat.old.turn seat.new.turn head.now.number
            (Call.Replace key value soft) (reply_of_replace result)) seat.new }
        ensures run { StandsAtEnd ⟦<LockedShard<K, V, We, B, L, A> as Ruled>⟧.goes
            L.RequestState.is_default K.eq head.now.number seat.new.seen self.new.shard }
        ensures fits { IfErr result (λ back. L.fits back.0 back.1) }
    {
        self.past.meet(rt, head);
        let next = head.turn();
        let asked = self
            .past
            .made::<_, Replacing>(&seat.turn, &next, &(&key, &value, soft));
        let result = self.shard.replace(key, value, soft, state);
        let entry = self
            .past
            .made::<_, Replaced>(&seat.turn, &next, &(&asked, &result));
        Self::add(&mut self.past, &self.shard, rt, head, seat, next, entry);
        result
    }

    /// Takes the item under the key out where its value is wanted.
    pub(crate) fn remove_if<F: FnOnce(&V) -> bool, R: Wait>(
        &mut self,
        rt: &R,
        head: &Head<K, V, J>,
        seat: &mut Seat<K, V, J>,
        key: &K,
        wanted: F,
    ) -> Option<(K, V)>
        requires callable { MayBeAskedOfFittingUnder L.fits (K.eq key.now) F.FnOnce wanted }
        ensures extends { Extends seat.old (Entry.Made seat.old.turn seat.new.turn head.now.number
            (Call.RemoveIf key.now (is_some result)) (Reply.Pair result)) seat.new }
        ensures run { StandsAtEnd ⟦<LockedShard<K, V, We, B, L, A> as Ruled>⟧.goes
            L.RequestState.is_default K.eq head.now.number seat.new.seen self.new.shard }
        ensures asks { LeftByAsking (K.eq key.now) (FnOnceReturnsAt F.FnOnce wanted) result
            self.new.shard.state }
    {
        self.past.meet(rt, head);
        let pair = self.shard.remove_if(key, wanted);
        let next = head.turn();
        let entry = self
            .past
            .made::<_, RemovedIf>(&seat.turn, &next, &(key, &pair));
        Self::add(&mut self.past, &self.shard, rt, head, seat, next, entry);
        pair
    }

    /// Drops all items, and forgets those that left.
    pub(crate) fn clear<R: Wait>(&mut self, rt: &R, head: &Head<K, V, J>, seat: &mut Seat<K, V, J>)
        ensures extends { Extends seat.old (Entry.Made seat.old.turn seat.new.turn head.now.number
            Call.Clear Reply.Done) seat.new }
        ensures run { StandsAtEnd ⟦<LockedShard<K, V, We, B, L, A> as Ruled>⟧.goes
            L.RequestState.is_default K.eq head.now.number seat.new.seen self.new.shard }
    {
        self.past.meet(rt, head);
        self.shard.clear();
        let next = head.turn();
        let entry = self.past.made::<_, Cleared>(&seat.turn, &next, &());
        Self::add(&mut self.past, &self.shard, rt, head, seat, next, entry);
    }

    /// The shard, of which the seat has then seen all calls.
    pub(crate) fn look<R: Wait>(
        &self,
        rt: &R,
        head: &Head<K, V, J>,
        seat: &mut Seat<K, V, J>,
    ) -> &LockedShard<K, V, We, B, L, A>
        ensures longer { IsPrefix seat.old.seen seat.new.seen }
        ensures seat { seat.new ≡ record seat.old { seen = seat.new.seen } }
        ensures run { StandsAtEnd ⟦<LockedShard<K, V, We, B, L, A> as Ruled>⟧.goes
            L.RequestState.is_default K.eq head.now.number seat.new.seen result.now }
        ensures its { result.now ≡ self.now.shard }
        ensures calls { calls_of head.now.number seat.new.seen
            ≡ calls_of head.now.number self.now.known.log }
    {
        self.past.meet(rt, head);
        self.past.show(rt, head, seat);
        &self.shard
    }
}

impl<
    K: Eq + Hash + Drop,
    V: Clone,
    We: Weighter<K, V>,
    B: BuildHasher,
    L: Lifecycle<K, V>,
    J: Naming,
    A: Allocator,
> Kept<K, V, We, B, L, J, A> {
    /// Looks the query's key up beside other readers, and clones what it finds.
    ///
    /// # Errors
    ///
    /// As of the shard.
    pub(crate) fn get<Q: Equivalent<K>, R: Wait>(
        &self,
        rt: &R,
        head: &Head<K, V, J>,
        seat: &mut Seat<K, V, J>,
        query: &Q,
    ) -> Result<Option<V>, Refusal>
        ensures longer { IsPrefix seat.old.seen seat.new.seen }
        ensures seat { seat.new ≡ record seat.old { seen = seat.new.seen } }
        ensures shows { Peeks (Q.equivalent query.now) V.is_clone self.now.shard.state result }
        ensures run { StandsAtEnd ⟦<LockedShard<K, V, We, B, L, A> as Ruled>⟧.goes
            L.RequestState.is_default K.eq head.now.number seat.new.seen self.now.shard }
    {
        let _ = self.look(rt, head, seat);
        self.shard.get(query)
    }

    /// Shows the callback a clone of the value under the key, and makes the call that it chooses, with
    /// this request state.
    ///
    /// # Errors
    ///
    /// `Memory` where the clone failed, or why the shard refused the pair: no call was made then.
    pub(crate) fn entry<R: Wait, T: Drop, F: FnOnce(Option<V>) -> Choice<V, T>>(
        &mut self,
        rt: &R,
        head: &Head<K, V, J>,
        seat: &mut Seat<K, V, J>,
        key: K,
        choose: F,
        state: &mut L::RequestState,
    ) -> Result<Entered<K, V, T>, Refusal>
        requires fresh { L.RequestState.is_default state.old }
        requires callable { (found : Option V) → MayShow L.fits (K.eq key) V.is_clone found
            → F.pre choose found }
        requires fits { (found : Option V) (value : V) → MayShow L.fits (K.eq key) V.is_clone found
            → F.post choose found (Choice.Insert value) → L.fits key value }
        ensures enters { IfOk result (Enters ⟦<LockedShard<K, V, We, B, L, A> as Ruled>⟧.goes
            L.RequestState.is_default K.eq V.is_clone head.now.number key
            (λ found chosen. F.post choose found chosen) seat.old seat.new) }
        ensures longer { IsErr result → IsPrefix seat.old.seen seat.new.seen }
        ensures refused { IsErr result → seat.new ≡ record seat.old { seen = seat.new.seen } }
    {
        let found = match self.look(rt, head, seat).peek(&key) {
            Ok(found) => found,
            Err(refusal) => return Err(refusal),
        };
        match choose(found) {
            Choice::Keep(told) => Ok(Entered::Kept(told)),
            Choice::Remove => Ok(Entered::Removed(self.remove(rt, head, seat, &key))),
            Choice::Insert(value) => match self.insert(rt, head, seat, key, value, state) {
                Ok(()) => Ok(Entered::Inserted),
                Err((_, _, refusal)) => Err(refusal),
            },
        }
    }
}
