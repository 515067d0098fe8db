//! The cache that threads share, with one history of its calls.
ghost use Rattle.std.specs.Prelude.{◌≡◌, ◌<◌, [], IfOk, IfErr, OnOk, OnErr};
ghost use mathlib.Core.List.{IsPrefix};
ghost use Rattle.quick_cache_model.specs.declared.calls.call.Call.{Call};
ghost use Rattle.quick_cache_model.specs.declared.calls.reply.Reply.{Reply};
ghost use Rattle.quick_cache_locked.specs.Peeks.{Peeks};
ghost use Rattle.quick_cache_shard.specs.Shard.{Shard};
ghost use Rattle.quick_cache_history.specs.declared.entry.Entry.{Entry};
ghost use Rattle.quick_cache_history.specs.Seats.{Extends};
ghost use Rattle.quick_cache_history.specs.KeptShards.{AtEnd};
ghost use Rattle.quick_cache_history.specs.Rows.{shard_of};

mod loads;
mod looks;
mod writes;

use crate::head::Head;
use crate::history::History;
use crate::kept::Kept;
use crate::law::Naming;
use crate::past::Past;
use crate::seat::Seat;
use crossbeam_utils::CachePadded;
use quick_cache_model::{Equivalent, Lifecycle, Refusal, Weighter, hash_of};
use quick_cache_shard::Ruled;
use std::alloc::{Allocator, Global};
use std::hash::{BuildHasher, Hash};
use std::marker::Model;
use std::sync::{RwLock, Wait};

/// A shard behind its lock, and beside the lock the word that counts its calls.
#[derive(Drop)]
pub(crate) struct Place<
    K: Eq + Hash + Drop,
    V: Drop,
    We: Weighter<K, V>,
    B: BuildHasher,
    L: Lifecycle<K, V>,
    J: Naming,
    A: Allocator = Global,
> {
    head: Head<K, V, J>,
    lock: RwLock<Kept<K, V, We, B, L, J, A>>,
}

/// A cache of a bounded weight, which threads share by reference, with one history of its calls.
pub struct Recorded<
    K: Eq + Hash + Drop,
    V: Drop,
    We: Weighter<K, V>,
    B: BuildHasher,
    L: Lifecycle<K, V>,
    J: Naming,
    A: Allocator = Global,
> {
    places: Vec<CachePadded<Place<K, V, We, B, L, J, A>>, A>,
    builder: B,
}

impl<
    K: Eq + Hash + Drop,
    V: Drop,
    We: Weighter<K, V> + Drop,
    B: BuildHasher + Drop,
    L: Lifecycle<K, V> + Drop,
    J: Naming,
    A: Allocator + Drop,
> Drop for Recorded<K, V, We, B, L, J, A> {
    fn drop(self) {
        let Recorded {
            places: _places,
            builder: _builder,
        } = self;
    }
}

impl<
    K: Eq + Hash + Drop,
    V: Drop,
    We: Weighter<K, V>,
    B: BuildHasher,
    L: Lifecycle<K, V>,
    J: Naming,
    A: Allocator,
> Model for Recorded<K, V, We, B, L, J, A> {
    ghost use Rattle.std.specs.Prelude.{vec_len};
    ghost use Rattle.quick_cache_sync.specs.Shards.{Division, IsDivision};

    ghost Value = { Division B };

    ghost view = { λ cache. record { shards = vec_len cache.places; builder = cache.builder } };

    ghost invariant = { λ cache. IsDivision (vec_len cache.places) };
}

impl<
    K: Eq + Hash + Drop,
    V: Drop,
    We: Weighter<K, V>,
    B: BuildHasher,
    L: Lifecycle<K, V>,
    J: Naming,
    A: Allocator,
> Ruled for Recorded<K, V, We, B, L, J, A> {
    ghost use Rattle.quick_cache_shard.specs.Goes.{goes_by};

    type Key = K;

    type Value = V;

    type Weigher = We;

    type Builder = B;

    type Life = L;

    type RequestState = L::RequestState;

    ghost goes = { goes_by K.Hash.hash_input We.Weighter B.BuildHasher B.Hasher.Hasher L.Lifecycle };
}

impl<
    K: Eq + Hash + Drop,
    V: Drop,
    We: Weighter<K, V> + Clone + Drop,
    B: BuildHasher + Clone + Drop,
    L: Lifecycle<K, V> + Clone + Drop,
    J: Naming,
    A: Allocator + Clone,
> Recorded<K, V, We, B, L, J, A> {
    /// An empty cache of the options of the history. It takes no lock.
    ///
    /// # Errors
    ///
    /// `Memory` where the list of the shards was refused, or a clone.
    pub fn new(
        alloc: A,
        history: History<K, V>,
        weigher: We,
        builder: B,
        lifecycle: L,
    ) -> Result<Self, Refusal>
        requires named { history ≡ J.book }
        ensures builder { IfOk result (λ cache. cache.builder ≡ builder) }
        ensures refused { IfErr result (λ refusal. refusal ≡ Refusal.Memory) }
    {
        let History {
            options,
            sizes,
            seen,
            mut pens,
        } = history;
        let own: Result<_, _> = alloc.clone();
        let Ok(own) = own else {
            return Err(Refusal::Memory);
        };
        let Ok(mut places) = Vec::with_capacity(own, sizes.shards) else {
            return Err(Refusal::Memory);
        };
        for number in 0..sizes.shards {
            let alloc: Result<_, _> = alloc.clone();
            let weigher: Result<_, _> = weigher.clone();
            let builder: Result<_, _> = builder.clone();
            let lifecycle: Result<_, _> = lifecycle.clone();
            let (Ok(alloc), Ok(weigher), Ok(builder), Ok(lifecycle)) = (
                alloc, weigher, builder, lifecycle,
            ) else {
                return Err(Refusal::Memory);
            };
            let head = Head::new(number as u64, &mut pens, seen.again());
            let past = Past::new(number as u64, seen.again());
            let kept = Kept::new(alloc, &options, sizes, weigher, builder, lifecycle, past)?;
            places.push_reserved(CachePadded::new(Place {
                head,
                lock: RwLock::new(kept),
            }));
        }
        Ok(Recorded { places, builder })
    }
}

impl<
    K: Eq + Hash + Drop,
    V: Drop,
    We: Weighter<K, V>,
    B: BuildHasher,
    L: Lifecycle<K, V>,
    J: Naming,
    A: Allocator,
> Recorded<K, V, We, B, L, J, A> {
    /// The shard of the query's key, by the last bits of its hash, once it is rotated right by 32.
    fn place_of<Q: Equivalent<K>, R: Wait>(&self, rt: &R, query: &Q) -> &Place<K, V, We, B, L, J, A>
        ensures number { result.now.head.number ≡ shard_of B.BuildHasher B.Hasher.Hasher
            self.now (Q.hash_input query.now) }
    {
        let hash = hash_of(&self.builder, query);
        let number = hash.rotate_right(32) & (self.places.len() as u64 - 1);
        self.place_at(rt, number as usize)
    }

    /// The shard of that number.
    fn place_at<R: Wait>(&self, rt: &R, number: usize) -> &Place<K, V, We, B, L, J, A>
        requires within { number < self.now.shards }
        ensures number { result.now.head.number ≡ number }
    {
        let place = &*self.places[number];
        // No clause says which number stands at a place of the list.
        if place.head.number == number as u64 {
            return place;
        }
        for _ in rt.forever() {}
        unreachable!()
    }

    /// A seat by which no call was made. It takes no lock.
    pub fn seat(&self) -> Seat<K, V, J>
        ensures none { result.mine ≡ [] }
    {
        self.places[0].head.seat()
    }

    /// A seat by which no call was made, which has seen what this one has. It takes no lock.
    pub fn tell(&self, seat: &Seat<K, V, J>) -> Seat<K, V, J>
        ensures longer { IsPrefix seat.now.seen result.seen }
        ensures none { result.mine ≡ [] }
    {
        let mut told = self.seat();
        told.learn(seat);
        told
    }

    /// Inserts a pair, and hands what leaves to the lifecycle, with a request state of its own. It
    /// takes the write lock of the key's shard.
    ///
    /// # Errors
    ///
    /// The pair and why: `SlotsFull` or `Memory`, only where nothing stood under its key. No call was
    /// made then.
    pub fn insert<R: Wait>(
        &self,
        rt: &R,
        seat: &mut Seat<K, V, J>,
        key: K,
        value: V,
    ) -> Result<(), (K, V, Refusal)>
    where
        L::RequestState: Drop,
        requires fits { L.fits key value }
        // The history goes on from what the seat had seen, and ends with this call of the key's shard.
        ensures extends { OnOk result (Extends seat.old (Entry.Made seat.old.turn seat.new.turn (shard_of
            B.BuildHasher B.Hasher.Hasher self.now (K.hash_input key)) (Call.Insert key value)
            Reply.Done) seat.new) }
        // The shard's calls in it are a run of the definition from an empty shard.
        ensures run { OnOk result (AtEnd ⟦<Self as Ruled>⟧.goes L.RequestState.is_default K.eq
            (shard_of B.BuildHasher B.Hasher.Hasher self.now (K.hash_input key)) seat.new.seen
            (λ shard. Unit {0})) }
        ensures back { IfErr result (λ back. (back.0 ≡ key) × (back.1 ≡ value)) }
        ensures refused { OnErr result (seat.new ≡ seat.old) }
    {
        let mut state = L::RequestState::default();
        let place = self.place_of(rt, &key);
        place
            .lock
            .write(rt)
            .insert(rt, &place.head, seat, key, value, &mut state)
    }

    /// Takes the item under the key out, or a ghost of its hash. No hook is called. It takes the write
    /// lock of the key's shard, and no memory.
    pub fn remove<R: Wait>(&self, rt: &R, seat: &mut Seat<K, V, J>, key: &K) -> Option<(K, V)>
        ensures extends { Extends seat.old (Entry.Made seat.old.turn seat.new.turn (shard_of
            B.BuildHasher B.Hasher.Hasher self.now (K.hash_input key.now)) (Call.Remove key.now)
            (Reply.Pair result)) seat.new }
        ensures run { AtEnd ⟦<Self as Ruled>⟧.goes L.RequestState.is_default K.eq
            (shard_of B.BuildHasher B.Hasher.Hasher self.now (K.hash_input key.now)) seat.new.seen
            (λ shard. Unit {0}) }
    {
        let place = self.place_of(rt, key);
        place.lock.write(rt).remove(rt, &place.head, seat, key)
    }
}

impl<
    K: Eq + Hash + Drop,
    V: Clone,
    We: Weighter<K, V>,
    B: BuildHasher,
    L: Lifecycle<K, V>,
    J: Naming,
    A: Allocator,
> Recorded<K, V, We, B, L, J, A> {
    /// Looks the query's key up and gives a clone of its value, made under the lock. It takes the read
    /// lock of the key's shard, so look-ups run side by side.
    ///
    /// # Errors
    ///
    /// `Memory` where the clone failed.
    pub fn get<Q: Equivalent<K>, R: Wait>(
        &self,
        rt: &R,
        seat: &mut Seat<K, V, J>,
        query: &Q,
    ) -> Result<Option<V>, Refusal>
        ensures longer { IsPrefix seat.old.seen seat.new.seen }
        ensures seat { seat.new ≡ record seat.old { seen = seat.new.seen } }
        // At the end of what the seat has then seen, the key's shard shows this.
        ensures shows { AtEnd ⟦<Self as Ruled>⟧.goes L.RequestState.is_default K.eq
            (shard_of B.BuildHasher B.Hasher.Hasher self.now (Q.hash_input query.now)) seat.new.seen
            (λ (shard : Shard K V We B L). Peeks (Q.equivalent query.now) V.is_clone shard.state
            result) }
    {
        let place = self.place_of(rt, query);
        place.lock.read(rt).get(rt, &place.head, seat, query)
    }
}
