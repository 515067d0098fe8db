//! The shard, what a contract sees of it, and its look-ups.
ghost use Rattle.std.specs.Prelude.{◌≡◌, IfOk, IfErr, IsOk, option_copied, ◌≤◌, ◌+◌, min, max, ◌-◌, OnOk};
ghost use Rattle.std.specs.Bool.{OnTrue, OnFalse};
ghost use Rattle.std.specs.Borrow.{sem};
ghost use Rattle.std.specs.Option.{option_map};
ghost use Rattle.std.specs.Map.Iter.{deref_pair};
ghost use Rattle.quick_cache_store.specs.Room.{most_room};
ghost use Rattle.quick_cache_model.specs.CacheState.{empty_state};
ghost use Rattle.quick_cache_model.specs.Finding.{HasNoItem};
ghost use Rattle.quick_cache_model.specs.Hashing.{hash_of};
ghost use Rattle.quick_cache_model.specs.Lookups.{LooksUp, Sees};
ghost use Rattle.quick_cache_model.specs.Removal.{pair_of};
ghost use Rattle.quick_cache_model.specs.Sizes.{hot_target_of, ghost_limit_of};
ghost use Rattle.quick_cache_policy.specs.Work.{no_work};
ghost use Rattle.quick_cache_policy.specs.Contents.{IsSound, state_of};
ghost use Rattle.quick_cache_policy.specs.Copies.{ClonesAreEqual, IsCopyOf, FindsCopy};
ghost use Rattle.quick_cache_shard.specs.Shard.{UpToOrder, IsSoundShard, HasItem, made_with, terms_of};
ghost use Rattle.quick_cache_model.specs.Refusals.{slots_taken, slot_count};

use crate::words::{Keyed, Ruled, Typed};
use quick_cache_model::{Equivalent, Lifecycle, Refusal, Token, Weighter, hash_of};
use quick_cache_options::sizes::{ghost_limit, hot_target};
use quick_cache_policy::{Contents, SharedPlaceholder, Terms};
use std::alloc::{Allocator, Global};
use std::hash::{BuildHasher, Hash};
use std::marker::Model;

/// One cache: the items of a hot and of a cold ring, and the hashes of what left the cold ring
/// lately.
pub struct CacheShard<
    K: Eq + Hash,
    V,
    We,
    B: BuildHasher,
    L,
    P: SharedPlaceholder<K>,
    A: Allocator = Global,
> {
    pub(crate) contents: Contents<K, V, P, A>,
    pub(crate) terms: Terms<We, B, L>,
}

// By hand, so that whoever drops a shard calls this, and its proof has nothing of what is inside.
impl<
    K: Eq + Hash + Drop,
    V: Drop,
    We: Drop,
    B: BuildHasher + Drop,
    L: Drop,
    P: SharedPlaceholder<K>,
    A: Allocator,
> Drop for CacheShard<K, V, We, B, L, P, A> {
    fn drop(self) {
        let CacheShard {
            contents: _,
            terms: _,
        } = self;
    }
}

impl<K: Eq + Hash, V, We, B: BuildHasher, L, P: SharedPlaceholder<K>, A: Allocator> Model
    for CacheShard<K, V, We, B, L, P, A> {
    ghost use Rattle.quick_cache_shard.specs.Shard.{Shard};
    ghost use Rattle.quick_cache_model.specs.Hashing.{hash_of};
    ghost use Rattle.quick_cache_policy.specs.Contents.{IsSound, state_of, work_of};
    ghost use Rattle.quick_cache_policy.specs.Places.{places_of};

    ghost Value = { Shard K V We B L };

    ghost view = { λ s. record {
      state = state_of P.ticket_of s.contents;
      places = places_of s.contents.lists;
      weigher = s.terms.weigher;
      builder = s.terms.builder;
      lifecycle = s.terms.lifecycle;
      room = s.contents.lists.room;
      work = work_of s.contents;
    } };

    ghost invariant = { λ s. IsSound P.ticket_of K.eq
        (λ key. hash_of B.BuildHasher B.Hasher.Hasher s.terms.builder (K.hash_input key))
        s.contents };
}

impl<K: Eq + Hash, V, We, B: BuildHasher, L, P: SharedPlaceholder<K>, A: Allocator> Typed
    for CacheShard<K, V, We, B, L, P, A> {
    ghost use Rattle.quick_cache_shard.specs.Lent.{row_of};

    ghost lender_row = { row_of K.row V.row We.row B.row L.row P.row A.row B.Hasher.row P.Touch.row
        P.Kept.row K.eq K.hash_input B.BuildHasher B.Hasher.Hasher P.SharedPlaceholder
        P.Touch.is_default P.Touch.may_count P.Touch.none_counted A.Allocator };
}

impl<K: Eq + Hash, V, We, B: BuildHasher, L, P: SharedPlaceholder<K>, A: Allocator> Keyed
    for CacheShard<K, V, We, B, L, P, A> {
    type Builder = B;

    ghost hash = { hash_of B.BuildHasher B.Hasher.Hasher };
}

impl<
    K: Eq + Hash + Drop,
    V: Drop,
    We: Weighter<K, V>,
    B: BuildHasher,
    L: Lifecycle<K, V>,
    P: SharedPlaceholder<K>,
    A: Allocator,
> Ruled for CacheShard<K, V, We, B, L, P, A> {
    ghost use Rattle.quick_cache_shard.specs.Goes.{goes_by};

    type Key = K;

    type Value = V;

    type Weigher = We;

    type Builder = B;

    type Life = L;

    type RequestState = L::RequestState;

    ghost goes = { goes_by K.Hash.hash_input We.Weighter B.BuildHasher B.Hasher.Hasher L.Lifecycle };
}

impl<K: Eq + Hash, V, We, B: BuildHasher, L, P: SharedPlaceholder<K>, A: Allocator> CacheShard<
    K,
    V,
    We,
    B,
    L,
    P,
    A,
> {
    ghost use Rattle.quick_cache_shard.specs.Lent.{ends_so};

    /// An empty cache for so many items and so much weight, with the hot and the ghost share in
    /// parts per million, and with that greatest mark.
    ///
    /// It takes no memory; `Memory` is a refused clone of the allocator.
    pub fn new(
        alloc: A,
        hot: u32,
        ghosts: u32,
        mark_cut: u8,
        items: usize,
        weight: u64,
        weigher: We,
        builder: B,
        lifecycle: L,
    ) -> Result<Self, Refusal>
    where
        A: Clone,
        We: Drop,
        B: Drop,
        L: Drop,
        requires some_mark { 1 ≤ mark_cut }
        requires few_marks { mark_cut ≤ 3 }
        ensures makes { IfOk result (λ shard. shard ≡ made_with
            (record (empty_state weight (hot_target_of weight hot)
            (ghost_limit_of items ghosts)) { mark_cut = mark_cut }) weigher builder lifecycle) }
        ensures succeeds { A.is_infallible alloc → IsOk result }
        ensures refused { IfErr result (λ refusal. refusal ≡ Refusal.Memory) }
    {
        let (hot_target, ghost_limit) = (hot_target(weight, hot), ghost_limit(items, ghosts));
        Ok(CacheShard {
            contents: Contents::new(alloc, weight, hot_target, ghost_limit, mark_cut)?,
            terms: Terms {
                weigher,
                builder,
                lifecycle,
            },
        })
    }

    /// A shard of these contents that goes by these terms. [`CacheShard::new`] makes an empty one;
    /// this is for a caller that has contents of its own, as a test whose tickets are nearly spent.
    pub fn from_parts(contents: Contents<K, V, P, A>, terms: Terms<We, B, L>) -> Self
        requires sound { IsSound P.ticket_of K.eq
            (λ key. hash_of B.BuildHasher B.Hasher.Hasher terms.builder (K.hash_input key))
            contents }
        ensures state { result.state ≡ state_of P.ticket_of contents }
        ensures terms { terms_of result ≡ terms }
    {
        CacheShard { contents, terms }
    }

    /// A cache of clones of the keys and values, with the same marks, order and counts, or
    /// `Memory`. Its room is its own, its builder hashes its keys, and the two share the
    /// placeholders.
    pub fn try_clone(&self) -> Result<Self, Refusal>
    where
        K: Clone + Drop,
        V: Clone + Drop,
        We: Clone,
        B: Clone,
        L: Clone,
        A: Clone,
        requires keys { ClonesAreEqual K.eq K.is_clone }
        ensures copies { IfOk result (λ copy.
            IsCopyOf K.is_clone V.is_clone self.now.state copy.state) }
        ensures weigher { IfOk result (λ copy. We.is_clone self.now.weigher copy.weigher) }
        ensures builder { IfOk result (λ copy. B.is_clone self.now.builder copy.builder) }
        ensures lifecycle { IfOk result (λ copy. L.is_clone self.now.lifecycle copy.lifecycle) }
        ensures work { IfOk result (λ copy. copy.work ≡ no_work) }
        ensures refused { IfErr result (λ refusal. refusal ≡ Refusal.Memory) }
    {
        let weigher: Result<_, _> = self.terms.weigher.clone();
        let builder: Result<_, _> = self.terms.builder.clone();
        let lifecycle: Result<_, _> = self.terms.lifecycle.clone();
        let (Ok(weigher), Ok(builder), Ok(lifecycle)) = (weigher, builder, lifecycle) else {
            return Err(Refusal::Memory);
        };
        Ok(CacheShard {
            contents: self.contents.try_copy(&builder)?,
            terms: Terms {
                weigher,
                builder,
                lifecycle,
            },
        })
    }

    /// Makes room for so many more entries, and for the ghosts that as many inserts can leave, so
    /// that they ask for no memory; or for all entries that there can still be.
    ///
    /// # Errors
    ///
    /// `Memory` where there is not enough. Room that was already made may stay, and nothing else
    /// has changed.
    pub fn reserve(&mut self, additional: usize) -> Result<(), Refusal>
        ensures room { OnOk result (min additional (slot_count - slots_taken self.old.state)
            ≤ self.new.room) }
        ensures grows { self.old.room ≤ self.new.room }
        ensures at_most { self.new.room ≤ max self.old.room (most_room
            (slots_taken self.old.state) (additional + min additional self.old.state.ghost_limit)) }
        // Where there is that room already it succeeds.
        ensures succeeds { min (additional + min additional self.old.state.ghost_limit)
            (slot_count - slots_taken self.old.state) ≤ self.old.room → IsOk result }
        ensures refused { IfErr result (λ refusal. refusal ≡ Refusal.Memory) }
        ensures same { self.new ≡ record self.old { room = self.new.room } }
    {
        self.contents.reserve(additional)
    }

    /// The hash of a key or a query, as the calls below are handed it.
    pub fn hash<Q: Hash>(&self, query: &Q) -> u64
        ensures { result
            ≡ hash_of B.BuildHasher B.Hasher.Hasher self.now.builder (Q.hash_input query.now) }
    {
        hash_of(&self.terms.builder, query)
    }

    /// Does nothing: what it promises always holds of a shard.
    #[inline(always)]
    pub fn facts(&self)
        ensures { IsSoundShard K.eq self.now }
    {
        self.contents.lists.facts();
    }

    /// The value under the query, which is handed in with its hash. A find counts a hit, marks the
    /// item and counts a read of it; else a miss is counted.
    #[inline(always)]
    pub fn get<Q: Equivalent<K>>(&mut self, hash: u64, query: &Q) -> Option<&V>
        requires hash_is { hash ≡ ⟦<Self as Keyed>⟧.hash self.old.builder (Q.hash_input query.now) }
        ensures* looks_up { sem 𝓛 (ends_so ⟦<Self as Typed>⟧.lender_row self.entry
            (λ new. UpToOrder (LooksUp (Q.equivalent query.now) self.old.state (λ item. item.value)
            (option_copied result)) new.state
            × (new ≡ record self.old { state = new.state }))) }
    {
        let token = self.contents.look_up(hash, query)?;
        self.contents.lists.facts();
        Some(self.contents.lists.item(token).value())
    }

    /// A clone of the value under the query, which is handed in with its hash, looked up as by
    /// `get`. The clone is made before the hit is counted, and no miss is counted.
    ///
    /// # Errors
    ///
    /// `Memory` where the clone failed. Nothing has changed then.
    #[inline(always)]
    pub fn find_copy<Q: Equivalent<K>>(
        &mut self,
        hash: u64,
        query: &Q,
    ) -> Result<Option<V>, Refusal>
    where
        V: Clone,
        requires hash_is { hash ≡ ⟦<Self as Keyed>⟧.hash self.old.builder (Q.hash_input query.now) }
        ensures finds { FindsCopy (Q.equivalent query.now) V.is_clone self.old.state result
            self.new.state }
        ensures succeeds { ((value : V) → V.is_infallible value) → IsOk result }
        ensures same { self.new ≡ record self.old { state = self.new.state } }
        ensures sound { IsSoundShard K.eq self.new }
    {
        let found = self.contents.look_up_copy(hash, query);
        self.facts();
        found
    }

    /// The pair under the query, as `get` finds its value.
    pub fn get_key_value<Q: Equivalent<K>>(&mut self, hash: u64, query: &Q) -> Option<(&K, &V)>
        requires hash_is { hash ≡ ⟦<Self as Keyed>⟧.hash self.old.builder (Q.hash_input query.now) }
        ensures* looks_up { sem 𝓛 (ends_so ⟦<Self as Typed>⟧.lender_row self.entry
            (λ new. UpToOrder (LooksUp (Q.equivalent query.now) self.old.state pair_of
            (option_map deref_pair result)) new.state
            × (new ≡ record self.old { state = new.state }))) }
    {
        let token = self.contents.look_up(hash, query)?;
        self.contents.lists.facts();
        Some(self.contents.lists.item(token).pair())
    }

    /// The value under the query, which is handed in with its hash. Nothing changes: it is no use
    /// of the item.
    pub fn peek<Q: Equivalent<K>>(&self, hash: u64, query: &Q) -> Option<&V>
        requires hash_is { hash ≡ ⟦<Self as Keyed>⟧.hash self.now.builder (Q.hash_input query.now) }
        ensures sees { Sees (Q.equivalent query.now) self.now.state (λ item. item.value)
            (option_copied result) }
        ensures sound { IsSoundShard K.eq self.now }
    {
        self.facts();
        let item = self.contents.peek(hash, query)?;
        Some(item.value())
    }

    /// Whether there is an item under the query, which is handed in with its hash. Nothing changes.
    pub fn contains<Q: Equivalent<K>>(&self, hash: u64, query: &Q) -> bool
        requires hash_is { hash ≡ ⟦<Self as Keyed>⟧.hash self.now.builder (Q.hash_input query.now) }
        ensures there { OnTrue result (HasItem (Q.equivalent query.now) self.now.state) }
        ensures absent { OnFalse result (HasNoItem (Q.equivalent query.now) self.now.state) }
        ensures sound { IsSoundShard K.eq self.now }
    {
        self.facts();
        self.contents.peek(hash, query).is_some()
    }

    /// As `contains`, of an item of which it is thought that it stands at that token: where it
    /// does, nothing is searched.
    #[inline]
    pub fn contains_from<Q: Equivalent<K>>(&self, token: Token, hash: u64, query: &Q) -> bool
        requires hash_is { hash ≡ ⟦<Self as Keyed>⟧.hash self.now.builder (Q.hash_input query.now) }
        ensures there { OnTrue result (HasItem (Q.equivalent query.now) self.now.state) }
        ensures absent { OnFalse result (HasNoItem (Q.equivalent query.now) self.now.state) }
        ensures sound { IsSoundShard K.eq self.now }
    {
        self.facts();
        self.contents.peek_from(token, hash, query).is_some()
    }
}
