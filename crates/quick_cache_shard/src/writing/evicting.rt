//! Calls that may evict: a write, the fill of a placeholder, and another capacity.
ghost use Rattle.std.specs.Prelude.{◌≡◌, ◌+◌, ◌≤◌, IfErr, IsSome, Some, None, true, false};
ghost use Rattle.quick_cache_policy.specs.Writing.{strategy_of, is_insert};
ghost use Rattle.quick_cache_shard.specs.Shard.{KeepsPlaces, KeepsTerms, KeepsWork, LosesOnly};
ghost use Rattle.quick_cache_shard.specs.SetsCapacity.{Rescales};
ghost use Rattle.quick_cache_shard.specs.Stays.{WritesWithin};
ghost use Rattle.quick_cache_shard.specs.Steps.{AnswersWriteBy, FillsBy, InsertsBy, ReplacesBy, RestoresBy, SetsCapacityBy};

use crate::shard::CacheShard;
use crate::words::{Keyed, Ruled};
use quick_cache_model::{Lifecycle, Queue, Refusal, Weighter};
use quick_cache_options::sizes::{rescaled_limit, rescaled_target};
use quick_cache_policy::{InsertStrategy, SharedPlaceholder};
use std::alloc::Allocator;
use std::hash::{BuildHasher, Hash};

impl<
    K: Eq + Hash + Drop,
    V: Drop,
    We: Weighter<K, V>,
    B: BuildHasher,
    L: Lifecycle<K, V>,
    P: SharedPlaceholder<K>,
    A: Allocator,
> CacheShard<K, V, We, B, L, P, A> {
    /// Inserts a pair, whose hash is handed in, and makes room for it.
    ///
    /// Room is made first: with 4294967294 items, ghosts and placeholders, and where there is no
    /// memory, an insert of what is not found gives the pair back with the refusal, and has changed
    /// nothing and called no hook.
    #[inline(always)]
    pub fn insert_pair(
        &mut self,
        state: &mut L::RequestState,
        hash: u64,
        key: K,
        value: V,
    ) -> Result<(), (K, V, Refusal)>
        requires hash_is { hash ≡ ⟦<Self as Keyed>⟧.hash self.old.builder (K.hash_input key) }
        ensures inserts { InsertsBy ⟦<Self as Ruled>⟧.goes P.Touch.may_count self.old K.eq key value
            result self.new state.old state.new }
        ensures places { KeepsPlaces K.eq self.old.places self.new.places }
        // It asks for memory only where there is no room.
        ensures asks { IfErr result (λ back. back.2 ≡ Refusal.Memory → self.old.room ≡ 0) }
        ensures stays { WritesWithin K.eq 1 self.old self.new }
    {
        let answer = self.contents.insert(&self.terms, state, hash, key, value);
        self.facts();
        answer
    }

    /// Replaces the item under the key by the pair, whose hash is handed in. The pair comes back
    /// where it was not admitted: there is no item, or it is too heavy, and then the item has left.
    pub fn replace_pair(
        &mut self,
        state: &mut L::RequestState,
        hash: u64,
        key: K,
        value: V,
        soft: bool,
    ) -> Result<(), (K, V)>
        requires hash_is { hash ≡ ⟦<Self as Keyed>⟧.hash self.old.builder (K.hash_input key) }
        ensures replaces { ReplacesBy ⟦<Self as Ruled>⟧.goes P.Touch.may_count self.old K.eq soft
            key value result self.new state.old state.new }
        ensures places { KeepsPlaces K.eq self.old.places self.new.places }
        // It takes no room.
        ensures stays { WritesWithin K.eq 0 self.old self.new }
    {
        let answer = self
            .contents
            .replace(&self.terms, state, hash, key, value, soft);
        self.facts();
        answer
    }

    /// Writes a pair by a strategy, as `insert_pair` or as `replace_pair`.
    ///
    /// A pair that comes back with no refusal was not admitted: only a replace gives one back so.
    pub fn insert(
        &mut self,
        state: &mut L::RequestState,
        hash: u64,
        key: K,
        value: V,
        strategy: InsertStrategy,
    ) -> Result<(), (K, V, Option<Refusal>)>
        requires hash_is { hash ≡ ⟦<Self as Keyed>⟧.hash self.old.builder (K.hash_input key) }
        ensures answers { AnswersWriteBy ⟦<Self as Ruled>⟧.goes P.Touch.may_count self.old K.eq
            (strategy_of strategy) key value result self.new state.old state.new }
        ensures places { KeepsPlaces K.eq self.old.places self.new.places }
        // Only a replace gives a pair back with no refusal, and it is never refused.
        ensures taken { is_insert (strategy_of strategy) ≡ true
            → IfErr result (λ back. IsSome back.2) }
        ensures unrefused { is_insert (strategy_of strategy) ≡ false
            → IfErr result (λ back. back.2 ≡ None) }
        // It asks for memory only where there is no room, and a replace takes none.
        ensures asks { IfErr result (λ back. back.2 ≡ Some Refusal.Memory → self.old.room ≡ 0) }
        ensures kept { is_insert (strategy_of strategy) ≡ false → self.old.room ≤ self.new.room }
        ensures stays { WritesWithin K.eq 1 self.old self.new }
    {
        match strategy {
            InsertStrategy::Insert => match self.insert_pair(state, hash, key, value) {
                Ok(()) => Ok(()),
                Err((key, value, refusal)) => Err((key, value, Some(refusal))),
            },
            InsertStrategy::Replace { soft } => {
                match self.replace_pair(state, hash, key, value, soft) {
                    Ok(()) => Ok(()),
                    Err((key, value)) => Err((key, value, None)),
                }
            }
        }
    }

    /// Puts a pair last in that ring, or among the weightless, with that mark or the greatest there
    /// is, as it stood before; its hash is handed in. Nothing leaves for it, whatever it weighs, and
    /// no hook is called.
    ///
    /// # Errors
    ///
    /// The pair, and nothing has changed. There is no refusal where something is known of its key.
    pub fn restore(
        &mut self,
        hash: u64,
        key: K,
        value: V,
        queue: Queue,
        mark: u8,
    ) -> Result<(), (K, V, Option<Refusal>)>
        requires hash_is { hash ≡ ⟦<Self as Keyed>⟧.hash self.old.builder (K.hash_input key) }
        ensures answers { RestoresBy ⟦<Self as Ruled>⟧.goes P.Touch.may_count self.old K.eq
            key value queue mark result self.new }
        ensures asks { IfErr result (λ back. back.2 ≡ Some Refusal.Memory → self.old.room ≡ 0) }
        ensures places { KeepsPlaces K.eq self.old.places self.new.places }
        ensures room { self.old.room ≤ self.new.room + 1 }
        ensures same { KeepsTerms self.old self.new }
        ensures work { KeepsWork self.old self.new }
    {
        self.contents
            .restore(&self.terms, hash, key, value, queue, mark)
    }

    /// Fills the placeholder of that ticket with a value, which is marked where others waited for
    /// it. The value passes the admission check: one that is too heavy is told to the cold hook,
    /// and the placeholder goes. Room is made for what weighs something.
    ///
    /// It asks for no memory. It looks for the placeholder in the slot that this names, and where
    /// it is not there and some key is being loaded, in each slot.
    ///
    /// # Errors
    ///
    /// The value, where the placeholder is gone. Nothing has changed then, and no hook was called.
    #[inline(always)]
    pub fn replace_placeholder(
        &mut self,
        state: &mut L::RequestState,
        placeholder: &P,
        referenced: bool,
        value: V,
    ) -> Result<(), V>
        ensures fills { FillsBy ⟦<Self as Ruled>⟧.goes P.Touch.may_count self.old
            (P.own_ticket placeholder.now) referenced value result self.new state.old state.new }
        ensures places { KeepsPlaces K.eq self.old.places self.new.places }
        ensures stays { WritesWithin K.eq 0 self.old self.new }
    {
        let answer = self
            .contents
            .replace_placeholder(&self.terms, state, placeholder, referenced, value);
        self.facts();
        answer
    }

    /// Sets the weight that the items are to keep within, and makes them keep it. The hot target
    /// and the ghost limit change in proportion, rounded down; from capacity 0 the target is that
    /// of the default share, and the limit stays. The oldest ghosts go that are too many then.
    ///
    /// It takes no memory. What is pinned may weigh more than the capacity still.
    pub fn set_capacity(&mut self, capacity: u64, state: &mut L::RequestState)
        ensures sets { SetsCapacityBy ⟦<Self as Ruled>⟧.goes P.Touch.may_count self.old capacity
            self.new state.old state.new }
        ensures sizes { Rescales capacity self.old.state self.new.state }
        ensures places { LosesOnly self.old.places self.new.places }
        ensures stays { WritesWithin K.eq 0 self.old self.new }
    {
        let present = self.contents.capacity;
        let target = rescaled_target(present, capacity, self.contents.hot_target);
        let limit = rescaled_limit(present, capacity, self.contents.ghost_limit);
        self.contents
            .set_capacity(&self.terms, state, capacity, target, limit);
        self.facts();
    }
}
