//! Values that a loader makes where there is none.
ghost use Rattle.std.specs.Prelude.{◌≡◌, ◌<◌, ◌+◌, ◌≤◌, true, IfErr};
ghost use Rattle.quick_cache_model.specs.Hashing.{hash_of, StandsForGiven};
ghost use Rattle.quick_cache_shard.specs.References.{count_under};
ghost use Rattle.quick_cache_shard.specs.Shard.{IsSoundShard, KeepsTerms};
ghost use Rattle.quick_cache_shard.specs.Stays.{IdlesWithin, StaysWithin};
ghost use Rattle.quick_cache_unsync.specs.Loads.{IsAwaited, LooksUpOrTakes, OnResident};
ghost use Rattle.quick_cache_model.specs.References.{TellsItem};
ghost use Rattle.quick_cache_unsync.specs.Touches.{no_touches};
ghost use Rattle.quick_cache_unsync.specs.Steps.{EndsLoadBy, LoadsBy};

use crate::cache::Cache;
use quick_cache_model::{Equivalent, Lifecycle, Refusal, ToKey, Weighter};
use quick_cache_shard::{Keyed, Placeholder, Plainly, Ruled, Token};
use std::alloc::Allocator;
use std::hash::{BuildHasher, Hash};

impl<K: Eq + Hash, V, We, B: BuildHasher, L, A: Allocator> Cache<K, V, We, B, L, A> {
    /// The hash of a query.
    pub(crate) fn hash_of<Q: Equivalent<K>>(&self, query: &Q) -> u64
        ensures { result ≡ hash_of B.BuildHasher B.Hasher.Hasher self.now.builder
            (Q.hash_input query.now) }
    {
        self.shard.hash(query)
    }

    /// Whether an item stands under the query, at that token if there is one.
    fn is_resident<Q: Equivalent<K>>(&self, token: Token, hash: u64, query: &Q) -> bool
        requires hash_is { hash ≡ ⟦<Self as Keyed>⟧.hash self.now.builder (Q.hash_input query.now) }
        ensures { TellsItem (Q.equivalent query.now) self.now.state result }
    {
        self.shard.contains_from(token, hash, query)
    }
}

impl<
    K: Eq + Hash + Drop,
    V: Drop,
    We: Weighter<K, V>,
    B: BuildHasher,
    L: Lifecycle<K, V>,
    A: Allocator,
> Cache<K, V, We, B, L, A> {
    /// Looks the query's key up and gives the token of its item, or takes a placeholder for it
    /// where there is none.
    #[inline(always)]
    pub(crate) fn begin_load<Q: ToKey<K>>(
        &mut self,
        hash: u64,
        query: &Q,
    ) -> Result<Result<Token, Placeholder>, Refusal>
        requires hash_is { hash ≡ ⟦<Self as Keyed>⟧.hash self.old.builder (Q.hash_input query.now) }
        requires stands { StandsForGiven (Q.to_key_gives query.now) (Q.equivalent query.now) }
        ensures takes { LooksUpOrTakes (Q.equivalent query.now) (Q.to_key_gives query.now) hash
            self.old.state (λ placeholder. placeholder.ticket) result self.new.state }
        // Where a key is had without fail, it asks for memory only where there is no room.
        ensures asks { Q.to_key_is_infallible query.now
            → IfErr result (λ refusal. refusal ≡ Refusal.Memory → self.old.room ≡ 0) }
        ensures stays { IdlesWithin K.eq 1 self.old self.new }
    {
        match self.shard.get_or_placeholder(&Plainly, hash, query) {
            Ok(Ok(token)) => Ok(Ok(token)),
            Ok(Err((placeholder, _))) => Ok(Err(placeholder)),
            Err(refusal) => Err(refusal),
        }
    }

    /// Ends a load with what the loader gives, and tells whether the key is resident then.
    fn end_load<Q: ToKey<K>, E, F: FnOnce() -> Result<V, E>>(
        &mut self,
        hash: u64,
        query: &Q,
        placeholder: &Placeholder,
        loader: F,
    ) -> Result<bool, E>
    where
        L::RequestState: Drop,
        requires hash_is { hash ≡ ⟦<Self as Keyed>⟧.hash self.old.builder (Q.hash_input query.now) }
        requires awaited { IsAwaited placeholder.now.ticket self.old.state }
        requires loader { F.pre loader }
        ensures ends { EndsLoadBy ⟦<Self as Ruled>⟧.goes no_touches self.old
            L.RequestState.is_default (Q.equivalent query.now) placeholder.now.ticket
            (F.post loader) result self.new }
        ensures stays { StaysWithin K.eq 0 self.old self.new }
    {
        match loader() {
            Ok(value) => {
                let mut state = L::RequestState::default();
                self.fill_placeholder(&mut state, placeholder, value);
                Ok(self.is_resident(placeholder.idx, hash, query))
            }
            Err(error) => {
                self.give_up(placeholder);
                Err(error)
            }
        }
    }

    /// What `load` does, with the query's hash. Beside its answer it gives the number of the slot
    /// where the item is thought to stand, or 0.
    #[inline(always)]
    pub(crate) fn load_by<Q: ToKey<K>, E, F: FnOnce() -> Result<V, E>>(
        &mut self,
        hash: u64,
        query: &Q,
        loader: F,
    ) -> (u32, Result<Result<bool, E>, Refusal>)
    where
        L::RequestState: Drop,
        requires hash_is { hash ≡ ⟦<Self as Keyed>⟧.hash self.old.builder (Q.hash_input query.now) }
        requires stands { StandsForGiven (Q.to_key_gives query.now) (Q.equivalent query.now) }
        requires loader { F.pre loader }
        ensures loads { LoadsBy ⟦<Self as Ruled>⟧.goes no_touches self.old
            L.RequestState.is_default (Q.equivalent query.now) (Q.to_key_gives query.now)
            hash (F.post loader) result.1 self.new }
        ensures asks { Q.to_key_is_infallible query.now
            → IfErr result.1 (λ refusal. refusal ≡ Refusal.Memory → self.old.room ≡ 0) }
        ensures there { OnResident result.1
            (0 < count_under (Q.equivalent query.now) self.new.state) }
        ensures stays { StaysWithin K.eq 1 self.old self.new }
    {
        match self.begin_load(hash, query) {
            Ok(Ok(token)) => (token.get(), Ok(Ok(true))),
            Ok(Err(placeholder)) => {
                let ended = self.end_load(hash, query, &placeholder, loader);
                (placeholder.idx.get(), Ok(ended))
            }
            Err(refusal) => (0, Err(refusal)),
        }
    }

    /// Looks the query's key up as `get` does. Where no item stands under it, calls the loader and
    /// puts its value in, with a request state of the call's own. The answer tells whether the key
    /// is resident when the call returns.
    ///
    /// # Errors
    ///
    /// The inner one is the loader's, and leaves no placeholder. The outer one is a refusal, which
    /// comes before the loader is called, and only where no key is found: `TicketsSpent`,
    /// `SlotsFull` or `Memory`. Nothing has changed then.
    pub fn load<Q: ToKey<K>, E, F: FnOnce() -> Result<V, E>>(
        &mut self,
        query: &Q,
        loader: F,
    ) -> Result<Result<bool, E>, Refusal>
    where
        L::RequestState: Drop,
        requires stands { StandsForGiven (Q.to_key_gives query.now) (Q.equivalent query.now) }
        requires loader { F.pre loader }
        // Where pinning is steady, a value fills the placeholder by a step of its definition.
        ensures loads { LoadsBy ⟦<Self as Ruled>⟧.goes no_touches self.old
            L.RequestState.is_default (Q.equivalent query.now) (Q.to_key_gives query.now)
            (⟦<Self as Keyed>⟧.hash self.old.builder (Q.hash_input query.now))
            (F.post loader) result self.new }
        // It takes room for one entry at most, and where a key is had without fail it asks for memory
        // only where there is no room.
        ensures room { self.old.room ≤ self.new.room + 1 }
        ensures asks { Q.to_key_is_infallible query.now
            → IfErr result (λ refusal. refusal ≡ Refusal.Memory → self.old.room ≡ 0) }
        ensures same { KeepsTerms self.old self.new }
        ensures sound { IsSoundShard K.eq self.new }
    {
        let hash = self.hash_of(query);
        self.load_by(hash, query, loader).1
    }
}
