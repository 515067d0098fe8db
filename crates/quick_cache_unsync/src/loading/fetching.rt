//! Values that are answered as clones, whether they were found or loaded.
ghost use Rattle.std.specs.Prelude.{◌≡◌, ◌<◌, ◌+◌, ◌≤◌, IfErr, IfNone, IfSome, IsSome};
ghost use Rattle.quick_cache_model.specs.Hashing.{StandsForGiven};
ghost use Rattle.quick_cache_shard.specs.References.{count_under};
ghost use Rattle.quick_cache_shard.specs.Shard.{IsSoundShard, KeepsTerms};
ghost use Rattle.quick_cache_shard.specs.Stays.{StaysWithin};
ghost use Rattle.quick_cache_unsync.specs.Fetches.{FetchesBy, EndsFetchBy, IsCloneUnder, IsUnclonedUnder};
ghost use Rattle.quick_cache_unsync.specs.Loads.{IsAwaited};
ghost use Rattle.quick_cache_unsync.specs.Touches.{no_touches};

use crate::cache::Cache;
use crate::loading::not_loaded::LoadError;
use quick_cache_model::{Lifecycle, Refusal, ToKey, Weighter};
use quick_cache_shard::{Keyed, Placeholder, Ruled, Token};
use std::alloc::Allocator;
use std::hash::{BuildHasher, Hash};

impl<
    K: Eq + Hash + Drop,
    V: Drop,
    We: Weighter<K, V>,
    B: BuildHasher,
    L: Lifecycle<K, V>,
    A: Allocator,
> Cache<K, V, We, B, L, A> {
    /// The value under the query's key, as a clone: the item is looked up as by `get`. Where no item
    /// stands under it, calls the loader, and answers what it gave whether the cache keeps it or
    /// not. A clone of it is put in, with a request state of the call's own; where that clone is
    /// refused, nothing is kept.
    ///
    /// # Errors
    ///
    /// `Failed` with the loader's error, which leaves no placeholder; `Refused` by `Memory` where
    /// the clone of a value that was found is refused, and by `TicketsSpent`, `SlotsFull` or
    /// `Memory` where no key is found, before the loader is called: nothing has changed then.
    pub fn get_or_load<Q: ToKey<K>, E, F: FnOnce() -> Result<V, E>>(
        &mut self,
        query: &Q,
        loader: F,
    ) -> Result<V, LoadError<E>>
    where
        V: Clone,
        L::RequestState: Drop,
        requires stands { StandsForGiven (Q.to_key_gives query.now) (Q.equivalent query.now) }
        requires loader { F.pre loader }
        // Where pinning is steady, a value fills the placeholder by a step of its definition.
        ensures fetches { FetchesBy ⟦<Self as Ruled>⟧.goes no_touches self.old
            L.RequestState.is_default V.is_clone V.is_infallible (Q.equivalent query.now)
            (Q.to_key_gives query.now)
            (⟦<Self as Keyed>⟧.hash self.old.builder (Q.hash_input query.now))
            (F.post loader) result self.new }
        // It takes room for one entry at most, and where no clone fails it asks for memory only where
        // there is no room.
        ensures room { self.old.room ≤ self.new.room + 1 }
        ensures asks { Q.to_key_is_infallible query.now → ((value : V) → V.is_infallible value)
            → IfErr result (λ error. error ≡ LoadError.Refused Refusal.Memory → self.old.room ≡ 0) }
        ensures same { KeepsTerms self.old self.new }
        ensures sound { IsSoundShard K.eq self.new }
    {
        let hash = self.hash_of(query);
        self.fetch_by(hash, query, loader)
    }

    // The same, with the query's hash.
    fn fetch_by<Q: ToKey<K>, E, F: FnOnce() -> Result<V, E>>(
        &mut self,
        hash: u64,
        query: &Q,
        loader: F,
    ) -> Result<V, LoadError<E>>
    where
        V: Clone,
        L::RequestState: Drop,
        requires hash_is { hash ≡ ⟦<Self as Keyed>⟧.hash self.old.builder (Q.hash_input query.now) }
        requires stands { StandsForGiven (Q.to_key_gives query.now) (Q.equivalent query.now) }
        requires loader { F.pre loader }
        ensures fetches { FetchesBy ⟦<Self as Ruled>⟧.goes no_touches self.old
            L.RequestState.is_default V.is_clone V.is_infallible (Q.equivalent query.now)
            (Q.to_key_gives query.now)
            hash (F.post loader) result self.new }
        ensures asks { Q.to_key_is_infallible query.now → ((value : V) → V.is_infallible value)
            → IfErr result (λ error. error ≡ LoadError.Refused Refusal.Memory → self.old.room ≡ 0) }
        ensures stays { StaysWithin K.eq 1 self.old self.new }
    {
        match self.begin_load(hash, query) {
            Ok(Ok(token)) => match self.clone_under(token, hash, query) {
                Some(copy) => Ok(copy),
                None => Err(LoadError::Refused(Refusal::Memory)),
            },
            Ok(Err(placeholder)) => self.end_fetch(&placeholder, loader),
            Err(refusal) => Err(LoadError::Refused(refusal)),
        }
    }

    // A clone of the value under the query, which is known to be there, if there is memory for it.
    fn clone_under<Q: ToKey<K>>(&self, token: Token, hash: u64, query: &Q) -> Option<V>
    where
        V: Clone,
        requires hash_is { hash ≡ ⟦<Self as Keyed>⟧.hash self.now.builder (Q.hash_input query.now) }
        requires there { 0 < count_under (Q.equivalent query.now) self.now.state }
        ensures shows { IfSome result
            (IsCloneUnder V.is_clone (Q.equivalent query.now) self.now.state) }
        ensures refused { IfNone result
            (IsUnclonedUnder V.is_infallible (Q.equivalent query.now) self.now.state) }
        ensures succeeds { ((value : V) → V.is_infallible value) → IsSome result }
    {
        match self.shard.value_under(Some(token), hash, query).clone() {
            Ok(copy) => Some(copy),
            Err(_) => None,
        }
    }

    // Ends a load with what the loader gives, and answers that.
    fn end_fetch<E, F: FnOnce() -> Result<V, E>>(
        &mut self,
        placeholder: &Placeholder,
        loader: F,
    ) -> Result<V, LoadError<E>>
    where
        V: Clone,
        L::RequestState: Drop,
        requires awaited { IsAwaited placeholder.now.ticket self.old.state }
        requires loader { F.pre loader }
        ensures ends { EndsFetchBy ⟦<Self as Ruled>⟧.goes no_touches self.old
            L.RequestState.is_default V.is_clone V.is_infallible placeholder.now.ticket
            (F.post loader) result self.new }
        ensures stays { StaysWithin K.eq 0 self.old self.new }
    {
        match loader() {
            Ok(value) => {
                match value.clone() {
                    Ok(copy) => {
                        let mut state = L::RequestState::default();
                        self.fill_placeholder(&mut state, placeholder, copy);
                    }
                    Err(_) => self.give_up(placeholder),
                }
                Ok(value)
            }
            Err(error) => {
                self.give_up(placeholder);
                Err(LoadError::Failed(error))
            }
        }
    }
}
