//! Keys that are being loaded in a shard behind its lock.
ghost use Rattle.std.specs.Prelude.{◌≡◌, IfOk};
ghost use Rattle.quick_cache_model.specs.Hashing.{StandsForGiven};
ghost use Rattle.quick_cache_model.specs.Placeholders.{GivesUpPlaceholder};
ghost use Rattle.quick_cache_shard.specs.Loading.{BeginsLoad};
ghost use Rattle.quick_cache_shard.specs.Shard.{KeepsPlaces, UpToOrder};
ghost use Rattle.quick_cache_loading.specs.Begins.{IfFound};
ghost use Rattle.quick_cache_locked.specs.Fitting.{ClonesFit, FitsQuery};
ghost use Rattle.quick_cache_locked.specs.Loads.{AwaitsNoEqual, EndsLoadBy, EndsSomeLoad, RefusesSo, ShowsClone, begun_of};
ghost use Rattle.quick_cache_locked.specs.Locked.{IsKept};
ghost use Rattle.quick_cache_locked.specs.Touches.{any_touches};

use crate::locked::LockedShard;
use quick_cache_guard::{Begun, LoadingShard};
use quick_cache_loading::sharing::SharedPlaceholder;
use quick_cache_loading::waiting::{Ended, Filled};
use quick_cache_model::{Equivalent, Lifecycle, Refusal, ToKey, Weighter};
use quick_cache_shard::{Keyed, Ruled};
use std::alloc::Allocator;
use std::hash::{BuildHasher, Hash};

impl<
    K: Eq + Hash + Drop,
    V: Clone,
    We,
    B: BuildHasher,
    L: Lifecycle<K, V>,
    A: Allocator + Clone,
> LockedShard<K, V, We, B, L, A> {
    /// Looks the query's key up, and gives a clone of its value. Where no item stands under it a
    /// placeholder is made or met. The clone is made first, so that a refused one counts nothing.
    pub fn begin_load<Q: ToKey<K>>(
        &mut self,
        query: &Q,
    ) -> Result<Begun<V, SharedPlaceholder<K, V, L, A>>, Refusal>
        requires stands { StandsForGiven (Q.to_key_gives query.now) (Q.equivalent query.now) }
        ensures begins { BeginsLoad (λ placeholder. placeholder.ticket) (Q.equivalent query.now)
            (Q.to_key_gives query.now) (⟦<Self as Keyed>⟧.hash self.old.builder
            (Q.hash_input query.now)) V.is_clone self.old.state (begun_of result) self.new.state }
        ensures fits { ClonesFit L.fits V.is_clone → IfOk result
            (λ begun. IfFound begun (λ value. FitsQuery L.fits (Q.equivalent query.now) value)) }
        ensures same { self.new ≡ record self.old { state = self.new.state; room = self.new.room } }
        ensures kept { IsKept L.Lifecycle K.eq self.old }
    {
        self.facts();
        let hash = self.shard.hash(query);
        match self.shard.copy_or_placeholder(&self.maker, hash, query) {
            Ok(Ok(copy)) => Ok(Begun::Found(copy)),
            Ok(Err(placeholder)) => Ok(Begun::Loading(placeholder)),
            Err(refusal) => Err(refusal),
        }
    }
}

impl<
    K: Eq + Hash + Drop,
    V: Drop,
    We: Weighter<K, V>,
    B: BuildHasher,
    L: Lifecycle<K, V>,
    A: Allocator,
> LockedShard<K, V, We, B, L, A> {
    /// Fills the placeholder with a value that fits the key, if it is there and is for that key,
    /// with this request state. The flag tells whether anyone waited for it.
    ///
    /// # Errors
    ///
    /// The value, where it is not there.
    pub fn end_load(
        &mut self,
        placeholder: &SharedPlaceholder<K, V, L, A>,
        key: &K,
        waited: bool,
        value: V,
        state: &mut L::RequestState,
    ) -> Result<(), V>
        requires fits { L.fits key.now value }
        ensures ends { EndsLoadBy ⟦<Self as Ruled>⟧.goes any_touches self.old K.eq
            placeholder.now.ticket waited key.now value result self.new state.old state.new }
        ensures places { KeepsPlaces K.eq self.old.places self.new.places }
        ensures kept { IsKept L.Lifecycle K.eq self.old }
    {
        self.facts();
        // No fact crosses two locks, so the keys are compared again.
        match self.shard.loading_key(placeholder) {
            Some(own) => {
                if *key != *own {
                    return Err(value);
                }
            }
            None => return Err(value),
        }
        self.shard
            .replace_placeholder(state, placeholder, waited, value)
    }
}

impl<
    K: Eq + Hash + Drop,
    V: Clone,
    We: Weighter<K, V>,
    B: BuildHasher,
    L: Lifecycle<K, V>,
    A: Allocator + Clone,
> LoadingShard<K, V, L, A> for LockedShard<K, V, We, B, L, A> {
    ghost gives_up = { λ ticket old new.
        UpToOrder (GivesUpPlaceholder ticket old.state) new.state };

    // A load ended so in some shard that a lock kept. Nobody knows which one it was.
    ghost fills = { EndsSomeLoad L.Lifecycle K.eq ⟦<Self as Ruled>⟧.goes any_touches };

    ghost lacks = { λ ticket key shard. AwaitsNoEqual K.eq ticket key shard.state };

    ghost shows = { ShowsClone L.Lifecycle K.eq V.is_clone };

    ghost refuses = { RefusesSo L.Lifecycle K.eq };

    fn find<Q: Equivalent<K>>(&self, query: &Q) -> Result<Option<V>, Refusal> {
        self.find(query)
    }

    fn begin_load<Q: ToKey<K>>(
        &mut self,
        query: &Q,
    ) -> Result<Begun<V, SharedPlaceholder<K, V, L, A>>, Refusal> {
        self.begin_load(query)
    }

    fn end_load(
        &mut self,
        placeholder: &SharedPlaceholder<K, V, L, A>,
        filled: &Filled,
        key: &K,
        value: V,
        state: &mut L::RequestState,
    ) -> Result<(), V> {
        self.end_load(placeholder, key, filled.waited(), value, state)
    }

    fn give_up_load(&mut self, placeholder: &SharedPlaceholder<K, V, L, A>, _ended: &Ended) {
        self.give_up_load(placeholder);
    }
}
