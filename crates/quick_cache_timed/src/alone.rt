//! The calls of a cache for one thread.
ghost use Rattle.std.specs.Prelude.{◌≡◌, ◌-◌, ◌≤◌, IfErr, option_copied};
ghost use Rattle.std.specs.Borrow.{sem};
ghost use Rattle.quick_cache_model.specs.CacheState.{item_count};
ghost use Rattle.quick_cache_model.specs.Hashing.{hash_of, StandsForGiven};
ghost use Rattle.quick_cache_model.specs.Removal.{Retains};
ghost use Rattle.quick_cache_shard.specs.Alone.{IsDoneAlone};
ghost use Rattle.quick_cache_shard.specs.Inserts.{with_pair};
ghost use Rattle.quick_cache_shard.specs.Shard.{UpToOrder};
ghost use Rattle.quick_cache_shard.specs.Steps.{InsertsBy, rules_in};
ghost use Rattle.quick_cache_unsync.specs.Touches.{no_touches};
ghost use Rattle.quick_cache_expiring.specs.Entries.{Entries, KeepsRest, Shows, Touches};
ghost use Rattle.quick_cache_expiring.specs.Lastings.{lasting_of};
ghost use Rattle.quick_cache_expiring.specs.Lives.{end_of, lives};
ghost use Rattle.quick_cache_expiring.specs.Loads.{FetchesAt, LoadsAt};
ghost use Rattle.quick_cache_timed.specs.Lives.{end_by, life_by};
ghost use Rattle.quick_cache_timed.specs.Looks.{GetsBy, RenewsBy};
ghost use Rattle.quick_cache_timed.specs.Moments.{AtMoment};

use crate::ticker::Ticker;
use crate::timed::Timed;
use quick_cache_expiring::{ByValue, Expiring, Lasting, LoadError};
use quick_cache_model::{Equivalent, Lifecycle, Refusal, ToKey, Weighter};
use quick_cache_shard::{Ruled, Typed};
use quick_cache_unsync::Cache;
use std::alloc::Allocator;
use std::hash::{BuildHasher, Hash};

impl<K: Eq + Hash, V, We, B: BuildHasher, L, A: Allocator, T> Typed
    for Timed<Expiring<K, V, We, B, L, A>, T> {
    ghost use Rattle.quick_cache_timed.specs.Lent.{row_of};

    ghost lender_row = { row_of ⟦<Expiring<K, V, We, B, L, A> as Typed>⟧.lender_row T.row };
}

impl<
    K: Eq + Hash + Drop,
    V: Drop,
    We: Weighter<K, V>,
    B: BuildHasher,
    L: Lifecycle<K, Lasting<V>>,
    A: Allocator,
    T: Ticker,
> Timed<Expiring<K, V, We, B, L, A>, T> {
    ghost use Rattle.quick_cache_shard.specs.Lent.{ends_so};

    /// As `Expiring::get`. Where the life slides, an entry that serves is renewed as by `touch`, and
    /// its value is given.
    pub fn get<Q: Equivalent<K>>(&mut self, query: &Q) -> Option<&V>
        ensures* gets { sem 𝓛 (ends_so ⟦<Self as Typed>⟧.lender_row self.entry (λ new.
            AtMoment (T.tells self.old.ticker) (λ now. GetsBy
            (rules_in ⟦<Cache<K, Lasting<V>, ByValue<We>, B, L, A> as Ruled>⟧.goes no_touches
            self.old.inner.cache) (Q.equivalent query.now) now
            (end_by self.old.life (Q.hash_input query.now) now) self.old.inner self.old.life.slides
            (option_copied result) new.inner)
            × (new ≡ record self.old { inner = new.inner }))) }
    {
        let now = self.ticker.moment();
        if self.life.slides {
            let life = self.life.of(query);
            if self.inner.touch(query, now, life) {
                self.inner.peek(query, now)
            } else {
                None
            }
        } else {
            self.inner.get(query, now)
        }
    }

    /// As `Expiring::peek`.
    pub fn peek<Q: Equivalent<K>>(&self, query: &Q) -> Option<&V>
        ensures shows { AtMoment (T.tells self.now.ticker) (λ now. Shows (Q.equivalent query.now)
            now self.now.inner.cache.state (option_copied result)) }
    {
        self.inner.peek(query, self.ticker.moment())
    }

    /// As `Expiring::insert`.
    ///
    /// # Errors
    ///
    /// The pair with its end and why. Nothing changed then, and no hook was called.
    pub fn insert(&mut self, key: K, value: V) -> Result<(), (K, Lasting<V>, Refusal)>
    where
        L::RequestState: Drop,
        ensures inserts { AtMoment (T.tells self.old.ticker) (λ now. IsDoneAlone
            L.RequestState.is_default
            (InsertsBy ⟦<Cache<K, Lasting<V>, ByValue<We>, B, L, A> as Ruled>⟧.goes no_touches
            self.old.inner.cache K.eq key
            (lasting_of value (end_by self.old.life (K.hash_input key) now)) result
            self.new.inner.cache)) }
        ensures asks { IfErr result (λ back. back.2 ≡ Refusal.Memory
            → self.old.inner.cache.room ≡ 0) }
        ensures rest { KeepsRest self.old.inner self.new.inner }
        ensures same { self.new ≡ record self.old { inner = self.new.inner } }
    {
        let life = self.life.of(&key);
        self.inner.insert(key, value, self.ticker.moment(), life)
    }

    /// As `Expiring::put`: an insert, for who does not want a refused pair back.
    ///
    /// # Errors
    ///
    /// Why. Nothing changed then, and no hook was called.
    pub fn put(&mut self, key: K, value: V) -> Result<(), Refusal>
    where
        L::RequestState: Drop,
        ensures puts { AtMoment (T.tells self.old.ticker) (λ now. IsDoneAlone
            L.RequestState.is_default
            (InsertsBy ⟦<Cache<K, Lasting<V>, ByValue<We>, B, L, A> as Ruled>⟧.goes no_touches
            self.old.inner.cache K.eq key
            (lasting_of value (end_by self.old.life (K.hash_input key) now))
            (with_pair key (lasting_of value (end_by self.old.life (K.hash_input key) now)) result)
            self.new.inner.cache)) }
        ensures asks { IfErr result (λ refusal. refusal ≡ Refusal.Memory
            → self.old.inner.cache.room ≡ 0) }
        ensures rest { KeepsRest self.old.inner self.new.inner }
        ensures same { self.new ≡ record self.old { inner = self.new.inner } }
    {
        let life = self.life.of(&key);
        self.inner.put(key, value, self.ticker.moment(), life)
    }

    /// As `Expiring::touch`: renews what serves, whether the life slides or not.
    pub fn touch<Q: Equivalent<K>>(&mut self, query: &Q) -> bool
        ensures touches { AtMoment (T.tells self.old.ticker) (λ now. Touches
            (rules_in ⟦<Cache<K, Lasting<V>, ByValue<We>, B, L, A> as Ruled>⟧.goes no_touches
            self.old.inner.cache) (Q.equivalent query.now) now
            (end_by self.old.life (Q.hash_input query.now) now) self.old.inner result
            self.new.inner) }
        ensures same { self.new ≡ record self.old { inner = self.new.inner } }
    {
        let life = self.life.of(query);
        self.inner.touch(query, self.ticker.moment(), life)
    }

    /// Renews what serves where the life slides.
    fn renew<Q: Equivalent<K>>(&mut self, query: &Q, now: u64, life: u64)
        requires told { T.tells self.old.ticker now }
        requires life { life ≡ life_by self.old.life (Q.hash_input query.now) }
        ensures renews { RenewsBy
            (rules_in ⟦<Cache<K, Lasting<V>, ByValue<We>, B, L, A> as Ruled>⟧.goes no_touches
            self.old.inner.cache) (Q.equivalent query.now) now (end_of now life) self.old.inner
            self.old.life.slides self.new.inner }
        ensures same { self.new ≡ record self.old { inner = self.new.inner } }
    {
        if self.life.slides {
            self.inner.touch(query, now, life);
        }
    }

    /// As `Expiring::load`. Where the life slides, what serves is renewed first, which is a look more.
    ///
    /// # Errors
    ///
    /// The inner one is the loader's, and leaves nothing. The outer one is a refusal, which comes
    /// before the loader is called.
    pub fn load<Q: ToKey<K>, E, F: FnOnce() -> Result<V, E>>(
        &mut self,
        query: &Q,
        loader: F,
    ) -> Result<Result<bool, E>, Refusal>
    where
        L::RequestState: Drop,
        requires stands { StandsForGiven (Q.to_key_gives query.now) (Q.equivalent query.now) }
        requires loader { F.pre loader }
        ensures loads { AtMoment (T.tells self.old.ticker) (λ now. (mid : Entries K V We B L)
            × RenewsBy
            (rules_in ⟦<Cache<K, Lasting<V>, ByValue<We>, B, L, A> as Ruled>⟧.goes no_touches
            self.old.inner.cache) (Q.equivalent query.now) now
            (end_by self.old.life (Q.hash_input query.now) now) self.old.inner
            self.old.life.slides mid
            × LoadsAt ⟦<Cache<K, Lasting<V>, ByValue<We>, B, L, A> as Ruled>⟧.goes
            L.RequestState.is_default (Q.equivalent query.now) (Q.to_key_gives query.now)
            (λ builder. hash_of B.BuildHasher B.Hasher.Hasher builder (Q.hash_input query.now))
            now (end_by self.old.life (Q.hash_input query.now) now) (F.post loader) mid result
            self.new.inner) }
        ensures same { self.new ≡ record self.old { inner = self.new.inner } }
    {
        let now = self.ticker.moment();
        let life = self.life.of(query);
        self.renew(query, now, life);
        self.inner.load(query, now, life, loader)
    }

    /// As `Expiring::get_or_load`. Where the life slides, what serves is renewed first, which is a
    /// look more.
    ///
    /// # Errors
    ///
    /// `Failed` with the loader's error, which leaves nothing, or `Refused`, as there.
    pub fn get_or_load<Q: ToKey<K>, E, F: FnOnce() -> Result<V, E>>(
        &mut self,
        query: &Q,
        loader: F,
    ) -> Result<V, LoadError<E>>
    where
        V: Clone,
        L::RequestState: Drop,
        requires stands { StandsForGiven (Q.to_key_gives query.now) (Q.equivalent query.now) }
        requires loader { F.pre loader }
        ensures fetches { AtMoment (T.tells self.old.ticker) (λ now. (mid : Entries K V We B L)
            × RenewsBy
            (rules_in ⟦<Cache<K, Lasting<V>, ByValue<We>, B, L, A> as Ruled>⟧.goes no_touches
            self.old.inner.cache) (Q.equivalent query.now) now
            (end_by self.old.life (Q.hash_input query.now) now) self.old.inner
            self.old.life.slides mid
            × FetchesAt ⟦<Cache<K, Lasting<V>, ByValue<We>, B, L, A> as Ruled>⟧.goes
            L.RequestState.is_default (Q.equivalent query.now) (Q.to_key_gives query.now)
            (λ builder. hash_of B.BuildHasher B.Hasher.Hasher builder (Q.hash_input query.now))
            now (end_by self.old.life (Q.hash_input query.now) now) (F.post loader) mid V.is_clone
            V.is_infallible result self.new.inner) }
        ensures same { self.new ≡ record self.old { inner = self.new.inner } }
    {
        let now = self.ticker.moment();
        let life = self.life.of(query);
        self.renew(query, now, life);
        self.inner.get_or_load(query, now, life, loader)
    }

    /// As `Expiring::purge`: takes out all that is over, and tells how many entries that were.
    pub fn purge(&mut self) -> usize
        ensures purges { AtMoment (T.tells self.old.ticker) (λ now. UpToOrder
            (Retains (λ _ lasting. lives lasting.until now) self.old.inner.cache.state)
            self.new.inner.cache.state) }
        ensures counts { result
            ≡ item_count self.old.inner.cache.state - item_count self.new.inner.cache.state }
        ensures rest { KeepsRest self.old.inner self.new.inner }
        ensures same { self.new ≡ record self.old { inner = self.new.inner } }
    {
        self.inner.purge(self.ticker.moment())
    }
}
