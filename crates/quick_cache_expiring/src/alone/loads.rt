//! Values that a loader gives where none serves.
ghost use Rattle.std.specs.Prelude.{◌≡◌};
ghost use Rattle.quick_cache_model.specs.Hashing.{hash_of, StandsForGiven};
ghost use Rattle.quick_cache_expiring.specs.Lives.{end_of};
ghost use Rattle.quick_cache_expiring.specs.Loads.{FetchesAt, GivesWithEnd, LoadsAt, counted_if, refused_so, unfetched_so, without_end};

use crate::alone::expiring::Expiring;
use crate::by_value::ByValue;
use crate::lasting::{Lasting, end_of};
use quick_cache_model::{Lifecycle, Refusal, ToKey, Weighter};
use quick_cache_shard::Ruled;
use quick_cache_unsync::{Cache, LoadError};
use std::alloc::Allocator;
use std::hash::{BuildHasher, Hash};

impl<
    K: Eq + Hash + Drop,
    V: Drop,
    We: Weighter<K, V>,
    B: BuildHasher,
    L: Lifecycle<K, Lasting<V>>,
    A: Allocator,
> Expiring<K, V, We, B, L, A> {
    /// Looks the query's key up, as `get` does. Where nothing serves, calls the loader and stores
    /// its value from this moment on, for so long. What is over is taken out first, and counts as one
    /// miss and as expired, as by `get`. The answer tells whether an entry of the key is there when
    /// the call returns.
    ///
    /// # Errors
    ///
    /// The inner one is the loader's, and leaves nothing. The outer one is a refusal, which comes
    /// before the loader is called: `TicketsSpent`, `SlotsFull` or `Memory`.
    pub fn load<Q: ToKey<K>, E, F: FnOnce() -> Result<V, E>>(
        &mut self,
        query: &Q,
        now: u64,
        life: u64,
        loader: F,
    ) -> Result<Result<bool, E>, Refusal>
    where
        L::RequestState: Drop,
        requires stands { StandsForGiven (Q.to_key_gives query.now) (Q.equivalent query.now) }
        requires loader { F.pre loader }
        ensures loads { LoadsAt ⟦<Cache<K, Lasting<V>, ByValue<We>, B, L, A> as Ruled>⟧.goes
            L.RequestState.is_default (Q.equivalent query.now) (Q.to_key_gives query.now)
            (λ builder. hash_of B.BuildHasher B.Hasher.Hasher builder (Q.hash_input query.now))
            now (end_of now life) (F.post loader) self.old result self.new }
    {
        let until = end_of(now, life);
        let over = self.expires(query, now);
        let lasts = || -> Result<Lasting<V>, E>
            requires { F.pre loader }
            ensures { GivesWithEnd (F.post loader) until result }
        {
            match loader() {
                Ok(value) => Ok(Lasting { value, until }),
                Err(error) => Err(error),
            }
        };
        let answer = self.cache.load(query, lasts);
        self.refuses(load_refused(over, &answer));
        answer
    }

    /// As `load`, and gives the value: a clone of the one that serves, or what the loader gave, whether
    /// the cache keeps it or not. A clone of that is stored; where it is refused, nothing is kept.
    ///
    /// # Errors
    ///
    /// `Failed` with the loader's error, which leaves nothing; `Refused` by `Memory` where the clone of
    /// a value that serves is refused, and before the loader is called by `TicketsSpent`, `SlotsFull`
    /// or `Memory`.
    pub fn get_or_load<Q: ToKey<K>, E, F: FnOnce() -> Result<V, E>>(
        &mut self,
        query: &Q,
        now: u64,
        life: u64,
        loader: F,
    ) -> Result<V, LoadError<E>>
    where
        V: Clone,
        L::RequestState: Drop,
        requires stands { StandsForGiven (Q.to_key_gives query.now) (Q.equivalent query.now) }
        requires loader { F.pre loader }
        ensures fetches { FetchesAt ⟦<Cache<K, Lasting<V>, ByValue<We>, B, L, A> as Ruled>⟧.goes
            L.RequestState.is_default (Q.equivalent query.now) (Q.to_key_gives query.now)
            (λ builder. hash_of B.BuildHasher B.Hasher.Hasher builder (Q.hash_input query.now))
            now (end_of now life) (F.post loader) self.old V.is_clone V.is_infallible result
            self.new }
    {
        let until = end_of(now, life);
        let over = self.expires(query, now);
        let lasts = || -> Result<Lasting<V>, E>
            requires { F.pre loader }
            ensures { GivesWithEnd (F.post loader) until result }
        {
            match loader() {
                Ok(value) => Ok(Lasting { value, until }),
                Err(error) => Err(error),
            }
        };
        let answer = self.cache.get_or_load(query, lasts);
        self.refuses(fetch_refused(over, &answer));
        without_end(answer)
    }

    /// Counts that the cache counted no miss of a load that found what was over, where it refused the
    /// load.
    fn refuses(&mut self, refused: bool)
        ensures { self.new ≡ record self.old {
          refused = counted_if refused self.old.refused;
        } }
    {
        if refused {
            self.refused = self.refused.saturating_add(1);
        }
    }
}

/// Whether a load took out what was over, and was then refused.
fn load_refused<E>(over: bool, answer: &Result<Result<bool, E>, Refusal>) -> bool
    ensures { result ≡ refused_so over answer.now }
{
    match answer {
        Ok(_) => false,
        Err(_) => over,
    }
}

/// Whether a load that gives its value did.
fn fetch_refused<V, E>(over: bool, answer: &Result<V, LoadError<E>>) -> bool
    ensures { result ≡ unfetched_so over answer.now }
{
    match answer {
        Ok(_) => false,
        Err(LoadError::Failed(_)) => false,
        Err(LoadError::Refused(_)) => over,
    }
}

/// The value, without its end.
fn without_end<V, E>(answer: Result<Lasting<V>, LoadError<E>>) -> Result<V, LoadError<E>>
    ensures { result ≡ without_end answer }
{
    match answer {
        Ok(lasting) => Ok(lasting.value),
        Err(error) => Err(error),
    }
}
