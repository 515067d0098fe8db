//! What a user relies on of calls that spare a step: a put, loads, and a guard's insert.
ghost use Rattle.std.specs.Prelude.{◌≡◌, ◌≤◌, length, IfOk, OnErr, None, Ok, true, false};
ghost use Rattle.quick_cache_model.specs.Hashing.{StandsForGiven};
ghost use Rattle.quick_cache_model.specs.Finding.{HasNoItem, HasNoKey};
ghost use Rattle.quick_cache_unsync.specs.Alone.{IsDoneAlone};
ghost use Rattle.quick_cache_unsync.specs.Steps.{FillsIfThereBy};
ghost use Rattle.quick_cache_unsync.specs.Touches.{no_touches};

use quick_cache_model::{Equivalent, ToKey};
use quick_cache_shard::Ruled;
use quick_cache_unsync::{Cache, Guard, Lifecycle, LoadError, NotLoaded, Refusal, Weighter};
use std::hash::{BuildHasher, Hash};

/// A refused put leaves the state as it was.
pub fn put_or_leave<
    K: Eq + Hash + Drop,
    V: Drop,
    We: Weighter<K, V>,
    B: BuildHasher,
    L: Lifecycle<K, V>,
>(cache: &mut Cache<K, V, We, B, L>, key: K, value: V) -> Result<(), Refusal>
where
    L::RequestState: Drop,
    ensures { OnErr result (cache.new.state ≡ cache.old.state) }
{
    cache.put(key, value)
}

/// A find that gives nothing, or is refused, changes nothing: no miss is counted.
pub fn find_or_leave<K: Eq + Hash, V: Clone, We, B: BuildHasher, L, Q: Equivalent<K>>(
    cache: &mut Cache<K, V, We, B, L>,
    query: &Q,
) -> Result<Option<V>, Refusal>
    ensures none { IfOk result (λ found. found ≡ None → cache.new ≡ cache.old) }
    ensures refused { OnErr result (cache.new ≡ cache.old) }
{
    cache.find(query)
}

/// Of a key that is absent the loader's value is answered, whether it is kept or not.
pub fn load_absent<
    K: Eq + Hash + Drop,
    V: Clone + Drop,
    We: Weighter<K, V>,
    B: BuildHasher,
    L: Lifecycle<K, V>,
    Q: ToKey<K>,
    E,
    F: FnOnce() -> Result<V, E>,
>(cache: &mut Cache<K, V, We, B, L>, query: &Q, loader: F) -> Result<V, LoadError<E>>
where
    L::RequestState: Drop,
    requires stands { StandsForGiven (Q.to_key_gives query.now) (Q.equivalent query.now) }
    requires loader { F.pre loader }
    requires absent { HasNoItem (Q.equivalent query.now) cache.old.state }
    ensures { IfOk result (λ value. F.post loader (Ok value)) }
{
    cache.get_or_load(query, loader)
}

/// A key that a load tells to be absent is absent then.
pub fn load_or_miss<
    K: Eq + Hash + Drop,
    V: Drop,
    We: Weighter<K, V>,
    B: BuildHasher,
    L: Lifecycle<K, V>,
    Q: ToKey<K>,
    E,
    F: FnOnce() -> Result<V, E>,
>(cache: &mut Cache<K, V, We, B, L>, query: &Q, loader: F) -> Result<Result<bool, E>, Refusal>
where
    L::RequestState: Drop,
    requires stands { StandsForGiven (Q.to_key_gives query.now) (Q.equivalent query.now) }
    requires loader { F.pre loader }
    ensures { IfOk result (λ ended. ended ≡ Ok false
        → HasNoItem (Q.equivalent query.now) cache.new.state) }
{
    cache.load(query, loader)
}

/// So is one to whose value no reference is given since it was not kept.
pub fn is_not_lent<
    K: Eq + Hash + Drop,
    V: Drop,
    We: Weighter<K, V>,
    B: BuildHasher,
    L: Lifecycle<K, V>,
    Q: ToKey<K>,
    E: Drop,
    F: FnOnce() -> Result<V, E>,
>(cache: &mut Cache<K, V, We, B, L>, query: &Q, loader: F) -> bool
where
    L::RequestState: Drop,
    requires stands { StandsForGiven (Q.to_key_gives query.now) (Q.equivalent query.now) }
    requires loader { F.pre loader }
    ensures { result ≡ true → HasNoItem (Q.equivalent query.now) cache.new.state }
{
    match cache.get_or_insert_with(query, loader) {
        Ok(_) => false,
        Err(NotLoaded::NotKept) => true,
        Err(NotLoaded::Failed(_)) => false,
        Err(NotLoaded::Refused(_)) => false,
    }
}

/// And one to whose value no reference to write is given.
pub fn is_not_lent_to_write<
    K: Eq + Hash + Drop,
    V: Drop,
    We: Weighter<K, V>,
    B: BuildHasher,
    L: Lifecycle<K, V>,
    Q: ToKey<K>,
    E: Drop,
    F: FnOnce() -> Result<V, E>,
>(cache: &mut Cache<K, V, We, B, L>, query: &Q, loader: F) -> bool
where
    L::RequestState: Drop,
    requires stands { StandsForGiven (Q.to_key_gives query.now) (Q.equivalent query.now) }
    requires loader { F.pre loader }
    ensures { result ≡ true → HasNoItem (Q.equivalent query.now) cache.new.state }
{
    match cache.get_mut_or_insert_with(query, loader) {
        Ok(_) => false,
        Err(NotLoaded::NotKept) => true,
        Err(NotLoaded::Failed(_)) => false,
        Err(NotLoaded::Refused(_)) => false,
    }
}

/// A loader that fails leaves no placeholder, where none stood.
pub fn fail_to_load<
    K: Eq + Hash + Drop,
    V: Drop,
    We: Weighter<K, V>,
    B: BuildHasher,
    L: Lifecycle<K, V>,
    Q: ToKey<K>,
>(cache: &mut Cache<K, V, We, B, L>, query: &Q) -> Result<Result<bool, ()>, Refusal>
where
    L::RequestState: Drop,
    requires stands { StandsForGiven (Q.to_key_gives query.now) (Q.equivalent query.now) }
    requires absent { HasNoKey (Q.equivalent query.now) cache.old.state }
    ensures { length cache.new.state.loading ≤ length cache.old.state.loading }
{
    cache.load(query, || Err(()))
}

/// A guard's insert is a fill of its placeholder, with a request state of its own.
pub fn fill_alone<
    K: Eq + Hash + Drop,
    V: Drop,
    We: Weighter<K, V>,
    B: BuildHasher,
    L: Lifecycle<K, V>,
>(guard: Guard<'_, K, V, We, B, L>, value: V)
where
    L::RequestState: Drop,
    ensures { IsDoneAlone L.RequestState.is_default
        (FillsIfThereBy ⟦<Cache<K, V, We, B, L> as Ruled>⟧.goes no_touches
        guard.entry.cache.now guard.entry.ticket value guard.exit.0.now) }
{
    guard.insert(value);
}
