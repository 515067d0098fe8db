//! What a user of a shard relies on who writes by a strategy, goes by its tokens, or borrows a value
//! of it to write.
ghost use Rattle.std.specs.Prelude.{◌≡◌, IfSome, true};
ghost use Rattle.quick_cache_shard.specs.Steps.{InsertsBy, ReplacesBy};

use quick_cache_model::{Lifecycle, Refusal, Token, Weighter};
use quick_cache_shard::{CacheShard, InsertStrategy, Ruled, SharedPlaceholder};
use std::hash::{BuildHasher, Hash};

/// A write by the strategy of an insert is one, and what comes back has a refusal.
pub fn insert_by_strategy<
    K: Eq + Hash + Drop,
    V: Drop,
    We: Weighter<K, V>,
    B: BuildHasher,
    L: Lifecycle<K, V>,
    P: SharedPlaceholder<K>,
>(
    shard: &mut CacheShard<K, V, We, B, L, P>,
    state: &mut L::RequestState,
    key: K,
    value: V,
) -> Result<(), (K, V, Refusal)>
    ensures inserts { InsertsBy ⟦<CacheShard<K, V, We, B, L, P> as Ruled>⟧.goes P.Touch.may_count
        shard.old K.eq key value result shard.new state.old state.new }
{
    let hash = shard.hash(&key);
    match shard.insert(state, hash, key, value, InsertStrategy::Insert) {
        Ok(()) => Ok(()),
        Err((key, value, refusal)) => Err((key, value, refusal.unwrap())),
    }
}

/// A write by the strategy of a replace is one, and is never refused.
pub fn replace_by_strategy<
    K: Eq + Hash + Drop,
    V: Drop,
    We: Weighter<K, V>,
    B: BuildHasher,
    L: Lifecycle<K, V>,
    P: SharedPlaceholder<K>,
>(
    shard: &mut CacheShard<K, V, We, B, L, P>,
    state: &mut L::RequestState,
    key: K,
    value: V,
    soft: bool,
) -> Result<(), (K, V)>
    ensures replaces { ReplacesBy ⟦<CacheShard<K, V, We, B, L, P> as Ruled>⟧.goes
        P.Touch.may_count shard.old K.eq soft key value result shard.new state.old state.new }
{
    let hash = shard.hash(&key);
    match shard.insert(state, hash, key, value, InsertStrategy::Replace { soft }) {
        Ok(()) => Ok(()),
        Err((key, value, _)) => Err((key, value)),
    }
}

/// A token at which a value is shown is one under which a pair is taken out, and no other is.
pub fn show_and_take<K: Eq + Hash + Drop, V: Drop, We, B: BuildHasher, L, P: SharedPlaceholder<K>>(
    shard: &mut CacheShard<K, V, We, B, L, P>,
    token: Token,
) -> (bool, bool)
    ensures { result.0 ≡ result.1 }
{
    let is_shown = shard.peek_token(token).is_some();
    (is_shown, shard.remove_token(token).is_some())
}

/// The pair that a look-up gives has a key that the query stands for.
pub fn find_key<K: Eq + Hash + Copy, V, We, B: BuildHasher, L, P: SharedPlaceholder<K>>(
    shard: &mut CacheShard<K, V, We, B, L, P>,
    query: &K,
) -> Option<K>
    ensures { IfSome result (λ key. K.eq query.now key ≡ true) }
{
    let hash = shard.hash(query);
    let (key, _) = shard.get_key_value(hash, query)?;
    Some(*key)
}

/// A value that a peek shows is the one that is lent to be written, and else none is lent.
pub fn peek_and_lend<
    K: Eq + Hash + Drop,
    V: Copy,
    We: Weighter<K, V>,
    B: BuildHasher,
    L: Lifecycle<K, V>,
    P: SharedPlaceholder<K>,
>(shard: &mut CacheShard<K, V, We, B, L, P>, key: &K) -> (Option<V>, Option<V>)
    ensures { result.0 ≡ result.1 }
{
    let hash = shard.hash(key);
    let shown = shard.peek(hash, key).copied();
    match shard.peek_mut(hash, key) {
        Some(reference) => (shown, Some(*reference)),
        None => (shown, None),
    }
}

/// So it is with the value at a token.
pub fn show_and_lend<
    K: Eq + Hash + Drop,
    V: Copy,
    We: Weighter<K, V>,
    B: BuildHasher,
    L: Lifecycle<K, V>,
    P: SharedPlaceholder<K>,
>(shard: &mut CacheShard<K, V, We, B, L, P>, token: Token) -> (Option<V>, Option<V>)
    ensures { result.0 ≡ result.1 }
{
    let shown = shard.peek_token(token).copied();
    match shard.peek_token_mut(token) {
        Some(reference) => (shown, Some(*reference)),
        None => (shown, None),
    }
}
