//! Looks at a cache that count nothing, and what is cloned before a call acts.
ghost use Rattle.std.specs.Prelude.{◌≡◌, IfOk, IfErr, option_map};
ghost use Rattle.std.specs.Map.Iter.{deref_pair};
ghost use Rattle.quick_cache_model.specs.Lookups.{Sees};
ghost use Rattle.quick_cache_model.specs.Removal.{pair_of};
ghost use Rattle.quick_cache_shard.specs.Shard.{IsSoundShard};
ghost use Rattle.quick_cache_traced.specs.Recorded.{SeesPair, SeesTwice};

use quick_cache_model::{Refusal, SharedPlaceholder, Token};
use quick_cache_options::options::Options;
use quick_cache_shard::CacheShard;
use quick_cache_unsync::Cache;
use std::alloc::Allocator;
use std::hash::{BuildHasher, Hash};

/// Two clones of the value under a key, if there is one.
pub(crate) fn look_twice<K: Eq + Hash, V: Clone + Drop, We, B: BuildHasher, L, A: Allocator>(
    cache: &Cache<K, V, We, B, L, A>,
    key: &K,
) -> Result<(Option<V>, Option<V>), Refusal>
    ensures sees { IfOk result (λ pair. SeesTwice (K.eq key.now) V.is_clone cache.now.state pair.0
        pair.1) }
    ensures refused { IfErr result (λ refusal. refusal ≡ Refusal.Memory) }
    ensures sound { IsSoundShard K.eq cache.now }
{
    let Some(value) = cache.peek(key) else {
        return Ok((None, None));
    };
    let one: Result<_, _> = value.clone();
    let other: Result<_, _> = value.clone();
    match (one, other) {
        (Ok(one), Ok(other)) => Ok((Some(one), Some(other))),
        _ => Err(Refusal::Memory),
    }
}

/// The pair of the item under a key, if there is one. It is found as by a look-up, and the walk
/// from its token begins with it.
fn pair_under<'a, K: Eq + Hash, V, We, B: BuildHasher, L, P: SharedPlaceholder<K>, A: Allocator>(
    shard: &'a CacheShard<K, V, We, B, L, P, A>,
    key: &K,
) -> Option<(&'a K, &'a V)>
    ensures sees { Sees (K.eq key.now) shard.now.state pair_of (option_map deref_pair result) }
    ensures sound { IsSoundShard K.eq shard.now }
{
    let Some(token) = shard.token_of(shard.hash(key), key) else {
        return None;
    };
    let mut walk = shard.iter_from(Token::new(token.get() - 1));
    match walk.next() {
        Some((_, key, value)) => Some((key, value)),
        None => None,
    }
}

/// Clones of the key and of the value of the item under a key, if there is one.
pub(crate) fn look_at_pair<
    K: Eq + Hash + Clone + Drop,
    V: Clone + Drop,
    We,
    B: BuildHasher,
    L,
    A: Allocator,
>(cache: &Cache<K, V, We, B, L, A>, key: &K) -> Result<Option<(K, V)>, Refusal>
    ensures sees { IfOk result
        (λ shown. SeesPair (K.eq key.now) K.is_clone V.is_clone cache.now.state shown) }
    ensures refused { IfErr result (λ refusal. refusal ≡ Refusal.Memory) }
    ensures sound { IsSoundShard K.eq cache.now }
{
    let Some((key, value)) = pair_under(cache.shard(), key) else {
        return Ok(None);
    };
    let key: Result<_, _> = key.clone();
    let value: Result<_, _> = value.clone();
    match (key, value) {
        (Ok(key), Ok(value)) => Ok(Some((key, value))),
        _ => Err(Refusal::Memory),
    }
}

/// The same options once more.
pub(crate) fn copy_of(options: &Options) -> Result<Options, Refusal>
    ensures same { IfOk result (λ copy. copy ≡ options.now) }
    ensures refused { IfErr result (λ refusal. refusal ≡ Refusal.Memory) }
{
    let copy: Result<_, _> = options.clone();
    match copy {
        Ok(copy) => Ok(copy),
        Err(_) => Err(Refusal::Memory),
    }
}
