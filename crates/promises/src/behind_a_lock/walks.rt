//! What a user relies on who walks over a shard by tokens, or over a shared cache.
ghost use Rattle.std.specs.Prelude.{◌≡◌, ◌<◌, ℕ, IfNone, true};
ghost use Rattle.quick_cache_locked.specs.Asked.{MayBeAskedOfFitting};
ghost use Rattle.quick_cache_locked.specs.Locked.{FromSome};
ghost use Rattle.quick_cache_shard.specs.PlaceWalks.{EndsAt};
ghost use Rattle.quick_cache_shard.specs.Predicates.{Answers};
ghost use Rattle.quick_cache_shard.specs.Shard.{Shard};
ghost use Rattle.quick_cache_shard.specs.TakesWanted.{WantsNone};

use quick_cache_model::{Lifecycle, Refusal, Token};
use quick_cache_sync::Cache as SharedCache;
use quick_cache_unsync::Cache;
use std::hash::{BuildHasher, Hash};
use std::sync::Wait;

/// A walk meets each item in its turn, one of weight 0 too: where it goes on right before the
/// item's token, the item is the next.
pub fn meet_in_turn<K: Eq + Hash, V, We, B: BuildHasher, L>(
    cache: &Cache<K, V, We, B, L>,
    key: &K,
) -> bool
    ensures { result ≡ true }
{
    let shard = cache.shard();
    let Some(token) = shard.token_of(shard.hash(key), key) else {
        return true;
    };
    let before = Token::new(token.get() - 1);
    match shard.iter_from(before).next() {
        Some((met, _, _)) => met.get() == token.get(),
        None => false,
    }
}

/// Where a walk over a shared cache shows nothing, it passed each of the shards, and none had an
/// item then.
pub fn show_one<
    K: Eq + Hash + Clone + Drop,
    V: Clone + Drop,
    We,
    B: BuildHasher,
    L: Lifecycle<K, V>,
    R: Wait,
>(rt: &R, cache: &SharedCache<K, V, We, B, L>) -> Option<Result<(K, V), Refusal>>
    ensures { IfNone result ((place : ℕ) → place < cache.now.shards → FromSome L.Lifecycle K.eq
        (λ (shard : Shard K V We B L). EndsAt shard.places 0)) }
{
    cache.iter(rt).next()
}

/// So it is where a drain gives nothing.
pub fn drain_one<K: Eq + Hash + Drop, V: Drop, We, B: BuildHasher, L: Lifecycle<K, V>, R: Wait>(
    rt: &R,
    cache: &SharedCache<K, V, We, B, L>,
) -> Option<(K, V)>
    ensures { IfNone result ((place : ℕ) → place < cache.now.shards → FromSome L.Lifecycle K.eq
        (λ (shard : Shard K V We B L). EndsAt shard.places 0)) }
{
    cache.drain(rt).next()
}

/// And where nothing that a predicate wants is given, no shard had such an item.
pub fn extract_one<
    K: Eq + Hash + Drop,
    V: Drop,
    We,
    B: BuildHasher,
    L: Lifecycle<K, V>,
    F: Fn(&K, &V) -> bool + Drop,
    R: Wait,
>(rt: &R, cache: &SharedCache<K, V, We, B, L>, wanted: F) -> Option<(K, V)>
    requires { MayBeAskedOfFitting L.fits F.Fn wanted }
    ensures { IfNone result ((place : ℕ) → place < cache.now.shards → FromSome L.Lifecycle K.eq
        (λ (shard : Shard K V We B L). WantsNone (Answers F.Fn wanted) 0 shard)) }
{
    cache.extract_if(rt, wanted).next()
}
