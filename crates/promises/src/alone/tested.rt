//! What a user of the cache for one thread relies on who looks with a test of its own.
ghost use Rattle.std.specs.Prelude.{◌≡◌, ◌<◌, IfOk, IsSome, OnErr, Err, None, true, false};
ghost use Rattle.quick_cache_model.specs.CacheState.{SameButOrder};
ghost use Rattle.quick_cache_model.specs.Lookups.{after_miss};
ghost use Rattle.quick_cache_shard.specs.Tests.{Miss};

use quick_cache_unsync::{Cache, Miss};
use std::hash::{BuildHasher, Hash};

/// Only a number below ten is given. Where none is, a miss is counted, and all else stays.
pub fn get_small(cache: &mut Cache<u64, u64>, key: &u64) -> Result<u64, Miss>
    ensures small { IfOk result (λ value. value < 10) }
    ensures stays { OnErr result (SameButOrder (after_miss cache.old.state) cache.new.state) }
{
    cache.get_if(key, |value: &u64| *value < 10).copied()
}

/// What no test passes is told to have failed where a peek shows it.
pub fn peek_and_drop<K: Eq + Hash + Drop, V: Copy + Drop, We, B: BuildHasher, L>(
    cache: &mut Cache<K, V, We, B, L>,
    key: &K,
) -> (Option<V>, Result<V, Miss>)
    ensures failed { IsSome result.0 → result.1 ≡ Err Miss.Failed }
    ensures absent { result.0 ≡ None → result.1 ≡ Err Miss.Absent }
{
    let shown = cache.peek(key).copied();
    (shown, cache.get_or_drop(key, |_: &V| false).copied())
}
