//! What a user of the shared cache relies on who looks with a test of its own.
ghost use Rattle.std.specs.Prelude.{◌≡◌, ◌<◌, ◌≤◌, IfErr, IfOk, IfSome};

use quick_cache_model::Lifecycle;
use quick_cache_sync::Cache;
use std::hash::{BuildHasher, Hash};
use std::sync::Wait;

/// A find with a test gives only a number that passes it, and is not refused.
pub fn find_small<K: Eq + Hash + Drop, We, B: BuildHasher, L: Lifecycle<K, u64>, R: Wait>(
    rt: &R,
    cache: &Cache<K, u64, We, B, L>,
    key: &K,
) -> Option<u64>
    ensures { IfSome result (λ value. value < 10) }
{
    match cache.find_if(rt, key, |value: &u64| *value < 10) {
        Ok(Ok(value)) => Some(value),
        Ok(Err(_)) => None,
        Err(_) => unreachable!(),
    }
}

/// A change is told of a number that passed the test, and what is taken out failed it.
pub fn raise_small<R: Wait>(
    rt: &R,
    cache: &Cache<u64, u64>,
    key: &u64,
) -> Result<u64, Option<(u64, u64)>>
    ensures raised { IfOk result (λ told. told ≤ 10) }
    ensures taken { IfErr result (λ taken. IfSome taken (λ pair. 10 ≤ pair.1)) }
{
    let raises = |value: &mut u64| -> u64
        ensures { value.old < 10 → result ≤ 10 }
    {
        *value = value.saturating_add(1);
        *value
    };
    cache.change_or_take(rt, key, |value: &u64| *value < 10, raises)
}
