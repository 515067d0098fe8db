//! A query that stands for no key finds nothing in the shared cache, whatever other threads do.
ghost use Rattle.std.specs.Prelude.{◌≡◌, IfOk, None, true, false};

use quick_cache_model::{Equivalent, ItemStats, Refusal};
use quick_cache_sync::{Cache, LockContention, TryError};
use std::hash::Hash;
use std::sync::Wait;

/// A query that stands for no key.
#[derive(PartialEq, Eq, Hash, Drop)]
pub struct Nobody;

impl Equivalent<u64> for Nobody {
    ghost equivalent = { λ _ _. false };

    ghost same_hash = { λ _ _ never. absurd cc };

    ghost same_key = { λ _ _ _ never _. absurd cc };

    fn equivalent(&self, _key: &u64) -> bool {
        false
    }
}

/// No key is told to be there.
pub fn ask<R: Wait>(rt: &R, cache: &Cache<u64, u64>) -> bool
    ensures { result ≡ false }
{
    cache.contains_key(rt, &Nobody)
}

/// Nor by a call that does not wait.
pub fn try_to_ask(cache: &Cache<u64, u64>) -> Result<bool, LockContention>
    ensures { IfOk result (λ found. found ≡ false) }
{
    cache.try_contains_key(&Nobody)
}

/// No reads are told.
pub fn count_reads<R: Wait>(rt: &R, cache: &Cache<u64, u64>) -> Option<ItemStats>
    ensures { result ≡ None }
{
    cache.item_stats(rt, &Nobody)
}

/// Nor by a call that does not wait.
pub fn try_to_count_reads(cache: &Cache<u64, u64>) -> Result<Option<ItemStats>, LockContention>
    ensures { IfOk result (λ found. found ≡ None) }
{
    cache.try_item_stats(&Nobody)
}

/// No value is shown.
pub fn look_up<R: Wait>(rt: &R, cache: &Cache<u64, u64>) -> Result<Option<u64>, Refusal>
    ensures { IfOk result (λ found. found ≡ None) }
{
    cache.get(rt, &Nobody)
}

/// Nor by a peek.
pub fn peek<R: Wait>(rt: &R, cache: &Cache<u64, u64>) -> Result<Option<u64>, Refusal>
    ensures { IfOk result (λ found. found ≡ None) }
{
    cache.peek(rt, &Nobody)
}

/// Nor by a look-up that does not wait.
pub fn try_to_look_up(cache: &Cache<u64, u64>) -> Result<Option<u64>, TryError>
    ensures { IfOk result (λ found. found ≡ None) }
{
    cache.try_get(&Nobody)
}

/// Nor by such a peek.
pub fn try_to_peek(cache: &Cache<u64, u64>) -> Result<Option<u64>, TryError>
    ensures { IfOk result (λ found. found ≡ None) }
{
    cache.try_peek(&Nobody)
}

/// No pair is taken out.
pub fn remove<R: Wait>(rt: &R, cache: &Cache<u64, u64>) -> Option<(u64, u64)>
    ensures { result ≡ None }
{
    cache.remove(rt, &Nobody)
}

/// Nor by a call that does not wait.
pub fn try_to_remove(cache: &Cache<u64, u64>) -> Result<Option<(u64, u64)>, LockContention>
    ensures { IfOk result (λ found. found ≡ None) }
{
    cache.try_remove(&Nobody)
}
