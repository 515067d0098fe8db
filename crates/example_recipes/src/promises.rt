//! Callers with contracts of their own, in the words of the cache's definitions.
ghost use Rattle.std.specs.Prelude.{◌+◌, length};
ghost use Rattle.quick_cache_unsync.specs.Lookups.{Sees};
ghost use Rattle.quick_cache_unsync.specs.Shard.{WorksWithin};

use quick_cache_unsync::{Cache, Lifecycle, Refusal, Weighter};
use std::hash::{BuildHasher, Hash};

/// The number under a key. Nothing changes.
pub fn number_under<K: Eq + Hash>(cache: &Cache<K, u64>, key: &K) -> Option<u64>
    ensures sees { Sees (K.eq key.now) cache.now.state (λ item. item.value) result }
{
    cache.peek(key).copied()
}

/// Puts a zero under a key, in a cache of any weigher and lifecycle: the work is bounded by the
/// items.
pub fn put_zero<K: Eq + Hash + Drop, We: Weighter<K, u64>, B: BuildHasher, L: Lifecycle<K, u64>>(
    cache: &mut Cache<K, u64, We, B, L>,
    key: K,
) -> Result<(), Refusal>
where
    L::RequestState: Drop,
    ensures work { WorksWithin cache.old.state.mark_cut
        (length cache.old.state.hot + length cache.old.state.cold + 1)
        cache.old.work cache.new.work }
{
    cache.insert(key, 0).map_err(|(_, _, refusal)| refusal)
}

#[cfg(test)]
mod tests {
    use super::*;
    use std::test::Fail;
    use test_tools::expect_eq;

    #[test]
    fn a_zero_that_was_put_is_seen(rt: HostRuntime) -> Result<(), Fail> {
        let mut cache: Cache<&str, u64> = Cache::new(rt.alloc(), 5)?;
        put_zero(&mut cache, "square")?;
        expect_eq!(rt; number_under(&cache, &"square"), Some(0));
        expect_eq!(rt; number_under(&cache, &"circle"), None);
        Ok(())
    }
}
