//! What those rely on who show what a cache counts.
ghost use Rattle.std.specs.Prelude.{◌≡◌};
ghost use Rattle.quick_cache_model.specs.CacheState.{item_count};

use quick_cache_expiring_sync::SharedExpiring;
use quick_cache_unsync::Cache;
use read_through::ReadThrough;
use std::sync::Wait;

/// The record of a cache for one thread has its very counts, and no load.
pub fn count_entries(cache: &Cache<u64, u64>) -> u64
    ensures { result ≡ item_count cache.now.state }
{
    let stats = cache.stats();
    stats.entries - stats.loads
}

/// No more looks found what was over than found nothing that serves.
pub fn count_absent<R: Wait>(rt: &R, entries: &SharedExpiring<u64, u64>) -> u64 {
    let stats = entries.stats(rt);
    stats.misses - stats.expired
}

/// No more loads failed than there were.
pub fn count_given<R: Wait, F>(rt: &R, loaded: &ReadThrough<u64, u64, F>) -> u64 {
    let stats = loaded.stats(rt);
    stats.loads - stats.failed_loads
}
