//! What a user relies on who writes, or asks for, many pairs at once.
ghost use Rattle.std.specs.Prelude.{◌≡◌, ◌≤◌, List, Some, OnOk, IfOk, IfErr};
ghost use Rattle.std.specs.Iterator.{Drains, IsFinite, YieldsThen};
ghost use Rattle.quick_cache_model.specs.CacheState.{item_count};

use quick_cache_model::{Lifecycle, Refusal, Weighter};
use quick_cache_unsync::Cache;
use std::alloc::Allocator;
use std::hash::{BuildHasher, Hash};

/// A fill that is not refused came to the end of the iterator. One that is refused gives the pair
/// back that came last, and the iterator as it stood behind it.
pub fn fill_or_take_back<
    K: Eq + Hash + Drop,
    V: Drop,
    We: Weighter<K, V>,
    B: BuildHasher,
    L: Lifecycle<K, V>,
    I: Iterator<Item = (K, V)> + Drop,
>(cache: &mut Cache<K, V, We, B, L>, pairs: I) -> Result<(), (K, V, Refusal, I)>
where
    L::RequestState: Drop,
    requires can { I.can_next pairs }
    requires ends { IsFinite (I.remaining pairs) }
    ensures all { OnOk result ((came : List (K × V)) × Drains I.next_gives pairs came) }
    ensures back { IfErr result (λ back. (came : List (K × V))
        × YieldsThen I.next_gives pairs came (Some (back.0, back.1)) back.3) }
{
    cache.fill(pairs)
}

/// No more of the hottest items are shown than are asked for.
pub fn count_the_hottest<K: Eq + Hash, V, We, B: BuildHasher, L, O: Allocator>(
    cache: &Cache<K, V, We, B, L>,
    alloc: O,
    count: usize,
) -> Result<usize, Refusal>
    ensures { IfOk result (λ shown. shown ≤ count) }
{
    let list = cache.hottest(alloc, count)?;
    Ok(list.len())
}

/// A walk has an entry for each item.
pub fn count_by_walk(cache: &Cache<u64, u64>) -> usize
    ensures { result ≡ item_count cache.now.state }
{
    cache.into_iter().count()
}
