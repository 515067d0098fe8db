//! What a user relies on who fills a shared cache, or asks it for many keys at once.
ghost use Rattle.std.specs.Prelude.{◌≡◌, ◌<◌, ◌≤◌, ℕ, List, None, Some, length, slice_index_or, OnOk, IfOk, IfErr, IfSome};
ghost use Rattle.std.specs.Iterator.{Drains, IsFinite, YieldsThen};
ghost use Rattle.std.specs.List.Sorted.{IsNonDecreasingBy};
ghost use Rattle.quick_cache_locked.specs.Fitting.{ClonesFit, FitsQuery};
ghost use Rattle.quick_cache_locked.specs.Hottest.{coolness};
ghost use Rattle.quick_cache_sync.specs.Fills.{GivesFitting};

use quick_cache_model::{Equivalent, Lifecycle, Refusal, Weighter};
use quick_cache_sync::{Cache, Heated};
use std::alloc::Allocator;
use std::hash::{BuildHasher, Hash};
use std::sync::Wait;

/// A fill that is not refused came to the end of the iterator. One that is refused gives the pair
/// back that came last, and the iterator as it stood behind it.
pub fn fill_or_take_back<
    K: Eq + Hash + Drop,
    V: Drop,
    We: Weighter<K, V>,
    B: BuildHasher,
    L: Lifecycle<K, V>,
    I: Iterator<Item = (K, V)> + Drop,
    R: Wait,
>(cache: &Cache<K, V, We, B, L>, rt: &R, pairs: I) -> Result<(), (K, V, Refusal, I)>
where
    L::RequestState: Drop,
    requires can { I.can_next pairs }
    requires ends { IsFinite (I.remaining pairs) }
    requires fits { GivesFitting I.next_gives L.fits pairs }
    ensures all { OnOk result ((came : List (K × V)) × Drains I.next_gives pairs came) }
    ensures back { IfErr result (λ back. (came : List (K × V))
        × YieldsThen I.next_gives pairs came (Some (back.0, back.1)) back.3) }
{
    cache.fill(rt, pairs)
}

/// There is a value for each query, and where clones fit as their values do, one that was found fits
/// a key of its query.
pub fn get_what_fits<
    K: Eq + Hash + Drop,
    V: Clone,
    We,
    B: BuildHasher,
    L: Lifecycle<K, V>,
    Q: Equivalent<K>,
    O: Allocator + Clone,
    R: Wait,
>(
    cache: &Cache<K, V, We, B, L>,
    rt: &R,
    alloc: O,
    queries: &[Q],
) -> Result<Vec<Option<V>, O>, Refusal>
    ensures one_each { IfOk result (λ values. length values.items ≡ length queries.now) }
    ensures fits { ClonesFit L.fits V.is_clone → IfOk result (λ values. (index : ℕ) (query : Q)
        → index < length queries.now → query ≡ slice_index_or queries.now index query
        → IfSome (slice_index_or values.items index None) (FitsQuery L.fits (Q.equivalent query))) }
{
    cache.get_many(rt, alloc, queries)
}

/// No more of the hottest items are shown than are asked for, and none is hotter than one before it.
pub fn show_the_hottest<
    K: Eq + Hash + Clone + Drop,
    V: Clone,
    We,
    B: BuildHasher,
    L: Lifecycle<K, V>,
    O: Allocator + Clone,
    R: Wait,
>(
    cache: &Cache<K, V, We, B, L>,
    rt: &R,
    alloc: O,
    count: usize,
) -> Result<Vec<Heated<K, V>, O>, Refusal>
    ensures within { IfOk result (λ list. length list.items ≤ count) }
    ensures order { IfOk result (λ list. IsNonDecreasingBy coolness list.items) }
{
    cache.hottest(rt, alloc, count)
}
