//! Lists of calls that leave what is hot.
ghost use Rattle.std.specs.Prelude.{All};
ghost use Rattle.quick_cache_runs.specs.Asked.{IfAsks, IfLoads};
ghost use Rattle.quick_cache_laws.specs.Scans.{AreFresh, IsReadyForScan, KeepsHot};
ghost use Rattle.quick_cache_shard.specs.Copies.{ClonesAreEqual};
ghost use Rattle.quick_cache_shard.specs.Steps.{rules_in};
ghost use Rattle.quick_cache_unsync.specs.Touches.{no_touches};

use crate::{Call, Reply, run};
use quick_cache_model::{Lifecycle, Weighter};
use quick_cache_shard::Ruled;
use quick_cache_unsync::Cache;
use std::alloc::Allocator;
use std::hash::{BuildHasher, Hash};

/// Makes the calls in their order, as `run` does. Where pinning is steady, the cache is ready for a
/// scan, and the hashes of the calls are fresh, no item leaves the hot ring, and the cache is ready
/// for the next scan.
///
/// # Errors
///
/// As those of `run`. The calls that were made left the hot ring too.
pub fn scan<
    F: Fn(&K, &V) -> bool + Drop,
    K: Eq + Hash + Clone + Drop,
    V: Clone + Drop,
    We: Weighter<K, V>,
    B: BuildHasher,
    L: Lifecycle<K, V>,
    A: Allocator,
    M: Allocator + Clone,
>(
    alloc: M,
    cache: &mut Cache<K, V, We, B, L, A>,
    calls: Vec<Call<K, V, F>, M>,
    state: &mut L::RequestState,
) -> Result<Vec<Reply<K, V, M>, M>, (Vec<Reply<K, V, M>, M>, Vec<Call<K, V, F>, M>)>
    requires keys { All (IfLoads (ClonesAreEqual K.eq K.is_clone)) calls.items }
    requires callable { All (IfAsks (λ asked. F.IsAlwaysCallable asked)) calls.items }
    ensures keeps { let rules = rules_in ⟦<Cache<K, V, We, B, L, A> as Ruled>⟧.goes no_touches
        cache.old in
        L.steady cache.old.lifecycle → IsReadyForScan rules cache.old.state
        → AreFresh rules cache.old.state calls.items
        → KeepsHot cache.old.state cache.new.state × IsReadyForScan rules cache.new.state }
{
    run(alloc, cache, calls, state)
}
