//! The shard of these tests, its calls, and what a copy of it keeps.
use quick_cache_base::{Refusal, UnitWeighter};
use quick_cache_shard::{CacheShard, InsertStrategy, NoTouches, Placeholder, Touches};
use std::alloc::Global;
use std::hash::Hash;
use std::process::Abort;
use test_parts::counting::{Counting, Told};
use test_parts::thousand::Thousand;
use test_parts::walks::shows;
use test_tools::{expect, expect_eq, expect_ok};

/// A shard of unit weights, whose items count touches so.
pub(crate) type Tested<K, V, T = NoTouches> = CacheShard<
    K,
    V,
    UnitWeighter,
    Thousand,
    Counting,
    Placeholder<T>,
>;

/// An empty shard for so many items, with the default shares.
pub(crate) fn empty<K: Eq + Hash, V, T: Touches>(
    alloc: Global,
    capacity: usize,
) -> Result<Tested<K, V, T>, Refusal> {
    CacheShard::new(
        alloc,
        970000,
        500000,
        2,
        capacity,
        capacity as u64,
        UnitWeighter,
        Thousand,
        Counting,
    )
}

/// Inserts these pairs, and counts what was told.
pub(crate) fn put<T: Touches>(
    rt: &impl Abort,
    shard: &mut Tested<u64, u64, T>,
    told: &mut Told,
    pairs: &[(u64, u64)],
) {
    for (key, value) in pairs {
        let hash = shard.hash(key);
        expect!(rt; shard.insert(told, hash, *key, *value, InsertStrategy::Insert).is_ok());
    }
}

/// What `peek` and `contains` tell.
pub(crate) fn seen(shard: &Tested<u64, u64>, key: u64) -> (Option<u64>, bool) {
    let hash = shard.hash(&key);
    (shard.peek(hash, &key).copied(), shard.contains(hash, &key))
}

/// What `remove` takes out.
pub(crate) fn taken(shard: &mut Tested<u64, u64>, key: u64) -> Option<(u64, u64)> {
    let hash = shard.hash(&key);
    shard.remove(hash, &key)
}

/// The hits, the misses and the number of items.
pub(crate) fn counts(shard: &Tested<u64, u64>) -> [u64; 3] {
    [shard.hits(), shard.misses(), shard.len() as u64]
}

/// Whether these are the hot items, each with this mark.
pub(crate) fn shows_hot<T: Touches>(shard: &Tested<u64, u64, T>, want: &[(u64, u8)]) -> bool {
    shows(shard.iter_hot(), want)
}

#[test]
fn a_clone_keeps_marks_and_counts(rt: HostRuntime) {
    let mut shard: Tested<u64, u64> = expect_ok!(rt; empty(rt.alloc(), 4));
    put(&rt, &mut shard, &mut Told::default(), &[(1, 10)]);
    let hash = shard.hash(&1u64);
    expect_eq!(rt; shard.get(hash, &1).copied(), Some(10));
    let copy = expect_ok!(rt; shard.try_clone());
    expect_eq!(rt; taken(&mut shard, 1), Some((1, 10)));
    expect!(rt; shows_hot(&copy, &[(1, 1)]));
    let sizes = [
        copy.weight(),
        copy.capacity(),
        copy.hot_target(),
        copy.ghost_limit() as u64,
    ];
    expect_eq!(rt; (sizes, counts(&copy)), ([1, 4, 3, 2], [1, 0, 1]));
}
