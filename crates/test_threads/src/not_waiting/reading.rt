//! The calls that do not wait, while another call has a lock to read. A query is compared under that
//! lock, and tries them on the same cache.
ghost use Rattle.std.specs.Prelude.{◌==◌};
ghost use Rattle.std.specs.Cmp.Rules.{comparing, hashing};
ghost use Rattle.std.proofs.Common.{rules};

use quick_cache::Equivalent;
use quick_cache::sync::{Cache, LockContention, TryError};
use std::hash::Hash;
use std::sync::atomic::{AtomicU64, Ordering};
use test_tools::{expect, expect_eq, expect_ok};

/// Stands for a number. Where it is compared, it counts whether the calls that read answer and those
/// that write are contended.
#[derive_where(PartialEq, Eq, Hash)]
#[derive(Drop)]
struct Trying<'a> {
    number: u64,
    #[derive_where(skip(EqHashOrd))]
    cache: &'a Cache<u64, u64>,
    #[derive_where(skip(EqHashOrd))]
    right: &'a AtomicU64,
}

impl<'a> Equivalent<u64> for Trying<'a> {
    ghost equivalent = { λ query key. query.number == key };

    ghost same_hash = { Prim.search (hashing, rules) };

    ghost same_key = { Prim.search (comparing, rules) };

    fn equivalent(&self, key: &u64) -> bool {
        if readers_share(self.cache) {
            self.right.fetch_add(1, Ordering::SeqCst);
        }
        self.number == *key
    }
}

/// Whether each call that reads finds the pair (1, 10), and each that writes is contended.
fn readers_share(cache: &Cache<u64, u64>) -> bool {
    let contended = TryError::Contended(LockContention);
    cache.try_contains_key(&1) == Ok(true)
        && cache.try_item_stats(&2) == Ok(None)
        && cache.try_peek(&1) == Ok(Some(10))
        && cache.try_get(&1) == Ok(Some(10))
        && cache.try_remove(&1) == Err(LockContention)
        && cache.try_insert(1, 30) == Err((1, 30, contended))
}

#[test]
fn a_lock_to_read_is_shared_by_calls_that_read(rt: HostRuntime) {
    let cache: Cache<u64, u64> = expect_ok!(rt; Cache::new(rt.alloc(), 10));
    expect_eq!(rt; cache.insert(&rt, 1, 10), Ok(()));
    let right = AtomicU64::new(0);
    let query = Trying {
        number: 1,
        cache: &cache,
        right: &right,
    };
    expect!(rt; cache.contains_key(&rt, &query));
    expect_eq!(rt; right.load(Ordering::SeqCst), 1);
    expect_eq!(rt; cache.get(&rt, &1), Ok(Some(10)));
}
