//! Seventy thousand entries in one shard: no token, count or walk ends at sixteen bits.
use crate::shards::divided;
use quick_cache::sync::{Cache, Heated};
use std::alloc::Global;
use std::process::Abort;
use std::sync::Wait;
use test_tools::{expect, expect_eq, expect_ok};

/// How many entries there are.
const MANY: u64 = 70000;

/// How many pairs of a number and its double were met, and the sum of the numbers.
#[derive(Debug, Default, Clone, Copy, PartialEq, Eq)]
struct Met {
    count: u64,
    sum: u64,
}

impl Met {
    /// A pair is met.
    fn add(&mut self, key: u64, value: u64) {
        if value == key.saturating_mul(2) {
            self.count = self.count.saturating_add(1);
            self.sum = self.sum.saturating_add(key);
        }
    }
}

/// All numbers below `MANY`, each with its double.
const ALL: Met = Met {
    count: MANY,
    sum: 2449965000,
};

/// A cache of one shard that holds them.
fn doubles<R: Wait + Abort>(rt: &R, alloc: Global) -> Cache<u64, u64> {
    let cache = expect_ok!(rt; divided(alloc, 1, MANY as usize).ok_or("there is memory"));
    for key in 0..MANY {
        expect_ok!(rt; cache.put(rt, key, key.saturating_mul(2)));
    }
    cache
}

/// What a drain takes.
fn drained<R: Wait>(rt: &R, cache: &Cache<u64, u64>) -> Met {
    let mut met = Met::default();
    let mut drain = cache.drain(rt);
    for _ in 0..=MANY {
        let Some((key, value)) = drain.next() else {
            return met;
        };
        met.add(key, value);
    }
    met
}

/// What a list has.
fn listed(list: &Vec<Heated<u64, u64>>) -> Met {
    let mut met = Met::default();
    for item in list {
        met.add(item.key, item.value);
    }
    met
}

/// Puts the items of a list back into a cache of one shard.
fn restored<R: Wait + Abort>(
    rt: &R,
    alloc: Global,
    list: Vec<Heated<u64, u64>>,
) -> Cache<u64, u64> {
    let cache = expect_ok!(rt; divided(alloc, 1, MANY as usize).ok_or("there is memory"));
    for item in list {
        expect_ok!(rt; cache.restore(rt, item.key, item.value, item.queue, item.mark));
    }
    cache
}

#[test]
fn seventy_thousand_entries_are_listed(rt: HostRuntime) {
    let cache = doubles(&rt, rt.alloc());
    let hottest = expect_ok!(rt; cache.hottest(&rt, rt.alloc(), MANY as usize));
    expect_eq!(rt; listed(&hottest), ALL);
}

#[test]
fn seventy_thousand_entries_are_saved_restored_and_drained(rt: HostRuntime) {
    let cache = doubles(&rt, rt.alloc());
    let saved = expect_ok!(rt; cache.saved(&rt, rt.alloc()));
    expect_eq!(rt; [listed(&saved), drained(&rt, &cache)], [ALL, ALL]);
    let again = restored(&rt, rt.alloc(), saved);
    expect_eq!(rt; drained(&rt, &again), ALL);
    expect!(rt; again.is_empty(&rt));
}
