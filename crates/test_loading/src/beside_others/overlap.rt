//! Entry calls of two threads: each inside its callback while the other is, and one beside a guard.
use quick_cache_guard::{EntryResult, GuardResult};
use quick_cache_model::UnitWeighter;
use quick_cache_options::OptionsBuilder;
use quick_cache_shard::EntryAction;
use quick_cache_sync::{Cache, DefaultLifecycle};
use std::sync::Wait;
use std::sync::atomic::AtomicU64;
use std::thread::join;
use std::time::{Clock, Duration};
use test_parts::meeting::raise_and_meet;
use test_parts::upper::Upper;
use test_tools::{expect_eq, expect_ok};

type Numbers = Cache<u64, u64>;

/// A cache in which the upper half of a hash is the key, and so the shard of a key is known.
type Divided = Cache<u64, u64, UnitWeighter, Upper>;

/// Whether an entry call meets another one, each inside its callback.
fn meets<R: Wait + Clock>(rt: &R, cache: &Divided, key: u64, flags: &AtomicU64) -> bool {
    let callback = |_: &u64, _: &mut u64| -> EntryAction<bool> {
        EntryAction::Retain(raise_and_meet(flags))
    };
    let acted = cache.entry(rt, &key, None, callback);
    matches!(acted, EntryResult::Retained(true))
}

#[test]
fn callbacks_of_two_shards_overlap(rt: HostRuntime) {
    let mut options = OptionsBuilder::new();
    options
        .estimated_items_capacity(64)
        .weight_capacity(64)
        .shards(2);
    let cache: Divided = expect_ok!(rt; Cache::with_options(
        rt.alloc(),
        expect_ok!(rt; options.build()),
        UnitWeighter,
        Upper,
        DefaultLifecycle::new(),
    ));
    let (rt, cache) = (&rt, &cache);
    let inserted = (cache.insert(rt, 0, 10), cache.insert(rt, 1, 11));
    expect_eq!(rt; inserted, (Ok(()), Ok(())));
    // Where the two took one lock, the first of them would see no flag but its own.
    for _ in 0..50 {
        let flags = AtomicU64::new(0);
        let flags = &flags;
        let met = join(
            rt,
            || meets(rt, cache, 0, flags),
            || meets(rt, cache, 1, flags),
        );
        expect_eq!(rt; met, (true, true));
    }
}

/// What an entry call tells that waits for a millisecond at most, and keeps what it finds: nothing
/// where its time was over, and 0 where it is told something else.
fn found_in_time<R: Wait + Clock>(rt: &R, cache: &Numbers) -> Option<u64> {
    let keeps = |_: &u64, value: &mut u64| -> EntryAction<u64> { EntryAction::Retain(*value) };
    match cache.entry(rt, &1, Some(Duration::from_millis(1)), keeps) {
        EntryResult::Retained(value) => Some(value),
        EntryResult::Timeout => None,
        _ => Some(0),
    }
}

#[test]
fn a_guard_fills_beside_an_entry_call(rt: HostRuntime) {
    let mut right = 0u64;
    for _ in 0..100 {
        let cache: Numbers = expect_ok!(rt; Cache::new(rt.alloc(), 8));
        let (rt, cache) = (&rt, &cache);
        if let GuardResult::Guard(guard) = cache.get_value_or_guard(rt, &1, None) {
            let (found, filled) = join(
                rt,
                move || found_in_time(rt, cache),
                move || guard.insert(7).is_ok(),
            );
            let is_right = filled && (found.is_none() || found == Some(7));
            let stays = expect_ok!(rt; cache.get(rt, &1)) == Some(7);
            right = right.saturating_add(u64::from(is_right && stays));
        }
    }
    expect_eq!(rt; right, 100);
}
