//! Entry calls that are refused, and that change weights.
use quick_cache_guard::{EntryResult, GuardResult};
use quick_cache_listeners::ByLength;
use quick_cache_model::{DefaultHashBuilder, Refusal, UnitWeighter};
use quick_cache_shard::EntryAction;
use quick_cache_sync::{Cache, DefaultLifecycle};
use std::alloc::Global;
use std::sync::Wait;
use std::time::Clock;
use test_tools::{Rationed, expect, expect_eq, expect_ok};

/// A cache of texts, by their length.
type Texts = Cache<u64, String, ByLength>;

/// A cache whose growths can be refused.
type RationedCache<'a> = Cache<
    u64,
    u64,
    UnitWeighter,
    DefaultHashBuilder,
    DefaultLifecycle<u64, u64>,
    &'a Rationed<Global>,
>;

#[test]
fn a_refused_replace_leaves_what_the_callback_wrote(rt: HostRuntime) {
    let ration = Rationed::new(rt.alloc(), 1000);
    let cache: RationedCache<'_> = expect_ok!(rt; Cache::new(&ration, 100));
    expect_eq!(rt; cache.insert(&rt, 1, 10), Ok(()));
    let replaces = |_: &u64, value: &mut u64| -> EntryAction<u64> {
        *value = 11;
        EntryAction::ReplaceWithGuard
    };
    let mut refused = 0u64;
    for blocks in 0..20 {
        ration.allow(blocks);
        match cache.entry(&rt, &1, None, replaces) {
            EntryResult::Refused(Refusal::Memory) => refused = refused.saturating_add(1),
            EntryResult::Replaced(_, 11) => break,
            _ => panic!(rt; "the item was there"),
        }
        let stands = (cache.peek(&rt, &1), cache.len(&rt));
        expect_eq!(rt; (blocks, stands), (blocks, (Ok(Some(11)), 1)));
    }
    expect_ok!(rt; println!(rt; "{refused} requests were refused"));
    expect!(rt; refused > 0 && cache.is_empty(&rt));
}

#[test]
fn a_hit_asks_for_no_memory(rt: HostRuntime) {
    let ration = Rationed::new(rt.alloc(), 1000);
    let cache: RationedCache<'_> = expect_ok!(rt; Cache::new(&ration, 100));
    expect_eq!(rt; cache.insert(&rt, 1, 10), Ok(()));
    ration.allow(0);
    let loaded: Result<Result<u64, ()>, Refusal> = cache.get_or_insert_with(&rt, &1, || Err(()));
    let found = cache.get_value_or_guard(&rt, &1, None);
    expect!(rt; loaded == Ok(Ok(10)) && matches!(found, GuardResult::Value(10)));
}

/// Appends to the text under a key, or clears it where there is nothing to append, and keeps it.
fn writes<R: Wait + Clock>(rt: &R, cache: &Texts, key: u64, more: &str) -> bool {
    let callback = |_: &u64, text: &mut String| -> EntryAction<bool> {
        if more.is_empty() {
            text.clear();
            return EntryAction::Retain(true);
        }
        EntryAction::Retain(text.push_str(more).is_ok())
    };
    matches!(
        cache.entry(rt, &key, None, callback),
        EntryResult::Retained(true)
    )
}

#[test]
fn an_entry_is_weighed_anew(rt: HostRuntime) {
    let cache: Texts = expect_ok!(rt; Cache::with_weighter(rt.alloc(), 100, 100000, ByLength));
    for (key, text) in [(1, "hello"), (2, "world")] {
        let inserted = cache.insert(&rt, key, expect_ok!(rt; String::from_str(rt.alloc(), text)));
        expect!(rt; inserted.is_ok());
    }
    expect_eq!(rt; cache.weight(&rt), 10);
    for (more, weight) in [(" world", 16), ("", 5)] {
        expect!(rt; writes(&rt, &cache, 1, more));
        expect_eq!(rt; (more, cache.weight(&rt)), (more, weight));
    }
    let goes = |_: &u64, _: &mut String| -> EntryAction<u64> { EntryAction::Remove };
    let gone = cache.entry(&rt, &2, None, goes);
    expect!(rt; matches!(gone, EntryResult::Removed(2, _)));
    expect_eq!(rt; (cache.weight(&rt), cache.len(&rt)), (0, 1));
}
