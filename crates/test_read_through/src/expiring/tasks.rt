//! A task that loads what is over, by an entry future of the cache that stands behind.
use futures::executor::block_on;
use quick_cache::sync::{EntryAction, EntryResult};
use quick_cache_expiring::Lasting;
use quick_cache_expiring_sync::SharedExpiring;
use test_tools::{expect_eq, expect_ok};

#[test]
fn a_task_loads_what_is_over(rt: HostRuntime) {
    let entries: SharedExpiring<u64, u64> = expect_ok!(rt; SharedExpiring::new(rt.alloc(), 8));
    // A moment, and the value then, which is the moment of its load for ten moments.
    for (now, value) in [(5, 5), (14, 5), (15, 15)] {
        let looks = |_: &u64, it: &mut Lasting<u64>| {
            if it.lives(now) {
                EntryAction::Retain(it.value)
            } else {
                EntryAction::ReplaceWithGuard
            }
        };
        let loaded = Lasting {
            value: now,
            until: now + 10,
        };
        let found = expect_ok!(rt; block_on(&rt, entries.cache().entry_async(&rt, &1, looks)));
        let given = match found {
            EntryResult::Retained(value) => Some(value),
            EntryResult::Vacant(guard) => guard.insert(loaded).ok().map(|_| now),
            EntryResult::Replaced(guard, _) => guard.insert(loaded).ok().map(|_| now),
            _ => None,
        };
        expect_eq!(rt; (now, given), (now, Some(value)));
    }
}
