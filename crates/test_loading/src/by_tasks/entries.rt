//! Entry calls that wait for another's load.
use crate::begun::{guard_of_one, numbers};
use futures::task::Poll;
use futures::test::MockTask;
use quick_cache_guard::{EntryResult, GuardResult};
use quick_cache_shard::EntryAction;
use quick_cache_sync::Cache;
use std::alloc::Global;
use test_tools::{Rationed, expect, expect_eq, expect_ok};

/// A text of which each clone may be refused.
type Text<'a> = String<&'a Rationed<Global>>;

#[test]
fn an_entry_call_looks_again_after_a_load(rt: HostRuntime) {
    let cache = numbers(&rt, 100);
    let rt = &rt;
    let guard = guard_of_one(rt, &cache);
    let writes = |_: &u64, value: &mut u64| EntryAction::Retain(std::mem::replace(value, 8));
    let mut acts = cache.entry_async(rt, &1, writes);
    let task = expect_ok!(rt; MockTask::new(rt));
    expect!(rt; task.poll(&mut acts).is_pending());
    expect!(rt; guard.insert(7).is_ok() && task.is_woken());
    expect!(rt; matches!(task.poll(&mut acts), Poll::Ready(EntryResult::Retained(7))));
    expect_eq!(rt; cache.get(rt, &1), Ok(Some(8)));
}

#[test]
fn an_entry_call_gets_a_guard(rt: HostRuntime) {
    let cache = numbers(&rt, 100);
    let rt = &rt;
    let guard = guard_of_one(rt, &cache);
    let gives = |_: &u64, _: &mut u64| EntryAction::<()>::ReplaceWithGuard;
    let mut first = cache.entry_async(rt, &1, gives);
    let mut second = cache.entry_async(rt, &1, gives);
    let task = expect_ok!(rt; MockTask::new(rt));
    expect!(rt; task.poll(&mut first).is_pending() && task.poll(&mut second).is_pending());
    // The guard goes to the second, which came last, and from there to the first.
    drop(guard);
    drop(second);
    let Poll::Ready(EntryResult::Vacant(guard)) = task.poll(&mut first) else {
        panic!(rt; "the guard was handed on");
    };
    expect!(rt; guard.insert(9).is_ok());
    let mut third = cache.entry_async(rt, &1, gives);
    expect!(rt;
        matches!(
            task.poll(&mut third),
            Poll::Ready(EntryResult::Replaced(_, 9))
        )
    );
}

#[test]
fn an_entry_call_that_waited_clones_nothing(rt: HostRuntime) {
    let ration = Rationed::new(rt.alloc(), 1000);
    let cache: Cache<u64, Text<'_>> = expect_ok!(rt; Cache::new(rt.alloc(), 100));
    let rt = &rt;
    let GuardResult::Guard(guard) = cache.get_value_or_guard(rt, &1, None) else {
        panic!(rt; "the key is absent");
    };
    let counts = |_: &u64, text: &mut Text<'_>| EntryAction::Retain(text.len());
    let mut acts = cache.entry_async(rt, &1, counts);
    let task = expect_ok!(rt; MockTask::new(rt));
    expect!(rt; task.poll(&mut acts).is_pending());
    expect!(rt; guard.insert(expect_ok!(rt; String::from_str(&ration, "load"))).is_ok());
    ration.allow(0);
    expect!(rt; matches!(task.poll(&mut acts), Poll::Ready(EntryResult::Retained(4))));
}
