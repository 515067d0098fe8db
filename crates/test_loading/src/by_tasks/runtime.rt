//! What the futures give to one who waits for them by the executor of `tokio`.
use crate::begun::numbers;
use futures::future::ready;
use quick_cache_guard::EntryResult;
use quick_cache_shard::EntryAction;
use test_tools::{expect, expect_eq, expect_ok};
use tokio::runtime::Runtime;

#[test]
fn a_load_fails_and_another_is_removed_by_tokio(rt: HostRuntime) {
    let cache = numbers(&rt, 100);
    let mut runtime = expect_ok!(rt; Runtime::new(&rt));
    let rt = &rt;
    let fails: Result<u64, u8> = Err(1);
    let failed =
        expect_ok!(rt; runtime.block_on(rt, cache.get_or_insert_async(rt, &4, ready(fails))));
    expect_eq!(rt; failed, Ok(Err(1)));
    let gives: Result<u64, u8> = Ok(4);
    let loaded =
        expect_ok!(rt; runtime.block_on(rt, cache.get_or_insert_async(rt, &4, ready(gives))));
    expect_eq!(rt; loaded, Ok(Ok(4)));
    let goes = |_: &u64, _: &mut u64| EntryAction::<()>::Remove;
    let removed = expect_ok!(rt; runtime.block_on(rt, cache.entry_async(rt, &4, goes)));
    expect!(rt; matches!(removed, EntryResult::Removed(4, 4)));
    let absent = expect_ok!(rt; runtime.block_on(rt, cache.get_value_or_guard_async(rt, &4)));
    expect!(rt; matches!(absent, Ok(Err(_))));
}
