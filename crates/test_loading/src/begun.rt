//! What tests begin with: a cache, and the guard of a key that is loaded.
use crate::schedules::running::{Asking, Guard, Numbers};
use futures::test::MockTask;
use quick_cache_guard::GuardResult;
use quick_cache_sync::Cache;
use std::alloc::AllocGlobal;
use std::process::Abort;
use std::sync::Wait;
use std::time::Clock;
use test_tools::expect_ok;

/// A cache for so many numbers.
pub fn numbers<R: AllocGlobal + Abort>(rt: &R, items: usize) -> Numbers {
    expect_ok!(rt; Cache::new(rt.alloc(), items))
}

/// The guard of the key 1, which is absent.
pub fn guard_of_one<'a, R: Wait + Clock + Abort>(rt: &'a R, cache: &'a Numbers) -> Guard<'a, R> {
    let GuardResult::Guard(guard) = cache.get_value_or_guard(rt, &1, None) else {
        panic!(rt; "the key is absent");
    };
    guard
}

/// Whether a future waits that a task has polled.
pub fn waits<R: Wait>(task: &MockTask, future: &mut Asking<'_, R>) -> bool {
    task.poll(future).is_pending()
}
