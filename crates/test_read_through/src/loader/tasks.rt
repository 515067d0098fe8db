//! Tasks that ask a loader with its cache.
use crate::loader::hundreds::hundreds;
use futures::executor::block_on;
use futures::test::MockTask;
use quick_cache_model::UnitWeighter;
use read_through::{AnySource, GetFuture, ReadThrough};
use std::alloc::Global;
use std::sync::atomic::{AtomicU64, Ordering};
use std::sync::{Barrier, Wait};
use std::thread::join;
use std::time::Clock;
use test_tools::{expect_eq, expect_ok};
use tokio::runtime::Runtime;

/// A future that asks for a key, by a loader that may always be called.
fn asks<'a, R: Wait + Clock, F: Fn(&u64, u64) -> u64>(
    rt: &'a R,
    loaded: &'a ReadThrough<u64, u64, F>,
    key: &'a u64,
    now: u64,
) -> GetFuture<'a, u64, u64, F, AnySource, Global, u64, UnitWeighter, R>
    requires { F.IsAlwaysCallable loaded.now.loader }
    ensures { F.IsAlwaysCallable result.reading.loader }
{
    loaded.get_async(rt, key, now)
}

#[test]
fn a_task_loads_what_is_too_old(rt: HostRuntime) {
    let calls = AtomicU64::new(0);
    let loaded: ReadThrough<u64, u64, _> = expect_ok!(rt; ReadThrough::new(
        rt.alloc(),
        8,
        10,
        |key: &u64, now: u64| {
            calls.fetch_add(1, Ordering::SeqCst);
            hundreds(*key, now)
        },
    ));
    let mut runtime = expect_ok!(rt; Runtime::new(&rt));
    // A moment, the answer, and the loads so far.
    for (now, answer, count) in [(5, 105, 1), (14, 105, 1), (15, 115, 2), (3, 115, 2)] {
        let got = expect_ok!(rt; runtime.block_on(&rt, asks(&rt, &loaded, &1, now)));
        expect_eq!(rt; (got, calls.load(Ordering::SeqCst)), (Ok(answer), count));
    }
    expect_eq!(rt; (loaded.hits(&rt), loaded.misses(&rt)), (2, 2));
}

#[test]
fn a_task_waits_for_the_load_of_a_thread(rt: HostRuntime) {
    let (rt, both) = (&rt, &Barrier::new(2));
    let loaded: ReadThrough<u64, u64, _> = expect_ok!(rt; ReadThrough::new(
        rt.alloc(),
        8,
        10,
        |key: &u64, now: u64| {
            // The load is under way until the tasks were polled.
            both.wait(rt);
            both.wait(rt);
            hundreds(*key, now)
        },
    ));
    let loaded = &loaded;
    let loads = || loaded.get(rt, &1, 5);
    let waits = || {
        let task = expect_ok!(rt; MockTask::new(rt));
        let (mut first, mut second) = (asks(rt, loaded, &1, 6), asks(rt, loaded, &1, 7));
        both.wait(rt);
        let first_waits = task.poll(&mut first).is_pending();
        let second_waits = task.poll(&mut second).is_pending();
        drop(second);
        both.wait(rt);
        (
            first_waits,
            second_waits,
            expect_ok!(rt; block_on(rt, first)),
        )
    };
    expect_eq!(rt; join(rt, loads, waits), (Ok(105), (true, true, Ok(105))));
}
