//! Which tasks are woken.
use crate::begun::{guard_of_one, numbers, waits};
use futures::task::Poll;
use futures::test::MockTask;
use test_tools::{expect, expect_eq, expect_ok};

#[test]
fn the_task_that_polled_last_is_woken(rt: HostRuntime) {
    let cache = numbers(&rt, 100);
    let rt = &rt;
    let guard = guard_of_one(rt, &cache);
    let mut future = cache.get_value_or_guard_async(rt, &1);
    let (first, second) = (
        expect_ok!(rt; MockTask::new(rt)),
        expect_ok!(rt; MockTask::new(rt)),
    );
    expect!(rt; waits(&first, &mut future) && waits(&second, &mut future));
    // The first task was woken as its waker gave way, and then turned to something else.
    first.enter(|_| {});
    drop(guard);
    expect_eq!(rt; (first.is_woken(), second.is_woken()), (false, true));
}

/// Which of three tasks were woken.
fn woken(tasks: &[MockTask; 3]) -> [bool; 3] {
    [
        tasks[0].is_woken(),
        tasks[1].is_woken(),
        tasks[2].is_woken(),
    ]
}

#[test]
fn a_guard_wakes_one_task_and_a_value_all(rt: HostRuntime) {
    let cache = numbers(&rt, 100);
    let rt = &rt;
    let guard = guard_of_one(rt, &cache);
    let tasks = [
        expect_ok!(rt; MockTask::new(rt)),
        expect_ok!(rt; MockTask::new(rt)),
        expect_ok!(rt; MockTask::new(rt)),
    ];
    let mut waiting = [
        cache.get_value_or_guard_async(rt, &1),
        cache.get_value_or_guard_async(rt, &1),
        cache.get_value_or_guard_async(rt, &1),
    ];
    for at in 0..3 {
        expect!(rt; waits(&tasks[at], &mut waiting[at]));
    }
    drop(guard);
    expect_eq!(rt; woken(&tasks), [false, false, true]);
    let Poll::Ready(Ok(Err(guard))) = tasks[2].poll(&mut waiting[2]) else {
        panic!(rt; "the guard was handed on");
    };
    expect!(rt; guard.insert(5).is_ok());
    expect_eq!(rt; woken(&tasks), [true, true, false]);
}
