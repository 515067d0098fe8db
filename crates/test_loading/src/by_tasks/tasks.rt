//! Tasks that wait for a value, and one that loads it.
use crate::begun::{guard_of_one, numbers, waits};
use futures::channel::oneshot;
use futures::task::Poll;
use futures::test::MockTask;
use quick_cache_model::Refusal;
use test_tools::{expect, expect_eq, expect_ok};

#[test]
fn dropped_future_hands_the_guard_on(rt: HostRuntime) {
    let cache = numbers(&rt, 100);
    let rt = &rt;
    let guard = guard_of_one(rt, &cache);
    let mut first = cache.get_value_or_guard_async(rt, &1);
    let mut second = cache.get_value_or_guard_async(rt, &1);
    let task = expect_ok!(rt; MockTask::new(rt));
    expect!(rt; waits(&task, &mut first) && waits(&task, &mut second));
    // The guard goes to the second, which came last, and from there to the first.
    drop(guard);
    drop(second);
    let Poll::Ready(Ok(Err(guard))) = task.poll(&mut first) else {
        panic!(rt; "the guard was handed on");
    };
    expect!(rt; guard.insert(9).is_ok());
    expect!(rt; matches!(task.poll(&mut first), Poll::Ready(Err(Refusal::Finished))));
    expect_eq!(rt; cache.get(rt, &1), Ok(Some(9)));
}

#[test]
fn a_task_loads_what_a_channel_sends(rt: HostRuntime) {
    let cache = numbers(&rt, 100);
    let rt = &rt;
    let (sender, receiver) = expect_ok!(rt; oneshot::channel(rt.alloc()));
    let mut loads = cache.get_or_insert_async(rt, &4, receiver);
    let task = expect_ok!(rt; MockTask::new(rt));
    expect!(rt; task.poll(&mut loads).is_pending());
    expect!(rt; sender.send(6).is_ok());
    expect!(rt; matches!(task.poll(&mut loads), Poll::Ready(Ok(Ok(6)))));
    expect!(rt; matches!(task.poll(&mut loads), Poll::Ready(Err(Refusal::Finished))));
    expect_eq!(rt; cache.get(rt, &4), Ok(Some(6)));
}
