//! What loads answer, by one thread and by two.
use crate::begun::{guard_of_one, numbers};
use crate::by_threads::asking::{Call, answers};
use crate::schedules::running::Numbers;
use crate::schedules::steps::{Step, Told};
use quick_cache_guard::{EntryResult, GuardResult};
use quick_cache_shard::EntryAction;
use std::sync::Wait;
use std::thread::{join, sleep, yield_now};
use std::time::{Clock, CpuClock, Duration};
use test_tools::{expect, expect_eq, expect_ok};

// What a call gets: the value; 100 where it gets the guard, by which it fills in 7; 200 where that
// is gone; 300 where the time is over; 400 where it is refused.
fn outcome<R: Wait + Clock>(rt: &R, cache: &Numbers, key: u64, limit: Option<u64>) -> u64 {
    let limit = match limit {
        Some(turns) => Some(Duration::from_millis(turns)),
        None => None,
    };
    match cache.get_value_or_guard(rt, &key, limit) {
        GuardResult::Value(value) => value,
        GuardResult::Guard(guard) => match guard.insert(7) {
            Ok(()) => 100,
            Err(_) => 200,
        },
        GuardResult::Timeout => 300,
        GuardResult::Refused(_) => 400,
    }
}

#[test]
fn what_is_invalidated_is_not_stored_afterwards(rt: HostRuntime) {
    answers(
        &rt,
        100,
        &[
            (Call::Step(Step::Insert(1, 1)), Told::Done),
            (Call::Step(Step::Insert(2, 2)), Told::Done),
            (Call::Step(Step::Insert(3, 3)), Told::Done),
            (Call::Step(Step::Insert(4, 4)), Told::Done),
            (Call::Step(Step::Insert(5, 5)), Told::Done),
            (Call::Step(Step::Insert(6, 6)), Told::Done),
            (Call::Step(Step::Ask(9)), Told::Guard),
            (Call::Step(Step::Ask(8)), Told::Guard),
            // Three items and a load.
            (Call::InvalidateEven, Told::Count(4)),
            (Call::Step(Step::Fill(1, 80)), Told::Gone(80)),
            (Call::Step(Step::Fill(0, 90)), Told::Done),
            (Call::Step(Step::Count), Told::Count(4)),
            (Call::Step(Step::Get(5)), Told::Value(5)),
            (Call::Step(Step::Get(9)), Told::Value(90)),
        ],
    );
}

#[test]
fn each_load_of_a_shard_is_invalidated(rt: HostRuntime) {
    // All keys of so small a cache have one shard.
    answers(
        &rt,
        8,
        &[
            (Call::Step(Step::Ask(4)), Told::Guard),
            (Call::Step(Step::Ask(3)), Told::Guard),
            (Call::Step(Step::Ask(2)), Told::Guard),
            (Call::InvalidateEven, Told::Count(2)),
            (Call::Step(Step::Fill(2, 20)), Told::Gone(20)),
            (Call::Step(Step::Fill(1, 30)), Told::Done),
            (Call::Step(Step::Fill(0, 40)), Told::Gone(40)),
            (Call::Step(Step::Count), Told::Count(1)),
        ],
    );
}

#[test]
fn the_loader_is_called_until_it_gives_a_value(rt: HostRuntime) {
    answers(
        &rt,
        100,
        &[
            (Call::Load(4, 0), Told::Failed),
            (Call::Load(4, 4), Told::Loaded(4)),
            (Call::Load(4, 5), Told::Value(4)),
            (Call::Step(Step::Ask(4)), Told::Value(4)),
            (Call::Hits, Told::Count(2)),
            (Call::Misses, Told::Count(2)),
        ],
    );
}

#[test]
fn who_loads_is_told_whether_its_loader_gave_the_value(rt: HostRuntime) {
    answers(
        &rt,
        100,
        &[
            (Call::LoadTold(4, 0), Told::Failed),
            (Call::LoadTold(4, 4), Told::Loaded(4)),
            (Call::LoadTold(4, 5), Told::Value(4)),
        ],
    );
}

#[test]
fn a_loader_uses_its_cache(rt: HostRuntime) {
    // All keys of so small a cache have one shard.
    answers(
        &rt,
        8,
        &[
            (Call::LoadBoth(4, 40), Told::Loaded(40)),
            (Call::Step(Step::Get(4)), Told::Value(40)),
            (Call::Step(Step::Get(5)), Told::Value(40)),
        ],
    );
}

#[test]
fn a_guard_whose_placeholder_left_is_gone(rt: HostRuntime) {
    // All keys of so small a cache have one shard.
    answers(
        &rt,
        8,
        &[
            (Call::Step(Step::Ask(1)), Told::Guard),
            (Call::Step(Step::Clear), Told::Done),
            // The other key comes to the slot that the placeholder had.
            (Call::Step(Step::Insert(2, 22)), Told::Done),
            (Call::Step(Step::Fill(0, 5)), Told::Gone(5)),
            (Call::Step(Step::Get(1)), Told::Nothing),
            (Call::Step(Step::Get(2)), Told::Value(22)),
            (Call::Step(Step::Ask(1)), Told::Guard),
            (Call::Step(Step::Insert(1, 3)), Told::Done),
            // Dropped or filled, a guard whose placeholder is gone leaves what stands under its key.
            (Call::Step(Step::LetGo(0)), Told::Done),
            (Call::Step(Step::Get(1)), Told::Value(3)),
            (Call::Step(Step::Count), Told::Count(2)),
            (Call::Misses, Told::Count(3)),
        ],
    );
}

// Lets others go on until so many hits are counted: each who meets the placeholder counts one.
fn await_hits<R: Wait>(rt: &R, cache: &Numbers, hits: u64) {
    for _ in 0..1000000 {
        if cache.hits(rt) >= hits {
            return;
        }
        yield_now();
    }
}

#[test]
fn one_of_two_threads_loads_what_a_third_gave_up(rt: HostRuntime) {
    let cache = numbers(&rt, 100);
    let (rt, cache) = (&rt, &cache);
    let guard = guard_of_one(rt, cache);
    expect_eq!(rt; cache.misses(rt), 1);
    let text = expect_ok!(rt; format!(in rt.alloc(); "{guard:?}"));
    expect_eq!(rt; text.as_str(), "PlaceholderGuard { .. }");
    let keeps = |_: &u64, _: &mut u64| -> EntryAction<u64> { EntryAction::Retain(0) };
    let timed = cache.entry(rt, &1, Some(Duration::from_millis(0)), keeps);
    expect!(rt; matches!(timed, EntryResult::Timeout));
    expect_eq!(rt; outcome(rt, cache, 1, Some(2)), 300);
    // One miss for the placeholder, and a hit for each time that it was met.
    expect_eq!(rt; (cache.hits(rt), cache.misses(rt)), (2, 1));
    let (first, (second, ())) = join(
        rt,
        move || outcome(rt, cache, 1, None),
        move || join(
            rt,
            move || outcome(rt, cache, 1, None),
            move || {
                await_hits(rt, cache, 4);
                drop(guard);
            },
        ),
    );
    expect_eq!(rt; (first.min(second), first.max(second)), (7, 100));
    expect_eq!(rt; cache.get(rt, &1), Ok(Some(7)));
}

#[test]
fn a_thread_that_waits_sleeps(rt: HostRuntime) {
    let cache = numbers(&rt, 100);
    let (rt, cache) = (&rt, &cache);
    let guard = guard_of_one(rt, cache);
    let ((value, before, after), filled) = join(
        rt,
        move || {
            let before = rt.thread_cpu_time();
            let value = outcome(rt, cache, 1, None);
            (value, before, rt.thread_cpu_time())
        },
        move || {
            await_hits(rt, cache, 1);
            sleep(rt, Duration::from_millis(400));
            guard.insert(7).is_ok()
        },
    );
    let took = expect_ok!(rt; after).saturating_sub(expect_ok!(rt; before));
    expect_eq!(rt; (value, filled, took < Duration::from_millis(100)), (7, true, true));
}
