//! Answers with lives of their own, old answers that are asked for anew, and those that are answered
//! while a loader fails.
use crate::loader::hundreds::hundreds;
use read_through::{ByAnswer, Given, ReadThrough, Refusal, WithLife};
use std::alloc::Global;
use std::sync::atomic::{AtomicU64, Ordering};
use std::sync::{Barrier, Wait};
use std::thread::join;
use std::time::Clock;
use test_tools::{expect_eq, expect_ok};

/// The life of each answer, and gets: a moment, and the one at which the answer was loaded.
const LIVES: [(u64, &[(u64, u64)]); 5] = [
    // Its last moment, one behind, and a clock that goes back.
    (10, &[(5, 5), (14, 5), (0, 5), (15, 15), (14, 15)]),
    (1, &[(5, 5), (5, 5), (6, 6)]),
    (0, &[(5, 5), (4, 4), (4, 4)]),
    (u64::MAX, &[(5, 5), (u64::MAX, 5)]),
    (1, &[(u64::MAX, u64::MAX), (u64::MAX, u64::MAX)]),
];

#[test]
fn an_answer_lives_as_long_as_it_says(rt: HostRuntime) {
    for (life, gets) in LIVES {
        let loaded: ReadThrough<u64, WithLife<u64>, _, read_through::AnySource, Global, ByAnswer> =
            expect_ok!(rt; ReadThrough::new(
                rt.alloc(),
                8,
                ByAnswer,
                |_key: &u64, now: u64| WithLife { value: now, life },
            ));
        for (now, value) in gets {
            let answer = loaded.get(&rt, &1, *now);
            let value = *value;
            expect_eq!(rt; (*now, answer), (*now, Ok(WithLife { value, life })));
        }
    }
}

#[test]
fn an_old_answer_is_asked_for_anew(rt: HostRuntime) {
    let calls = AtomicU64::new(0);
    let loaded: ReadThrough<u64, u64, _> = expect_ok!(rt; ReadThrough::new(
        rt.alloc(),
        8,
        10,
        |key: &u64, now: u64| {
            calls.fetch_add(1, Ordering::SeqCst);
            hundreds(*key, now)
        },
    ));
    // A moment, how old an answer may be, the answer, and the loads so far.
    let rows = [
        (5, 0, 105, 1),
        (5, 0, 105, 1),
        (9, 4, 105, 1),
        (9, 3, 109, 2),
        (18, u64::MAX, 109, 2),
        (19, u64::MAX, 119, 3),
        (3, 0, 119, 3),
        (20, 0, 120, 4),
    ];
    for (now, refresh_after, answer, count) in rows {
        let got = loaded.get_or_refresh(&rt, &1, now, refresh_after);
        expect_eq!(rt; (now, got, calls.load(Ordering::SeqCst)), (now, Ok(answer), count));
    }
    expect_eq!(rt; (loaded.hits(&rt), loaded.misses(&rt)), (6, 2));
}

/// What stands for the error where the loader was not asked.
const UNASKED: u64 = u64::MAX;

/// The value of an answer and its error, each 0 for none.
fn given(answer: Result<Given<u64, u64>, u64>) -> (u64, u64) {
    match answer {
        Ok(Given::Fresh(value)) => (value, 0),
        Ok(Given::Stale { value, error }) => (value, error),
        Ok(Given::Unasked(value)) => (value, UNASKED),
        Err(error) => (0, error),
    }
}

#[test]
fn while_a_loader_fails_an_old_answer_is_given(rt: HostRuntime) {
    let loaded: ReadThrough<u64, u64, _> = expect_ok!(rt; ReadThrough::new(
        rt.alloc(),
        8,
        10,
        |key: &u64, now: u64| -> Result<u64, u64> {
            if now >= 10 && now < 30 {
                Err(now)
            } else {
                Ok(hundreds(*key, now))
            }
        },
    ))
    .with_grace(10);
    // A moment, how old an answer may be, the value of the answer and the error, each 0 for none.
    let rows = [
        (5, u64::MAX, 105, 0),
        (12, 3, 105, 12),
        // The loader was asked a moment before.
        (13, 3, 105, 0),
        (15, u64::MAX, 105, 15),
        (24, u64::MAX, 105, 24),
        (25, u64::MAX, 0, 25),
        (30, u64::MAX, 130, 0),
    ];
    for (now, refresh_after, value, error) in rows {
        let got = loaded.try_get_or_refresh(&rt, &1, now, refresh_after);
        expect_eq!(rt; (now, got.map(given)), (now, Ok((value, error))));
    }
}

#[test]
fn a_loader_that_fails_is_asked_again_after_a_pause(rt: HostRuntime) {
    let calls = AtomicU64::new(0);
    let loaded: ReadThrough<u64, u64, _> = expect_ok!(rt; ReadThrough::new(
        rt.alloc(),
        8,
        10,
        |key: &u64, now: u64| -> Result<u64, u64> {
            calls.fetch_add(1, Ordering::SeqCst);
            if now >= 10 && now < 28 {
                Err(now)
            } else {
                Ok(hundreds(*key, now))
            }
        },
    ))
    .with_grace(20)
    .with_retry_after(5);
    // A moment, the value of the answer and the error, and the loads so far.
    let rows = [
        (5, 105, 0, 1),
        (16, 105, 16, 2),
        (16, 105, UNASKED, 2),
        // A clock that goes back.
        (15, 105, UNASKED, 2),
        (21, 105, UNASKED, 2),
        (22, 105, 22, 3),
        (27, 105, UNASKED, 3),
        (28, 128, 0, 4),
        (37, 128, 0, 4),
    ];
    for (now, value, error, count) in rows {
        let got = loaded.try_get_or_refresh(&rt, &1, now, u64::MAX).map(given);
        expect_eq!(rt; (now, got, calls.load(Ordering::SeqCst)), (now, Ok((value, error)), count));
    }
    // A get that takes no old answer asks at once.
    expect_eq!(rt; [loaded.try_get(&rt, &2, 15), loaded.try_get(&rt, &2, 15)], [Ok(Err(15)); 2]);
}

/// Asks for the key 1 at a moment, anew.
fn ask<R: Wait + Clock, F: Fn(&u64, u64) -> Result<u64, u64>>(
    rt: &R,
    loaded: &ReadThrough<u64, u64, F>,
    now: u64,
) -> Result<(u64, u64), Refusal>
    requires { F.IsAlwaysCallable loaded.now.loader }
{
    loaded.try_get_or_refresh(rt, &1, now, 0).map(given)
}

#[test]
fn while_one_asks_an_old_answer_is_given_to_others(rt: HostRuntime) {
    let (rt, both) = (&rt, &Barrier::new(2));
    let loaded: ReadThrough<u64, u64, _> = expect_ok!(rt; ReadThrough::new(
        rt.alloc(),
        8,
        10,
        |key: &u64, now: u64| -> Result<u64, u64> {
            if now >= 20 {
                both.wait(rt);
                both.wait(rt);
                return Err(now);
            }
            Ok(hundreds(*key, now))
        },
    ));
    let loaded = &loaded.with_grace(20).with_retry_after(5);
    expect_eq!(rt; loaded.try_get(rt, &1, 5), Ok(Ok(105)));
    let asks = || ask(rt, loaded, 20);
    let others = || {
        both.wait(rt);
        let got = [20, 21, 25].map(|now| ask(rt, loaded, now));
        both.wait(rt);
        got
    };
    let told = join(rt, asks, others);
    expect_eq!(rt; told, (Ok((105, 20)), [Ok((105, UNASKED)); 3]));
}
