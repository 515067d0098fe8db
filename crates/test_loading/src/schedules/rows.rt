//! Rows: short schedules on keys that are being loaded, and what each of their steps is told.
use crate::begun::numbers;
use crate::schedules::plain::Plain;
use crate::schedules::random::differ;
use crate::schedules::running::{Numbers, Running};
use crate::schedules::steps::{Step, Told};
use std::alloc::AllocGlobal;
use std::random::RandomSource;
use std::sync::Wait;
use std::time::Clock;
use test_tools::expect_eq;

/// A row: what it shows, and each step with what it is told.
type Row = (&'static str, &'static [(Step, Told)]);

const ROWS: [Row; 9] = [
    (
        "an insert beside a guard stays",
        &[
            (Step::Ask(1), Told::Guard),
            (Step::Insert(1, 100), Told::Done),
            (Step::LetGo(0), Told::Done),
            (Step::Get(1), Told::Value(100)),
        ],
    ),
    (
        "a guard whose key was removed leaves another key",
        &[
            (Step::Ask(1), Told::Guard),
            (Step::Remove(1), Told::Nothing),
            (Step::Insert(2, 222), Told::Done),
            (Step::LetGo(0), Told::Done),
            (Step::Get(2), Told::Value(222)),
        ],
    ),
    (
        "who waits gets a value that a clear kept from the cache",
        &[
            (Step::Ask(1), Told::Guard),
            (Step::Begin(1), Told::Done),
            (Step::Poll(0), Told::Pending),
            (Step::Clear, Told::Done),
            (Step::Fill(0, 5), Told::Gone(5)),
            (Step::Poll(0), Told::Value(5)),
            (Step::Get(1), Told::Nothing),
        ],
    ),
    (
        "of two guards the one that came later fills",
        &[
            (Step::Ask(1), Told::Guard),
            (Step::Remove(1), Told::Nothing),
            (Step::Ask(1), Told::Guard),
            (Step::Fill(0, 5), Told::Gone(5)),
            (Step::Fill(0, 6), Told::Done),
            (Step::Get(1), Told::Value(6)),
        ],
    ),
    (
        "what is dropped leaves nothing",
        &[
            (Step::Ask(1), Told::Guard),
            (Step::Begin(1), Told::Done),
            (Step::Poll(0), Told::Pending),
            (Step::Begin(1), Told::Done),
            (Step::Poll(1), Told::Pending),
            (Step::LetGo(0), Told::Done),
            (Step::Cancel(1), Told::Done),
            (Step::Cancel(0), Told::Done),
            (Step::Ask(1), Told::Guard),
            (Step::Count, Told::Count(0)),
        ],
    ),
    (
        "an entry call whose time is over leaves the load",
        &[
            (Step::Ask(1), Told::Guard),
            (Step::Act(1, 1), Told::Timeout),
            (Step::Fill(0, 7), Told::Done),
            (Step::Get(1), Told::Value(7)),
        ],
    ),
    (
        "a guard outside the shard is handed on, and fills nothing",
        &[
            (Step::Ask(1), Told::Guard),
            (Step::Begin(1), Told::Done),
            (Step::Poll(0), Told::Pending),
            (Step::Insert(1, 3), Told::Done),
            (Step::LetGo(0), Told::Done),
            (Step::Poll(0), Told::Guard),
            (Step::Fill(0, 4), Told::Gone(4)),
            (Step::Get(1), Told::Value(3)),
        ],
    ),
    (
        "a replace leaves a load",
        &[
            (Step::Ask(1), Told::Guard),
            (Step::Replace(1, 4), Told::Nothing),
            (Step::Ask(1), Told::Timeout),
            (Step::Fill(0, 4), Told::Done),
            (Step::Replace(1, 6), Told::Done),
            (Step::Get(1), Told::Value(6)),
        ],
    ),
    (
        "an entry that leaves a guard is absent until it is filled",
        &[
            (Step::Insert(1, 5), Told::Done),
            (Step::Act(1, 0), Told::Replaced(5)),
            (Step::Get(1), Told::Nothing),
            (Step::Fill(0, 4), Told::Done),
            (Step::Act(1, 0), Told::Removed(4)),
            (Step::Act(1, 0), Told::Guard),
            (Step::LetGo(0), Told::Done),
            (Step::Ask(1), Told::Guard),
        ],
    ),
];

/// The place of the first step of a row that the cache or the model tells something else.
fn wrong<R: Wait + Clock + RandomSource + AllocGlobal>(
    rt: &R,
    cache: &Numbers,
    steps: &[(Step, Told)],
) -> Option<usize> {
    let keys = [0, 1, 2, 3];
    let mut running = Running::new(rt, cache, &keys);
    let mut plain = Plain::new(rt.alloc());
    let mut wrong = None;
    for (at, (step, told)) in steps.iter().enumerate() {
        if running.step(*step) != *told || differ(*told, plain.step(*step)) {
            wrong = Some(at);
            break;
        }
    }
    wrong
}

#[test]
fn rows_are_told_what_they_say(rt: HostRuntime) {
    for (shown, steps) in ROWS {
        let cache = numbers(&rt, 8);
        expect_eq!(rt; (shown, wrong(&rt, &cache, steps)), (shown, None));
    }
}
