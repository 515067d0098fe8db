//! Random schedules on a running cache, by one thread, beside a plain model.
use crate::begun::numbers;
use crate::schedules::generator::next;
use crate::schedules::later::Later;
use crate::schedules::plain::Plain;
use crate::schedules::running::{Guard, Numbers, Running, chosen, unless};
use crate::schedules::steps::{Step, Told};
use futures::task::Poll;
use quick_cache_guard::EntryResult;
use quick_cache_model::Refusal;
use std::alloc::{AllocError, AllocGlobal};
use std::random::RandomSource;
use std::sync::Wait;
use std::test::Fail;
use std::time::Clock;
use test_tools::{expect_eq, expect_ok};

/// How many rounds there are.
const ROUNDS: u64 = 400;

/// How many random steps each has.
const STEPS: u64 = 50;

/// A random step, which has this value where it has one.
fn random_step(seed: u64, value: u64) -> Step {
    let (key, at) = (seed >> 60 & 3, (seed >> 56 & 3) as usize);
    match (seed >> 32) % 28 {
        0 => Step::Insert(key, value),
        1 => Step::Remove(key),
        2 => Step::Get(key),
        3 => Step::Replace(key, value),
        4 | 5 => Step::Ask(key),
        6 | 7 => Step::Act(key, 0),
        8 | 9 => Step::Fill(at, value),
        10 | 11 => Step::LetGo(at),
        12 | 13 | 14 | 15 | 16 => Step::Begin(key),
        17 => Step::Cancel(at),
        18 if seed >> 40 & 7 == 0 => Step::Clear,
        18 => Step::Count,
        19 | 20 => Step::PollActs,
        21 | 22 => Step::PollLoads,
        _ => Step::Poll((seed >> 50 & 7) as usize),
    }
}

/// The steps of a round by a seed, beside two futures that are dropped in its end: one acts on an
/// entry, and one loads, with a loader that comes late or fails. It gives the first step at which
/// the cache and the model tell something else.
fn round<R: Wait + Clock + RandomSource + AllocGlobal>(
    running: &mut Running<'_, R>,
    plain: &mut Plain,
    mut seed: u64,
    start: u64,
) -> Result<Option<u64>, Fail> {
    let (acts_on, loads) = (seed >> 60 & 3, seed >> 58 & 3);
    let (turns, given) = (seed >> 56 & 3, (seed >> 54 & 3 > 0).then_some(start));
    let (mut acts, mut loads_by) = (running.unpolled()?, running.unpolled()?);
    let (rt, cache) = (running.rt, running.cache);
    let mut acting = cache.entry_async(rt, running.key(acts_on), |_: &u64, value: &mut u64| {
        chosen(value)
    });
    let mut loading = cache.get_or_insert_async(rt, running.key(loads), Later { turns, given });
    plain.come_two(acts_on, loads, turns, given);
    let mut differs = None;
    for turn in start..start.saturating_add(STEPS) {
        seed = next(seed);
        let step = random_step(seed, turn);
        let told = match step {
            Step::PollActs => {
                let is_asleep = acts.is_asleep();
                let answer = acts.task.poll(&mut acting);
                acts.was_pending = answer.is_pending();
                acted(running, is_asleep, answer)
            }
            Step::PollLoads => {
                let is_asleep = loads_by.is_asleep();
                let answer = loads_by.task.poll(&mut loading);
                loads_by.was_pending = answer.is_pending();
                loaded(is_asleep, answer)
            }
            _ => running.step(step),
        };
        if differ(told, plain.step(step)) {
            differs = Some(turn);
            break;
        }
    }
    drop(acting);
    drop(loading);
    plain.drop_two();
    Ok(differs)
}

/// What an entry call tells.
fn acted<'a, R: Wait + Clock + RandomSource + AllocGlobal>(
    running: &mut Running<'a, R>,
    is_asleep: bool,
    answer: Poll<EntryResult<u64, u64, u64, Guard<'a, R>>>,
) -> Told {
    match answer {
        Poll::Pending => Told::Pending,
        Poll::Ready(answer) => unless(is_asleep, running.acted(answer)),
    }
}

/// What a load tells.
fn loaded(is_asleep: bool, answer: Poll<Result<Result<u64, ()>, Refusal>>) -> Told {
    match answer {
        Poll::Pending => Told::Pending,
        Poll::Ready(Ok(Ok(value))) => unless(is_asleep, Told::Value(value)),
        Poll::Ready(Ok(Err(()))) => unless(is_asleep, Told::Failed),
        Poll::Ready(Err(_)) => unless(is_asleep, Told::Refused),
    }
}

/// Whether the cache and the model tell something else, or there was no memory for the model.
pub fn differ(told: Told, wanted: Result<Told, AllocError>) -> bool {
    match wanted {
        Ok(wanted) => told != wanted,
        Err(_) => true,
    }
}

/// The steps of the end: all futures are dropped, then all guards; and then each key is asked for,
/// and its guard dropped.
fn last_step(turn: u64) -> Step {
    if turn < 8 {
        Step::Cancel(0)
    } else if turn < 200 || turn % 2 == 1 {
        Step::LetGo(0)
    } else {
        Step::Ask(turn / 2 % 4)
    }
}

/// The first step of all rounds at which they differ.
fn first_difference<R: Wait + Clock + RandomSource + AllocGlobal>(
    running: &mut Running<'_, R>,
    plain: &mut Plain,
    mut seed: u64,
) -> Result<Option<u64>, Fail> {
    for at in 0..ROUNDS {
        seed = next(seed);
        let found = round(running, plain, seed, at.wrapping_mul(STEPS))?;
        if found.is_some() {
            return Ok(found);
        }
    }
    Ok(None)
}

/// The first step of the end at which they differ, or a key is still being loaded.
fn last_difference<R: Wait + Clock + RandomSource + AllocGlobal>(
    running: &mut Running<'_, R>,
    plain: &mut Plain,
) -> Option<u64> {
    for turn in 0..208 {
        let step = last_step(turn);
        let told = running.step(step);
        if differ(told, plain.step(step)) || (turn >= 200 && told == Told::Timeout) {
            return Some(turn);
        }
    }
    None
}

/// The first step at which they differ, of the rounds and of the end.
fn differences<R: Wait + Clock + RandomSource + AllocGlobal>(
    rt: &R,
    cache: &Numbers,
    seed: u64,
) -> Result<[Option<u64>; 2], Fail> {
    let keys = [0, 1, 2, 3];
    let mut running = Running::new(rt, cache, &keys);
    let mut plain = Plain::new(rt.alloc());
    let first = first_difference(&mut running, &mut plain, seed)?;
    Ok([first, last_difference(&mut running, &mut plain)])
}

#[test]
fn random_schedules_are_told_what_the_model_says(rt: HostRuntime) -> Result<(), Fail> {
    expect_ok!(rt; println!(rt; "seed 45"));
    let cache = numbers(&rt, 8);
    let found = differences(&rt, &cache, 45)?;
    expect_eq!(rt; found, [None, None]);
    Ok(())
}
