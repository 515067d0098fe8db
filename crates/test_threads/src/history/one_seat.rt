//! The calls of one seat, on each shard, and what they answer.
ghost use Rattle.std.specs.Prelude.{◌≡◌};

use crate::history::two_seats::Numbers;
use quick_cache_history::{Choice, Entered, History, Naming, Recorded};
use quick_cache_model::{DefaultHashBuilder, Refusal, UnitWeighter};
use quick_cache_options::OptionsBuilder;
use quick_cache_sync::DefaultLifecycle;
use std::alloc::Global;
use std::marker::Brand;
use std::process::Abort;
use std::sync::Wait;
use std::test::Fail;
use test_tools::expect_eq;

/// What is told of a row of calls: what was there, how many items there were, and a value.
type Told = ([bool; 6], [usize; 2], Option<u64>);

/// Writes ten keys, each with itself, and then makes each other call.
fn row<J: Naming, R: Wait>(rt: &R, numbers: &Numbers<J>) -> Result<Told, Refusal> {
    let mut seat = numbers.seat();
    for key in 0..10u64 {
        if numbers.insert(rt, &mut seat, key, key).is_err() {
            return Err(Refusal::Memory);
        }
    }
    let written = numbers.replace(rt, &mut seat, 1, 100, false).is_ok();
    let not_admitted = numbers.replace(rt, &mut seat, 11, 100, true).is_err();
    let kept = numbers.remove_if(rt, &mut seat, &2, |value| *value == 3);
    let taken = numbers.remove_if(rt, &mut seat, &3, |value| *value == 3);
    let there = [
        written,
        not_admitted,
        kept.is_none(),
        taken.is_some(),
        numbers.contains_key(rt, &mut seat, &2),
        numbers.contains_key(rt, &mut seat, &3),
    ];
    let value = numbers.peek(rt, &mut seat, &1)?;
    let before = numbers.len(rt, &mut seat);
    numbers.clear(rt, &mut seat);
    Ok((there, [before, numbers.len(rt, &mut seat)], value))
}

/// Loads where nothing stands, where a value does, by a loader that fails, and by one that is late,
/// since another seat inserts before it ends.
fn load<J: Naming, R: Wait>(
    rt: &R,
    numbers: &Numbers<J>,
) -> Result<[Result<u64, u64>; 4], Refusal> {
    let mut seat = numbers.seat();
    let mut other = numbers.seat();
    let first = numbers.get_or_insert_with(rt, &mut seat, 1, || -> Result<u64, u64> { Ok(10) })?;
    let again = numbers.get_or_insert_with(rt, &mut seat, 1, || -> Result<u64, u64> { Ok(11) })?;
    let failed = numbers.get_or_insert_with(rt, &mut seat, 2, || -> Result<u64, u64> { Err(20) })?;
    let late = numbers.get_or_insert_with(rt, &mut seat, 2, || -> Result<u64, u64> {
        drop(numbers.insert(rt, &mut other, 2, 21));
        Ok(22)
    })?;
    Ok([first, again, failed, late])
}

/// What an entry call is to do.
#[derive(Clone, Copy)]
enum Ask {
    Show,
    CountUp,
    Take,
}

/// Does so by what stands there.
fn choose(ask: Ask, found: Option<u64>) -> Choice<u64, Option<u64>> {
    match ask {
        Ask::Show => Choice::Keep(found),
        Ask::CountUp => Choice::Insert(found.unwrap_or(0).saturating_add(1)),
        Ask::Take => Choice::Remove,
    }
}

/// Makes entry calls of one key, and tells a digit of each: the value that was shown, 5 where one was
/// put in, and 6 and the value where it was taken out, or 6.
fn enter<J: Naming, R: Wait>(rt: &R, numbers: &Numbers<J>) -> Result<u64, Refusal> {
    let mut seat = numbers.seat();
    let mut told: u64 = 0;
    for ask in [
        Ask::Show,
        Ask::CountUp,
        Ask::CountUp,
        Ask::Show,
        Ask::Take,
        Ask::Take,
        Ask::Show,
    ] {
        let digit = match numbers.entry(rt, &mut seat, 50, |found| choose(ask, found))? {
            Entered::Kept(found) => found.unwrap_or(0),
            Entered::Inserted => 5,
            Entered::Removed(pair) => match pair {
                Some((_, value)) => value.saturating_add(6),
                None => 6,
            },
        };
        told = told.wrapping_mul(10).wrapping_add(digit);
    }
    Ok(told)
}

/// The same, what is loaded then, and what entry calls come to, of a cache of this history.
fn told<J: Naming, R: Wait + Abort>(
    rt: &R,
    alloc: Global,
    history: History<u64, u64>,
) -> Result<(Told, [Result<u64, u64>; 4], u64), Fail>
    requires { history ≡ J.book }
{
    let numbers: Numbers<J> = Recorded::new(
        alloc,
        history,
        UnitWeighter,
        DefaultHashBuilder::new(),
        DefaultLifecycle::new(),
    )?;
    Ok((
        row(rt, &numbers)?,
        load(rt, &numbers)?,
        enter(rt, &numbers)?,
    ))
}

#[test]
fn each_call_acts_and_answers(rt: HostRuntime) -> Result<(), Fail> {
    let mut options = OptionsBuilder::new();
    options
        .estimated_items_capacity(1000)
        .weight_capacity(1000)
        .shards(4);
    let ((there, lengths, value), loaded, entered) = told::<Brand, _>(
        &rt,
        rt.alloc(),
        History::new(options.build()?),
    )?;
    expect_eq!(rt; there, [true, true, true, true, true, false]);
    expect_eq!(rt; lengths, [9, 0]);
    expect_eq!(rt; value, Some(100));
    expect_eq!(rt; loaded, [Ok(10), Ok(10), Err(20), Ok(21)]);
    // Nothing stood there, then 1, then 2, which was taken out.
    expect_eq!(rt; entered, 552860);
    Ok(())
}
