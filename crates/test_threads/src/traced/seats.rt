//! Seats that make calls, come together and show the list of all calls.
ghost use Rattle.std.specs.Prelude.{◌≡◌};

use crate::traced::history::{History, Numbers, history_of, is_replayed, traced_numbers};
use quick_cache::Refusal;
use quick_cache::sync::{PARTS, Seat, TraceCall};
use quick_cache::unsync::Reply;
use std::alloc::{AllocError, Global};
use std::marker::Brand;
use std::sync::Wait;
use std::sync::ledger::{Blank, Ledger};
use std::test::Fail;
use std::thread::{Threads, join};
use test_tools::{expect, expect_eq};

/// What a look-up and a removal answered.
type Answers = (Option<u64>, Option<(u64, u64)>);

/// Two seats make three calls, and keep what they answer.
fn make_three<G: Ledger, R: Wait>(
    rt: &R,
    traced: &Numbers<G>,
    first: &mut Seat<G>,
    second: &mut Seat<G>,
) -> Result<Answers, Refusal> {
    traced
        .insert(rt, first, 1, 10)
        .map_err(|(_, _, refusal)| refusal)?;
    let found = traced.get(rt, second, &1)?;
    let taken = traced.remove(rt, second, &1)?;
    Ok((found, taken))
}

/// Gathers with one seat of two, which is refused, and gives all back.
fn gather_by_one<G: Ledger>(
    alloc: Global,
    traced: Numbers<G>,
    seat: Seat<G>,
) -> Result<Option<(Numbers<G>, Seat<G>)>, AllocError>
    requires { G.parts ≡ PARTS }
{
    let mut seats: Vec<Seat<G>> = Vec::new(alloc);
    seats.push(seat)?;
    let Err((traced, mut seats)) = traced.gather(seats) else {
        return Ok(None);
    };
    match seats.pop() {
        Some(seat) => Ok(Some((traced, seat))),
        None => Ok(None),
    }
}

/// Makes three calls by two seats, and gathers them, first by one seat and then by both.
fn three_calls<G: Ledger, R: Wait>(
    rt: &R,
    alloc: Global,
    blank: Blank,
) -> Result<(Answers, History), Fail>
    requires name { blank.name ≡ G.name }
    requires parts { blank.parts ≡ G.parts }
    requires all { G.parts ≡ PARTS }
{
    let (traced, mut first) = traced_numbers::<G>(alloc, blank, 5)?;
    let Some(mut second) = first.split() else {
        return Err(Fail::new("a seat has many parts"));
    };
    let answers = make_three(rt, &traced, &mut first, &mut second)?;
    let Some((traced, first)) = gather_by_one(alloc, traced, first)? else {
        return Err(Fail::new("one seat of two is not enough"));
    };
    Ok((answers, history_of(alloc, traced, first, second)?))
}

#[test]
fn two_seats_gather_what_one_cannot(rt: HostRuntime) -> Result<(), Fail> {
    let (answers, history) = three_calls::<Brand, _>(&rt, rt.alloc(), Blank::new(PARTS))?;
    expect_eq!(rt; answers, (Some(10), Some((1, 10))));
    let wanted = [
        (TraceCall::Insert(1, 10), Reply::Done),
        (TraceCall::Get(1), Reply::Value(Some(10))),
        (TraceCall::Remove(1), Reply::Pair(Some((1, 10)))),
    ];
    expect!(rt; history.as_slice() == wanted.as_slice());
    Ok(())
}

/// Makes one of many calls on a key, and gives it with its answer.
fn one_call<G: Ledger, R: Wait>(
    rt: &R,
    traced: &Numbers<G>,
    seat: &mut Seat<G>,
    key: u64,
    turn: u64,
) -> Result<(TraceCall<u64, u64>, Reply<u64, u64>), Refusal> {
    if turn % 4 < 2 {
        traced
            .insert(rt, seat, key, turn)
            .map_err(|(_, _, refusal)| refusal)?;
        return Ok((TraceCall::Insert(key, turn), Reply::Done));
    }
    if turn % 4 == 2 {
        let found = traced.get(rt, seat, &key)?;
        return Ok((TraceCall::Get(key), Reply::Value(found)));
    }
    let taken = traced.remove(rt, seat, &key)?;
    Ok((TraceCall::Remove(key), Reply::Pair(taken)))
}

/// Makes 35,000 calls, on even keys or, with one more, on odd ones, and keeps their answers.
fn many_calls<G: Ledger, R: Wait>(
    rt: &R,
    alloc: Global,
    traced: &Numbers<G>,
    mut seat: Seat<G>,
    more: u64,
) -> Result<(Seat<G>, History), Refusal> {
    let mut history: History = Vec::new(alloc);
    for turn in 0..35000u64 {
        let key = (turn / 3 % 50 * 2).saturating_add(more);
        let entry = one_call(rt, traced, &mut seat, key, turn)?;
        let Ok(()) = history.push(entry) else {
            return Err(Refusal::Memory);
        };
    }
    Ok((seat, history))
}

/// What two threads did and were answered, the one on even keys and the other on odd ones, and the
/// history that was gathered.
fn made_by_two<G: Ledger + Send + Sync, R: Threads + Wait + Sync>(
    rt: &R,
    alloc: Global,
    blank: Blank,
) -> Result<(History, History, History), Fail>
    requires name { blank.name ≡ G.name }
    requires parts { blank.parts ≡ G.parts }
    requires all { G.parts ≡ PARTS }
{
    let (traced, mut first) = traced_numbers::<G>(alloc, blank, 60)?;
    let Some(second) = first.split() else {
        return Err(Fail::new("a seat has many parts"));
    };
    let shared = &traced;
    let (even, odd) = join(
        rt,
        move || many_calls(rt, alloc, shared, first, 0),
        move || many_calls(rt, alloc, shared, second, 1),
    );
    let (first, even) = even?;
    let (second, odd) = odd?;
    Ok((even, odd, history_of(alloc, traced, first, second)?))
}

/// Whether a call is on an odd key.
fn is_odd(call: &TraceCall<u64, u64>) -> bool {
    let key = match call {
        TraceCall::Insert(key, _) => *key,
        TraceCall::Get(key) => *key,
        TraceCall::Remove(key) => *key,
    };
    key % 2 == 1
}

#[test]
fn a_history_has_the_calls_of_each_thread_in_its_order(rt: HostRuntime) -> Result<(), Fail> {
    let made = made_by_two::<Brand, _>(&rt, rt.alloc(), Blank::new(PARTS))?;
    let (even, odd, history) = made;
    expect_eq!(rt; history.len(), 70000);
    let evens = history.iter().filter(|entry| !is_odd(&entry.0));
    expect!(rt; evens.eq(even.iter()));
    let odds = history.iter().filter(|entry| is_odd(&entry.0));
    expect!(rt; odds.eq(odd.iter()));
    expect!(rt; is_replayed(rt.alloc(), 60, history)?);
    Ok(())
}
