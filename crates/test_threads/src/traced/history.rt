//! A service whose cache is traced in a test: two threads use it, and its history is replayed.
ghost use Rattle.std.specs.Prelude.{◌≡◌, All, IfOk};
ghost use Rattle.quick_cache_runs.specs.Asked.{IfAsks};

use quick_cache::sync::{PARTS, Seat, TraceCall, Traced};
use quick_cache::unsync::{Cache, Call, DefaultLifecycle, Reply, run};
use quick_cache::{DefaultHashBuilder, OptionsBuilder, Refusal, UnitWeighter};
use std::alloc::{AllocError, Global};
use std::marker::Brand;
use std::sync::Wait;
use std::sync::ledger::{Blank, Ledger};
use std::test::Fail;
use std::thread::{Threads, join};
use test_tools::expect;

/// A cache of numbers, with the list of its calls.
pub type Numbers<G> = Traced<
    u64,
    u64,
    UnitWeighter,
    DefaultHashBuilder,
    DefaultLifecycle<u64, u64>,
    G,
>;

/// The calls that were made of it, each with its reply.
pub type History = Vec<(TraceCall<u64, u64>, Reply<u64, u64>)>;

/// A predicate, which no call of a history asks.
type Predicate = fn(&u64, &u64) -> bool;

/// A traced cache for so many items, and the seat with every part.
pub fn traced_numbers<G: Ledger>(
    alloc: Global,
    blank: Blank,
    items: usize,
) -> Result<(Numbers<G>, Seat<G>), Fail>
    requires name { blank.name ≡ G.name }
    requires parts { blank.parts ≡ G.parts }
    requires all { G.parts ≡ PARTS }
{
    let mut options = OptionsBuilder::new();
    options
        .estimated_items_capacity(items)
        .weight_capacity(items as u64);
    let (builder, lifecycle) = (DefaultHashBuilder::new(), DefaultLifecycle::new());
    Ok(Traced::new(
        alloc,
        blank,
        options.build()?,
        UnitWeighter,
        builder,
        lifecycle,
    )?)
}

/// The service: the square of a number, out of the cache where it is known.
fn square<G: Ledger, R: Wait>(
    rt: &R,
    known: &Numbers<G>,
    seat: &mut Seat<G>,
    number: u32,
) -> Result<u64, Refusal> {
    let number = u64::from(number);
    if let Some(square) = known.get(rt, seat, &number)? {
        return Ok(square);
    }
    let square = number * number;
    known
        .insert(rt, seat, number, square)
        .map_err(|(_, _, refusal)| refusal)?;
    Ok(square)
}

/// Asks the service for many squares, from one number on. It gives the seat back.
fn ask<G: Ledger, R: Wait>(
    rt: &R,
    known: &Numbers<G>,
    mut seat: Seat<G>,
    first: u32,
) -> Result<Seat<G>, Refusal> {
    for turn in 0..300u32 {
        let number = (turn * turn).saturating_add(first) % 37;
        square(rt, known, &mut seat, number)?;
    }
    Ok(seat)
}

/// The list of a cache, of which these are the seats.
pub fn history_of<G: Ledger>(
    alloc: Global,
    known: Numbers<G>,
    first: Seat<G>,
    second: Seat<G>,
) -> Result<History, Fail>
    requires { G.parts ≡ PARTS }
{
    let mut seats: Vec<Seat<G>> = Vec::new(alloc);
    seats.push(first)?;
    seats.push(second)?;
    match known.gather(seats) {
        Ok(history) => Ok(history),
        Err(_) => Err(Fail::new("a seat is missing")),
    }
}

/// What the cache was asked, where two threads asked the service.
fn asked_by_two<G: Ledger + Send + Sync, R: Threads + Wait + Sync>(
    rt: &R,
    alloc: Global,
    blank: Blank,
) -> Result<History, Fail>
    requires name { blank.name ≡ G.name }
    requires parts { blank.parts ≡ G.parts }
    requires all { G.parts ≡ PARTS }
{
    let (known, mut first) = traced_numbers::<G>(alloc, blank, 20)?;
    let Some(second) = first.split() else {
        return Err(Fail::new("a seat has many parts"));
    };
    let shared = &known;
    let (first, second) = join(
        rt,
        move || ask(rt, shared, first, 0),
        move || ask(rt, shared, second, 5),
    );
    history_of(alloc, known, first?, second?)
}

/// A call of a history, as one of a cache for one thread.
fn again(call: TraceCall<u64, u64>) -> Call<u64, u64, Predicate>
    ensures { IfAsks (λ asked. ⊥) result }
{
    match call {
        TraceCall::Insert(key, value) => Call::Insert(key, value),
        TraceCall::Get(key) => Call::Get(key),
        TraceCall::Remove(key) => Call::Remove(key),
    }
}

/// The calls of a history, and their replies.
fn taken_apart(
    alloc: Global,
    history: History,
) -> Result<(Vec<Call<u64, u64, Predicate>>, Vec<Reply<u64, u64>>), AllocError>
    ensures { IfOk result (λ both. All (IfAsks (λ asked. ⊥)) both.0.items) }
{
    let mut calls = Vec::new(alloc);
    let mut replies = Vec::new(alloc);
    for entry in history {
        let (call, reply) = entry;
        calls.push(again(call))?;
        replies.push(reply)?;
    }
    Ok((calls, replies))
}

/// What a fresh cache for so many items answers to calls.
fn replies_to(
    alloc: Global,
    items: usize,
    calls: Vec<Call<u64, u64, Predicate>>,
) -> Result<Vec<Reply<u64, u64>>, Fail>
    requires { All (IfAsks (λ asked. ⊥)) calls.items }
{
    let mut cache = Cache::new(alloc, items)?;
    match run(alloc, &mut cache, calls, &mut ()) {
        Ok(replies) => Ok(replies),
        Err(_) => Err(Fail::new("there is memory")),
    }
}

/// Whether a fresh cache for so many items answers the calls of a history as it says.
pub fn is_replayed(alloc: Global, items: usize, history: History) -> Result<bool, Fail> {
    let (calls, replies) = taken_apart(alloc, history)?;
    Ok(replies_to(alloc, items, calls)? == replies)
}

#[test]
fn the_history_of_a_service_is_replayed(rt: HostRuntime) -> Result<(), Fail> {
    let history = asked_by_two::<Brand, _>(&rt, rt.alloc(), Blank::new(PARTS))?;
    expect!(rt; history.len() > 600);
    expect!(rt; is_replayed(rt.alloc(), 20, history)?);
    Ok(())
}
