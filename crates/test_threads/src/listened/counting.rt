//! What leaves a shared cache is counted by its cause, by all threads together.
use quick_cache::{DefaultHashBuilder, Refusal, UnitWeighter, sync};
use quick_cache_listeners::{
    ByLength, Cause, CountedByThreads, Ignore, OnLeave, Request, SharedTallies, Tallies, TellsTaken,
};
use std::alloc::Global;
use std::process::Abort;
use std::sync::{Arc, Wait};
use std::thread::{Threads, join};
use test_tools::{expect_eq, expect_ok};

/// Counts what leaves a cache of texts, by their length.
type Counting = CountedByThreads<ByLength, OnLeave<Ignore>>;

/// A cache of texts that counts what leaves.
type Texts = sync::Cache<u64, &'static str, ByLength, DefaultHashBuilder, Counting>;

/// Counts into these tallies.
fn counting(tallies: Arc<SharedTallies>) -> Counting {
    CountedByThreads {
        tallies,
        weigher: ByLength,
        inner: OnLeave(Ignore),
    }
}

/// A cache for ten bytes of text, which counts into these tallies.
fn texts(rt: &impl Abort, alloc: Global, tallies: Arc<SharedTallies>) -> Texts {
    let builder = DefaultHashBuilder::new();
    expect_ok!(rt; sync::Cache::with(alloc, 10, 10, ByLength, builder, counting(tallies)))
}

/// Writes each of these texts.
fn write_all<R: Wait>(rt: &R, texts: &Texts, list: &[(u64, &'static str)]) -> Result<(), Refusal> {
    for (key, text) in list {
        texts.put(rt, *key, *text)?;
    }
    Ok(())
}

/// Counts what leaves a cache of numbers, each of weight 1.
type CountingNumbers = CountedByThreads<UnitWeighter, sync::DefaultLifecycle<u64, u64>>;

/// A cache of numbers that counts what leaves.
type Numbers = sync::Cache<u64, u64, UnitWeighter, DefaultHashBuilder, CountingNumbers>;

/// A cache for a hundred numbers, which counts into these tallies.
fn numbers(rt: &impl Abort, alloc: Global, tallies: Arc<SharedTallies>) -> Numbers {
    let lifecycle = CountedByThreads {
        tallies,
        weigher: UnitWeighter,
        inner: sync::DefaultLifecycle::new(),
    };
    let builder = DefaultHashBuilder::new();
    expect_ok!(rt; sync::Cache::with(alloc, 100, 100, UnitWeighter, builder, lifecycle))
}

/// Writes each of a thousand numbers from the first on.
fn write_a_thousand<R: Wait>(rt: &R, numbers: &Numbers, first: u64) -> Result<(), Refusal> {
    for turn in 0..1000u64 {
        let number = first.wrapping_add(turn);
        numbers.put(rt, number, number)?;
    }
    Ok(())
}

/// Two threads write a thousand numbers each.
fn write_by_two<R: Wait + Threads + Sync>(
    rt: &R,
    numbers: &Numbers,
) -> (Result<(), Refusal>, Result<(), Refusal>) {
    join(
        rt,
        || write_a_thousand(rt, numbers, 0),
        || write_a_thousand(rt, numbers, 1000),
    )
}

/// How many pairs left for a cause, and their weight.
fn of(tallies: &Tallies, cause: Cause) -> (u64, u64) {
    let tally = tallies.of(cause);
    (tally.pairs, tally.weight)
}

#[test]
fn what_leaves_a_shared_cache_is_counted_by_its_cause(rt: HostRuntime) {
    let tallies = expect_ok!(rt; Arc::new(rt.alloc(), SharedTallies::new()));
    let shared = expect_ok!(rt; tallies.clone());
    let cache = texts(&rt, rt.alloc(), shared);
    let list = [
        (1, "four"),
        (2, "five!"),
        (1, "six"),
        (3, "nine"),
        (4, "much too long"),
    ];
    expect_eq!(rt; write_all(&rt, &cache, &list), Ok(()));
    expect_eq!(rt; cache.len(&rt), 2);
    // What is taken out is told to the lifecycle of the same tallies.
    let lifecycle = counting(expect_ok!(rt; tallies.clone()));
    let mut state = Request::default();
    let removed = cache.remove(&rt, &1).into_iter();
    lifecycle.tell_each_taken(&mut state, removed, Cause::Removed);
    lifecycle.tell_each_taken(&mut state, cache.drain(&rt), Cause::Cleared);
    let seen = tallies.seen();
    // Nothing stood under the key of what is too heavy, so it is told as a cold victim.
    for (cause, left) in [
        (Cause::Replaced, (1, 4)),
        (Cause::TurnedAway, (0, 0)),
        (Cause::EvictedHot, (1, 5)),
        (Cause::EvictedCold, (1, 13)),
        (Cause::Removed, (1, 3)),
        (Cause::Cleared, (1, 4)),
    ] {
        expect_eq!(rt; of(&seen, cause), left);
    }
}

#[test]
fn each_pair_that_threads_push_out_is_counted_once(rt: HostRuntime) {
    let tallies = expect_ok!(rt; Arc::new(rt.alloc(), SharedTallies::new()));
    let shared = expect_ok!(rt; tallies.clone());
    let cache = numbers(&rt, rt.alloc(), shared);
    expect_eq!(rt; write_by_two(&rt, &cache), (Ok(()), Ok(())));
    let seen = tallies.seen();
    let (hot, hot_weight) = of(&seen, Cause::EvictedHot);
    let (cold, cold_weight) = of(&seen, Cause::EvictedCold);
    let left = hot.wrapping_add(cold);
    expect_eq!(rt; left.wrapping_add(cache.len(&rt) as u64), 2000);
    expect_eq!(rt; hot_weight.wrapping_add(cold_weight), left);
    expect_eq!(rt; of(&seen, Cause::Replaced), (0, 0));
}
