//! Why each pair left either cache is told to a closure, behind the call.
use quick_cache::{DefaultHashBuilder, sync, unsync};
use quick_cache_listeners::{ByLength, Cause, Collect, Collected, OnLeaveWhy, Request};
use std::alloc::Global;
use test_tools::{expect_eq, expect_ok};

/// What leaves a cache of texts, each with its cause.
type Left = Request<Collected<u64, (&'static str, Cause)>>;

/// A cache of texts by their length, for one thread.
type Texts = unsync::Cache<u64, &'static str, ByLength, DefaultHashBuilder, OnLeaveWhy<Collect>>;

/// The same, shared by threads.
type SharedTexts = sync::Cache<
    u64,
    &'static str,
    ByLength,
    DefaultHashBuilder,
    OnLeaveWhy<Collect>,
>;

/// The texts that are written into ten bytes, in their order.
const TEXTS: [(u64, &str); 8] = [
    (1, "four"),
    (2, "five!"),
    (5, "x"),
    (5, "much too long"),
    (1, "six"),
    (3, "nine"),
    (1, "much too long"),
    (4, "much too long"),
];

/// What they push out: the first text, the second, and the three that are too heavy. Two of those take
/// along what stood under their keys, which is told as a victim of its ring; the last, under whose
/// key nothing stood, is told as one of the cold ring.
const CAUSES: [Option<(u64, Cause)>; 8] = [
    Some((5, Cause::EvictedCold)),
    Some((5, Cause::TurnedAway)),
    Some((1, Cause::Replaced)),
    Some((2, Cause::EvictedHot)),
    Some((1, Cause::EvictedHot)),
    Some((1, Cause::TurnedAway)),
    Some((4, Cause::EvictedCold)),
    None,
];

/// The keys and causes of what left, as a closure hears them.
fn heard(left: Left) -> [Option<(u64, Cause)>; 8] {
    let mut heard = [None; 8];
    let mut count = 0usize;
    left.state.each(|key, (_, cause)| {
        if count < 8 {
            heard[count] = Some((key, cause));
            count += 1;
        }
    });
    heard
}

/// No pair has left yet.
fn none_left(alloc: Global) -> Left {
    Request::with(Collected::with(Vec::new(alloc)))
}

#[test]
fn a_closure_hears_why_each_pair_left_a_cache_for_one_thread(rt: HostRuntime) {
    let builder = DefaultHashBuilder::new();
    let mut texts: Texts = expect_ok!(rt;
        unsync::Cache::with(rt.alloc(), 10, 10, ByLength, builder, OnLeaveWhy(Collect)));
    let mut left = none_left(rt.alloc());
    for (key, text) in TEXTS {
        left.begin();
        expect_ok!(rt; texts.insert_with_lifecycle(key, text, &mut left));
    }
    expect_eq!(rt; heard(left), CAUSES);
}

#[test]
fn a_closure_hears_why_each_pair_left_a_shared_cache(rt: HostRuntime) {
    let builder = DefaultHashBuilder::new();
    let texts: SharedTexts = expect_ok!(rt;
        sync::Cache::with(rt.alloc(), 10, 10, ByLength, builder, OnLeaveWhy(Collect)));
    let mut left = none_left(rt.alloc());
    for (key, text) in TEXTS {
        left.begin();
        expect_ok!(rt; texts.insert_with_lifecycle(&rt, key, text, &mut left));
    }
    expect_eq!(rt; heard(left), CAUSES);
}
