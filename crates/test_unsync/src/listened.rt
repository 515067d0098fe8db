//! Lifecycles that are ready made: pins by what others hold, listeners that hear why a pair left,
//! and counts.
use crate::asked::{Ask, Said, answers, counts};
use quick_cache_base::{DefaultHashBuilder, UnitWeighter};
use quick_cache_listeners::{
    ByLength, Cause, Collect, Collected, Counted, Counts, Held, Ignore, ListenerWhy, OnLeave,
    OnLeaveWhy, Owed, Owing, PinHeld, Request, SharedTallies, Tallies, Tally, TellsTaken,
};
use quick_cache_unsync::{Cache, DefaultLifecycle};
use std::alloc::Global;
use std::cell::Cell;
use std::ops::Range;
use std::process::Abort;
use std::rc::Rc;
use std::sync::Arc;
use test_tools::{expect_eq, expect_ok};

/// Numbers that threads hold, each of which stays while one of them does.
type InUse = Cache<
    u64,
    Arc<u64>,
    UnitWeighter,
    DefaultHashBuilder,
    PinHeld<DefaultLifecycle<u64, Arc<u64>>>,
>;

/// Writes these numbers, looks each up, and tells whether 2 is there then, and how many there are.
fn use_others(
    rt: &impl Abort,
    alloc: Global,
    cache: &mut InUse,
    numbers: Range<u64>,
) -> (bool, usize) {
    for number in numbers {
        let value = expect_ok!(rt; Arc::new(alloc, number));
        expect_eq!(rt; cache.put(number, value), Ok(()));
        cache.get(&number);
    }
    (cache.contains_key(&2), cache.len())
}

#[test]
fn what_a_thread_holds_stays(rt: HostRuntime) {
    let pins = PinHeld(DefaultLifecycle::new());
    let builder = DefaultHashBuilder::new();
    let mut cache: InUse =
        expect_ok!(rt; Cache::with(rt.alloc(), 2, 2, UnitWeighter, builder, pins));
    let held = expect_ok!(rt; Arc::new(rt.alloc(), 2));
    let own = expect_ok!(rt; held.clone());
    expect_eq!(rt; cache.put(2, own), Ok(()));
    expect_eq!(rt; use_others(&rt, rt.alloc(), &mut cache, 3..10), (true, 2));
    drop(held);
    expect_eq!(rt; use_others(&rt, rt.alloc(), &mut cache, 10..20), (false, 2));
}

/// Whether a handle is held where it is the only one, and where there is a second one.
fn are_held<H: Held + Clone + Drop>(rt: &impl Abort, alone: H) -> [bool; 2] {
    let is_held = alone.is_held();
    let other = expect_ok!(rt; alone.clone());
    [is_held, other.is_held()]
}

#[test]
fn a_second_handle_holds_and_the_only_one_does_not(rt: HostRuntime) {
    let alone = expect_ok!(rt; Rc::new(rt.alloc(), 1));
    let shared = expect_ok!(rt; Arc::new(rt.alloc(), 1));
    expect_eq!(rt; [are_held(&rt, alone), are_held(&rt, shared)], [[false, true]; 2]);
}

/// Notes which pair left last, and why.
#[derive(Drop)]
struct Noted<'a>(&'a Cell<Option<(u64, Cause)>>);

impl<'a> ListenerWhy<u64, &'static str> for Noted<'a> {
    type State = ();

    fn tell(&self, _state: &mut (), key: u64, _text: &'static str, cause: Cause) {
        self.0.set(Some((key, cause)));
    }
}

#[test]
fn a_put_tells_why_each_pair_left(rt: HostRuntime) {
    let last = Cell::new(None);
    let builder = DefaultHashBuilder::new();
    let noted = OnLeaveWhy(Noted(&last));
    let mut cache = expect_ok!(rt; Cache::with(rt.alloc(), 10, 10, ByLength, builder, noted));
    // Nothing stands under the last key, so its pair, which is too heavy, is told as a cold victim.
    for (key, text, left) in [
        (1, "four", None),
        (2, "five!", None),
        (1, "six", Some((1, Cause::Replaced))),
        (3, "nine", Some((2, Cause::EvictedHot))),
        (1, "much too long", Some((1, Cause::TurnedAway))),
        (4, "much too long", Some((4, Cause::EvictedCold))),
    ] {
        last.set(None);
        answers(&rt, &mut cache, &[(Ask::Put(key, text), Said::Done)]);
        expect_eq!(rt; (key, last.get()), (key, left));
    }
}

/// A cache whose calls owe what left to their caller.
type InDebt = Cache<u64, u64, UnitWeighter, DefaultHashBuilder, OnLeaveWhy<Owing<Collect>>>;

/// What they owe.
type Debt = Request<Owed<Collected<u64, (u64, Cause)>>>;

/// Writes pairs, with a call for each.
fn insert_owing(rt: &impl Abort, cache: &mut InDebt, owed: &mut Debt) {
    for (key, value) in [(1, 10), (2, 20), (3, 30)] {
        owed.begin();
        expect_eq!(rt; cache.insert_with_lifecycle(key, value, owed), Ok(()));
    }
}

/// Fills a guard.
fn fill_owing(cache: &mut InDebt, owed: &mut Debt) {
    owed.begin();
    if let Ok(Err(guard)) = cache.get_ref_or_guard(&4) {
        guard.insert_with_lifecycle(40, owed);
    }
}

/// Writes over its pair, and lets all go.
fn replace_and_shrink_owing(rt: &impl Abort, cache: &mut InDebt, owed: &mut Debt) {
    owed.begin();
    expect_eq!(rt; cache.replace_with_lifecycle(4, 41, false, owed), Ok(()));
    owed.begin();
    cache.set_capacity_with_lifecycle(0, owed);
}

#[test]
fn what_leaves_is_owed_until_its_state_is_taken_apart(rt: HostRuntime) {
    let builder = DefaultHashBuilder::new();
    let owing = OnLeaveWhy(Owing(Collect));
    let mut cache = expect_ok!(rt; Cache::with(rt.alloc(), 2, 2, UnitWeighter, builder, owing));
    let mut owed = Request::with(Owed(Collected::with(Vec::new(rt.alloc()))));
    insert_owing(&rt, &mut cache, &mut owed);
    fill_owing(&mut cache, &mut owed);
    replace_and_shrink_owing(&rt, &mut cache, &mut owed);
    let Request {
        state: Owed(left),
        stage: _,
    } = owed;
    let pairs = left.into_pairs().unwrap_or(Vec::new(rt.alloc()));
    let told = [
        (2, (20, Cause::EvictedCold)),
        (3, (30, Cause::EvictedCold)),
        (4, (40, Cause::Replaced)),
        (1, (10, Cause::EvictedHot)),
        (4, (41, Cause::EvictedHot)),
    ];
    expect_eq!(rt; pairs.as_slice(), &told);
}

/// What is counted where a caller takes six texts out.
const COUNTS_OF_WHAT_WAS_TAKEN: &str = "\
cache_evicted_hot_total 0
cache_evicted_hot_weight_total 0
cache_evicted_cold_total 0
cache_evicted_cold_weight_total 0
cache_replaced_total 0
cache_replaced_weight_total 0
cache_turned_away_total 0
cache_turned_away_weight_total 0
cache_expired_total 1
cache_expired_weight_total 4
cache_removed_total 1
cache_removed_weight_total 3
cache_cleared_total 3
cache_cleared_weight_total 20
cache_retained_total 1
cache_retained_weight_total 6
";

/// Stops the test where another number of pairs, or of their weights, was counted under a cause.
fn tells(rt: &impl Abort, told: &Tallies, tallies: &[(Cause, u64, u64)]) {
    for (cause, pairs, weight) in tallies {
        let wanted = Tally {
            pairs: *pairs,
            weight: *weight,
        };
        expect_eq!(rt; (*cause, told.of(*cause)), (*cause, wanted));
    }
}

/// Counts what leaves, by the length of its text, and does nothing else.
const COUNTED: Counted<ByLength, OnLeave<Ignore>> = Counted(ByLength, OnLeave(Ignore));

#[test]
fn what_the_caller_takes_out_is_counted_by_its_cause(rt: HostRuntime) {
    let builder = DefaultHashBuilder::new();
    let mut cache = expect_ok!(rt; Cache::with(rt.alloc(), 10, 100, ByLength, builder, COUNTED));
    let row = &[
        (Ask::Put(1, "one"), Said::Done),
        (Ask::Put(2, "three"), Said::Done),
        (Ask::Put(3, "fourth"), Said::Done),
        (Ask::Put(4, "seventh"), Said::Done),
        (Ask::Put(5, "eleventh"), Said::Done),
    ];
    answers(&rt, &mut cache, row);
    let mut told: Request<Counts<()>> = Request::default();
    for key in [1, 1] {
        COUNTED.tell_each_taken(&mut told, cache.remove(&key).into_iter(), Cause::Removed);
    }
    for key in [2, 3] {
        let taken = cache.remove_if(&key, |text| text.len() == 6);
        COUNTED.tell_each_taken(&mut told, taken.into_iter(), Cause::Retained);
    }
    COUNTED.tell_each_taken(&mut told, cache.drain(), Cause::Cleared);
    COUNTED.tell_taken(&mut told, 6, "nine", Cause::Expired);
    let tallies = &[
        (Cause::Removed, 1, 3),
        (Cause::Retained, 1, 6),
        (Cause::Cleared, 3, 20),
        (Cause::Expired, 1, 4),
        (Cause::Replaced, 0, 0),
    ];
    tells(&rt, &told.state.tallies, tallies);
    let text = expect_ok!(rt; format!(in rt.alloc(); "{}", told.state.tallies));
    expect_eq!(rt; (cache.len(), text.as_str()), (0, COUNTS_OF_WHAT_WAS_TAKEN));
}

#[test]
fn what_a_predicate_wants_is_taken_by_ascending_token_and_the_rest_stays(rt: HostRuntime) {
    let builder = DefaultHashBuilder::new();
    let mut cache = expect_ok!(rt; Cache::with(rt.alloc(), 10, 100, ByLength, builder, COUNTED));
    let row = &[
        (Ask::Put(4, "four"), Said::Done),
        (Ask::Put(3, "three"), Said::Done),
        (Ask::Put(2, "two"), Said::Done),
        (Ask::Put(1, "fourth"), Said::Done),
        (Ask::Put(6, "sixth"), Said::Done),
        (Ask::Get(3), Said::Value("three")),
        (Ask::Get(3), Said::Value("three")),
        (Ask::Get(2), Said::Value("two")),
        (Ask::Get(9), Said::Nothing),
    ];
    answers(&rt, &mut cache, row);
    let mut told: Request<Counts<()>> = Request::default();
    // The first one that is wanted, and no more.
    let first = cache.extract_if(|key, _| *key % 2 == 0).next();
    expect_eq!(rt; (first, counts(&cache)), (Some((4, "four")), [4, 19, 100, 3, 1]));
    expect_eq!(rt; cache.extract_if(|_, _| false).next(), None);
    let even = cache.extract_if(|key, text| *key % 2 == 0 && text.len() < 6);
    COUNTED.tell_each_taken(&mut told, even, Cause::Retained);
    tells(&rt, &told.state.tallies, &[(Cause::Retained, 2, 8)]);
    let row = &[
        (Ask::Counts, Said::Counts([2, 11, 100, 3, 1])),
        (Ask::Reads(3), Said::Count(2)),
        (Ask::Reads(1), Said::Count(0)),
    ];
    answers(&rt, &mut cache, row);
    let text = expect_ok!(rt; format!(in rt.alloc(); "{:?}", cache.extract_if(|_, _| true)));
    expect_eq!(rt; (text.as_str(), cache.len()), ("ExtractIf { .. }", 2));
}

#[test]
fn what_leaves_without_a_list_is_lost(rt: HostRuntime) {
    let builder = DefaultHashBuilder::new();
    let mut cache =
        expect_ok!(rt; Cache::with(rt.alloc(), 2, 2, UnitWeighter, builder, OnLeave(Collect)));
    let mut left: Collected<u64, u64> = Collected::default();
    for (key, lost) in [(1, 0), (2, 0), (3, 1), (3, 2)] {
        let is_in = cache.insert_with_lifecycle(key, 7, &mut left).is_ok();
        expect_eq!(rt; (is_in, left.lost()), (true, lost));
    }
}

#[test]
fn what_threads_count_is_told_by_its_cause(rt: HostRuntime) {
    let tallies = SharedTallies::new();
    for (cause, weight) in [
        (Cause::EvictedHot, 10),
        (Cause::EvictedCold, 20),
        (Cause::Replaced, 30),
        (Cause::TurnedAway, 40),
        (Cause::EvictedCold, 50),
        (Cause::Expired, 60),
        (Cause::Removed, 70),
        (Cause::Cleared, 80),
        (Cause::Retained, 90),
    ] {
        tallies.count(cause, weight);
    }
    let seen = &[
        (Cause::EvictedHot, 1, 10),
        (Cause::EvictedCold, 2, 70),
        (Cause::Replaced, 1, 30),
        (Cause::TurnedAway, 1, 40),
        (Cause::Expired, 1, 60),
        (Cause::Removed, 1, 70),
        (Cause::Cleared, 1, 80),
        (Cause::Retained, 1, 90),
    ];
    tells(&rt, &tallies.seen(), seen);
}
