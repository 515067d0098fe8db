//! The cache for one thread: first examples, texts, a scan, and refused growths.
mod answered;
pub(crate) mod great;
mod memory;

use crate::asked::{Ask, Said, answers, inserts};
use quick_cache_base::{DefaultHashBuilder, Refusal, UnitWeighter};
use quick_cache_unsync::{Cache, DefaultLifecycle, NotLoaded};
use test_parts::counting::{Counting, Told};
use test_tools::{Rationed, expect, expect_eq, expect_ok};

#[test]
fn what_was_inserted_is_found(rt: HostRuntime) {
    let mut cache = expect_ok!(rt; Cache::new(rt.alloc(), 5));
    let row = &[
        (Ask::Insert("square", "blue"), Said::Done),
        (Ask::Insert("circle", "black"), Said::Done),
        (Ask::Get("square"), Said::Value("blue")),
        (Ask::Get("circle"), Said::Value("black")),
        (Ask::Get("triangle"), Said::Nothing),
    ];
    answers(&rt, &mut cache, row);
}

#[test]
fn the_counts_and_the_clone_tell_what_is_there(rt: HostRuntime) {
    let mut cache: Cache<u64, u64> = expect_ok!(rt; Cache::new(rt.alloc(), 5));
    expect!(rt; cache.is_empty());
    let row = &[
        (Ask::Insert(1, 10), Said::Done),
        (Ask::Insert(2, 20), Said::Done),
        (Ask::Get(1), Said::Value(10)),
        (Ask::Get(3), Said::Nothing),
        (Ask::Contains(2), Said::Is(true)),
    ];
    answers(&rt, &mut cache, row);
    let mut copy = expect_ok!(rt; cache.try_clone());
    let row = &[
        (Ask::Remove(2), Said::Pair(2, 20)),
        (Ask::Contains(2), Said::Is(false)),
        (Ask::Counts, Said::Counts([1, 1, 5, 1, 1])),
    ];
    answers(&rt, &mut copy, row);
    let row = &[(Ask::Counts, Said::Counts([2, 2, 5, 1, 1]))];
    answers(&rt, &mut cache, row);
    expect_eq!(rt; cache.shard().hot_target(), 4);
    let text =
        expect_ok!(rt; format!(in rt.alloc(); "{cache:?}, {:?}", DefaultLifecycle::<u64, u64>::new()));
    expect_eq!(rt; text.as_str(), "Cache { .. }, DefaultLifecycle");
}

#[test]
fn walks_print_their_names_and_memory_is_told(rt: HostRuntime) {
    let mut cache: Cache<u64, u64> = expect_ok!(rt; Cache::new(rt.alloc(), 100));
    let before = cache.memory_used().total();
    answers(&rt, &mut cache, &[(Ask::Insert(1, 10), Said::Done)]);
    let used = cache.memory_used();
    expect_eq!(rt; (before, used.entries > 0, used.map > 0), (0, true, true));
    let iter = expect_ok!(rt; format!(in rt.alloc(); "{:?}", cache.iter()));
    let drain = expect_ok!(rt; format!(in rt.alloc(); "{:?}", cache.drain()));
    expect_eq!(rt; [iter.as_str(), drain.as_str()], ["Iter { .. }", "Drain { .. }"]);
}

#[test]
fn a_thousand_new_keys_leave_the_hot_items_alone(rt: HostRuntime) {
    let mut cache = expect_ok!(rt; Cache::new(rt.alloc(), 100));
    inserts(&rt, &mut cache, 0..97);
    inserts(&rt, &mut cache, 1000..2000);
    for key in 0..97 {
        answers(&rt, &mut cache, &[(Ask::Contains(key), Said::Is(true))]);
    }
    let shard = cache.shard();
    expect_eq!(rt;
        (
            shard.iter_hot().len(),
            shard.iter_cold().len(),
            shard.iter_ghosts().len()
        ),
        (97, 3, 50)
    );
}

/// What stands under 4, or else what a loader gives.
fn four(
    cache: &mut Cache<u64, u64>,
    given: Result<u64, Refusal>,
) -> Result<u64, NotLoaded<Refusal>> {
    let reference = cache.get_or_insert_with(&4, || given)?;
    Ok(*reference)
}

#[test]
fn a_loader_that_fails_leaves_the_key_to_the_next(rt: HostRuntime) {
    let mut cache: Cache<u64, u64> = expect_ok!(rt; Cache::new(rt.alloc(), 100));
    let failed = four(&mut cache, Err(Refusal::Finished));
    expect_eq!(rt; failed, Err(NotLoaded::Failed(Refusal::Finished)));
    expect_eq!(rt; four(&mut cache, Ok(4)), Ok(4));
    let row = &[(Ask::Counts, Said::Counts([1, 1, 100, 0, 2]))];
    answers(&rt, &mut cache, row);
}

#[test]
fn gets_are_reads_and_a_peek_is_none(rt: HostRuntime) {
    let mut cache = expect_ok!(rt; Cache::new(rt.alloc(), 100));
    let row = &[
        (Ask::Insert(1, 10), Said::Done),
        (Ask::Get(1), Said::Value(10)),
        (Ask::Get(1), Said::Value(10)),
        (Ask::Get(1), Said::Value(10)),
        (Ask::Peek(1), Said::Value(10)),
        (Ask::Reads(1), Said::Count(3)),
    ];
    answers(&rt, &mut cache, row);
}

#[test]
fn a_clone_of_a_cache_with_room_is_another_cache(rt: HostRuntime) {
    let mut cache: Cache<u64, u64> = expect_ok!(rt; Cache::new(rt.alloc(), 5));
    answers(&rt, &mut cache, &[(Ask::Insert(1, 10), Said::Done)]);
    expect_eq!(rt; cache.reserve(3), Ok(()));
    let mut copy = expect_ok!(rt; cache.try_clone());
    answers(&rt, &mut cache, &[(Ask::Insert(2, 20), Said::Done)]);
    let row = &[(Ask::Get(1), Said::Value(10)), (Ask::Get(2), Said::Nothing)];
    answers(&rt, &mut copy, row);
    answers(&rt, &mut cache, &[(Ask::Get(2), Said::Value(20))]);
}

#[test]
fn a_refused_first_growth_changes_nothing(rt: HostRuntime) {
    let ration = Rationed::new(rt.alloc(), 0);
    let builder = DefaultHashBuilder::new();
    let mut cache = expect_ok!(rt; Cache::with(&ration, 5, 5, UnitWeighter, builder, Counting));
    let mut told = Told::default();
    let refused = cache.insert_with_lifecycle(1, 1, &mut told);
    let wanted = (Err((1, 1, Refusal::Memory)), 0, Told::default());
    expect_eq!(rt; (refused, cache.len(), told), wanted);
    ration.allow(12);
    let row = &[
        (Ask::Insert(1, 1), Said::Done),
        (Ask::Peek(1), Said::Value(1)),
    ];
    answers(&rt, &mut cache, row);
    // With no memory, what is there can be written over.
    ration.allow(0);
    let row = &[
        (Ask::Insert(1, 2), Said::Done),
        (Ask::Remove(1), Said::Pair(1, 2)),
    ];
    answers(&rt, &mut cache, row);
}

#[test]
fn a_cache_for_nothing_turns_each_pair_away(rt: HostRuntime) {
    let ration = Rationed::new(rt.alloc(), 12);
    let builder = DefaultHashBuilder::new();
    let mut cache = expect_ok!(rt; Cache::with(&ration, 0, 0, UnitWeighter, builder, Counting));
    let mut told = Told::default();
    expect_eq!(rt; cache.insert_with_lifecycle(1, 10, &mut told), Ok(()));
    expect_eq!(rt; [told.before, told.hot, told.cold], [1, 0, 1]);
    answers(&rt, &mut cache, &[(Ask::Get(1), Said::Nothing)]);
}
