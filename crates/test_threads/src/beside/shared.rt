//! What one thread writes another reads, and what leaves with a call.
use crate::asked::{Ask, Said, answers};
use quick_cache::sync::{Cache, DefaultLifecycle};
use quick_cache::{DefaultHashBuilder, UnitWeighter, Weighter, unsync};
use std::thread::join;
use test_tools::{expect, expect_eq, expect_ok};

#[test]
fn one_thread_reads_what_another_wrote(rt: HostRuntime) {
    let cache: Cache<u64, u64> = expect_ok!(rt; Cache::new(rt.alloc(), 100));
    let shared = &cache;
    let (written, _) = join(&rt, || shared.insert(&rt, 1, 10), || ());
    expect_eq!(rt; written, Ok(()));
    let (_, found) = join(&rt, || (), || shared.get(&rt, &1));
    expect_eq!(rt; found, Ok(Some(10)));
    expect_eq!(rt; cache.get(&rt, &2), Ok(None));
}

#[test]
fn two_threads_write_side_by_side(rt: HostRuntime) {
    let cache: Cache<u64, u64> = expect_ok!(rt; Cache::new(rt.alloc(), 1000));
    let shared = &cache;
    let (first, second) = join(
        &rt,
        || (0..100).all(|key| shared.insert(&rt, key, key + 1).is_ok()),
        || (100..200).all(|key| shared.insert(&rt, key, key + 1).is_ok()),
    );
    expect!(rt; first && second);
    for key in 0..200 {
        expect_eq!(rt; cache.get(&rt, &key), Ok(Some(key + 1)));
    }
}

/// Weighs each entry by its value.
#[derive(Clone, Drop)]
struct ByValue;

impl Weighter<u64, u64> for ByValue {
    ghost weight_of = { λ _ _ value. value };

    fn weight(&self, _key: &u64, val: &u64) -> u64 {
        *val
    }
}

#[test]
fn the_first_two_pairs_that_leave_are_kept(rt: HostRuntime) {
    let cache: Cache<u64, u64, ByValue> =
        expect_ok!(rt; Cache::with_weighter(rt.alloc(), 10, 10, ByValue));
    let three = [
        (Ask::Insert(1, 4), Said::Done),
        (Ask::Insert(2, 3), Said::Done),
        (Ask::Insert(3, 3), Said::Done),
    ];
    answers(&rt, &cache, &three);
    let mut gone = [None, None];
    let inserted = cache.insert_with_lifecycle(&rt, 4, 9, &mut gone);
    // The cold one goes first, and then the hot ones: the last of the three is dropped.
    expect_eq!(rt; (inserted, gone), (Ok(()), [Some((3, 3)), Some((1, 4))]));
    answers(
        &rt,
        &cache,
        &[
            (Ask::Get(1), Said::Nothing),
            (Ask::Get(2), Said::Nothing),
            (Ask::Get(3), Said::Nothing),
            (Ask::Get(4), Said::Value(9)),
        ],
    );
}

#[test]
fn a_new_cache_holds_as_much_as_it_is_made_for(rt: HostRuntime) {
    let cache: Cache<u64, u64> = expect_ok!(rt; Cache::new(rt.alloc(), 2));
    let weighted: Cache<u64, u64, ByValue> =
        expect_ok!(rt; Cache::with_weighter(rt.alloc(), 2, 9, ByValue));
    let whole: Cache<u64, u64> = expect_ok!(rt; Cache::with(
        rt.alloc(),
        2,
        2,
        UnitWeighter,
        DefaultHashBuilder::new(),
        DefaultLifecycle::new(),
    ));
    let pairs = [
        (Ask::Insert(1, 3), Said::Done),
        (Ask::Insert(2, 3), Said::Done),
        (Ask::Insert(3, 3), Said::Done),
    ];
    answers(&rt, &cache, &pairs);
    answers(&rt, &weighted, &pairs);
    answers(&rt, &whole, &pairs);
    let lengths = [cache.len(&rt), weighted.len(&rt), whole.len(&rt)];
    expect_eq!(rt; lengths, [2, 3, 2]);
    let text =
        expect_ok!(rt; format!(in rt.alloc(); "{cache:?}, {:?}", DefaultLifecycle::<u64, u64>::new()));
    expect_eq!(rt; text.as_str(), "Cache { .. }, DefaultLifecycle");
}

#[test]
fn the_cache_for_one_thread_is_here_too(rt: HostRuntime) {
    let mut cache: unsync::Cache<u64, u64> = expect_ok!(rt; unsync::Cache::new(rt.alloc(), 2));
    expect_ok!(rt; cache.insert(1, 10));
    expect_eq!(rt; cache.get(&1).copied(), Some(10));
}
