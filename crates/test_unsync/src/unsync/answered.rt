//! Calls that spare their caller a step: pairs are put, walked in a loop, looked at by a test, and
//! loaded with an answer.
use crate::asked::{Ask, Said, answers, counts};
use crate::unsync::great::AsItself;
use quick_cache_unsync::{Cache, LoadError, NotLoaded, Refusal};
use std::io;
use test_tools::{expect_eq, expect_ok};

#[test]
fn pairs_that_are_put_are_met_in_a_loop(rt: HostRuntime) {
    let mut cache: Cache<u64, u64> = expect_ok!(rt; Cache::new(rt.alloc(), 10));
    for key in 0..5 {
        answers(&rt, &mut cache, &[(Ask::Put(key, key * 2), Said::Done)]);
    }
    let mut sum = 0u64;
    for (key, value) in &cache {
        sum = sum.saturating_add(key.saturating_add(*value));
    }
    expect_eq!(rt; sum, 30);
}

#[test]
fn what_fails_a_test_is_a_miss_and_stays_or_is_dropped(rt: HostRuntime) {
    let mut cache = expect_ok!(rt; Cache::with_weighter(rt.alloc(), 9, 100, AsItself));
    let row = &[
        (Ask::Insert(1, 10), Said::Done),
        (Ask::GetIf(1, 10), Said::Value(10)),
        (Ask::GetIf(1, 11), Said::Is(false)),
        (Ask::GetIf(2, 10), Said::Nothing),
        (Ask::Counts, Said::Counts([1, 10, 100, 1, 2])),
        (Ask::GetOrDrop(1, 10), Said::Value(10)),
        (Ask::SetOrDrop(1, 10, 20), Said::Done),
        (Ask::Reads(1), Said::Count(3)),
        (Ask::Counts, Said::Counts([1, 20, 100, 3, 2])),
        (Ask::GetOrDrop(1, 10), Said::Is(false)),
        (Ask::GetOrDrop(1, 20), Said::Nothing),
        (Ask::Insert(2, 30), Said::Done),
        (Ask::SetOrDrop(2, 10, 20), Said::Is(false)),
        (Ask::SetOrDrop(2, 30, 20), Said::Nothing),
        (Ask::Counts, Said::Counts([0, 0, 100, 3, 6])),
    ];
    answers(&rt, &mut cache, row);
}

/// What a load answers by a loader that gives this.
fn load(
    cache: &mut Cache<u64, u64>,
    key: u64,
    given: Result<u64, u8>,
) -> Result<u64, LoadError<u8>> {
    cache.get_or_load(&key, || given)
}

#[test]
fn a_load_answers_its_value_kept_or_not(rt: HostRuntime) {
    for (items, kept) in [(0, 0), (10, 1)] {
        let mut cache: Cache<u64, u64> = expect_ok!(rt; Cache::new(rt.alloc(), items as usize));
        let loaded = [load(&mut cache, 1, Ok(7)), load(&mut cache, 1, Ok(7))];
        expect_eq!(rt; loaded, [Ok(7), Ok(7)]);
        expect_eq!(rt; load(&mut cache, 2, Err(3)), Err(LoadError::Failed(3)));
        expect_eq!(rt; counts(&cache), [kept, kept, items, kept, 3 - kept]);
    }
}

#[test]
fn errors_read_as_sentences(rt: HostRuntime) {
    let kept = NotLoaded::<Refusal>::NotKept;
    let failed = NotLoaded::Failed(Refusal::Memory);
    let refused = LoadError::<Refusal>::Refused(Refusal::SlotsFull);
    let text = expect_ok!(rt; format!(in rt.alloc(); "{kept}; {failed}; {refused}"));
    expect_eq!(rt;
        text.as_str(),
        "the loaded value did not stay; not loaded: no memory; refused: no slot is left"
    );
}

/// A loader that finds no file.
fn no_file() -> io::Result<u64> {
    Err(io::Error::from(io::ErrorKind::NotFound))
}

/// What is answered of a file that is not there.
fn answer(cache: &mut Cache<u64, u64>) -> io::Result<u64> {
    Ok(cache.get_or_load(&1, no_file)?)
}

/// What is lent of it.
fn lend(cache: &mut Cache<u64, u64>) -> io::Result<u64> {
    Ok(*cache.get_or_insert_with(&1, no_file)?)
}

#[test]
fn a_question_mark_keeps_the_kind_of_a_loaders_error(rt: HostRuntime) {
    let mut cache: Cache<u64, u64> = expect_ok!(rt; Cache::new(rt.alloc(), 5));
    for failed in [answer(&mut cache), lend(&mut cache)] {
        expect_eq!(rt; failed.map_err(|error| error.kind()), Err(io::ErrorKind::NotFound));
    }
}
