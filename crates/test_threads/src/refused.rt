//! Refusals: a clone that fails, and a growth for which there is no memory.
ghost use Rattle.std.specs.Prelude.{◌≡◌};

use crate::asked::{Ask, Said, answers};
use quick_cache::sync::{Cache, DefaultLifecycle, Miss, TryError};
use quick_cache::{DefaultHashBuilder, Refusal, UnitWeighter};
use std::alloc::{AllocError, Global};
use test_tools::{Rationed, expect, expect_eq, expect_ok};

/// A number that cannot be cloned where it is odd.
#[derive(Drop)]
struct Coy {
    number: u64,
}

impl Clone for Coy {
    ghost is_clone = { λ old new. new ≡ old };

    fn clone(&self) -> Result<Self, AllocError> {
        if self.number % 2 == 0 {
            Ok(Coy {
                number: self.number,
            })
        } else {
            Err(AllocError)
        }
    }
}

/// What a look with a test gave.
fn told(answer: Result<Result<Coy, Miss>, Refusal>) -> Result<Result<u64, Miss>, Refusal> {
    match answer {
        Ok(Ok(coy)) => Ok(Ok(coy.number)),
        Ok(Err(miss)) => Ok(Err(miss)),
        Err(refusal) => Err(refusal),
    }
}

#[test]
fn what_fails_a_test_is_not_cloned(rt: HostRuntime) {
    let cache: Cache<u64, Coy> = expect_ok!(rt; Cache::new(rt.alloc(), 100));
    expect!(rt; cache.insert(&rt, 1, Coy { number: 11 }).is_ok());
    expect!(rt; cache.insert(&rt, 2, Coy { number: 22 }).is_ok());
    let looks = [
        told(cache.get_if(&rt, &1, |coy: &Coy| coy.number > 11)),
        told(cache.find_if(&rt, &1, |coy: &Coy| coy.number > 11)),
        told(cache.peek_if(&rt, &1, |coy: &Coy| coy.number > 11)),
        told(cache.get_if(&rt, &1, |coy: &Coy| coy.number == 11)),
        told(cache.get_if(&rt, &2, |coy: &Coy| coy.number > 11)),
        told(cache.find_if(&rt, &2, |coy: &Coy| coy.number > 11)),
        told(cache.peek_if(&rt, &2, |coy: &Coy| coy.number > 11)),
        told(cache.get_if(&rt, &3, |coy: &Coy| coy.number > 11)),
        told(cache.find_if(&rt, &3, |coy: &Coy| coy.number > 11)),
    ];
    let failed = Ok(Err(Miss::Failed));
    let given = Ok(Ok(22));
    let absent = Ok(Err(Miss::Absent));
    let refused = Err(Refusal::Memory);
    expect_eq!(rt;
        looks,
        [failed, failed, failed, refused, given, given, given, absent, absent]
    );
    expect_eq!(rt; (cache.hits(&rt), cache.misses(&rt)), (2, 2));
}

#[test]
fn a_refused_clone_is_a_refusal_for_memory(rt: HostRuntime) {
    let cache: Cache<u64, Coy> = expect_ok!(rt; Cache::new(rt.alloc(), 100));
    expect!(rt; cache.insert(&rt, 1, Coy { number: 11 }).is_ok());
    expect!(rt; cache.insert(&rt, 2, Coy { number: 22 }).is_ok());
    let Err(refusal) = cache.get(&rt, &1) else {
        panic!(rt; "the clone is refused");
    };
    expect_eq!(rt; refusal, Refusal::Memory);
    let (Err(got), Err(peeked)) = (cache.try_get(&1), cache.try_peek(&1)) else {
        panic!(rt; "the clone is refused");
    };
    expect_eq!(rt; got, TryError::Refused(Refusal::Memory));
    expect_eq!(rt; peeked, TryError::Refused(Refusal::Memory));
    // They were no use of the item.
    expect_eq!(rt; (cache.hits(&rt), cache.misses(&rt)), (0, 0));
    let reads = cache.item_stats(&rt, &1).map(|stats| stats.access_count);
    expect_eq!(rt; reads, Some(0));
    let Ok(Some(found)) = cache.get(&rt, &2) else {
        panic!(rt; "there is a value, which can be cloned");
    };
    expect_eq!(rt; found.number, 22);
    let Ok(None) = cache.get(&rt, &3) else {
        panic!(rt; "there is none");
    };
}

/// A cache whose growths can be refused.
type RationedCache<'a> = Cache<
    u64,
    u64,
    UnitWeighter,
    DefaultHashBuilder,
    DefaultLifecycle<u64, u64>,
    &'a Rationed<Global>,
>;

#[test]
fn a_pair_for_which_there_is_no_memory_comes_back(rt: HostRuntime) {
    let ration = Rationed::new(rt.alloc(), 1);
    let cache: RationedCache<'_> = expect_ok!(rt; Cache::new(&ration, 5));
    let inserted = cache.insert(&rt, 1, 10);
    let tried = cache.try_insert(1, 10);
    expect_eq!(rt; inserted, Err((1, 10, Refusal::Memory)));
    expect_eq!(rt; tried, Err((1, 10, TryError::Refused(Refusal::Memory))));
    answers(&rt, &cache, &[(Ask::Get(1), Said::Nothing)]);
    ration.allow(12);
    answers(&rt, &cache, &[(Ask::Insert(1, 10), Said::Done)]);
    // With no memory, what is there can be read and written over.
    ration.allow(0);
    answers(
        &rt,
        &cache,
        &[
            (Ask::Get(1), Said::Value(10)),
            (Ask::Insert(1, 11), Said::Done),
            (Ask::Get(1), Said::Value(11)),
        ],
    );
}

#[test]
fn a_list_of_shards_for_which_there_is_no_memory_is_refused(rt: HostRuntime) {
    let ration = Rationed::new(rt.alloc(), 0);
    let made: Result<RationedCache<'_>, Refusal> = Cache::new(&ration, 5);
    let Err(refusal) = made else {
        panic!(rt; "the list takes memory");
    };
    expect_eq!(rt; refusal, Refusal::Memory);
}
