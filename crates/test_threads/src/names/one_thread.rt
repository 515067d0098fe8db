//! The names of `quick_cache::unsync`.
use quick_cache::unsync::{
    Cache, Call, DefaultLifecycle, Drain, Guard, Iter, NotLoaded, Ref, RefMut, Reply, run,
};
use quick_cache::{DefaultHashBuilder, Refusal, UnitWeighter};
use std::test::Fail;
use test_tools::{expect_eq, expect_ok};

type Dropping = DefaultLifecycle<u64, u64>;

type Reading<'a> = Ref<'a, u64, u64, u64, UnitWeighter, DefaultHashBuilder, Dropping>;

type Writing<'a> = RefMut<'a, u64, u64, u64, UnitWeighter, DefaultHashBuilder, Dropping>;

type Filling<'a> = Guard<'a, u64, u64, UnitWeighter, DefaultHashBuilder, Dropping>;

type Draining<'a> = Drain<'a, u64, u64, UnitWeighter, DefaultHashBuilder, Dropping>;

/// What stands under a key, or else what the loader gives.
fn read(cache: &mut Cache<u64, u64>, key: u64) -> Result<u64, NotLoaded<Refusal>> {
    let reference: Reading<'_> = cache.get_or_insert_with(&key, || Err(Refusal::Finished))?;
    Ok(*reference)
}

/// Fills a key that is not there.
fn fill(cache: &mut Cache<u64, u64>, key: u64, value: u64) -> Result<(), Refusal> {
    match cache.get_ref_or_guard(&key)? {
        Ok(_) => Ok(()),
        Err(guard) => {
            let guard: Filling<'_> = guard;
            guard.insert(value);
            Ok(())
        }
    }
}

/// Writes a value where the key is there.
fn write(cache: &mut Cache<u64, u64>, key: u64, value: u64) {
    let reference: Option<Writing<'_>> = cache.get_mut(&key);
    if let Some(mut reference) = reference {
        *reference = value;
    }
}

/// How many pairs a walk shows, and the first that a drain gives.
fn walk(cache: &mut Cache<u64, u64>) -> (usize, Option<(u64, u64)>) {
    let items: Iter<'_, u64, u64> = cache.iter();
    let count = items.len();
    let mut drain: Draining<'_> = cache.drain();
    (count, drain.next())
}

/// A predicate that a call may ask.
type Predicate = fn(&u64, &u64) -> bool;

#[test]
fn unsync_has_its_names(rt: HostRuntime) -> Result<(), Fail> {
    let alloc = rt.alloc();
    let mut cache: Cache<u64, u64> = expect_ok!(rt; Cache::new(alloc, 2));
    let absent = read(&mut cache, 1);
    expect_ok!(rt; fill(&mut cache, 1, 10));
    write(&mut cache, 1, 11);
    let calls: Vec<Call<u64, u64, Predicate>> = expect_ok!(rt; vec![in alloc; Call::Peek(1)]);
    let Ok(replies) = run(alloc, &mut cache, calls, &mut ()) else {
        panic!(rt; "there is memory");
    };
    expect_eq!(rt; replies.as_slice(), [Reply::Value(Some(11))].as_slice());
    expect_eq!(rt;
        (absent, read(&mut cache, 1), walk(&mut cache)),
        (
            Err(NotLoaded::Failed(Refusal::Finished)),
            Ok(11),
            (1, Some((1, 11)))
        )
    );
    Ok(())
}
