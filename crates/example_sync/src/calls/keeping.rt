//! A guard and a future are kept in structs of a user, with no name but of the cache.
use futures::executor::block_on;
use quick_cache::sync::{Cache, DefaultLifecycle, Guard, GuardResult, LockedShard, ValueOrGuard};
use quick_cache::{DefaultHashBuilder, UnitWeighter};
use std::sync::Wait;
use std::test::Fail;
use test_tools::{expect, expect_eq};

type Names = Cache<u64, &'static str>;

type Shard = LockedShard<
    u64,
    &'static str,
    UnitWeighter,
    DefaultHashBuilder,
    DefaultLifecycle<u64, &'static str>,
>;

/// A name that is being looked for.
#[derive(Drop)]
struct Search<'a, R: Wait> {
    guard: Guard<'a, u64, &'static str, R>,
    steps: u64,
}

/// A name that is asked for.
#[derive(Drop)]
struct Question<'a, R: Wait> {
    answer: ValueOrGuard<
        'a,
        'a,
        u64,
        u64,
        &'static str,
        DefaultLifecycle<u64, &'static str>,
        Shard,
        R,
    >,
}

#[test]
fn a_guard_is_kept(rt: HostRuntime) -> Result<(), Fail> {
    let cache: Names = Cache::new(rt.alloc(), 100)?;
    let GuardResult::Guard(guard) = cache.get_value_or_guard(&rt, &4, None) else {
        panic!(rt; "the key is absent");
    };
    let search = Search { guard, steps: 1 };
    expect_eq!(rt; search.steps, 1);
    expect!(rt; search.guard.insert("square").is_ok());
    expect_eq!(rt; cache.get(&rt, &4), Ok(Some("square")));
    Ok(())
}

#[test]
fn a_future_is_kept(rt: HostRuntime) -> Result<(), Fail> {
    let cache: Names = Cache::new(rt.alloc(), 100)?;
    expect!(rt; cache.insert(&rt, 4, "square").is_ok());
    let question = Question {
        answer: cache.get_value_or_guard_async(&rt, &4),
    };
    expect!(rt; matches!(block_on(&rt, question.answer), Ok(Ok(Ok("square")))));
    Ok(())
}
