//! A mixed run of calls on a cache that threads share, every second one by its form that does not
//! wait, beside the same calls on a cache for one thread.
use crate::beside::recording::{Recording, Reported};
use quick_cache::{UnitWeighter, sync, unsync};
use std::sync::Wait;
use test_parts::thousand::Thousand;
use test_tools::{expect, expect_eq, expect_ok};

/// The cache that threads share.
type Shared = sync::Cache<u64, u64, UnitWeighter, Thousand, Recording>;

/// The cache for one thread.
type Alone = unsync::Cache<u64, u64, UnitWeighter, Thousand, Recording>;

/// How many calls there are.
const CALLS: u64 = 3000;

/// A call, drawn from a row of numbers.
#[derive(Clone, Copy)]
struct Call {
    kind: u64,
    key: u64,
    value: u64,
}

/// What a call answered.
#[derive(Debug, Clone, Copy, PartialEq, Eq)]
enum Answer {
    /// The pair was written, or came back.
    Written(Option<(u64, u64)>),
    /// The value, where one was found.
    Found(Option<u64>),
    /// Whether there is an item.
    IsThere(bool),
    /// How often the item was read, where there is one.
    Read(Option<u64>),
    /// The pair that was taken out, where there was one.
    Removed(Option<(u64, u64)>),
}

/// Makes a call on the cache for one thread. There is no answer where it was refused.
fn call_alone(cache: &mut Alone, call: Call, reported: &mut Reported) -> Option<Answer> {
    let Call { kind, key, value } = call;
    Some(match kind {
        0 => {
            cache.insert_with_lifecycle(key, value, reported).ok()?;
            Answer::Written(None)
        }
        1 => Answer::Written(
            cache
                .replace_with_lifecycle(key, value, false, reported)
                .err(),
        ),
        2 => Answer::Found(cache.get(&key).copied()),
        3 => Answer::Found(cache.peek(&key).copied()),
        4 => Answer::IsThere(cache.contains_key(&key)),
        5 => Answer::Read(cache.item_stats(&key).map(|stats| stats.access_count)),
        _ => Answer::Removed(cache.remove(&key)),
    })
}

/// The same on the cache that threads share.
fn call_shared<R: Wait>(
    rt: &R,
    cache: &Shared,
    call: Call,
    reported: &mut Reported,
) -> Option<Answer> {
    let Call { kind, key, value } = call;
    Some(match kind {
        0 => {
            cache.insert_with_lifecycle(rt, key, value, reported).ok()?;
            Answer::Written(None)
        }
        1 => Answer::Written(
            cache
                .replace_with_lifecycle(rt, key, value, false, reported)
                .err(),
        ),
        2 => Answer::Found(cache.get(rt, &key).ok()?),
        3 => Answer::Found(cache.peek(rt, &key).ok()?),
        4 => Answer::IsThere(cache.contains_key(rt, &key)),
        5 => Answer::Read(cache.item_stats(rt, &key).map(|stats| stats.access_count)),
        _ => Answer::Removed(cache.remove(rt, &key)),
    })
}

/// The same without waiting, where there is such a form. There is no answer where the lock was not
/// to be had.
fn call_tried<R: Wait>(
    rt: &R,
    cache: &Shared,
    call: Call,
    reported: &mut Reported,
) -> Option<Answer> {
    let Call { kind, key, value } = call;
    Some(match kind {
        0 => {
            cache.try_insert_with_lifecycle(key, value, reported).ok()?;
            Answer::Written(None)
        }
        2 => Answer::Found(cache.try_get(&key).ok()?),
        3 => Answer::Found(cache.try_peek(&key).ok()?),
        4 => Answer::IsThere(cache.try_contains_key(&key).ok()?),
        5 => Answer::Read(
            cache
                .try_item_stats(&key)
                .ok()?
                .map(|stats| stats.access_count),
        ),
        6 => Answer::Removed(cache.try_remove(&key).ok()?),
        _ => call_shared(rt, cache, call, reported)?,
    })
}

#[test]
fn shared_and_single_thread_agree(rt: HostRuntime) {
    let shared: Shared =
        expect_ok!(rt; sync::Cache::with(rt.alloc(), 8, 8, UnitWeighter, Thousand, Recording));
    let mut alone: Alone = expect_ok!(rt; unsync::Cache::with(
        rt.alloc(),
        8,
        8,
        UnitWeighter,
        Thousand,
        Recording,
    ));
    let mut drawn: u64 = 1;
    let mut left = 0u64;
    for value in 0..CALLS {
        drawn = drawn.wrapping_mul(1103515245).wrapping_add(12345) % 2147483648;
        let number = drawn / 65536;
        let call = Call {
            kind: number % 7,
            key: number / 7 % 16,
            value,
        };
        let mut reported_alone = Reported::default();
        let mut reported_shared = Reported::default();
        let wanted = call_alone(&mut alone, call, &mut reported_alone);
        let answer = if value % 2 == 0 {
            call_shared(&rt, &shared, call, &mut reported_shared)
        } else {
            call_tried(&rt, &shared, call, &mut reported_shared)
        };
        expect!(rt; wanted.is_some());
        expect_eq!(rt; answer, wanted);
        expect_eq!(rt; reported_shared, reported_alone);
        left = left.saturating_add(reported_alone.count() as u64);
    }
    expect!(rt; left > 0);
    expect_eq!(rt; shared.len(&rt), alone.len());
    expect_eq!(rt; shared.weight(&rt), alone.weight());
    expect_eq!(rt; shared.hits(&rt), alone.hits());
    expect_eq!(rt; shared.misses(&rt), alone.misses());
}
