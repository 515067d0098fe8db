//! Seventy thousand entries, and lists of as many calls: nothing is refused past some size, and no
//! token, count or place ends at sixteen bits.
ghost use Rattle.std.specs.Prelude.{All, IfOk};
ghost use Rattle.quick_cache_runs.specs.Asked.{IfAsks};

use crate::Predicate;
use crate::asked::{Ask, Said, answers};
use crate::runs::replies_to;
use quick_cache_runs::{Call, Reply};
use quick_cache_unsync::Cache;
use std::alloc::{AllocError, Allocator, Global};
use std::process::Abort;
use test_tools::{Rationed, expect_eq, expect_ok};

/// How many entries or calls a test makes.
const MANY: u64 = 70000;

/// A cache that holds the numbers below this one, each with its double.
fn doubles(rt: &impl Abort, alloc: Global, count: u64) -> Cache<u64, u64> {
    let mut cache = expect_ok!(rt; Cache::new(alloc, count as usize));
    for key in 0..count {
        let row = &[(Ask::Insert(key, key.saturating_mul(2)), Said::Done)];
        answers(rt, &mut cache, row);
    }
    cache
}

#[test]
fn ample_memory_is_never_refused(rt: HostRuntime) {
    let mut cache = doubles(&rt, rt.alloc(), MANY);
    let row = &[(Ask::Counts, Said::Counts([MANY, MANY, MANY, 0, 0]))];
    answers(&rt, &mut cache, row);
    for key in 0..MANY {
        let double = key.saturating_mul(2);
        let row = &[
            (Ask::Get(key), Said::Value(double)),
            (Ask::Insert(key, double), Said::Done),
            (Ask::Remove(key), Said::Pair(key, double)),
        ];
        answers(&rt, &mut cache, row);
    }
    let row = &[(Ask::Counts, Said::Counts([0, 0, MANY, MANY, 0]))];
    answers(&rt, &mut cache, row);
}

#[test]
fn a_clone_has_seventy_thousand_entries(rt: HostRuntime) {
    let cache = doubles(&rt, rt.alloc(), MANY);
    let mut copy = expect_ok!(rt; cache.try_clone());
    expect_eq!(rt; copy.len(), MANY as usize);
    for key in 0..MANY {
        let taken = Said::Pair(key, key.saturating_mul(2));
        answers(&rt, &mut copy, &[(Ask::Remove(key), taken)]);
    }
    expect_eq!(rt; (cache.len(), copy.len()), (MANY as usize, 0));
}

/// So many calls, by threes: an insert, a look-up of what it inserted, and its removal. None asks a
/// predicate.
fn threes<M: Allocator>(
    alloc: M,
    count: u64,
) -> Result<Vec<Call<u64, u64, Predicate>, M>, AllocError>
    ensures { IfOk result (λ calls. All (IfAsks (λ asked. ⊥)) calls.items) }
{
    let mut calls = Vec::new(alloc);
    for number in 0..count {
        let key = number / 3;
        calls.push(match number % 3 {
            0 => Call::Insert(key, number),
            1 => Call::Get(key),
            _ => Call::Remove(key),
        })?;
    }
    Ok(calls)
}

/// Whether this is the reply to the call at a place of such a list.
fn is_reply_at(reply: &Reply<u64, u64>, at: u64) -> bool {
    let key = at / 3;
    let value = key.saturating_mul(3);
    match reply {
        Reply::Done => at % 3 == 0,
        Reply::Value(found) => at % 3 == 1 && *found == Some(value),
        Reply::Pair(taken) => at % 3 == 2 && *taken == Some((key, value)),
        _ => false,
    }
}

/// Makes so many calls by one `run`.
fn run_by_threes(rt: &impl Abort, alloc: Global, count: u64) {
    let mut cache: Cache<u64, u64> = expect_ok!(rt; Cache::new(alloc, 3));
    let calls = expect_ok!(rt; threes(alloc, count));
    let replies = replies_to(rt, alloc, &mut cache, calls);
    expect_eq!(rt; replies.len() as u64, count);
    for (at, reply) in replies.iter().enumerate() {
        expect_eq!(rt; (at, is_reply_at(reply, at as u64)), (at, true));
    }
}

#[test]
fn twenty_and_seventy_thousand_calls_are_made(rt: HostRuntime) {
    run_by_threes(&rt, rt.alloc(), 20);
    run_by_threes(&rt, rt.alloc(), MANY);
}

#[test]
fn a_list_of_replies_asks_for_memory_once(rt: HostRuntime) {
    let ration = Rationed::new(rt.alloc(), 100);
    let mut cache: Cache<u64, u64> = expect_ok!(rt; Cache::new(rt.alloc(), 3));
    let calls = expect_ok!(rt; threes(&ration, MANY));
    ration.allow(1);
    let replies = replies_to(&rt, &ration, &mut cache, calls);
    expect_eq!(rt; (replies.len() as u64, ration.left()), (MANY, 0));
}

/// How many pairs a reply shows, each a number and its double, and the sum of the numbers.
fn doubles_in<M: Allocator>(reply: &Reply<u64, u64, M>) -> Option<(u64, u64)> {
    let Reply::Pairs(pairs) = reply else {
        return None;
    };
    let (mut count, mut sum) = (0u64, 0u64);
    for (key, value) in pairs {
        if *value == key.saturating_mul(2) {
            count = count.saturating_add(1);
            sum = sum.saturating_add(*key);
        }
    }
    Some((count, sum))
}

#[test]
fn a_walk_and_a_drain_give_seventy_thousand_pairs(rt: HostRuntime) {
    let alloc = rt.alloc();
    let mut cache = doubles(&rt, rt.alloc(), MANY);
    let calls: Vec<Call<u64, u64, Predicate>> = expect_ok!(rt; vec![in alloc;
        Call::Iter,
        Call::Drain,
        Call::Iter,
    ]);
    let replies = replies_to(&rt, alloc, &mut cache, calls);
    let wanted = [(MANY, 2449965000), (MANY, 2449965000), (0, 0)];
    for (reply, wanted) in replies.iter().zip(wanted) {
        expect_eq!(rt; doubles_in(reply), Some(wanted));
    }
}
