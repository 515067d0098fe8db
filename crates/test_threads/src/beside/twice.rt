//! Threads that write doubles and read them: every value that a thread gets is the double of its key.
ghost use Rattle.std.specs.Prelude.{◌≡◌, ◌*◌, IfOk, IfSome};

use crate::doubles::DoubleCache;
use quick_cache::Refusal;
use quick_cache::shard::EntryAction;
use quick_cache::sync_placeholder::{EntryResult, GuardResult};
use std::sync::Wait;
use std::time::Clock;

/// Stores the double of a number, where there is memory for it.
pub fn store_double<R: Wait>(rt: &R, cache: &DoubleCache, number: u32) {
    let number = u64::from(number);
    let _ = cache.insert(rt, number, 2 * number);
}

/// The double of a number, which one thread computes while others wait for it.
pub fn double_once<R: Wait>(rt: &R, cache: &DoubleCache, number: u32) -> Result<u64, Refusal>
    ensures { IfOk result (λ double. double ≡ 2 * number) }
{
    let number = u64::from(number);
    let loaded: Result<u64, ()> = cache.get_or_insert_with(rt, &number, || Ok(2 * number))?;
    match loaded {
        Ok(double) => Ok(double),
        Err(()) => unreachable!(),
    }
}

/// The double of a number, as it is stored or comes. Where this thread is the one to load it, it
/// puts it in.
pub fn double_or_load<R: Wait + Clock>(rt: &R, cache: &DoubleCache, number: u32) -> Option<u64>
    ensures { IfSome result (λ double. double ≡ 2 * number) }
{
    let number = u64::from(number);
    match cache.get_value_or_guard(rt, &number, None) {
        GuardResult::Value(double) => Some(double),
        GuardResult::Guard(guard) => {
            let _ = guard.insert(2 * number);
            Some(2 * number)
        }
        GuardResult::Timeout => None,
        GuardResult::Refused(_) => None,
    }
}

/// Takes the double of a number out, where it is stored or comes, and gives it.
pub fn take_double<R: Wait + Clock>(rt: &R, cache: &DoubleCache, number: u64) -> Option<u64>
    ensures { IfSome result (λ double. double ≡ 2 * number) }
{
    let goes = |_: &u64, _: &mut u64| -> EntryAction<()> { EntryAction::Remove };
    match cache.entry(rt, &number, None, goes) {
        EntryResult::Removed(_, double) => Some(double),
        EntryResult::Replaced(_, double) => Some(double),
        EntryResult::Retained(()) => None,
        EntryResult::Vacant(_) => None,
        EntryResult::Timeout => None,
        EntryResult::Refused(_) => None,
    }
}

/// The double of a number, as a callback sees it that keeps it.
pub fn seen_double<R: Wait + Clock>(rt: &R, cache: &DoubleCache, number: u64) -> Option<u64>
    ensures { IfSome result (λ double. double ≡ 2 * number) }
{
    let keeps = |_: &u64, double: &mut u64| -> EntryAction<u64> { EntryAction::Retain(*double) };
    match cache.entry(rt, &number, None, keeps) {
        EntryResult::Retained(double) => Some(double),
        EntryResult::Removed(_, _) => None,
        EntryResult::Replaced(_, _) => None,
        EntryResult::Vacant(_) => None,
        EntryResult::Timeout => None,
        EntryResult::Refused(_) => None,
    }
}

/// A number and its double, as a walk shows them, and as a drain takes them.
pub fn first_double<R: Wait>(rt: &R, cache: &DoubleCache, drains: bool) -> Option<(u64, u64)>
    ensures { IfSome result (λ pair. pair.1 ≡ 2 * pair.0) }
{
    if drains {
        return cache.drain(rt).next();
    }
    match cache.iter(rt).next() {
        Some(Ok(pair)) => Some(pair),
        Some(Err(_)) => None,
        None => None,
    }
}
