//! Two threads write and read, each with a seat, and what is left is what each of them left.
ghost use Rattle.std.specs.Prelude.{◌≡◌};

use quick_cache_history::{History, Naming, Recorded, Seat};
use quick_cache_model::{DefaultHashBuilder, Refusal, UnitWeighter};
use quick_cache_options::OptionsBuilder;
use quick_cache_sync::DefaultLifecycle;
use std::alloc::Global;
use std::marker::Brand;
use std::process::Abort;
use std::sync::Wait;
use std::test::Fail;
use std::thread::{Threads, join};
use test_tools::expect_eq;

/// A cache of numbers.
pub(crate) type Numbers<J> = Recorded<
    u64,
    u64,
    UnitWeighter,
    DefaultHashBuilder,
    DefaultLifecycle<u64, u64>,
    J,
>;

/// How many keys each thread writes.
const KEYS: u64 = 300;

/// What stands under a key once its thread is done: nothing where the key is a multiple of three, and
/// else its square.
fn left_under(key: u64) -> Option<u64> {
    if key % 3 == 0 {
        return None;
    }
    key.checked_mul(key)
}

/// Writes a row of keys, takes each third out, and tells how often what was read at once was not what
/// had been written.
fn write_row<J: Naming, R: Wait>(
    rt: &R,
    numbers: &Numbers<J>,
    mut seat: Seat<u64, u64, J>,
    first: u64,
) -> Result<(Seat<u64, u64, J>, usize), Refusal> {
    let mut unlike = 0usize;
    for step in 0..KEYS {
        let key = first.wrapping_add(step);
        let value = key.wrapping_mul(key);
        if numbers.insert(rt, &mut seat, key, value).is_err() {
            return Err(Refusal::Memory);
        }
        if numbers.get(rt, &mut seat, &key)? != Some(value) {
            unlike = unlike.saturating_add(1);
        }
        if key % 3 == 0 {
            if numbers.remove(rt, &mut seat, &key).is_none() {
                unlike = unlike.saturating_add(1);
            }
        }
    }
    Ok((seat, unlike))
}

/// How many keys of both rows do not show what was left under them.
fn unlike_left<J: Naming, R: Wait>(
    rt: &R,
    numbers: &Numbers<J>,
    seat: &mut Seat<u64, u64, J>,
) -> Result<usize, Refusal> {
    let mut unlike = 0usize;
    for key in 0..2 * KEYS {
        if numbers.get(rt, seat, &key)? != left_under(key) {
            unlike = unlike.saturating_add(1);
        }
    }
    Ok(unlike)
}

/// Two threads write a row each, and one reads both when they are done.
fn two_rows<J: Naming + Send + Sync, R: Threads + Wait + Abort + Sync>(
    rt: &R,
    alloc: Global,
    history: History<u64, u64>,
) -> Result<[usize; 3], Fail>
    requires { history ≡ J.book }
{
    let numbers: Numbers<J> = Recorded::new(
        alloc,
        history,
        UnitWeighter,
        DefaultHashBuilder::new(),
        DefaultLifecycle::new(),
    )?;
    let first = numbers.seat();
    let second = numbers.tell(&first);
    let shared = &numbers;
    let (first, second) = join(
        rt,
        move || write_row(rt, shared, first, 0),
        move || write_row(rt, shared, second, KEYS),
    );
    let (mut first, one) = first?;
    let (second, two) = second?;
    first.learn(&second);
    let left = unlike_left(rt, &numbers, &mut first)?;
    Ok([one, two, left])
}

#[test]
fn what_two_threads_left_is_there(rt: HostRuntime) -> Result<(), Fail> {
    let mut options = OptionsBuilder::new();
    options
        .estimated_items_capacity(10000)
        .weight_capacity(10000)
        .shards(4);
    let unlike = two_rows::<Brand, _>(&rt, rt.alloc(), History::new(options.build()?))?;
    expect_eq!(rt; unlike, [0, 0, 0]);
    Ok(())
}
