//! What those rely on who make their calls in one history.
ghost use Rattle.std.specs.Prelude.{◌≡◌, ◌+◌, Some, false, is_some, length, IfOk, IfSome};
ghost use mathlib.Core.List.{IsPrefix};
ghost use Rattle.quick_cache_model.specs.declared.calls.call.Call.{Call};
ghost use Rattle.quick_cache_model.specs.declared.calls.reply.Reply.{Reply};
ghost use Rattle.quick_cache_history.specs.Histories.{reply_of_replace};
ghost use Rattle.quick_cache_history.specs.Seats.{HasCall};

use quick_cache_history::{Choice, Entered, Naming, Recorded, Seat};
use quick_cache_model::{DefaultHashBuilder, Refusal, UnitWeighter};
use quick_cache_sync::DefaultLifecycle;
use std::sync::Wait;
use std::thread::{Threads, join};

/// A cache of numbers.
type Numbers<J> = Recorded<
    u64,
    u64,
    UnitWeighter,
    DefaultHashBuilder,
    DefaultLifecycle<u64, u64>,
    J,
>;

/// Who writes and then reads has seen its write, once, and is shown nothing older than it had seen.
pub fn write_and_read<J: Naming, R: Wait>(
    rt: &R,
    numbers: &Numbers<J>,
    mut seat: Seat<u64, u64, J>,
    key: u64,
    value: u64,
) -> Option<Seat<u64, u64, J>>
    ensures longer { IfSome result (λ new. IsPrefix seat.seen new.seen) }
    ensures made { IfSome result (λ new. HasCall (Call.Insert key value) Reply.Done new.seen) }
    ensures once { IfSome result (λ new. length new.mine ≡ length seat.mine + 1) }
{
    match numbers.insert(rt, &mut seat, key, value) {
        Ok(()) => {
            let _ = numbers.get(rt, &mut seat, &key);
            Some(seat)
        }
        Err(_) => None,
    }
}

/// Two threads write a pair each. Who has learned of both has both writes in one history.
pub fn two_writes<J: Naming + Send + Sync, R: Threads + Wait + Sync>(
    rt: &R,
    numbers: &Numbers<J>,
    first: Seat<u64, u64, J>,
    second: Seat<u64, u64, J>,
) -> Option<Seat<u64, u64, J>>
    ensures first { IfSome result (λ seat. HasCall (Call.Insert 1 10) Reply.Done seat.seen) }
    ensures second { IfSome result (λ seat. HasCall (Call.Insert 2 20) Reply.Done seat.seen) }
{
    let (one, two) = join(
        rt,
        move || -> Option<Seat<u64, u64, J>>
            ensures { IfSome result (λ seat. HasCall (Call.Insert 1 10) Reply.Done seat.seen) }
        { write_and_read(rt, numbers, first, 1, 10) },
        move || -> Option<Seat<u64, u64, J>>
            ensures { IfSome result (λ seat. HasCall (Call.Insert 2 20) Reply.Done seat.seen) }
        { write_and_read(rt, numbers, second, 2, 20) },
    );
    let mut both = one?;
    both.learn(&two?);
    Some(both)
}

/// Who replaces a value and looks then has its call in the history, and has made one call more.
pub fn replace_and_look<J: Naming, R: Wait>(
    rt: &R,
    numbers: &Numbers<J>,
    seat: &mut Seat<u64, u64, J>,
    key: u64,
    value: u64,
) -> (Result<(), (u64, u64)>, bool)
    ensures longer { IsPrefix seat.old.seen seat.new.seen }
    ensures made { HasCall (Call.Replace key value false) (reply_of_replace result.0)
        seat.new.seen }
    ensures once { length seat.new.mine ≡ length seat.old.mine + 1 }
{
    let replaced = numbers.replace(rt, seat, key, value, false);
    let there = numbers.contains_key(rt, seat, &key);
    (replaced, there)
}

/// Who takes a small number out has its call in the history, with the pair that it got.
pub fn take_small<J: Naming, R: Wait>(
    rt: &R,
    numbers: &Numbers<J>,
    seat: &mut Seat<u64, u64, J>,
    key: u64,
) -> Option<(u64, u64)>
    ensures made { HasCall (Call.RemoveIf key (is_some result)) (Reply.Pair result) seat.new.seen }
    ensures once { length seat.new.mine ≡ length seat.old.mine + 1 }
{
    numbers.remove_if(rt, seat, &key, |value| *value < 10)
}

/// Who clears the cache and counts what is left makes a call of each shard, and no other.
pub fn clear_and_count<J: Naming, R: Wait>(
    rt: &R,
    numbers: &Numbers<J>,
    seat: &mut Seat<u64, u64, J>,
) -> usize
    ensures longer { IsPrefix seat.old.seen seat.new.seen }
    ensures each { length seat.new.mine ≡ length seat.old.mine + numbers.now.shards }
{
    numbers.clear(rt, seat);
    numbers.len(rt, seat)
}

/// Who takes a number out by an entry call, where it is small, has its removal in the history, with the
/// pair that it got.
pub fn take_or_count_up<J: Naming, R: Wait>(
    rt: &R,
    numbers: &Numbers<J>,
    seat: &mut Seat<u64, u64, J>,
    key: u64,
) -> Result<Option<(u64, u64)>, Refusal>
    ensures { IfOk result (λ taken. IfSome taken (λ pair. HasCall (Call.Remove key)
        (Reply.Pair (Some pair)) seat.new.seen)) }
{
    let entered = numbers.entry(rt, seat, key, |found| match found {
        None => Choice::Keep(()),
        Some(value) => if value < 10 {
            Choice::Remove
        } else {
            Choice::Insert(value.saturating_add(1))
        },
    });
    match entered? {
        Entered::Kept(()) => Ok(None),
        Entered::Removed(pair) => Ok(pair),
        Entered::Inserted => Ok(None),
    }
}
