//! Loading as a pure machine: the life of a placeholder, one event at a time.
ghost use Rattle.std.specs.Prelude.{◌≡◌, ℕ, ◌+◌, ◌≤◌, ◌↔◌, ◌==◌, min, [], true, not, IfSome, IsOk, IfOk, IfErr, OnErr, vec_len};
ghost use Rattle.std.specs.Vec.{vec_allocator};
ghost use Rattle.quick_cache_loading.specs.Core.{new_core, held_count, is_given_up, value_of, waiters_of, waits, concerns};
ghost use Rattle.quick_cache_loading.specs.LoadingStep.{LoadingStep};
ghost use Rattle.quick_cache_loading.specs.LoadingRow.{LoadingRow, NoRowApplies, TablesAgree};
ghost use Rattle.quick_cache_loading.specs.LoadingLaws.{is_not_now, only_tells, given_by, most_given, most_taken, taken_by, done_by, shown_by};
ghost use Rattle.quick_cache_loading.specs.LoadingLaws.{MayShow, ShowsNothing, HandsToLast, HasOneGuard, KeepsWaiters, value_after, given_up_after};
ghost use Rattle.quick_cache_loading.specs.LoadingRun.{LoadingRun, guards_given, guards_taken, waits_at_end};
ghost use Rattle.quick_cache_loading.specs.LoadingRun.{ShowsTheFill, NoneJoinsGivenUp, NoGiveUpWhileWaiting};

mod events;
mod life;

pub use events::{Answer, Event};
pub use life::{Core, Holder};
use quick_cache_model::Refusal;
use std::alloc::Allocator;

/// Makes one event happen, and says what it is answered.
///
/// A Join may allocate, and an answer `Value` holds a clone: where memory is refused, the answer
/// is `Refused` and nothing has changed.
pub fn step<V: Clone, A: Allocator>(core: &mut Core<V, A>, event: Event<V>) -> Answer<V>
    // The table, and the same by cases.
    ensures row { LoadingRow V.is_clone event core.old result core.new }
    ensures step { LoadingStep V.is_clone core.old event result core.new }
    ensures last { HandsToLast result core.old core.new }

    // Guards: what is held and was taken back is what was held and is given.
    ensures guards { held_count core.new + taken_by event result
        ≡ held_count core.old + given_by result }
    ensures no_guard { given_by result ≤ most_given event }
    ensures taken { taken_by event result ≡ min (most_taken event) (held_count core.old) }
    ensures one_guard { HasOneGuard core.new }
    ensures at_most_one { held_count core.new ≤ 1 }

    // The answers that change nothing: `NotNow` comes where no row applies, and only there.
    ensures not_now { (result ≡ Answer.NotNow) ↔ NoRowApplies V.is_clone event core.old }
    ensures unchanged { only_tells result ≡ true → core.new ≡ core.old }
    ensures refused { (why : Refusal) → result ≡ Answer.Refused why → why ≡ Refusal.Memory }

    // The value of a life is what its one fill gave, and a clone of it is shown.
    ensures shown { IfSome (shown_by result) (MayShow V.is_clone (value_of core.old.life)) }
    ensures value { value_of core.new.life ≡ value_after (value_of core.old.life) event result }

    // A life ends only where nobody waits, and none joins it afterwards.
    ensures given_up { is_given_up core.new.life
        ≡ given_up_after (is_given_up core.old.life) result }
    ensures alone { result ≡ Answer.GivenUp → waiters_of core.old.life ≡ [] }
    ensures ended { result ≡ Answer.GivenUp → core.new ≡ new_core }
    ensures none_joins { (n : ℕ) → event ≡ Event.Join n → is_given_up core.old.life ≡ true
        → result ≡ Answer.NotNow }

    // Who joins waits from then on, and who waits goes on waiting until it is let go.
    ensures joined { (n : ℕ) → event ≡ Event.Join n → result ≡ Answer.Joined
        → waits n core.new ≡ true }
    ensures stays { KeepsWaiters event result core.old core.new }
{
    make_happen(core, event)
}

/// The event's own call.
fn make_happen<V: Clone, A: Allocator>(core: &mut Core<V, A>, event: Event<V>) -> Answer<V>
    ensures { LoadingStep V.is_clone core.old event result core.new }
{
    match event {
        Event::Create => core.create(),
        Event::Join(waiter) => core.join(waiter),
        Event::Fill(value) => core.fill(value),
        Event::Abandon => core.abandon(),
        Event::Take(waiter) => core.take(waiter),
        Event::TimeOut(waiter) => core.time_out(waiter),
        Event::Cancel(waiter) => core.cancel(waiter),
        Event::Leave => core.leave(),
    }
}

/// Gives the guard up, as the event `Abandon` does. It makes no clone and takes no memory, so a drop
/// can call it.
pub fn abandon<V: Drop, A: Allocator>(core: &mut Core<V, A>) -> Answer<V>
    ensures step { LoadingStep ShowsNothing core.old Event.Abandon result core.new }
    ensures row { LoadingRow ShowsNothing Event.Abandon core.old result core.new }
    ensures last { HandsToLast result core.old core.new }

    ensures guards { held_count core.new + done_by result ≡ held_count core.old }
    ensures no_guard { given_by result ≡ 0 }
    ensures one_guard { HasOneGuard core.new }
    ensures at_most_one { held_count core.new ≤ 1 }

    ensures not_now { is_not_now result ≡ (held_count core.old == 0) }
    ensures unchanged { only_tells result ≡ true → core.new ≡ core.old }
    ensures value { value_of core.new.life ≡ value_of core.old.life }

    ensures given_up { is_given_up core.new.life
        ≡ given_up_after (is_given_up core.old.life) result }
    ensures alone { result ≡ Answer.GivenUp → waiters_of core.old.life ≡ [] }
    ensures ended { result ≡ Answer.GivenUp → core.new ≡ new_core }
    ensures stays { KeepsWaiters Event.Abandon result core.old core.new }
{
    core.abandon()
}

/// Withdraws a waiter, as the event `Cancel` does. It makes no clone and takes no memory, so a drop
/// can call it.
pub fn cancel<V: Drop, A: Allocator>(core: &mut Core<V, A>, waiter: u64) -> Answer<V>
    ensures step { LoadingStep ShowsNothing core.old (Event.Cancel waiter) result core.new }
    ensures row { LoadingRow ShowsNothing (Event.Cancel waiter) core.old result core.new }
    ensures last { HandsToLast result core.old core.new }

    ensures guards { held_count core.new ≡ held_count core.old }
    ensures no_guard { given_by result ≡ 0 }
    ensures one_guard { HasOneGuard core.new }
    ensures at_most_one { held_count core.new ≤ 1 }

    ensures not_now { is_not_now result ≡ not (concerns waiter core.old.life) }
    ensures unchanged { only_tells result ≡ true → core.new ≡ core.old }
    ensures value { value_of core.new.life ≡ value_of core.old.life }

    ensures given_up { is_given_up core.new.life
        ≡ given_up_after (is_given_up core.old.life) result }
    ensures alone { result ≡ Answer.GivenUp → waiters_of core.old.life ≡ [] }
    ensures ended { result ≡ Answer.GivenUp → core.new ≡ new_core }
    ensures stays { KeepsWaiters (Event.Cancel waiter) result core.old core.new }
{
    core.cancel(waiter)
}

/// Makes the events happen in turn, and gives their answers, in a clone of the events' allocator.
///
/// Room for the answers is made first: where that is refused, no event happens and the core is
/// unchanged. A list of no event is refused only where the allocator cannot be cloned.
pub fn run<V: Clone, A: Allocator + Clone>(
    core: &mut Core<V, A>,
    events: Vec<Event<V>, A>,
) -> Result<Vec<Answer<V>, A>, Refusal>
    ensures run { IfOk result (λ answers.
        LoadingRun V.is_clone core.old events.items answers.items core.new) }
    ensures answered { IfOk result (λ answers. vec_len answers ≡ vec_len events) }

    // Over every schedule, from any core: the guards held after it are those held before it and
    // the guards out, which are those given less those taken back.
    ensures guards { IfOk result (λ answers.
        held_count core.new + guards_taken events.items answers.items
        ≡ held_count core.old + guards_given answers.items) }
    ensures one_guard { HasOneGuard core.new }
    ensures at_most_one { held_count core.new ≤ 1 }

    ensures shows { IfOk result (λ answers.
        ShowsTheFill V.is_clone (value_of core.old.life) events.items answers.items) }
    ensures none_joins { IfOk result (λ answers.
        NoneJoinsGivenUp (is_given_up core.old.life) answers.items) }
    // Each waiter is watched, from the start or from its `Joined` on, until it is let go.
    ensures alone { IfOk result (λ answers. (n : ℕ)
        → NoGiveUpWhileWaiting n (waits n core.old) events.items answers.items) }
    ensures stays { IfOk result (λ answers. (n : ℕ)
        → waits_at_end n (waits n core.old) events.items answers.items ≡ true
        → waits n core.new ≡ true) }

    // Refused, no event has happened. Without an event it takes no memory.
    ensures unchanged { OnErr result (core.new ≡ core.old) }
    ensures succeeds { A.is_infallible (vec_allocator events) → vec_len events ≡ 0
        → IsOk result }
    ensures refused { IfErr result (λ refusal. refusal ≡ Refusal.Memory) }
{
    let Ok(alloc) = events.allocator().clone() else {
        return Err(Refusal::Memory);
    };
    let mut answers = Vec::new(alloc);
    if answers.reserve(events.len()).is_err() {
        return Err(Refusal::Memory);
    }
    for event in events {
        answers.push_reserved(step(core, event));
    }
    Ok(answers)
}

/// A law of the definitions alone: the table of the core by rows and the table by cases are one.
pub fn tables_agree<V: Clone>()
    ensures { TablesAgree V.is_clone }
{}
