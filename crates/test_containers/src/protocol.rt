//! The loading core on whole schedules: each begins with a new core, and its answers are known.
use bumpalo::Bump;
use quick_cache_base::Refusal;
use quick_cache_base::protocol::{Answer, Core, Event, abandon, cancel, run, step};
use test_tools::{expect, expect_eq, expect_ok};

/// An event of these schedules, which can be written down in a table.
#[derive(Clone, Copy)]
enum Happens {
    Create,
    Join(u64),
    Fill(u64),
    Abandon,
    Take(u64),
    TimeOut(u64),
    Cancel(u64),
    Leave,
}

impl Happens {
    fn of_core(self) -> Event<u64> {
        match self {
            Happens::Create => Event::Create,
            Happens::Join(waiter) => Event::Join(waiter),
            Happens::Fill(value) => Event::Fill(value),
            Happens::Abandon => Event::Abandon,
            Happens::Take(waiter) => Event::Take(waiter),
            Happens::TimeOut(waiter) => Event::TimeOut(waiter),
            Happens::Cancel(waiter) => Event::Cancel(waiter),
            Happens::Leave => Event::Leave,
        }
    }
}

/// A schedule: what it shows, and each event with its answer.
type Schedule = (&'static str, &'static [(Happens, Answer<u64>)]);

/// Whole schedules, each of a new core.
const SCHEDULES: [Schedule; 10] = [
    ("no event has no answer", &[]),
    (
        "an abandoned guard goes to the last waiter",
        &[
            (Happens::Create, Answer::Created),
            (Happens::Join(1), Answer::Joined),
            (Happens::Join(2), Answer::Joined),
            (Happens::Abandon, Answer::HandedTo(2)),
            (Happens::Fill(7), Answer::NotNow),
            (Happens::Join(2), Answer::NotNow),
        ],
    ),
    (
        "a waiter joins once, and a filled life shows its value",
        &[
            (Happens::Create, Answer::Created),
            (Happens::Join(1), Answer::Joined),
            (Happens::Join(1), Answer::NotNow),
            (Happens::Fill(7), Answer::Done),
            (Happens::Join(2), Answer::Value(7)),
            (Happens::Abandon, Answer::NotNow),
        ],
    ),
    (
        "a life that was given up can begin anew",
        &[
            (Happens::Join(1), Answer::NotNow),
            (Happens::Create, Answer::Created),
            (Happens::Abandon, Answer::GivenUp),
            (Happens::Create, Answer::Created),
            (Happens::Fill(5), Answer::Done),
            (Happens::Join(1), Answer::Value(5)),
            (Happens::Join(1), Answer::Value(5)),
        ],
    ),
    (
        "who timed out waits no more",
        &[
            (Happens::Create, Answer::Created),
            (Happens::Join(1), Answer::Joined),
            (Happens::Take(1), Answer::Waiting),
            (Happens::TimeOut(1), Answer::TimedOut),
            (Happens::Abandon, Answer::GivenUp),
        ],
    ),
    (
        "who times out takes the guard that was handed to it",
        &[
            (Happens::Create, Answer::Created),
            (Happens::Join(1), Answer::Joined),
            (Happens::Abandon, Answer::HandedTo(1)),
            (Happens::TimeOut(1), Answer::Guard),
            (Happens::Fill(7), Answer::Done),
            (Happens::Leave, Answer::Done),
            (Happens::Join(2), Answer::NotNow),
        ],
    ),
    (
        "outside the shard none joins, and a fill still shows",
        &[
            (Happens::Create, Answer::Created),
            (Happens::Leave, Answer::Done),
            (Happens::Join(1), Answer::NotNow),
            (Happens::Fill(3), Answer::Done),
            (Happens::Take(1), Answer::Value(3)),
        ],
    ),
    (
        "who cancels hands its guard on",
        &[
            (Happens::Create, Answer::Created),
            (Happens::Join(1), Answer::Joined),
            (Happens::Join(2), Answer::Joined),
            (Happens::Abandon, Answer::HandedTo(2)),
            (Happens::Cancel(2), Answer::HandedTo(1)),
            (Happens::Take(1), Answer::Guard),
            (Happens::Fill(9), Answer::Done),
        ],
    ),
    (
        "the last one to cancel gives up",
        &[
            (Happens::Create, Answer::Created),
            (Happens::Join(1), Answer::Joined),
            (Happens::Abandon, Answer::HandedTo(1)),
            (Happens::Cancel(1), Answer::GivenUp),
            (Happens::Join(3), Answer::NotNow),
        ],
    ),
    (
        "a held guard is handed on and withdrawn",
        &[
            (Happens::Create, Answer::Created),
            (Happens::Join(4), Answer::Joined),
            (Happens::Abandon, Answer::HandedTo(4)),
            (Happens::Cancel(4), Answer::GivenUp),
        ],
    ),
];

/// Whether the answers are those of a schedule, one for each event.
fn are_of(answers: &[Answer<u64>], schedule: &[(Happens, Answer<u64>)]) -> bool {
    for (answer, (_, wanted)) in answers.iter().zip(schedule.iter()) {
        if *answer != *wanted {
            return false;
        }
    }
    answers.len() == schedule.len()
}

#[test]
fn schedules_have_their_answers(rt: HostRuntime) {
    for (shown, schedule) in SCHEDULES {
        let mut events = Vec::new(rt.alloc());
        for (event, _) in schedule {
            expect_ok!(rt; events.push(event.of_core()));
        }
        let mut core: Core<u64> = Core::new(rt.alloc());
        let answers = expect_ok!(rt; run(&mut core, events));
        expect_eq!(rt; (shown, are_of(&answers, schedule)), (shown, true));
    }
}

/// A value that cannot be cloned: a drop abandons and cancels without a clone.
#[derive(Debug, PartialEq, Drop)]
struct Unique(u64);

#[test]
fn abandon_and_cancel_need_no_clone(rt: HostRuntime) {
    let mut core: Core<Unique> = Core::new(rt.alloc());
    expect!(rt; !core.is_held());
    expect!(rt; !core.has_waiters());
    expect_eq!(rt; abandon(&mut core), Answer::NotNow);
    expect_eq!(rt; cancel(&mut core, 1), Answer::NotNow);
}

/// An arena whose limit is 0 refuses all memory.
#[test]
fn a_join_without_memory_changes_nothing(rt: HostRuntime) {
    let arena = Bump::new(rt.alloc());
    arena.set_allocation_limit(Some(0));
    let mut core: Core<u64, &Bump> = Core::new(&arena);
    expect_eq!(rt; step(&mut core, Event::Create), Answer::Created);
    expect_eq!(rt;
        step(&mut core, Event::Join(1)),
        Answer::Refused(Refusal::Memory)
    );
    expect!(rt; !core.has_waiters());
    arena.set_allocation_limit(None);
    expect_eq!(rt; step(&mut core, Event::Join(1)), Answer::Joined);
    expect_eq!(rt; abandon(&mut core), Answer::HandedTo(1));
}

#[test]
fn a_run_without_room_makes_no_event_happen(rt: HostRuntime) {
    let arena = Bump::new(rt.alloc());
    let events = expect_ok!(rt; vec![in &arena; Event::Create]);
    arena.set_allocation_limit(Some(0));
    for _ in 0..1000 {
        let _ = arena.try_alloc(0u64);
    }
    let mut core: Core<u64, &Bump> = Core::new(&arena);
    expect_eq!(rt; run(&mut core, events).err(), Some(Refusal::Memory));
    expect!(rt; !core.is_held());
}

/// A life that is begun, joined, left and given up, over and over.
#[test]
fn seventy_thousand_events_have_as_many_answers(rt: HostRuntime) {
    let mut events = Vec::new(rt.alloc());
    for _ in 0..17500 {
        for event in [
            Happens::Create,
            Happens::Join(1),
            Happens::Cancel(1),
            Happens::Abandon,
        ] {
            expect_ok!(rt; events.push(event.of_core()));
        }
    }
    let mut core: Core<u64> = Core::new(rt.alloc());
    let answers = expect_ok!(rt; run(&mut core, events));
    expect_eq!(rt; answers.len(), 70_000);
    for at in 0..answers.len() {
        let wanted = match at % 4 {
            0 => Answer::Created,
            1 => Answer::Joined,
            2 => Answer::Done,
            _ => Answer::GivenUp,
        };
        expect_eq!(rt; (at, &answers[at]), (at, &wanted));
    }
}

#[test]
fn a_hundred_waiters_get_the_guard_from_the_last_to_the_first(rt: HostRuntime) {
    let mut core: Core<u64> = Core::new(rt.alloc());
    expect_eq!(rt; step(&mut core, Event::Create), Answer::Created);
    for waiter in 1..=100 {
        expect_eq!(rt; step(&mut core, Event::Join(waiter)), Answer::Joined);
    }
    for turn in 0..100 {
        let waiter = 100 - turn;
        expect_eq!(rt; abandon(&mut core), Answer::HandedTo(waiter));
        expect_eq!(rt; step(&mut core, Event::Take(waiter)), Answer::Guard);
    }
    expect!(rt; !core.has_waiters());
    expect_eq!(rt; abandon(&mut core), Answer::GivenUp);
}
