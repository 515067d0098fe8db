//! A loader whose keys are texts, which is asked by borrowed ones, and looked into.
use read_through::{ReadThrough, Refusal, Stats, Text, TextIn};
use std::alloc::Global;
use std::sync::atomic::{AtomicU64, Ordering};
use test_tools::{Rationed, expect_eq, expect_ok};

#[test]
fn a_text_that_finds_a_value_is_not_copied(rt: HostRuntime) {
    let ration = Rationed::new(rt.alloc(), 0);
    let calls = AtomicU64::new(0);
    let ages: ReadThrough<String<&Rationed<Global>>, u64, _> = expect_ok!(rt; ReadThrough::new(
        rt.alloc(),
        8,
        10,
        |_name: &String<&Rationed<Global>>, now: u64| {
            calls.fetch_add(1, Ordering::SeqCst);
            now
        },
    ));
    // A name, how many copies can be made, a moment, the answer, and the loads so far.
    let rows = [
        ("anna", 9, 5, Ok(5), 1),
        ("anna", 0, 14, Ok(5), 1),
        ("ann", 0, 14, Err(Refusal::Memory), 1),
        ("anna", 0, 15, Err(Refusal::Memory), 1),
        ("anna", 9, 15, Ok(15), 2),
    ];
    for (name, copies, now, answer, count) in rows {
        ration.allow(copies);
        let got = ages.get_by(&rt, &TextIn::new(&ration, name), now);
        expect_eq!(rt; (now, got, calls.load(Ordering::SeqCst)), (now, answer, count));
    }
}

#[test]
fn a_peek_loads_nothing_and_counts_nothing(rt: HostRuntime) {
    let ages: ReadThrough<String, u64, _> =
        expect_ok!(rt; ReadThrough::new(rt.alloc(), 8, 10, |_name: &String, now: u64| now));
    expect_eq!(rt; ages.peek(&rt, &Text("anna"), 5), Ok(None));
    expect_eq!(rt; ages.get_by(&rt, &TextIn::new(rt.alloc(), "anna"), 5), Ok(5));
    for (name, now, found) in [("anna", 14, Some(5)), ("anna", 15, None), ("ann", 14, None)] {
        expect_eq!(rt; (now, ages.peek(&rt, &Text(name), now)), (now, Ok(found)));
    }
    let stats = Stats {
        entries: 1,
        weight: 1,
        capacity: 8,
        hits: 0,
        misses: 1,
        expired: 0,
        loads: 1,
        failed_loads: 0,
    };
    expect_eq!(rt; ages.stats(&rt), stats);
}
