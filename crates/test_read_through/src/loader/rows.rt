//! What a loader with its cache answers, and how often it is called.
use crate::loader::hundreds::{first_wrong, hundreds};
use read_through::{ReadThrough, Stats};
use std::sync::Barrier;
use std::sync::atomic::{AtomicU64, Ordering};
use std::thread::join;
use test_tools::{expect, expect_eq, expect_ok};

#[test]
fn loads_once_while_fresh(rt: HostRuntime) {
    // The capacity, the life, and gets of the key 1: the moment, the answer, the loads so far.
    let rows: [(usize, u64, &[(u64, u64, u64)]); 4] = [
        (
            8,
            10,
            &[
                (5, 105, 1),
                (14, 105, 1),
                (15, 115, 2),
                (3, 115, 2),
                (24, 115, 2),
                (25, 125, 3),
            ],
        ),
        (8, 0, &[(5, 105, 1), (5, 105, 2)]),
        (8, u64::MAX, &[(5, 105, 1), (u64::MAX, 105, 1)]),
        (0, 10, &[(5, 105, 1), (6, 106, 2)]),
    ];
    for (capacity, life, gets) in rows {
        let calls = AtomicU64::new(0);
        let loaded: ReadThrough<u64, u64, _> = expect_ok!(rt; ReadThrough::new(
            rt.alloc(),
            capacity,
            life,
            |key: &u64, now: u64| {
                calls.fetch_add(1, Ordering::SeqCst);
                hundreds(*key, now)
            },
        ));
        let wrong = first_wrong(&rt, &loaded, &calls, gets);
        expect_eq!(rt; (capacity, life, wrong), (capacity, life, None));
    }
}

#[test]
fn two_threads_that_ask_at_once_load_once(rt: HostRuntime) {
    let calls = AtomicU64::new(0);
    let loaded: ReadThrough<u64, u64, _> = expect_ok!(rt; ReadThrough::new(
        rt.alloc(),
        8,
        10,
        |key: &u64, now: u64| {
            calls.fetch_add(1, Ordering::SeqCst);
            hundreds(*key, now)
        },
    ));
    let both = Barrier::new(2);
    let (rt, loaded, both) = (&rt, &loaded, &both);
    let ask = || {
        both.wait(rt);
        loaded.get(rt, &2, 1)
    };
    expect_eq!(rt; join(rt, ask, ask), (Ok(201), Ok(201)));
    expect_eq!(rt; calls.load(Ordering::SeqCst), 1);
}

#[test]
fn what_is_removed_is_loaded_anew(rt: HostRuntime) {
    let loaded: ReadThrough<u64, u64, _> = expect_ok!(rt; ReadThrough::new(
        rt.alloc(),
        8,
        10,
        |key: &u64, now: u64| hundreds(*key, now),
    ));
    for now in [5, 6, 15] {
        expect_ok!(rt; loaded.get(&rt, &1, now));
    }
    // The first found nothing, the second was a hit, and the third found what is too old.
    let stats = Stats {
        entries: 1,
        weight: 1,
        capacity: 8,
        hits: 1,
        misses: 2,
        expired: 1,
        loads: 2,
        failed_loads: 0,
    };
    expect_eq!(rt; (loaded.len(&rt), loaded.stats(&rt)), (1, stats));
    let removed = loaded.remove(&rt, &1).map(|it| (it.value, it.moment));
    expect_eq!(rt; (removed, loaded.len(&rt)), (Some((115, 15)), 0));
    expect!(rt; loaded.remove(&rt, &1).is_none());
    expect_eq!(rt; loaded.get(&rt, &1, 16), Ok(116));
    // What is put in was loaded at that moment, so to say.
    expect_eq!(rt; (loaded.put(&rt, 1, 7, 20), loaded.get(&rt, &1, 29)), (Ok(()), Ok(7)));
}

#[test]
fn an_error_is_stored_nowhere(rt: HostRuntime) {
    let loaded: ReadThrough<u64, u64, _> = expect_ok!(rt; ReadThrough::new(
        rt.alloc(),
        8,
        10,
        |key: &u64, now: u64| -> Result<u64, u64> {
            if now < 5 {
                Err(now)
            } else {
                Ok(hundreds(*key, now))
            }
        },
    ));
    for (now, answer) in [(3, Err(3)), (4, Err(4)), (5, Ok(105)), (3, Ok(105))] {
        expect_eq!(rt; (now, loaded.try_get(&rt, &1, now)), (now, Ok(answer)));
    }
    let stats = loaded.stats(&rt);
    expect_eq!(rt; (stats.loads, stats.failed_loads), (3, 2));
    let by = [
        loaded.try_get_by(&rt, &1, 14),
        loaded.try_get_by(&rt, &2, 4),
    ];
    expect_eq!(rt; by, [Ok(Ok(105)), Ok(Err(4))]);
}
