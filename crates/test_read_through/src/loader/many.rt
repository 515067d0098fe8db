//! Many keys at once.
ghost use Rattle.std.specs.Prelude.{◌≡◌, IfOk, length, vec_len};

use crate::loader::hundreds::{all_hundreds, hundreds};
use read_through::{ReadThrough, Stats};
use std::alloc::AllocError;
use std::sync::atomic::{AtomicU64, Ordering};
use test_tools::{expect_eq, expect_ok};

/// The keys as one number.
fn digits(keys: &[u64]) -> u64 {
    let mut number: u64 = 0;
    for key in keys {
        number = number.wrapping_mul(10).wrapping_add(*key);
    }
    number
}

#[test]
fn what_serves_of_many_is_not_loaded(rt: HostRuntime) {
    let loaded: ReadThrough<u64, u64, _> =
        expect_ok!(rt; ReadThrough::new(rt.alloc(), 8, 10, |key: &u64, now: u64| hundreds(*key, now)));
    // The keys, a moment, the values, and the keys that are loaded.
    let rows: [(&[u64], u64, &[u64], u64); 5] = [
        (&[1, 2, 3], 5, &[105, 205, 305], 123),
        (&[3, 1], 14, &[305, 105], 0),
        (&[2, 4, 2, 4], 15, &[215, 415, 215, 415], 2424),
        (&[], 15, &[], 0),
        (&[4, 1], 20, &[415, 120], 1),
    ];
    for (keys, now, values, missing) in rows {
        let asked = AtomicU64::new(0);
        let load_all = |keys: &[u64]| -> Result<Vec<u64>, AllocError>
            ensures { IfOk result (λ values. vec_len values ≡ length keys.now) }
        {
            asked.store(digits(keys), Ordering::SeqCst);
            all_hundreds(rt.alloc(), keys, now)
        };
        let given = loaded.load_many(&rt, rt.alloc(), keys, now, load_all);
        let given = expect_ok!(rt; expect_ok!(rt; given));
        expect_eq!(rt; (given.as_slice(), asked.load(Ordering::SeqCst)), (values, missing));
    }
    let stats = Stats {
        entries: 4,
        weight: 4,
        capacity: 8,
        hits: 3,
        misses: 8,
        expired: 3,
        loads: 3,
        failed_loads: 0,
    };
    expect_eq!(rt; loaded.stats(&rt), stats);
    let failed = loaded.load_many(&rt, rt.alloc(), &[1, 9], 20, |_keys: &[u64]| Err(7u64));
    expect_eq!(rt; (failed.map(|given| given.err()), loaded.len(&rt)), (Ok(Some(7)), 4));
}
