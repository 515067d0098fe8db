//! A hot set that is read, and then a scan of a thousand fresh keys.
ghost use Rattle.std.specs.Prelude.{All, IfOk};
ghost use Rattle.quick_cache_runs.specs.Asked.{IfAsks};

use crate::Predicate;
use crate::asked::{Ask, Said, answers};
use quick_cache_runs::{Call, scan};
use quick_cache_unsync::Cache;
use std::alloc::{AllocError, Global};
use test_tools::{expect, expect_eq, expect_ok};

/// Inserts of a thousand keys, each with itself.
fn thousand_inserts(alloc: Global) -> Result<Vec<Call<u64, u64, Predicate>>, AllocError>
    ensures { IfOk result (λ calls. All (IfAsks (λ asked. ⊥)) calls.items) }
{
    let mut calls = Vec::new(alloc);
    for key in 1000..2000u64 {
        calls.push(Call::Insert(key, key))?;
    }
    Ok(calls)
}

#[test]
fn a_scan_of_a_thousand_keys_takes_no_hot_one(rt: HostRuntime) {
    let mut cache: Cache<u64, u64> = expect_ok!(rt; Cache::new(rt.alloc(), 100));
    for key in 0..97 {
        let row = &[
            (Ask::Insert(key, key), Said::Done),
            (Ask::Get(key), Said::Value(key)),
        ];
        answers(&rt, &mut cache, row);
    }
    let Ok(calls) = thousand_inserts(rt.alloc()) else {
        panic!(rt; "there is memory");
    };
    let replies = scan(rt.alloc(), &mut cache, calls, &mut ()).ok();
    let replies = replies.expect(&rt, "there is memory");
    expect_eq!(rt; (replies.len(), cache.len()), (1000, 100));
    expect!(rt; (0..97u64).all(|key| cache.contains_key(&key)));
}
