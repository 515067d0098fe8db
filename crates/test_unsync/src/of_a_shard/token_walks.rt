//! Walks of one shard by tokens, with other calls between their steps.
ghost use Rattle.std.specs.Cmp.Rules.{comparing, hashing};
ghost use Rattle.std.proofs.Common.{rules};

use crate::of_a_shard::rows::{Tested, empty, put, taken};
use test_parts::counting::Told;
use test_tools::{expect, expect_eq, expect_ok};

#[test]
fn a_walk_gives_each_key_that_stays_once(rt: HostRuntime) {
    let mut shard: Tested<u64, u64> = expect_ok!(rt; empty(rt.alloc(), 8));
    let mut told = Told::default();
    put(&rt, &mut shard, &mut told, &[(1, 10), (2, 20), (3, 30)]);
    let (mut keys, mut values, mut last) = (0u64, 0u64, None);
    for (token, key, value) in shard.iter_from(None) {
        (keys, values) = (
            keys.wrapping_mul(10).wrapping_add(*key),
            values.wrapping_mul(10).wrapping_add(*value),
        );
        last = Some(token);
    }
    expect_eq!(rt; (keys, values, shard.iter_from(last).next().is_none()), (123, 1230, true));
    let (first, key, value) = shard.remove_next(None).expect(&rt, "an item");
    expect_eq!(rt; (key, value), (1, 10));
    // It takes the slot that became free, behind which the walk is.
    put(&rt, &mut shard, &mut told, &[(9, 90)]);
    let two = taken(&mut shard, 2);
    let (second, key, value) = shard.remove_next(Some(first)).expect(&rt, "an item behind");
    expect_eq!(rt; (two, key, value), (Some((2, 20)), 3, 30));
    let is_last = shard.remove_next(Some(second)).is_none();
    expect_eq!(rt; (is_last, shard.len()), (true, 1));
}
