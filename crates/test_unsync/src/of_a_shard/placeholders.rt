//! Placeholders of one shard: made, met, filled and given up.
ghost use Rattle.std.specs.Cmp.Rules.{comparing, hashing};
ghost use Rattle.std.proofs.Common.{rules};

use crate::of_a_shard::rows::{Tested, counts, empty, put, seen};
use quick_cache_shard::{Placeholder, Plainly};
use test_parts::counting::Told;
use test_tools::{expect_eq, expect_ok};

/// Begins to load a key under which no item stands. The flag says that the placeholder is new.
fn begins(shard: &mut Tested<u64, u64>, key: u64) -> Option<(Placeholder, bool)> {
    let hash = shard.hash(&key);
    match shard.get_or_placeholder(&Plainly, hash, &key) {
        Ok(Ok(_)) => None,
        Ok(Err(begun)) => Some(begun),
        Err(_) => None,
    }
}

/// Whether the next placeholder of a key is new.
fn is_new(shard: &mut Tested<u64, u64>, key: u64) -> Option<bool> {
    begins(shard, key).map(|(_, new)| new)
}

/// Fills a placeholder. A value that is not taken comes back.
fn fill(
    shard: &mut Tested<u64, u64>,
    told: &mut Told,
    placeholder: &Placeholder,
    value: u64,
) -> Result<(), u64> {
    shard.replace_placeholder(told, placeholder, false, value)
}

#[test]
fn a_placeholder_is_made_once_and_then_met(rt: HostRuntime) {
    let mut shard: Tested<u64, u64> = expect_ok!(rt; empty(rt.alloc(), 4));
    let new = [is_new(&mut shard, 1), is_new(&mut shard, 1)];
    expect_eq!(rt; (new, is_new(&mut shard, 2)), ([Some(true), Some(false)], Some(true)));
    expect_eq!(rt; counts(&shard), [1, 2, 0]);
}

#[test]
fn a_placeholder_is_filled_once(rt: HostRuntime) {
    let mut shard: Tested<u64, u64> = expect_ok!(rt; empty(rt.alloc(), 4));
    let mut told = Told::default();
    let (placeholder, _) = begins(&mut shard, 1).expect(&rt, "a placeholder");
    let first = fill(&mut shard, &mut told, &placeholder, 10);
    let new = is_new(&mut shard, 1);
    let second = fill(&mut shard, &mut told, &placeholder, 11);
    expect_eq!(rt; (first, new, second), (Ok(()), None, Err(11)));
    expect_eq!(rt; (seen(&shard, 1), told), ((Some(10), true), Told::default()));
}

#[test]
fn a_placeholder_that_was_written_over_is_gone(rt: HostRuntime) {
    let mut shard: Tested<u64, u64> = expect_ok!(rt; empty(rt.alloc(), 4));
    let mut told = Told::default();
    let (first, _) = begins(&mut shard, 1).expect(&rt, "a placeholder");
    let (second, _) = begins(&mut shard, 2).expect(&rt, "a placeholder");
    put(&rt, &mut shard, &mut told, &[(1, 10)]);
    expect_eq!(rt; fill(&mut shard, &mut told, &first, 11), Err(11));
    shard.remove_placeholder(&first);
    let met = is_new(&mut shard, 2);
    shard.remove_placeholder(&second);
    let new = is_new(&mut shard, 2);
    expect_eq!(rt; (met, new, shard.len()), (Some(false), Some(true), 1));
}
