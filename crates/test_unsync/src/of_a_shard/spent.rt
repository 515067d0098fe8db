//! A shard whose tickets are spent: placeholders alone are refused.
ghost use Rattle.std.specs.Cmp.Rules.{comparing, hashing};
ghost use Rattle.std.proofs.Common.{rules};

use crate::of_a_shard::rows::{Tested, counts, put, seen};
use quick_cache_base::{Refusal, UnitWeighter};
use quick_cache_policy::{Contents, Terms};
use quick_cache_shard::{CacheShard, EntryAction, EntryOrPlaceholder, Plainly};
use std::alloc::Global;
use test_parts::counting::{Counting, Told};
use test_parts::thousand::Thousand;
use test_tools::{expect_eq, expect_ok};

/// An empty shard for four items, whose next ticket is this one.
fn with_ticket(alloc: Global, ticket: u64) -> Result<Tested<u64, u64>, Refusal> {
    let mut contents = Contents::new(alloc, 4, 2, 2, 2)?;
    contents.next_ticket = ticket;
    Ok(CacheShard::from_parts(
        contents,
        Terms {
            weigher: UnitWeighter,
            builder: Thousand,
            lifecycle: Counting,
        },
    ))
}

/// Why an entry call of a key has no answer, or whether it met a placeholder.
fn enters(shard: &mut Tested<u64, u64>, key: u64) -> Result<bool, Refusal> {
    let hash = shard.hash(&key);
    let mut keep = |_key: &u64, _value: &mut u64| EntryAction::Retain(());
    match shard.entry_or_placeholder(&Plainly, hash, &key, &mut keep)? {
        EntryOrPlaceholder::ExistingPlaceholder(_) => Ok(true),
        _ => Ok(false),
    }
}

#[test]
fn spent_tickets_refuse_placeholders_alone(rt: HostRuntime) {
    let mut shard = expect_ok!(rt; with_ticket(rt.alloc(), u64::MAX - 1));
    // The last ticket goes to a key that is then being loaded, and is met.
    let (first, other) = (enters(&mut shard, 2), enters(&mut shard, 1));
    let wanted = (Ok(false), Err(Refusal::TicketsSpent), Ok(true));
    expect_eq!(rt; (first, other, enters(&mut shard, 2)), wanted);
    let hash = shard.hash(&1u64);
    let begun = shard.get_or_placeholder(&Plainly, hash, &1u64);
    expect_eq!(rt; begun.err(), Some(Refusal::TicketsSpent));
    expect_eq!(rt; counts(&shard), [1, 1, 0]);
    put(&rt, &mut shard, &mut Told::default(), &[(1, 10)]);
    expect_eq!(rt; seen(&shard, 1), (Some(10), true));
}
