//! Each name that `quick_cache` gives on, by itself: no other crate of the cache is named here.
ghost use Rattle.std.specs.Cmp.Rules.{comparing, hashing};
ghost use Rattle.std.proofs.Common.{rules};

mod given_on;
mod lending;
mod one_thread;
mod parts;

use quick_cache::shard::{
    CacheShard, Drain, EntryAction, EntryOrPlaceholder, GhostIter, InsertStrategy, Iter, IterFrom,
    MakesPlaceholders, RingIter, SharedPlaceholder, Touches,
};
use quick_cache::sync::{Cache, DefaultLifecycle, EntryAction as Choice, EntryResult, GuardResult};
use quick_cache::unsync::{DefaultLifecycle as Dropping, Placeholder};
use quick_cache::{DefaultHashBuilder, UnitWeighter};
use std::sync::Wait;
use std::time::Clock;
use test_tools::{expect, expect_eq, expect_ok};

type Shard = CacheShard<
    u64,
    u64,
    UnitWeighter,
    DefaultHashBuilder,
    Dropping<u64, u64>,
    Placeholder,
>;

/// How many items are hot, how many there are, how many ghosts, and the first key by token.
fn counts_of(shard: &Shard) -> ([usize; 3], Option<u64>) {
    let hot: RingIter<'_, u64, u64, Placeholder> = shard.iter_hot();
    let all: Iter<'_, u64, u64, Placeholder> = shard.iter();
    let ghosts: GhostIter<'_, u64, u64, Placeholder> = shard.iter_ghosts();
    let mut by_token: IterFrom<'_, u64, u64, Placeholder> = shard.iter_from(None);
    let first = by_token.next().map(|(_, key, _)| *key);
    ([hot.len(), all.len(), ghosts.len()], first)
}

/// Whether an entry call takes out the item under 1.
fn takes_out<P: SharedPlaceholder<u64>, N: MakesPlaceholders<u64, P>>(
    shard: &mut CacheShard<u64, u64, UnitWeighter, DefaultHashBuilder, Dropping<u64, u64>, P>,
    maker: &N,
) -> bool {
    let key = 1u64;
    let hash = shard.hash(&key);
    let mut remove = |_: &u64, _: &mut u64| EntryAction::<()>::Remove;
    let outcome = shard.entry_or_placeholder(maker, hash, &key, &mut remove);
    matches!(outcome, Ok(EntryOrPlaceholder::Removed(_, _)))
}

/// Whether an insert took the pair.
fn puts(shard: &mut Shard, key: u64, value: u64) -> bool {
    let hash = shard.hash(&key);
    shard
        .insert(&mut (), hash, key, value, InsertStrategy::Insert)
        .is_ok()
}

/// The first pair that a shard gives out.
fn first_drained(shard: &mut Shard) -> Option<(u64, u64)> {
    let mut drain: Drain<
        '_,
        u64,
        u64,
        UnitWeighter,
        DefaultHashBuilder,
        Dropping<u64, u64>,
        Placeholder,
    > = shard.drain();
    drain.next()
}

/// How many touches an item begins with.
fn first_touches<T: Touches>(touches: &T) -> u64 {
    touches.seen()
}

/// The same by the placeholder of a shard.
fn touches_by<P: SharedPlaceholder<u64>>() -> u64 {
    first_touches(&P::Touch::default())
}

#[test]
fn shard_has_its_names(rt: HostRuntime) {
    let mut shard: Shard = expect_ok!(rt; CacheShard::new(
        rt.alloc(),
        970000,
        500000,
        2,
        4,
        4,
        UnitWeighter,
        DefaultHashBuilder::new(),
        Dropping::new(),
    ));
    let done = puts(&mut shard, 1, 10);
    let counts = counts_of(&shard);
    expect_eq!(rt;
        (
            done,
            touches_by::<Placeholder>(),
            counts,
            first_drained(&mut shard)
        ),
        (true, 0, ([1, 1, 0], Some(1)), Some((1, 10)))
    );
}

/// Whether a guard of 1 takes a value in.
fn is_filled<R: Wait + Clock>(rt: &R, cache: &Cache<u64, u64>, value: u64) -> bool {
    match cache.get_value_or_guard(rt, &1, None) {
        GuardResult::Guard(guard) => guard.insert(value).is_ok(),
        _ => false,
    }
}

/// The pair that an entry call takes out.
fn goes<R: Wait + Clock>(rt: &R, cache: &Cache<u64, u64>) -> Option<(u64, u64)> {
    let callback = |_: &u64, _: &mut u64| -> Choice<()> { Choice::Remove };
    match cache.entry(rt, &1, None, callback) {
        EntryResult::Removed(key, value) => Some((key, value)),
        _ => None,
    }
}

#[test]
fn sync_has_its_names(rt: HostRuntime) {
    let cache: Cache<u64, u64> = expect_ok!(rt; Cache::with(
        rt.alloc(),
        2,
        2,
        UnitWeighter,
        DefaultHashBuilder::new(),
        DefaultLifecycle::new(),
    ));
    expect!(rt; is_filled(&rt, &cache, 10));
    expect_eq!(rt; cache.try_get(&1), Ok(Some(10)));
    expect_eq!(rt; goes(&rt, &cache), Some((1, 10)));
}
