//! The names of `quick_cache::shard` that lend a value, and make placeholders and items.
use quick_cache::shard::{CacheShard, InsertStrategy, Marked, RefMut, TokenMut};
use quick_cache::unsync::{DefaultLifecycle, Placeholder, Plainly};
use quick_cache::{DefaultHashBuilder, Queue, UnitWeighter};
use test_tools::{expect, expect_eq, expect_ok};

type Dropping = DefaultLifecycle<u64, u64>;

type Shard = CacheShard<u64, u64, UnitWeighter, DefaultHashBuilder, Dropping, Placeholder>;

type ByQuery<'a> = RefMut<
    'a,
    u64,
    u64,
    u64,
    UnitWeighter,
    DefaultHashBuilder,
    Dropping,
    Placeholder,
>;

type ByToken<'a> = TokenMut<'a, u64, u64, UnitWeighter, DefaultHashBuilder, Dropping, Placeholder>;

/// Adds one to what stands under a key, by a look-up.
fn add_one(shard: &mut Shard, key: u64) -> bool {
    let hash = shard.hash(&key);
    let reference: Option<ByQuery<'_>> = shard.get_mut(hash, &key);
    let Some(mut reference) = reference else {
        return false;
    };
    *reference = reference.saturating_add(1);
    true
}

/// Adds one by a peek.
fn add_unseen(shard: &mut Shard, key: u64) -> bool {
    let hash = shard.hash(&key);
    let Some(mut reference) = shard.peek_mut(hash, &key) else {
        return false;
    };
    *reference = reference.saturating_add(1);
    true
}

/// Adds two, by one each way.
fn add_two(shard: &mut Shard, key: u64) -> bool {
    add_one(shard, key) && add_unseen(shard, key)
}

/// Doubles the value of the first item by token.
fn double_first(shard: &mut Shard) -> Option<u64> {
    let (token, _, _) = shard.iter_from(None).next()?;
    let mut reference: ByToken<'_> = shard.peek_token_mut(token)?;
    let doubled = reference.saturating_mul(2);
    *reference = doubled;
    Some(doubled)
}

/// Whether a placeholder was made for a key that is not there.
fn begins(shard: &mut Shard, key: u64) -> bool {
    let hash = shard.hash(&key);
    matches!(shard.get_or_placeholder(&Plainly, hash, &key), Ok(Err(_)))
}

/// What an item tells of itself.
fn told(item: &Marked<u64, u64, ()>) -> (u64, u64, u64, u8, u64, Queue) {
    (
        *item.key(),
        *item.value(),
        item.weight(),
        item.mark(),
        item.reads(),
        item.queue(),
    )
}

#[test]
fn shard_lends(rt: HostRuntime) {
    let mut shard: Shard = expect_ok!(rt; CacheShard::new(
        rt.alloc(),
        970000,
        500000,
        2,
        4,
        4,
        UnitWeighter,
        DefaultHashBuilder::new(),
        Dropping::new(),
    ));
    let absent = add_two(&mut shard, 1);
    let hash = shard.hash(&1u64);
    let done = shard
        .insert(&mut (), hash, 1, 10, InsertStrategy::Insert)
        .is_ok();
    let added = add_two(&mut shard, 1);
    let doubled = double_first(&mut shard);
    expect_eq!(rt;
        (absent, done, added, doubled),
        (false, true, true, Some(24))
    );
    expect_eq!(rt; (shard.hits(), shard.misses(), shard.weight()), (1, 1, 1));
    expect!(rt; begins(&mut shard, 2));
    let item = Marked::new(1u64, 10u64, 1, 0, Queue::Cold, ());
    expect_eq!(rt; told(&item), (1, 10, 1, 0, 0, Queue::Cold));
}
