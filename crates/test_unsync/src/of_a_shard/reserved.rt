//! Room that was reserved: so many inserts ask for no memory, and a refused one can be made again.
use quick_cache_unsync::{Cache, DefaultHashBuilder, DefaultLifecycle, Refusal, UnitWeighter};
use std::alloc::Global;
use test_tools::{Rationed, expect, expect_eq, expect_ok};

type RationedCache<'a> = Cache<
    u64,
    u64,
    UnitWeighter,
    DefaultHashBuilder,
    DefaultLifecycle<u64, u64>,
    &'a Rationed<Global>,
>;

/// Draws one more number into many.
fn drawn(many: u64, number: u64) -> u64 {
    many.wrapping_mul(31).wrapping_add(number)
}

/// All that can be seen of a cache: its counts, and the keys and the marks of both rings and the
/// ghosts in their order, drawn together into one number.
fn seen_of(cache: &RationedCache<'_>) -> [u64; 5] {
    let shard = cache.shard();
    let mut order = shard.iter_hot().len() as u64;
    for (key, _, mark) in shard.iter_hot() {
        order = drawn(drawn(order, *key), mark as u64);
    }
    for (key, _, mark) in shard.iter_cold() {
        order = drawn(drawn(order, *key), mark as u64);
    }
    for hash in shard.iter_ghosts() {
        order = drawn(order, hash);
    }
    let (len, weight) = (cache.len() as u64, cache.weight());
    [len, weight, cache.hits(), cache.misses(), order]
}

/// Inserts new keys up to the first that is refused. Gives that key, and whether the refusal left
/// all that can be seen as it was.
fn first_refused(cache: &mut RationedCache<'_>) -> Option<(u64, bool)> {
    for key in 100..1100 {
        let before = seen_of(cache);
        if cache.insert(key, key) == Err((key, key, Refusal::Memory)) {
            return Some((key, seen_of(cache) == before));
        }
    }
    None
}

#[test]
fn reserved_room_needs_no_memory(rt: HostRuntime) {
    let ration = Rationed::new(rt.alloc(), 100);
    let mut cache: RationedCache<'_> = expect_ok!(rt; Cache::new(&ration, 1000));
    expect_eq!(rt; cache.reserve(3), Ok(()));
    ration.allow(0);
    for key in 1..=3 {
        expect_eq!(rt; cache.insert(key, key), Ok(()));
    }
    // An insert was refused, which changed nothing.
    let (refused, is_as_before) = first_refused(&mut cache).expect(&rt, "a refusal");
    expect!(rt; is_as_before);
    let len = cache.len();
    expect_eq!(rt; len as u64, refused.saturating_sub(97));
    expect!(rt; !cache.contains_key(&refused));
    expect_eq!(rt; cache.peek(&3).copied(), Some(3));
    expect_eq!(rt; cache.reserve(1), Err(Refusal::Memory));
    ration.allow(100);
    expect_eq!(rt; cache.insert(refused, 7), Ok(()));
    expect_eq!(rt; cache.peek(&refused).copied(), Some(7));
}
