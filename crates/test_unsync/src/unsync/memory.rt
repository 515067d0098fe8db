//! What a cache asks of its allocator: nothing where a call takes no memory, and not much more than
//! it needs.
use crate::asked::{Ask, Said, answers, inserts};
use bumpalo::Bump;
use quick_cache_unsync::Cache;
use test_tools::{Rationed, expect, expect_eq, expect_ok};

/// A number of blocks that no test uses up.
const BLOCKS: u64 = 1000000;

#[test]
fn what_takes_no_memory_asks_for_none(rt: HostRuntime) {
    let ration = Rationed::new(rt.alloc(), BLOCKS);
    let mut cache = expect_ok!(rt; Cache::new(&ration, 100));
    inserts(&rt, &mut cache, 0..100);
    expect!(rt; ration.left() < BLOCKS);
    ration.allow(BLOCKS);
    for key in 0..100 {
        let row = &[
            (Ask::Insert(key, 7), Said::Done),
            (Ask::Get(key), Said::Value(7)),
            (Ask::Get(1000), Said::Nothing),
            (Ask::Peek(key), Said::Value(7)),
            (Ask::Contains(key), Said::Is(true)),
        ];
        answers(&rt, &mut cache, row);
    }
    for key in 0..100 {
        let row = &[
            (Ask::Remove(key), Said::Pair(key, 7)),
            (Ask::Remove(key), Said::Nothing),
        ];
        answers(&rt, &mut cache, row);
    }
    expect_eq!(rt; ration.left(), BLOCKS);
}

#[test]
fn new_pairs_take_the_room_of_those_that_left(rt: HostRuntime) {
    let ration = Rationed::new(rt.alloc(), BLOCKS);
    let mut cache = expect_ok!(rt; Cache::new(&ration, 100));
    inserts(&rt, &mut cache, 0..1000);
    ration.allow(0);
    inserts(&rt, &mut cache, 1000..2000);
    expect_eq!(rt; cache.len(), 100);
}

/// The bytes of the arena, which has room for all that a test asks for.
const ARENA: usize = 1 << 26;

/// The bytes that an entry needs: its pair, weight, marks and reads, and what finds it.
const ENTRY: usize = 64;

/// The bytes that blocks lose where they are laid out in an arena: less than 8 for each of ten.
const LAYOUT: usize = 80;

#[test]
fn memory_used_tells_what_is_allocated(rt: HostRuntime) {
    for entries in [1, 10, 1000, 10000] {
        let arena = expect_ok!(rt; Bump::try_with_capacity(rt.alloc(), ARENA));
        let first = arena.chunk_capacity();
        let mut cache = expect_ok!(rt; Cache::new(&arena, 10000));
        expect_ok!(rt; cache.reserve(entries));
        let asked = first.saturating_sub(arena.chunk_capacity());
        let used = cache.memory_used().total();
        let lost = asked.saturating_sub(used);
        expect_eq!(rt; (entries, asked, used, used <= asked), (entries, asked, used, true));
        expect_eq!(rt; (entries, lost, lost < LAYOUT), (entries, lost, true));
        inserts(&rt, &mut cache, 0..1);
        expect_eq!(rt; cache.memory_used().total(), used);
    }
}

/// The bytes of an entry of two numbers in a cache that has room for a quarter of entries more.
const WITH_ROOM: usize = 90;

#[test]
fn a_cache_has_room_for_a_quarter_of_its_entries_at_most(rt: HostRuntime) {
    let mut cache = expect_ok!(rt; Cache::new(rt.alloc(), 10000));
    for key in 0..10000 {
        inserts(&rt, &mut cache, key..key + 1);
        let used = cache.memory_used().entries;
        let is_little = used <= cache.len().saturating_add(5).saturating_mul(WITH_ROOM);
        expect_eq!(rt; (key, used, is_little), (key, used, true));
    }
}

#[test]
fn a_growth_asks_for_at_most_four_times_its_need(rt: HostRuntime) {
    let arena = expect_ok!(rt; Bump::try_with_capacity(rt.alloc(), ARENA));
    let first = arena.chunk_capacity();
    let mut cache = expect_ok!(rt; Cache::new(&arena, 10000));
    for key in 0..10000 {
        let before = arena.chunk_capacity();
        inserts(&rt, &mut cache, key..key + 1);
        let asked = before.saturating_sub(arena.chunk_capacity());
        let needed = cache.len().saturating_add(4).saturating_mul(ENTRY);
        let is_modest = asked <= needed.saturating_mul(4);
        expect_eq!(rt; (key, asked, is_modest), (key, asked, true));
    }
    let before = arena.chunk_capacity();
    // The arena counts: it has given at least the pairs' own bytes.
    expect!(rt; first.saturating_sub(before) >= 160000);
    let copy = expect_ok!(rt; cache.try_clone());
    let asked = before.saturating_sub(arena.chunk_capacity());
    expect_eq!(rt; (asked, asked <= ENTRY * 10000 * 4), (asked, true));
    expect_eq!(rt; copy.len(), 10000);
}
