//! What the slab and the table ask of their allocator as they grow: not much more than they need.
use crate::table::{put, token};
use bumpalo::Bump;
use quick_cache_base::Table;
use quick_cache_base::linked_slab::LinkedSlab;
use test_tools::{expect, expect_eq, expect_ok};

/// The bytes of the arena, which has room for all that a test asks for.
const ARENA: usize = 1 << 24;

/// The bytes of a slot with a number: two links, and the number with its tag.
const SLOT: usize = 24;

/// The bytes of a pair of the table, with its tag and its part of a reach and of the free places.
const PAIR: usize = 16;

#[test]
fn a_growth_of_the_slab_asks_for_at_most_four_times_its_need(rt: HostRuntime) {
    let arena = expect_ok!(rt; Bump::try_with_capacity(rt.alloc(), ARENA));
    let first = arena.chunk_capacity();
    let mut slab = expect_ok!(rt; LinkedSlab::with_capacity(&arena, 0));
    for slots in 1..=10000usize {
        let before = arena.chunk_capacity();
        expect!(rt; slab.insert(slots).is_ok());
        let asked = before.saturating_sub(arena.chunk_capacity());
        let needed = slots.saturating_add(4).saturating_mul(SLOT);
        let is_modest = asked <= needed.saturating_mul(4);
        expect_eq!(rt; (slots, asked, is_modest), (slots, asked, true));
    }
    // The arena counts: it has given at least the slots' own bytes.
    expect!(rt; first.saturating_sub(arena.chunk_capacity()) >= 10000 * SLOT);
}

#[test]
fn a_growth_of_the_table_asks_for_at_most_four_times_its_need(rt: HostRuntime) {
    let arena = expect_ok!(rt; Bump::try_with_capacity(rt.alloc(), ARENA));
    let first = arena.chunk_capacity();
    let mut table = expect_ok!(rt; Table::new(&arena));
    for number in 1..=10000u32 {
        let before = arena.chunk_capacity();
        expect_ok!(rt; put(&mut table, u64::from(number) * 1000003, token(&rt, number)));
        let asked = before.saturating_sub(arena.chunk_capacity());
        // The least table has one group of sixteen places.
        let needed = (number as usize).saturating_add(16).saturating_mul(PAIR);
        let is_modest = asked <= needed.saturating_mul(4);
        expect_eq!(rt; (number, asked, is_modest), (number, asked, true));
    }
    expect!(rt; first.saturating_sub(arena.chunk_capacity()) >= 120000);
}
