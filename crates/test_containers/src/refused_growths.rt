//! Each allocation of the containers refused in turn: what they held stays, and the call succeeds
//! once there is memory.
use crate::table::put;
use quick_cache_base::linked_slab::LinkedSlab;
use quick_cache_base::{Refusal, Table, Token};
use test_tools::{Rationed, expect, expect_eq, expect_ok};

#[test]
fn a_slab_that_cannot_grow_keeps_its_items(rt: HostRuntime) {
    let ration = Rationed::new(rt.alloc(), 1);
    let mut slab = expect_ok!(rt; LinkedSlab::with_capacity(&ration, 1));
    expect!(rt; slab.insert(10u64).is_ok());
    expect_eq!(rt; slab.insert(20).err(), Some((20, Refusal::Memory)));
    expect!(rt; slab.reserve(1).is_err());
    expect_eq!(rt; slab.len(), 1);
    ration.allow(1);
    expect!(rt; slab.insert(20).is_ok());
    expect_eq!(rt; slab.len(), 2);
}

#[test]
fn a_table_that_cannot_grow_keeps_its_pairs(rt: HostRuntime) {
    let ration = Rationed::new(rt.alloc(), 0);
    // An empty table takes no memory.
    let mut table = expect_ok!(rt; Table::new(&ration));
    // A growth asks for the tags, the reaches, the hashes and the tokens, and keeps what it got.
    for blocks in 0..3 {
        ration.allow(blocks);
        expect!(rt; table.reserve(1) == Err(Refusal::Memory));
        expect_eq!(rt; table.len(), 0);
        expect!(rt; table.find(5, |_| true).is_none());
    }
    ration.allow(1);
    expect!(rt; table.reserve(1).is_ok());
}

#[test]
fn a_table_asks_for_no_more_room_than_there_are_tokens(rt: HostRuntime) {
    let ration = Rationed::new(rt.alloc(), 0);
    // An empty table takes no memory.
    let mut table = expect_ok!(rt; Table::new(&ration));
    expect!(rt; table.reserve(usize::MAX) == Err(Refusal::Memory));
    expect_eq!(rt; table.allocation_size(), 0);
    expect!(rt; table.reserve(0).is_ok());
}
