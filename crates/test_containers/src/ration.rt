//! The test allocator: what it hands out, and when it refuses.
use test_tools::{Rationed, expect, expect_eq};

#[test]
fn a_ration_is_spent_block_by_block(rt: HostRuntime) {
    let ration = Rationed::new(rt.alloc(), 0);
    let mut items = Vec::new(&ration);
    expect!(rt; items.push(1u64).is_err());
    expect_eq!(rt; items.len(), 0);
    ration.allow(2);
    expect!(rt; items.push(1u64).is_ok());
    expect_eq!(rt; ration.left(), 1);
    expect!(rt; items.reserve(1000).is_ok());
    expect_eq!(rt; ration.left(), 0);
    // It has the room, so it asks for no block.
    expect!(rt; items.push(2u64).is_ok());
    expect!(rt; items.reserve(1000000).is_err());
    expect_eq!(rt; items.len(), 2);
}
