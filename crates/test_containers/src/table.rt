//! The table: a row of calls, and many pairs of one hash and of many.
use quick_cache_base::{Refusal, Table, Token};
use std::alloc::Allocator;
use std::process::Abort;
use test_tools::{expect_eq, expect_ok};

pub(crate) fn token(rt: &impl Abort, number: u32) -> Token {
    Token::new(number).expect(rt, "a token is not 0")
}

// As many pairs as there are tokens.
const MOST_PAIRS: usize = 4_294_967_294;

// A hash of its own for each number, all its bits in use.
fn spread(number: u32) -> u64 {
    u64::from(number).wrapping_mul(0x9E37_79B9_7F4A_7C15)
}

// Puts the pair into the table, unless it is there.
pub(crate) fn put<A: Allocator>(
    table: &mut Table<A>,
    hash: u64,
    token: Token,
) -> Result<(), Refusal> {
    if table.len() == MOST_PAIRS {
        return Err(Refusal::SlotsFull);
    }
    table.reserve(1)?;
    if table.find(hash, |other| other == token).is_none() {
        table.insert_reserved(hash, token);
    }
    Ok(())
}

#[test]
fn finds_and_removes_by_hash_and_token(rt: HostRuntime) {
    let one = token(&rt, 1);
    let two = token(&rt, 2);
    let mut table = expect_ok!(rt; Table::new(rt.alloc()));
    expect_ok!(rt; put(&mut table, 5, one));
    expect_ok!(rt; put(&mut table, 5, two));
    expect_ok!(rt; put(&mut table, 6, token(&rt, 3)));

    let mut tokens: Vec<u32> = expect_ok!(rt; table
        .iter_hash(5)
        .map(|token| token.get())
        .collect(rt.alloc()));
    expect_ok!(rt; tokens.sort());
    expect_eq!(rt; tokens.as_slice(), [1, 2].as_slice());

    // The pair was there, and then it was gone.
    expect_eq!(rt; [table.remove(5, one), table.remove(5, one)], [true, false]);
    for (hash, found) in [(5, Some(two)), (7, None)] {
        expect_eq!(rt; table.find(hash, |_| true), found);
    }
    expect_eq!(rt; table.len(), 2);
}

#[test]
fn keeps_a_thousand_pairs_of_one_hash(rt: HostRuntime) {
    let mut table = expect_ok!(rt; Table::new(rt.alloc()));
    for number in 1..=1000 {
        expect_ok!(rt; put(&mut table, 7, token(&rt, number)));
    }
    expect_eq!(rt; table.len(), 1000);
    for number in 1..=1000 {
        let wanted = token(&rt, number);
        expect_eq!(rt; table.find(7, |other| other == wanted), Some(wanted));
    }
    for number in 1..=1000 {
        expect_eq!(rt; (number, table.remove(7, token(&rt, number))), (number, true));
    }
    expect_eq!(rt; table.len(), 0);
    expect_eq!(rt; table.find(7, |_| true), None);
}

#[test]
fn keeps_seventy_thousand_pairs_of_as_many_hashes(rt: HostRuntime) {
    let mut table = expect_ok!(rt; Table::new(rt.alloc()));
    for number in 1..=70_000 {
        expect_ok!(rt; put(&mut table, spread(number), token(&rt, number)));
    }
    expect_eq!(rt; table.len(), 70_000);
    for number in 1..=70_000 {
        let wanted = token(&rt, number);
        expect_eq!(rt; table.find(spread(number), |_| true), Some(wanted));
    }
    expect_eq!(rt; table.find(spread(70_001), |_| true), None);
}
