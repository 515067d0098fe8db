//! The slab's row, and seventy thousand items in one ring: no token ends at sixteen bits.
use quick_cache_base::linked_slab::{LinkedSlab, Token};
use std::alloc::Global;
use std::process::Abort;
use test_tools::{expect, expect_eq, expect_ok};

type Slab = LinkedSlab<u32>;

// Stores an item, and tells its token.
fn store(rt: &impl Abort, slab: &mut Slab, item: u32) -> u32 {
    expect_ok!(rt; slab.insert(item)).get()
}

// Puts a ring of one before a head, and tells the answer.
fn join(slab: &mut Slab, token: u32, head: u32) -> Option<u32> {
    let token = Token::new(token)?;
    let head = Token::new(head)?;
    slab.get(head)?;
    let (_, next) = slab.get(token)?;
    if next.get() != token.get() || head.get() == token.get() {
        return None;
    }
    Some(slab.link(token, Some(head)).get())
}

// Takes an occupied token out of its ring, and tells the answer.
fn part(slab: &mut Slab, token: u32) -> Option<Option<u32>> {
    let token = Token::new(token)?;
    slab.get(token)?;
    Some(slab.unlink(token).map(|next| next.get()))
}

// The item at a token, and its successor.
fn look(slab: &Slab, token: u32) -> Option<(u32, u32)> {
    let (item, next) = slab.get(Token::new(token)?)?;
    Some((*item, next.get()))
}

// Takes an item out, and tells it and the answer.
fn take(slab: &mut Slab, token: u32) -> Option<(u32, Option<u32>)> {
    let (item, next) = slab.remove(Token::new(token)?)?;
    Some((item, next.map(|next| next.get())))
}

// Walks a ring until it closes, and notes its tokens, which were in no ring before.
fn walk(rt: &impl Abort, slab: &Slab, start: Token, seen: &mut Vec<u32>) {
    let mut token = start;
    for _ in 0..slab.len() {
        let is_in_two_rings = seen.contains(&token.get());
        expect_eq!(rt; (token.get(), is_in_two_rings), (token.get(), false));
        expect_ok!(rt; seen.push(token.get()));
        let (_, next) = slab.get(token).expect(rt, "a ring has a free token");
        if next.get() == start.get() {
            return;
        }
        token = next;
    }
    panic!(rt; "a ring that does not close")
}

// Each ring closes, each item is in one ring, `len` counts them, and the next free token has none.
fn validate(rt: &impl Abort, alloc: Global, slab: &Slab) {
    let mut items = 0usize;
    for _ in slab.iter_entries() {
        items = items.saturating_add(1);
    }
    expect_eq!(rt; items, slab.len());
    let mut seen = Vec::new(alloc);
    for (token, item) in slab.iter_from(None) {
        expect_eq!(rt; look(slab, token.get()).map(|found| found.0), Some(*item));
        if !seen.contains(&token.get()) {
            walk(rt, slab, token, &mut seen);
        }
    }
    expect_eq!(rt; seen.len(), slab.len());
    expect!(rt; slab.get(slab.next_free()).is_none());
}

// Stores items, each of which comes to its token.
fn fill(rt: &impl Abort, slab: &mut Slab, rows: &[(u32, u32)]) {
    for (item, token) in rows {
        expect_eq!(rt; store(rt, slab, *item), *token);
    }
}

// Links three items, and takes one out of its ring.
fn link_and_unlink(rt: &impl Abort, alloc: Global, slab: &mut Slab) {
    for token in [2, 3] {
        expect_eq!(rt; join(slab, token, 1), Some(1));
    }
    validate(rt, alloc, slab);
    for (token, item, next) in [(1, 10, 2), (2, 20, 3), (3, 30, 1)] {
        expect_eq!(rt; (token, look(slab, token)), (token, Some((item, next))));
    }
    expect_eq!(rt; part(slab, 1), Some(Some(2)));
    expect_eq!(rt; look(slab, 1), Some((10, 1)));
}

// Takes the items 2 and 3 out, and what is not there.
fn remove(rt: &impl Abort, alloc: Global, slab: &mut Slab) {
    for (token, taken) in [
        (2, Some((20, Some(3)))),
        (3, Some((30, None))),
        (9, None),
        (3, None),
    ] {
        expect_eq!(rt; (token, take(slab, token)), (token, taken));
        validate(rt, alloc, slab);
    }
}

#[test]
fn links_unlinks_and_removes(rt: HostRuntime) {
    let (rt, alloc) = (&rt, rt.alloc());
    let mut slab = expect_ok!(rt; LinkedSlab::with_capacity(alloc, 3));
    fill(rt, &mut slab, &[(10, 1), (20, 2), (30, 3)]);
    link_and_unlink(rt, alloc, &mut slab);
    remove(rt, alloc, &mut slab);
    fill(rt, &mut slab, &[(40, 3), (50, 2)]);
    validate(rt, alloc, &slab);
    expect_eq!(rt; slab.next_free().get(), 4);
}

// How many items a test of many has.
const MANY: u32 = 70000;

// Fills a slab with many items, the item 1 under the token 1 and so on, all in one ring.
fn fill_ring(rt: &impl Abort, slab: &mut Slab) {
    for item in 1..=MANY {
        expect_eq!(rt; store(rt, slab, item), item);
        if item > 1 {
            expect_eq!(rt; join(slab, item, 1), Some(1));
        }
    }
}

#[test]
fn seventy_thousand_items_stand_in_one_ring(rt: HostRuntime) {
    let mut slab = expect_ok!(rt; LinkedSlab::with_capacity(rt.alloc(), 0));
    fill_ring(&rt, &mut slab);
    expect_eq!(rt; slab.len(), MANY as usize);
    for token in 1..=MANY {
        let next = token % MANY + 1;
        expect_eq!(rt; look(&slab, token), Some((token, next)));
    }
}
