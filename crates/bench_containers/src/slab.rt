//! The slab: one call runs a list of operations on a new one, and writes each answer.
use quick_cache_containers::linked_slab::{LinkedSlab, Token};
use std::alloc::Global;

/// What each slot holds, about as large as a cache's entry.
#[derive(Drop, Clone, Copy)]
struct Payload([u64; 8]);

const REFUSED: u64 = u64::MAX;

// Takes an occupied token out of its ring, puts it before the head, and tells the head.
fn move_to(slab: &mut LinkedSlab<Payload>, token: Token, head: Token) -> u64 {
    if slab.get(token).is_none() || slab.get(head).is_none() || head.get() == token.get() {
        return REFUSED;
    }
    let _ = slab.unlink(token);
    slab.link(token, Some(head)).get() as u64
}

fn insert(slab: &mut LinkedSlab<Payload>, value: u64) -> u64 {
    match slab.insert(Payload([value; 8])) {
        Ok(token) => token.get() as u64,
        Err(_) => REFUSED,
    }
}

fn look(slab: &LinkedSlab<Payload>, token: Token) -> u64 {
    match slab.get(token) {
        Some((item, next)) => item.0[0] ^ next.get() as u64,
        None => REFUSED,
    }
}

fn remove(slab: &mut LinkedSlab<Payload>, token: Token) -> u64 {
    match slab.remove(token) {
        Some((item, _)) => item.0[0],
        None => REFUSED,
    }
}

// Operation `i` is `kinds[i]` (0 get, 1 insert, 2 remove, else move) at `tokens[i]` and `heads[i]`;
// its answer goes to `answers[i]`.
fn run_all(
    alloc: Global,
    kinds: &[u8],
    tokens: &[u32],
    heads: &[u32],
    answers: &mut [u64],
) -> Option<u64> {
    let Ok(mut slab) = LinkedSlab::with_capacity(alloc, 0) else {
        return None;
    };
    let count = kinds
        .len()
        .min(tokens.len())
        .min(heads.len())
        .min(answers.len());
    for i in 0..count {
        let token = Token::new(tokens[i])?;
        let head = Token::new(heads[i])?;
        answers[i] = match kinds[i] {
            0 => look(&slab, token),
            1 => insert(&mut slab, tokens[i] as u64),
            2 => remove(&mut slab, token),
            _ => move_to(&mut slab, token, head),
        };
    }
    Some(count as u64)
}

#[unsafe(no_mangle)]
pub extern "C" fn slab_run(
    alloc: Global,
    kinds: &[u8],
    tokens: &[u32],
    heads: &[u32],
    answers: &mut [u64],
) -> u64 {
    run_all(alloc, kinds, tokens, heads, answers).unwrap_or(REFUSED)
}
