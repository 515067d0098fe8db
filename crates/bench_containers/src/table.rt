//! The table: one call fills a new one and goes over a list of hashes.
ghost use Rattle.std.specs.Prelude.{◌<◌, length};

use quick_cache_containers::Table;
use quick_cache_model::{Refusal, Token};
use std::alloc::Global;

// A table of the hashes, the first with token 1, with room for `room` pairs at least.
fn filled(alloc: Global, hashes: &[u64], room: usize) -> Result<Table, Refusal>
    requires { length hashes.now < 4294967294 }
{
    let mut table = Table::new(alloc)?;
    table.reserve(room.max(hashes.len()))?;
    let mut count = 0u32;
    for hash in hashes {
        count += 1;
        if let Some(token) = Token::new(count) {
            table.insert_reserved(*hash, token);
        }
    }
    Ok(table)
}

// The sum of the tokens that are found.
fn found(table: &Table, looked: &[u64]) -> u64 {
    let mut sum = 0u64;
    for hash in looked {
        if let Some(token) = table.find(*hash, |_| true) {
            sum = sum.wrapping_add(u64::from(token.get()));
        }
    }
    sum
}

// The same, where each pair that is found is taken out and put back.
fn moved(table: &mut Table, looked: &[u64]) -> u64 {
    let mut sum = 0u64;
    for hash in looked {
        if let Some(token) = table.find(*hash, |_| true) {
            if table.remove(*hash, token) {
                table.insert_reserved(*hash, token);
            }
            sum = sum.wrapping_add(u64::from(token.get()));
        }
    }
    sum
}

/// Fills a table, goes over `looked` so many times, and answers a sum of what it found.
#[unsafe(no_mangle)]
pub extern "C" fn table_bench(
    alloc: Global,
    hashes: &[u64],
    room: usize,
    looked: &[u64],
    moves: bool,
    rounds: u64,
) -> u64
    requires { length hashes.now < 4294967294 }
{
    let Ok(mut table) = filled(alloc, hashes, room) else {
        return u64::MAX;
    };
    let mut sum = 0u64;
    for _ in 0..rounds {
        let round = if moves {
            moved(&mut table, looked)
        } else {
            found(&table, looked)
        };
        sum = sum.wrapping_add(round);
    }
    sum
}

/// The bytes of a table with that room, or 0 where it gets none.
#[unsafe(no_mangle)]
pub extern "C" fn table_bytes(alloc: Global, room: usize) -> usize {
    match filled(alloc, &[], room) {
        Ok(table) => table.allocation_size(),
        Err(_) => 0,
    }
}
