//! Times the cache that threads share, and how the one for one thread grows.
//!
//! Its first argument names what it times: `threads`, gets and inserts by so many threads; `loads`,
//! hits by `get` and by the calls that load; `read_through`, hits of a loader with its cache;
//! `growth`, the longest insert into a cache for one thread. The numbers that follow say how much.
//! Without them it makes one small round and prints in place of the times what came of it, and
//! without any argument the small round of each.
#![tactic(auto)]

mod caches;
mod growth;
mod loader;
mod loads;
mod storm;
mod threads;

use std::{env, io};

fn main(rt: HostRuntime) -> io::Result<()> {
    let mut numbers = Vec::new(rt.alloc());
    let mut words = env::args(&rt)?.skip(1);
    let first = words.next();
    for word in words {
        let number: u32 = word.parse().unwrap_or(0);
        numbers.push(number)?;
    }
    match first.as_deref() {
        Some("threads") => threads::time(&rt, rt.alloc(), &numbers),
        Some("loads") => loads::time(&rt, rt.alloc(), &numbers),
        Some("read_through") => loader::time(&rt, rt.alloc(), &numbers),
        Some("growth") => growth::time(&rt, rt.alloc(), &numbers),
        _ => {
            threads::time(&rt, rt.alloc(), &[])?;
            loads::time(&rt, rt.alloc(), &[])?;
            loader::time(&rt, rt.alloc(), &[])?;
            growth::time(&rt, rt.alloc(), &[])
        }
    }
}
