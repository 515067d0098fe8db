//! The longest insert while a cache for one thread grows.
use crate::caches::out_of_memory;
use quick_cache::unsync::Cache;
use std::alloc::Global;
use std::io;
use std::time::{Clock, Instant};

/// The numbers are those of items and of rounds. A round puts so many items into a cache that is made
/// for as many, and prints how many nanoseconds the longest insert took; a small round prints in
/// place of the times how many items there are then.
pub fn time<R: Print + Clock>(rt: &R, alloc: Global, numbers: &[u32]) -> io::Result<()> {
    let (items, rounds, is_timed) = match numbers {
        [items, rounds] => (*items, *rounds, true),
        _ => (1000, 1, false),
    };
    for _ in 0..rounds {
        let mut cache = Cache::new(alloc, items as usize).map_err(out_of_memory)?;
        let mut longest = 0u128;
        for key in 0..u64::from(items) {
            let start = Instant::now(rt)?;
            cache.put(key, key).map_err(out_of_memory)?;
            longest = longest.max(start.elapsed(rt)?.as_nanos());
        }
        if is_timed {
            println!(rt; "{longest}")?;
        } else {
            println!(rt; "{} stay", cache.len())?;
        }
    }
    Ok(())
}
