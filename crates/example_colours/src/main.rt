//! Keeps the colours of shapes in a cache, and prints those that it knows.
#![tactic(auto)]

use quick_cache_unsync::{Cache, Refusal};
use std::alloc::Global;
use std::io;

/// A cache for five colours, with two in it.
fn colours(alloc: Global) -> Result<Cache<&'static str, &'static str>, Refusal> {
    let mut cache = Cache::new(alloc, 5)?;
    for (shape, colour) in [("square", "blue"), ("circle", "black")] {
        cache.put(shape, colour)?;
    }
    Ok(cache)
}

fn main(rt: HostRuntime) -> io::Result<()> {
    let mut cache = colours(rt.alloc())?;
    for shape in ["square", "circle", "triangle"] {
        match cache.get(&shape) {
            Some(colour) => println!(rt; "{shape} is {colour}")?,
            None => println!(rt; "{shape} is not known")?,
        }
    }
    Ok(())
}
