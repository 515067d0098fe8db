//! Caches of numbers, the keys that are drawn of them, and the error of one that gets no memory.
use quick_cache::sync::{Cache, DefaultLifecycle};
use quick_cache::{DefaultHashBuilder, OptionsBuilder, Refusal, UnitWeighter};
use std::alloc::Global;
use std::io;
use std::sync::Wait;

pub type Numbers = Cache<u64, u64>;

/// An empty cache of so many items over 16 shards, or fewer where there are less than 512 items.
pub fn empty(alloc: Global, items: u32) -> Result<Numbers, Refusal> {
    let mut options = OptionsBuilder::new();
    options
        .shards(16)
        .estimated_items_capacity(items as usize)
        .weight_capacity(u64::from(items));
    let Ok(options) = options.build() else {
        unreachable!();
    };
    Cache::with_options(
        alloc,
        options,
        UnitWeighter,
        DefaultHashBuilder::new(),
        DefaultLifecycle::new(),
    )
}

/// Puts so many items into a cache, each key with itself as its value.
pub fn fill<R: Wait>(rt: &R, cache: &Numbers, items: u64) -> Result<(), Refusal> {
    for key in 0..items {
        cache
            .insert(rt, key, key)
            .map_err(|(_, _, refusal)| refusal)?;
    }
    Ok(())
}

/// A cache of the default shards that has so many items, and room for as many more.
pub fn filled<R: Wait>(rt: &R, alloc: Global, items: u32) -> Result<Numbers, Refusal> {
    let cache = Cache::new(alloc, (items as usize).saturating_mul(2))?;
    fill(rt, &cache, u64::from(items))?;
    Ok(cache)
}

/// A refusal, as the error of a program. A cache of so few items is refused for memory alone.
pub fn out_of_memory(_refusal: Refusal) -> io::Error {
    io::Error::from(io::ErrorKind::OutOfMemory)
}

/// The next state of a generator of numbers.
pub fn drawn(state: u64) -> u64 {
    state
        .wrapping_mul(6364136223846793005)
        .wrapping_add(1442695040888963407)
}

/// A key below the number of items, of the upper half of a state.
pub fn key_below(items: u32, state: u64) -> u64 {
    (state >> 32).wrapping_mul(u64::from(items)) >> 32
}
