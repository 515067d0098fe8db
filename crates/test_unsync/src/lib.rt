//! Tests of the cache for one thread, of its traits and listeners, of lists of calls, of caches with
//! many entries, and of copies: what a call shows of a value is a clone of it.
#![tactic(auto)]

#[cfg(test)]
mod asked;
#[cfg(test)]
mod copying;
#[cfg(test)]
mod large;
#[cfg(test)]
mod large_lists;
#[cfg(test)]
mod listened;
#[cfg(test)]
mod of_a_shard;
#[cfg(test)]
mod runs;
#[cfg(test)]
mod traits;
#[cfg(test)]
mod unsync;
#[cfg(test)]
mod weighed;

/// A predicate that a call of a list may ask.
#[cfg(test)]
type Predicate = fn(&u64, &u64) -> bool;
