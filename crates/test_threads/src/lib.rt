//! Tests of the cache that threads share, by threads and by its calls that do not wait for a lock,
//! of a caller that knows of each value what its lifecycle says, of lifecycles that are ready made,
//! of the traced cache, and of the cache with one history.
//!
//! What they catch: a `try_` form that always answers contention, and a call that locks and does
//! nothing, fail in `idle` and in `mixed`. One that acts where another call has the lock, and one
//! lock for all shards, fail in `contended`. A form that reads, and tries the lock to write, fails
//! in `reading`.
#![tactic(auto)]

#[cfg(test)]
mod asked;
#[cfg(test)]
mod beside;
#[cfg(test)]
mod calls;
pub mod doubles;
#[cfg(test)]
mod history;
#[cfg(test)]
mod hottest;
#[cfg(test)]
mod large;
#[cfg(test)]
mod listened;
#[cfg(test)]
mod names;
#[cfg(test)]
mod not_waiting;
#[cfg(test)]
mod refused;
#[cfg(test)]
mod shards;
#[cfg(test)]
mod traced;
#[cfg(test)]
mod walks;
