//! The representation of a shard: its entries in slots, their tokens in
//! rings, found by their hashes.
//!
//! No policy stands here. It knows nothing of weighers, hooks or hash functions: weights and hashes
//! are handed in, and a copy is handed what hashes its keys.

mod found;
mod lists;
mod store;
mod walk;

pub use crate::rings::Order;
pub use crate::slots::{Awaited, AwaitedRef, Copying, Entry, ItemRef, Marked, Slot};
pub use found::Found;
pub use lists::{Lists, Meaning};
pub use walk::{GhostIter, ItemIter, RingIter};
