//! The slots of a shard: each has an entry and its hash, under a token.
//!
//! What a look-up reads of an entry stands in the pool, and what it does not read stands beside it,
//! so that a slot takes 24 bytes of the pool where a key and a value take 8 each. The marks stand in
//! a list of their own. A caller sees one pool of whole slots.

mod aside;
mod asides;
mod beside;
mod entry;
mod refs;
mod resident;
mod slots;
mod stored;

pub use entry::{Awaited, Entry, Slot, Stand};
pub use refs::{AwaitedRef, ItemRef, SlotRef};
pub use resident::{Marked, Resident};
pub use slots::{Copying, SlotIter, Slots, SlotsFrom};
