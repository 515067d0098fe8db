//! The cache in shards that threads share, with one history of its writes, which exists in the proofs
//! alone: no list of it is stored, and no clone is made for it.
//!
//! Who makes calls has a `Seat`: what it has seen of the history, and its own calls. After a write the
//! history that the seat has seen goes on from all that it had seen, and ends with this call, made on
//! the shard of its key; the calls of a shard are a run of the definition from an empty shard; and the
//! history has the seat's calls just as it made them, each once. A look goes on from what was seen,
//! and at its end the key's shard shows what is answered. A refused call adds nothing.
//!
//! A seat may go to another thread; `Recorded::tell` makes one that has seen as much, and `learn`
//! joins what two have seen. So nobody is shown less than it has seen, and each sees its own writes.
//!
//! Writes are `insert`, `replace`, `remove`, `remove_if` and `clear`, which is a call of each shard in
//! turn; looks are `get`, `peek`, `contains_key` and `len`. `entry` looks, and is then a removal, an
//! insert or no call, as a callback chooses by what it is shown, under one lock. `get_or_insert_with`
//! looks, loads under no lock, and is an insert where nothing stands by then: nobody waits for a load,
//! so that two callers may load one key. Not said: which of two calls came first in time, where their
//! seats never met; that a seat's calls are all that its thread made, since each thread may make
//! seats; and that a call returns.
#![tactic(auto)]

mod choice;
mod entry;
mod head;
mod history;
mod kept;
mod law;
mod past;
mod recorded;
mod seat;
mod turn;

pub use choice::{Choice, Entered};
pub use entry::Entry;
pub use history::History;
pub use law::{Law, Naming};
pub use recorded::Recorded;
pub use seat::Seat;
