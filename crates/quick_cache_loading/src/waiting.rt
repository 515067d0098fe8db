//! Who waits for a value that is being loaded: the state that a placeholder keeps behind its lock.
//! It takes no lock.

mod state;
mod tasks;
mod tokens;
mod waited;

pub use state::State;
pub use tasks::{Slot, Tasks};
pub use tokens::{Ended, Filled, Place, Share, Unroused};
pub use waited::{Waited, Wants};
