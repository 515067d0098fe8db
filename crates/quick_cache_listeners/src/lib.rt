//! Lifecycles and weighers that are ready to be used: listeners of what leaves and why, counts of it,
//! pins by a test or by what others hold, weights by length, by bytes and by content.
#![tactic(auto)]

pub mod by_content;
pub mod by_length;
pub mod bytes;
pub mod causes;
pub mod collect;
pub mod listener;
pub mod pins;

pub use by_content::ByContent;
pub use by_length::{ByLength, HasLength};
pub use bytes::told::WithBytes;
pub use bytes::{ByBytes, HasBytes};
pub use causes::cause::{Cause, Stage};
pub use causes::counted::{Counted, Counts};
pub use causes::counted_by_threads::CountedByThreads;
pub use causes::listener::{ListenerWhy, OnLeaveWhy, Request};
pub use causes::taken::TellsTaken;
pub use causes::tallies::{SharedTallies, Tallies, Tally};
pub use collect::{Collect, Collected, Owed, Owing};
pub use listener::{Ignore, Listener, OnLeave};
pub use pins::{Held, Pin, PinBy, PinHeld};
