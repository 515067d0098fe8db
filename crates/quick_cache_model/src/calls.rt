//! Calls as values, their replies, and what an entry call chooses.

pub mod call;
pub mod entry;
pub mod reply;
