//! What caches of the tests are made of: hashes, a lifecycle, touches; what walks show; and flags
//! that threads raise.
#![tactic(auto)]

pub mod counting;
pub mod meeting;
pub mod thousand;
pub mod touched;
pub mod upper;
pub mod walks;
