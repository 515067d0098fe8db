//! Promises to users, each the contract of a small caller of the cache's public calls.
//!
//! A caller is proved by the contracts of the calls that it makes, so that a contract that says too
//! little stops it. None of them is meant to be called.
#![tactic(auto)]

pub mod alone;
pub mod behind_a_lock;
pub mod counted;
pub mod told;
