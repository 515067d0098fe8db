//! What a shard keeps: items by token in a pool, entries in slots, their tokens in rings of queues, and the
//! lists that hold all of it and the index in step.
#![tactic(auto)]

pub mod lists;
pub mod pool;
pub mod queue;
pub mod rings;
pub mod slots;
