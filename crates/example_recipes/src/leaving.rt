//! What leaves a cache, and what stays: listeners, stores that write back, and pinned blocks.

pub mod blocks;
pub mod counted;
pub mod listener;
pub mod sessions;
pub mod write_back;
