//! Threads that share a cache, and what becomes of what they write.

pub mod drops;
pub mod readers;
pub mod recording;
pub mod shared;
pub mod twice;
