//! Caches whose entries end.

pub mod passes;
pub mod rows;
pub mod shared_rows;
pub mod storm;
pub mod tasks;
pub mod texts;
