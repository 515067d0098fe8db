//! What a cache is made with: what an entry weighs, what is pinned, and who is told.

pub mod lifecycle;
pub mod weighter;
