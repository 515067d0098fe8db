//! Walks over the items.

pub mod drain;
pub mod extracting;
pub mod hottest;
pub mod iter;
pub mod retaining;
pub mod saving;
