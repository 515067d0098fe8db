//! Uses of a loader with its cache.

pub mod resolver;
pub mod stamps;
pub mod tokens;
