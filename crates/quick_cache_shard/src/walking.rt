//! Walks over the items.

pub mod retaining;
pub mod saved;
pub mod walk;
pub mod walk_from;
