//! Caches that are made by a maker, and what their entries weigh.

pub mod made;
pub mod weigher;
