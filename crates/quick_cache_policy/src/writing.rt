//! What a write does: whether a pair may come in, and what it comes in over.

pub mod admission;
pub mod insert;
pub mod overwrite;
pub mod reference;
pub mod replace;
pub mod restore;
