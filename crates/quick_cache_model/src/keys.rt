//! What keys are asked by, and how they are hashed.

pub mod bytes;
pub mod equivalent;
pub mod hash_builder;
pub mod text;
