//! What takes items out.

pub mod removal;
pub mod tokens;
