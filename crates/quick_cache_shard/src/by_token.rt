//! Calls that go by a token.

pub mod token_mut;
pub mod tokens;
