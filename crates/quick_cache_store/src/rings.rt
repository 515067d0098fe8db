//! The hot ring, the cold ring and the ghosts, each a queue of tokens with its weight.
//!
//! Nothing here knows what stands under a token. Which entry a token has, and what that weighs, is
//! handed in.

mod ring;
mod rings;

pub use ring::Order;
pub use rings::Rings;
