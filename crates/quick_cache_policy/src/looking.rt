//! Look-ups, and what is told of an item.

pub mod by_token;
pub mod lookup;
pub mod peek;
pub mod shared;
pub mod stats;
pub mod tested;
