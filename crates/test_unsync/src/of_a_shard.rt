//! Tests of one shard: what its calls leave, on rows that were worked out by hand.

pub mod entries;
pub mod placeholders;
pub mod reserved;
pub mod rows;
pub mod spent;
pub mod token_walks;
pub mod touches;
