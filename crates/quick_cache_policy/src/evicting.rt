//! How room is made: advances of both rings, and what becomes of their victims.

pub mod cold;
pub mod evict;
pub mod hot;
pub mod victim;
