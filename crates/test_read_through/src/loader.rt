//! A loader with its cache, by rows, refusals and tasks.

pub mod changes;
pub mod hundreds;
pub mod inside;
pub mod lives;
pub mod many;
pub mod refused;
pub mod rows;
pub mod tasks;
pub mod texts;
