//! Calls that load a value, and the guard of a key that is being loaded.

pub mod fetching;
pub mod filling;
pub mod guard;
pub mod lending;
pub mod loader;
pub mod not_loaded;
