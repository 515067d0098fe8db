//! Calls on keys that are being loaded, and entry calls.

pub mod entry;
pub mod loading;
pub mod numbered;
