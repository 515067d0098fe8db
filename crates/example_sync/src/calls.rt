//! An example of each call.

pub mod keeping;
pub mod loading;
pub mod looking;
pub mod making;
pub mod removing;
pub mod telling;
pub mod trying;
pub mod writing;
