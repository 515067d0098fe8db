//! A function for each kind of call, which answers its reply.

pub mod asked;
pub mod loads;
pub mod looks;
pub mod walks;
pub mod writes;
