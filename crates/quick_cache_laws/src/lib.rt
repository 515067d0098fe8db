//! Laws of the cache, each a theorem about the definitions alone, and worked examples of them.
#![tactic(auto)]

pub mod call_laws;
pub mod laws;
pub mod scan_laws;
