//! Lists of calls of the cache for one thread, made one after another.
#![tactic(auto)]

mod calls;
pub mod lives;
mod making;
mod runs;
mod scans;

pub use quick_cache_model::{Call, Reply};
pub use runs::run;
pub use scans::scan;
