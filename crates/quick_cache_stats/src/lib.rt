//! What a cache counts, in one record, which each of the five caches tells.
#![tactic(auto)]

mod stats;

pub use stats::Stats;
