//! What this project's cache is compared with: seven policies, each in a file of its own.

mod arc;
mod best;
mod clock;
mod fifo;
mod least_recent;
mod queue;
mod s3_fifo;
mod simulated;
mod sketch;
mod tiny_lfu;

pub use arc::arc_hits;
pub use best::best_hits;
pub use clock::clock_hits;
pub use fifo::{fifo_hits, hits_by_age};
pub use least_recent::{hits_by_use, lru_hits};
pub use s3_fifo::s3_fifo_hits;
pub use tiny_lfu::tiny_lfu_hits;
