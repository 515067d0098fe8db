//! Caches that know the time and how long their entries live, so that no call is told either: over
//! the caches whose entries end and the loader with its cache, by their public contracts alone.
#![tactic(auto)]

mod alone;
mod life;
mod reading;
mod shared;
mod ticker;
mod timed;

pub use life::{Life, millis_of};
pub use reading::TimedReading;
pub use ticker::{SetTicker, SharedTicker, SystemTicker, Ticker};
pub use timed::Timed;
