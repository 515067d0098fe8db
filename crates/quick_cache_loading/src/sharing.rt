//! A key that is being loaded, as threads share it: a placeholder with its state behind a lock.

mod placeholder;
mod shard;
mod shared;
mod touches;
mod turns;

pub use placeholder::Placeholder;
pub use shard::{Begun, LoadingShard};
pub use shared::{KeptPlaceholder, Maker, SharedPlaceholder};
pub use touches::SharedTouches;
pub use turns::Turns;
