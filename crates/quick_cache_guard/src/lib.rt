//! Those who load a key, and those who wait for it, in a cache that threads share.
#![tactic(auto)]

pub mod entries;
pub mod entry_tasks;
mod future;
mod guard;
mod joining;
pub mod loads;
mod locked_load;
mod results;
pub mod tasks;

pub use future::{JoinFuture, Stage};
pub(crate) use guard::Load;
pub use guard::{FillError, PlaceholderGuard};
pub(crate) use joining::Waiting;
pub(crate) use locked_load::LockedLoad;
pub use quick_cache_loading::sharing::{Begun, LoadingShard, Turns};
pub use results::{EntryResult, Fetched, GuardResult};
