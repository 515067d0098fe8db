//! A key that is being loaded in the shared cache: its guard, and those who wait for it.

pub use quick_cache_guard::{EntryResult, FillError, GuardResult, JoinFuture, PlaceholderGuard};
pub use quick_cache_loading::sharing::{LoadingShard, Placeholder, SharedPlaceholder};
pub use quick_cache_loading::waiting::{Ended, Filled, Place, Share, State};
