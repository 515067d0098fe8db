//! The shared cache.

pub use quick_cache_guard::entry_tasks::EntryFuture;
pub use quick_cache_guard::tasks::{GetOrInsert, ValueOrGuard};
pub use quick_cache_guard::{EntryResult, Fetched, GuardResult, PlaceholderGuard};
pub use quick_cache_locked::LockedShard;
pub use quick_cache_model::EntryAction;
use quick_cache_model::{DefaultHashBuilder, UnitWeighter};
pub use quick_cache_sync::{
    Cache, DefaultLifecycle, Drain, ExtractIf, Heated, Iter, LockContention, Miss, TryError,
};
pub use quick_cache_traced::{PARTS, Seat, TraceCall, Traced};
use std::alloc::Global;

/// The guard that a cache of these types gives, for a struct that keeps one. `R` is the type of the
/// runtime. A future is kept likewise, by its own name and a `LockedShard`.
pub type Guard<
    'a,
    K,
    V,
    R,
    We = UnitWeighter,
    B = DefaultHashBuilder,
    L = DefaultLifecycle<K, V>,
    A = Global,
> = PlaceholderGuard<'a, K, V, L, LockedShard<K, V, We, B, L, A>, R, A>;
