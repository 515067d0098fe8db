//! The cache for one thread.

pub use quick_cache_runs::{Call, Reply, run};
pub use quick_cache_unsync::{
    Cache, DefaultLifecycle, Drain, ExtractIf, Guard, Iter, LoadError, Miss, NotLoaded,
    Placeholder, Plainly, Ref, RefMut,
};
