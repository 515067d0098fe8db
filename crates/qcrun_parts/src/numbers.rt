//! The cache of numbers: how a key is hashed, what a value weighs, and what stands in no ring.

pub mod hash;
pub mod kinds;
pub mod still;

use hash::RemainderBuilder;
use kinds::{ByKind, LastDigits};
use quick_cache_unsync::Cache;

/// A cache of numbers.
pub type NumberCache<A> = Cache<u64, u64, LastDigits, RemainderBuilder, ByKind<A>, A>;
