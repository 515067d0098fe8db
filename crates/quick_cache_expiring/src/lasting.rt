//! A value with its end.
ghost use Rattle.std.specs.Prelude.{◌≡◌};
ghost use Rattle.quick_cache_expiring.specs.Lives.{end_of, lives};

use std::alloc::AllocError;

/// The end of what is stored at a moment and lives so long: their sum, cut at the greatest number.
pub fn end_of(now: u64, life: u64) -> u64
    ensures { result ≡ end_of now life }
{
    now.saturating_add(life)
}

/// A value, and the moment from which it is over. One whose end is the greatest number is never
/// over.
#[derive(Debug, PartialEq, Drop)]
pub struct Lasting<V> {
    pub value: V,
    pub until: u64,
}

impl<V> Lasting<V> {
    /// Whether it serves at a moment.
    pub fn lives(&self, now: u64) -> bool
        ensures { result ≡ lives self.now.until now }
    {
        now < self.until || self.until == u64::MAX
    }
}

impl<V: Clone> Clone for Lasting<V> {
    ghost is_clone = { λ old new. V.is_clone old.value new.value × (new.until ≡ old.until) };

    ghost is_infallible = { λ lasting. V.is_infallible lasting.value };

    fn clone(&self) -> Result<Self, AllocError> {
        Ok(Lasting {
            value: self.value.clone()?,
            until: self.until,
        })
    }
}
