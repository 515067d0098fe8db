//! A cache with a clock and a life of its own.
ghost use Rattle.std.specs.Borrow.{Lends, sem};
ghost use Rattle.std.specs.Prelude.{◌≡◌, false, true};
ghost use Rattle.std.specs.Duration.{as_nanos};
ghost use Rattle.quick_cache_timed.specs.Lives.{millis_of};

use crate::life::{Life, millis_of};
use std::ops::{Deref, DerefMut};
use std::time::Duration;

/// A cache whose entries end, `Expiring` or `SharedExpiring`, with a clock and the life of its
/// entries. Each call that takes neither is the cache's own.
#[derive(Debug, Drop)]
pub struct Timed<C, T> {
    /// The cache, of which each call may be made with a moment and a life of its own.
    pub inner: C,
    /// The clock.
    pub ticker: T,
    /// How long an entry lives.
    pub life: Life,
}

impl<C, T> Timed<C, T> {
    /// The cache, where an entry lives for so long after it was stored.
    pub fn time_to_live(inner: C, ticker: T, life: Duration) -> Self
        ensures { result ≡ record {
          inner = inner;
          ticker = ticker;
          life = record { millis = millis_of (as_nanos life); slides = false; jitter = 0 };
        } }
    {
        let millis = millis_of(life);
        let life = Life {
            millis,
            slides: false,
            jitter: 0,
        };
        Timed {
            inner,
            ticker,
            life,
        }
    }

    /// The cache, where an entry lives for so long after it was stored or looked up last.
    pub fn time_to_idle(inner: C, ticker: T, life: Duration) -> Self
        ensures { result ≡ record {
          inner = inner;
          ticker = ticker;
          life = record { millis = millis_of (as_nanos life); slides = true; jitter = 0 };
        } }
    {
        let mut timed = Timed::time_to_live(inner, ticker, life);
        timed.life.slides = true;
        timed
    }

    /// The same, where the hash of a key makes its life less by up to so many parts per million, so
    /// that what was stored at once is not over at once.
    pub fn with_jitter(mut self, parts: u32) -> Self
        ensures { result ≡ record self { life = record self.life { jitter = parts } } }
    {
        self.life.jitter = parts;
        self
    }
}

impl<C, T> Deref for Timed<C, T> {
    type Target = C;

    ghost deref_gives = { λ timed cache. cache ≡ timed.inner };

    fn deref(&self) -> &C {
        &self.inner
    }
}

impl<C, T> DerefMut for Timed<C, T> {
    ghost use Rattle.quick_cache_timed.specs.Lent.{row_of, with_inner};

    ghost deref_mut_gives = { λ timed cache. cache ≡ timed.inner };

    fn deref_mut(&mut self) -> &mut C
        ensures* writes_back { sem 𝓛
            (Lends (row_of C.row T.row) C.row self.entry result (with_inner self.old)) }
        ensures value { result.now ≡ self.old.inner }
    {
        &mut self.inner
    }
}
