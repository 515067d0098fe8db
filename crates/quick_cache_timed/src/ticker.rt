//! Clocks that tell a cache the moment.
ghost use Rattle.std.specs.Prelude.{◌≡◌, ℕ};

use crate::life::millis_of;
use std::io;
use std::sync::atomic::{AtomicU64, Ordering};
use std::time::{Clock, Duration, Instant};

/// Tells the moment: how many milliseconds have passed since some moment of its own.
pub trait Ticker {
    /// Whether it may tell this moment, as contracts see it.
    ghost tells: { Self → ℕ → Type 0 };

    /// The moment.
    fn moment(&self) -> u64
        ensures { tells self.now result };
}

/// One clock may serve many caches, by references.
impl<T: Ticker> Ticker for &T {
    ghost tells = { λ ticker. T.tells ticker.now };

    fn moment(&self) -> u64 {
        (**self).moment()
    }
}

/// The system's clock, which never goes back; its moments count from the one at which this was made.
#[derive(Drop)]
pub struct SystemTicker<R: Clock> {
    clock: R,
    made: Instant,
    // The greatest moment that it told.
    last: AtomicU64,
}

impl<R: Clock + Drop> SystemTicker<R> {
    /// A clock over a handle, as `&rt`.
    ///
    /// # Errors
    ///
    /// Why the system's clock could not be read.
    pub fn new(clock: R) -> io::Result<Self> {
        let made = Instant::now(&clock)?;
        Ok(SystemTicker {
            clock,
            made,
            last: AtomicU64::new(0),
        })
    }
}

/// Where the system's clock can't be read, the moment is the last one that was told.
impl<R: Clock> Ticker for SystemTicker<R> {
    ghost tells = { λ _ _. Unit {0} };

    fn moment(&self) -> u64 {
        let last = self.last.load(Ordering::SeqCst);
        match self.made.elapsed(&self.clock) {
            Ok(passed) => {
                let moment = millis_of(passed);
                if moment > last {
                    self.last.store(moment, Ordering::SeqCst);
                }
                moment
            }
            Err(_) => last,
        }
    }
}

/// A clock for tests, which tells the moment that its owner has set.
#[derive(Debug, Drop)]
pub struct SetTicker {
    pub moment: u64,
}

impl Ticker for SetTicker {
    ghost tells = { λ ticker moment. moment ≡ ticker.moment };

    fn moment(&self) -> u64 {
        self.moment
    }
}

/// A clock for tests, which each thread may set.
#[derive(Drop)]
pub struct SharedTicker {
    moment: AtomicU64,
}

impl SharedTicker {
    /// A clock that stands at this moment.
    pub fn new(moment: u64) -> Self {
        SharedTicker {
            moment: AtomicU64::new(moment),
        }
    }

    /// Sets the moment, be it a later or an earlier one.
    pub fn set(&self, moment: u64) {
        self.moment.store(moment, Ordering::SeqCst);
    }

    /// Lets so much time pass. Past the greatest moment it begins anew.
    pub fn advance(&self, by: Duration) {
        self.moment.fetch_add(millis_of(by), Ordering::SeqCst);
    }
}

impl Ticker for SharedTicker {
    ghost tells = { λ _ _. Unit {0} };

    fn moment(&self) -> u64 {
        self.moment.load(Ordering::SeqCst)
    }
}
