//! How long after its last answer a loader is asked anew.
ghost use Rattle.std.specs.Prelude.{◌≡◌};
ghost use Rattle.read_through.specs.Renewals.{pause_of};

use quick_cache_expiring::Loaded;

/// How long the loader of a stored value is not asked anew.
#[derive(Clone, Copy)]
pub struct Pace {
    /// After it gave the value.
    pub after_load: u64,
    /// After it was asked since, which failed or is not over.
    pub after_try: u64,
}

impl Pace {
    /// So long after both.
    #[inline(always)]
    pub fn steady(pause: u64) -> Self
        ensures after_load { result.after_load ≡ pause }
        ensures after_try { result.after_try ≡ pause }
    {
        Pace {
            after_load: pause,
            after_try: pause,
        }
    }

    /// How long the loader of this value is not asked anew.
    pub fn pause<V>(&self, loaded: &Loaded<V>) -> u64
        ensures { result ≡ pause_of self.now loaded.now }
    {
        if loaded.asked == loaded.moment {
            self.after_load
        } else {
            self.after_try
        }
    }
}
