//! The count of touches that readers add beside each other.
ghost use Rattle.std.specs.Prelude.{⊤};
ghost use Rattle.quick_cache_loading.specs.Touches.{any_touches};

use quick_cache_model::Touches;
use std::mem::replace;
use std::sync::atomic::{AtomicU64, Ordering};

/// A count that readers add to, each through a shared reference.
#[derive(Drop)]
pub struct SharedTouches {
    count: AtomicU64,
}

impl Default for SharedTouches {
    ghost is_default = { λ _. ⊤ };

    fn default() -> Self {
        SharedTouches {
            count: AtomicU64::new(0),
        }
    }
}

impl Touches for SharedTouches {
    ghost may_count = { any_touches };

    ghost none_counted = { tt };

    fn counts() -> bool {
        true
    }

    fn add(&self) {
        self.count.fetch_add(1, Ordering::SeqCst);
    }

    fn add_all(&self, count: u64) {
        // Most counts are 0, and need no locked instruction.
        if count > 0 {
            self.count.fetch_add(count, Ordering::SeqCst);
        }
    }

    fn seen(&self) -> u64 {
        self.count.load(Ordering::SeqCst)
    }

    fn take(&mut self) -> u64 {
        replace(self.count.get_mut(), 0)
    }
}
