//! A lifecycle that records each pair that is reported to it.
ghost use Rattle.std.specs.Prelude.{◌≡◌};

use quick_cache::Lifecycle;

/// How many pairs are kept.
const KEPT: usize = 8;

/// The pairs that were reported in a call, in their order. All are counted, and the first eight are
/// kept.
#[derive(Debug, Clone, Copy, PartialEq, Eq)]
pub struct Reported {
    first: [(u64, u64); KEPT],
    count: usize,
}

impl Default for Reported {
    fn default() -> Self {
        Reported {
            first: [(0, 0); KEPT],
            count: 0,
        }
    }
}

impl Reported {
    /// How many there were.
    pub fn count(&self) -> usize {
        self.count
    }

    /// Takes one more pair in.
    fn report(&mut self, key: u64, value: u64) {
        if self.count < KEPT {
            self.first[self.count] = (key, value);
        }
        self.count = self.count.saturating_add(1);
    }
}

/// Pins nothing, and records each pair that is reported to it.
#[derive(Clone, Drop)]
pub struct Recording;

impl Lifecycle<u64, u64> for Recording {
    type RequestState = Reported;

    ghost before_evict_gives = { λ _ _ _ value _ left. left ≡ value };

    ghost on_evict_gives = { λ _ _ _ _ _. Unit {0} };

    ghost on_evict_cold_gives = { λ _ _ _ _ _. Unit {0} };

    ghost on_evict_hot_gives = { λ _ _ _ _ _. Unit {0} };

    ghost keeps_fits = { λ _ _ _ _ _ _ _ fits. fits };

    ghost same_fits = { λ _ _ _ _ fits. fits };

    fn is_pinned(&self, _key: &u64, _val: &u64) -> bool {
        false
    }

    fn before_evict(&self, _state: &mut Reported, _key: &u64, _val: &mut u64) {}

    fn on_evict(&self, _state: &mut Reported, _key: u64, _val: u64) {}

    fn on_evict_cold(&self, state: &mut Reported, key: u64, val: u64) {
        state.report(key, val);
    }

    fn on_evict_hot(&self, state: &mut Reported, key: u64, val: u64) {
        state.report(key, val);
    }
}
