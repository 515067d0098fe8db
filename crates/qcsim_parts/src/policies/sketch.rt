//! How often keys were asked for of late, about: a count-min sketch (G. Cormode and S. Muthukrishnan,
//! "An improved data stream summary: the count-min sketch and its applications", 2005) whose counters
//! are halved from time to time.

use std::alloc::{AllocError, Global};

/// The greatest count of a counter.
const MOST: u8 = 15;

/// For each row an odd number that spreads the keys over it.
const ROWS: [u64; 4] = [
    0x9e37_79b9_7f4a_7c15,
    0xbf58_476d_1ce4_e5b9,
    0x94d0_49bb_1331_11eb,
    0xd6e8_feb8_6659_fd93,
];

/// Four rows of counters. A key has one counter in each.
#[derive(Drop)]
pub struct Sketch {
    counters: Vec<u8>,
    /// How many counters a row has.
    width: u64,
    /// How many more keys are counted before all counters are halved.
    left: u64,
    /// How many keys are counted from one halving to the next.
    sample: u64,
}

/// Where the counter of a key stands in the row of this number.
fn place(row: usize, spread: u64, key: u64, width: u64) -> usize {
    let mixed = (key ^ key >> 32).wrapping_mul(spread);
    let column = (mixed ^ mixed >> 29) % width.max(1);
    row.saturating_mul(width as usize)
        .saturating_add(column as usize)
}

impl Sketch {
    /// A sketch for a cache of so many keys. It halves the counters behind ten times as many.
    pub fn new(alloc: Global, keys: usize) -> Result<Sketch, AllocError> {
        let width = keys
            .clamp(16, 1 << 30)
            .next_power_of_two()
            .saturating_mul(4);
        let sample = (keys as u64).saturating_mul(10).max(10);
        Ok(Sketch {
            counters: vec![in alloc; 0u8; width.saturating_mul(ROWS.len())]?,
            width: width as u64,
            left: sample,
            sample,
        })
    }

    /// Counts a key.
    pub fn count(&mut self, key: u64) {
        for (row, spread) in ROWS.into_iter().enumerate() {
            let place = place(row, spread, key, self.width);
            if let Some(counter) = self.counters.get_mut(place) {
                *counter = counter.saturating_add(1).min(MOST);
            }
        }
        self.left = self.left.saturating_sub(1);
        if self.left == 0 {
            self.halve();
        }
    }

    /// How often a key was counted, about: never too few but for the halvings, and up to 15.
    pub fn estimate(&self, key: u64) -> u8 {
        let mut least = MOST;
        for (row, spread) in ROWS.into_iter().enumerate() {
            let place = place(row, spread, key, self.width);
            least = least.min(self.counters.get(place).copied().unwrap_or(0));
        }
        least
    }

    fn halve(&mut self) {
        for counter in self.counters.iter_mut() {
            *counter /= 2;
        }
        self.left = (self.sample / 2).max(1);
    }
}
