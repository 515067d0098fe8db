//! Where a capacity and a share stand in the field of a chart, in tenths of a pixel.

use crate::hits::{Hits, Policy, share};

/// The left edge of the field.
pub const LEFT: u64 = 700;

/// Its right edge.
pub const RIGHT: u64 = 6900;

/// Its upper edge.
pub const TOP: u64 = 600;

/// Its lower edge.
pub const BOTTOM: u64 = 4100;

/// What the field shows.
#[derive(Clone, Copy)]
pub struct Scale {
    /// How many keys the trace has.
    pub keys: usize,
    /// The logarithm of the least capacity.
    first: u64,
    /// How much greater that of the greatest is.
    span: u64,
    /// The share at the top, in hundredths of a percent.
    pub top: u64,
}

/// The logarithm to the base 2, in 1024ths, and straight between two powers of 2.
fn logarithm(n: u64) -> u64 {
    let Some(whole) = n.checked_ilog2() else {
        return 0;
    };
    let power = 1u64.checked_shl(whole).unwrap_or(1).max(1);
    let beyond = u128::from(n.saturating_sub(power)).saturating_mul(1024) / u128::from(power);
    u64::from(whole)
        .saturating_mul(1024)
        .saturating_add(beyond.min(1024) as u64)
}

/// The share at the top: all, or where the greatest is at most a quarter, less.
fn top_above(greatest: u64) -> u64 {
    let mut top = 10_000;
    for lower in [2_500, 1_000, 500] {
        if greatest <= lower {
            top = lower;
        }
    }
    top
}

impl Scale {
    /// The scale that all shares fit.
    pub fn of(keys: usize, all: &[Hits]) -> Scale {
        let mut greatest = 0u64;
        let mut first = u64::MAX;
        let mut last = 0u64;
        for hits in all {
            for policy in Policy::ALL {
                greatest = greatest.max(share(hits.of(policy), keys));
            }
            let place = logarithm(hits.capacity);
            first = first.min(place);
            last = last.max(place);
        }
        Scale {
            keys,
            first,
            span: last.saturating_sub(first),
            top: top_above(greatest),
        }
    }

    /// Where a capacity stands, from the left.
    pub fn across(&self, capacity: u64) -> u64 {
        if self.span == 0 {
            return (LEFT + RIGHT) / 2;
        }
        let beyond = logarithm(capacity)
            .saturating_sub(self.first)
            .min(self.span);
        (LEFT + 200).saturating_add(beyond.saturating_mul(RIGHT - LEFT - 400) / self.span)
    }

    /// Where a share stands, from above.
    pub fn down(&self, share: u64) -> u64 {
        BOTTOM.saturating_sub(share.min(self.top).saturating_mul(BOTTOM - TOP) / self.top.max(1))
    }
}
