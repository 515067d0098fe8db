//! What a cache is made with: its numbers, and the builder that tests them.
ghost use Rattle.std.specs.Prelude.{◌≡◌, ◌≤◌, ◌^◌};

use std::fmt;
use std::marker::Model;

mod builder;

pub use builder::OptionsBuilder;

/// The share of the weight capacity that hot items may have where none is set, in parts per
/// million.
pub const DEFAULT_HOT_ALLOCATION: u32 = 970000;

/// The share of the estimated items that is kept as ghosts where none is set, in parts per million.
pub const DEFAULT_GHOST_ALLOCATION: u32 = 500000;

/// The greatest mark of an item where none is set.
pub const DEFAULT_MARK_CUT: u8 = 2;

/// The greatest of the greatest marks that may be set.
pub(crate) const MOST_MARKS: u8 = 3;

/// The greatest share: all of it, in parts per million.
pub(crate) const WHOLE_ALLOCATION: u32 = 1000000;

/// Why no options were built. It displays as a text that names the number at fault.
#[derive(Debug, Clone, Drop)]
pub struct Error(&'static str);

impl Model for Error {
    ghost use Rattle.std.specs.Prelude.{ℕ, List};

    ghost Value = { List ℕ };

    ghost view = { λ e. e.0.now };
}

impl fmt::Display for Error {
    ghost use Rattle.std.specs.Prelude.{Some};

    ghost output = { λ e. Some e };

    fn fmt<W: fmt::Write>(&self, f: &mut fmt::Formatter<W>) -> fmt::Result {
        f.write_str(self.0)
    }
}

impl std::error::Error for Error {}

/// The numbers that a cache is made with. An [`OptionsBuilder`] makes them.
#[derive(Debug, Clone, Drop)]
pub struct Options {
    shards: usize,
    estimated_items_capacity: usize,
    weight_capacity: u64,
    hot_allocation: u32,
    ghost_allocation: u32,
    mark_cut: u8,
}

impl Model for Options {
    ghost use Rattle.quick_cache_options.specs.Options.{Settings, IsInRange};

    ghost Value = { Settings };

    ghost view = { λ o. record {
      shards = o.shards;
      estimated_items_capacity = o.estimated_items_capacity;
      weight_capacity = o.weight_capacity;
      hot_allocation = o.hot_allocation;
      ghost_allocation = o.ghost_allocation;
      mark_cut = o.mark_cut;
    } };

    ghost invariant = { λ o. IsInRange o.shards o.hot_allocation o.ghost_allocation
        o.mark_cut };
}

impl Options {
    /// The number of shards that was asked for. The cache may have fewer (`sizes::shard_count`).
    pub fn shards(&self) -> usize
        ensures value { result ≡ self.now.shards }
        ensures in_range { result ≤ 2 ^ 63 }
    {
        self.shards
    }

    /// How many items the cache is expected to hold.
    pub fn estimated_items_capacity(&self) -> usize
        ensures { result ≡ self.now.estimated_items_capacity }
    {
        self.estimated_items_capacity
    }

    /// The weight that the cache may hold.
    pub fn weight_capacity(&self) -> u64
        ensures { result ≡ self.now.weight_capacity }
    {
        self.weight_capacity
    }

    /// The share of the weight capacity that hot items may have, in parts per million.
    pub fn hot_allocation(&self) -> u32
        ensures value { result ≡ self.now.hot_allocation }
        ensures in_range { result ≤ 1000000 }
    {
        self.hot_allocation
    }

    /// The share of the estimated items that is kept as ghosts, in parts per million.
    pub fn ghost_allocation(&self) -> u32
        ensures value { result ≡ self.now.ghost_allocation }
        ensures in_range { result ≤ 1000000 }
    {
        self.ghost_allocation
    }

    /// The greatest mark of an item: how many uses of it count at most.
    pub fn mark_cut(&self) -> u8
        ensures value { result ≡ self.now.mark_cut }
        ensures at_least { 1 ≤ result }
        ensures at_most { result ≤ 3 }
    {
        self.mark_cut
    }
}
