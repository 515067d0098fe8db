//! The builder of a cache's options.
ghost use Rattle.std.specs.Prelude.{◌≡◌, ◌↔◌, Some, None, IsOk, IfOk, IfErr};
ghost use Rattle.quick_cache_options.specs.Options.{no_choices, settings_of, first_error};

use crate::options::{
    DEFAULT_GHOST_ALLOCATION, DEFAULT_HOT_ALLOCATION, DEFAULT_MARK_CUT, Error, MOST_MARKS, Options,
    WHOLE_ALLOCATION,
};
use std::marker::Model;

/// The number of shards where none is set.
const DEFAULT_SHARDS: usize = 16;

/// The greatest number of shards.
const MOST_SHARDS: usize = 9223372036854775808;

/// Gathers the numbers that a cache is made with, and tests them at the end.
#[derive(Debug, Clone, Default, Drop)]
pub struct OptionsBuilder {
    shards: Option<usize>,
    estimated_items_capacity: Option<usize>,
    weight_capacity: Option<u64>,
    hot_allocation: Option<u32>,
    ghost_allocation: Option<u32>,
    mark_cut: Option<u8>,
}

impl Model for OptionsBuilder {
    ghost use Rattle.quick_cache_options.specs.Options.{Choices};

    ghost Value = { Choices };

    ghost view = { λ b. record {
      shards = b.shards;
      estimated_items_capacity = b.estimated_items_capacity;
      weight_capacity = b.weight_capacity;
      hot_allocation = b.hot_allocation;
      ghost_allocation = b.ghost_allocation;
      mark_cut = b.mark_cut;
    } };
}

impl OptionsBuilder {
    /// A builder on which nothing is set.
    pub fn new() -> Self
        ensures { result ≡ no_choices }
    {
        Self::default()
    }

    /// Sets how many shards the `sync` cache is to have. It takes the next power of two, and fewer
    /// where a shard would have less than 32 items.
    pub fn shards(&mut self, shards: usize) -> &mut Self
        ensures same_builder { result.ghost_name ≡ self.entry.ghost_name }
        ensures set { result.now ≡ record self.old { shards = Some shards } }
    {
        self.shards = Some(shards);
        self
    }

    /// Sets how many items the cache is expected to hold, of which a share is kept as ghosts.
    pub fn estimated_items_capacity(&mut self, estimated_items_capacity: usize) -> &mut Self
        ensures same_builder { result.ghost_name ≡ self.entry.ghost_name }
        ensures set { result.now
            ≡ record self.old { estimated_items_capacity = Some estimated_items_capacity } }
    {
        self.estimated_items_capacity = Some(estimated_items_capacity);
        self
    }

    /// Sets the weight that the cache may hold.
    pub fn weight_capacity(&mut self, weight_capacity: u64) -> &mut Self
        ensures same_builder { result.ghost_name ≡ self.entry.ghost_name }
        ensures set { result.now ≡ record self.old { weight_capacity = Some weight_capacity } }
    {
        self.weight_capacity = Some(weight_capacity);
        self
    }

    /// Sets the share of the weight capacity that hot items may have, in parts per million.
    pub fn hot_allocation(&mut self, hot_allocation: u32) -> &mut Self
        ensures same_builder { result.ghost_name ≡ self.entry.ghost_name }
        ensures set { result.now ≡ record self.old { hot_allocation = Some hot_allocation } }
    {
        self.hot_allocation = Some(hot_allocation);
        self
    }

    /// Sets the share of the estimated items that is kept as ghosts, in parts per million.
    pub fn ghost_allocation(&mut self, ghost_allocation: u32) -> &mut Self
        ensures same_builder { result.ghost_name ≡ self.entry.ghost_name }
        ensures set { result.now ≡ record self.old { ghost_allocation = Some ghost_allocation } }
    {
        self.ghost_allocation = Some(ghost_allocation);
        self
    }

    /// Sets the greatest mark of an item, from 1 to 3: how many uses of it count at most. With less
    /// the cache forgets faster what was used, with more it keeps it longer.
    pub fn mark_cut(&mut self, mark_cut: u8) -> &mut Self
        ensures same_builder { result.ghost_name ≡ self.entry.ghost_name }
        ensures set { result.now ≡ record self.old { mark_cut = Some mark_cut } }
    {
        self.mark_cut = Some(mark_cut);
        self
    }

    /// The options, each number as it was set or its default.
    ///
    /// # Errors
    ///
    /// The first of these that holds: the hot share is above 1000000, the ghost share is, the
    /// shards are above 2^63, no weight capacity is set, no estimated items capacity is set, the
    /// greatest mark is 0 or above 3.
    pub fn build(&self) -> Result<Options, Error>
        ensures options { IfOk result (λ options. options ≡ settings_of self.now) }
        ensures succeeds { IsOk result ↔ (first_error self.now ≡ None) }
        ensures error { IfErr result (λ error. first_error self.now ≡ Some error) }
    {
        let hot_allocation = self.hot_allocation.unwrap_or(DEFAULT_HOT_ALLOCATION);
        let ghost_allocation = self.ghost_allocation.unwrap_or(DEFAULT_GHOST_ALLOCATION);
        let shards = self.shards.unwrap_or(DEFAULT_SHARDS);
        let mark_cut = self.mark_cut.unwrap_or(DEFAULT_MARK_CUT);
        if hot_allocation > WHOLE_ALLOCATION {
            return Err(Error("hot_allocation is out of range"));
        }
        if ghost_allocation > WHOLE_ALLOCATION {
            return Err(Error("ghost_allocation is out of range"));
        }
        if shards > MOST_SHARDS {
            return Err(Error("shards is out of range"));
        }
        let Some(weight_capacity) = self.weight_capacity else {
            return Err(Error("weight_capacity is not set"));
        };
        let Some(estimated_items_capacity) = self.estimated_items_capacity else {
            return Err(Error("estimated_items_capacity is not set"));
        };
        if mark_cut < 1 || mark_cut > MOST_MARKS {
            return Err(Error("mark_cut is out of range"));
        }
        Ok(Options {
            shards,
            estimated_items_capacity,
            weight_capacity,
            hot_allocation,
            ghost_allocation,
            mark_cut,
        })
    }
}
