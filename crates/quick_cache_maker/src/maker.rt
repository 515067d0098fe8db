//! What is chosen for a cache, each by its name.
ghost use Rattle.std.specs.Prelude.{◌≡◌, Some};
ghost use Rattle.quick_cache_options.specs.Options.{no_choices};

use quick_cache_model::{DefaultHashBuilder, UnitWeighter};
use quick_cache_options::options::OptionsBuilder;

/// Gathers what a cache is made with: its numbers, its weigher, its hash builder and its lifecycle.
/// What isn't named has the default; how many items are expected, and how much weight the cache may
/// hold, have to be named.
#[derive(Drop)]
pub struct Maker<We = UnitWeighter, B = DefaultHashBuilder, L = Unnamed> {
    pub(crate) options: OptionsBuilder,
    pub(crate) weigher: We,
    pub(crate) builder: B,
    pub(crate) lifecycle: L,
}

/// No lifecycle was named, so a cache has its own default one.
#[derive(Drop)]
pub struct Unnamed;

/// This lifecycle was named.
#[derive(Drop)]
pub struct Named<L> {
    pub(crate) life: L,
}

impl Maker {
    /// A maker for which nothing is named.
    pub fn new() -> Self
        ensures { result.options ≡ no_choices }
    {
        Maker {
            options: OptionsBuilder::new(),
            weigher: UnitWeighter,
            builder: DefaultHashBuilder::new(),
            lifecycle: Unnamed,
        }
    }
}

impl<We, B, L> Maker<We, B, L> {
    /// How many items the cache is expected to hold.
    pub fn items(mut self, items: usize) -> Self
        ensures { result ≡ record self {
          options =
              record self.options { estimated_items_capacity = Some items };
        } }
    {
        self.options.estimated_items_capacity(items);
        self
    }

    /// How much weight the cache may hold.
    pub fn weight(mut self, weight: u64) -> Self
        ensures { result ≡ record self {
          options =
              record self.options { weight_capacity = Some weight };
        } }
    {
        self.options.weight_capacity(weight);
        self
    }

    /// How many shards a shared cache is to have.
    pub fn shards(mut self, shards: usize) -> Self
        ensures { result ≡ record self {
          options =
              record self.options { shards = Some shards };
        } }
    {
        self.options.shards(shards);
        self
    }

    /// The share of the weight that hot items may have, in parts per million.
    pub fn hot_allocation(mut self, share: u32) -> Self
        ensures { result ≡ record self {
          options = record self.options {
            hot_allocation = Some share;
          };
        } }
    {
        self.options.hot_allocation(share);
        self
    }

    /// The share of the expected items that is kept as ghosts, in parts per million.
    pub fn ghost_allocation(mut self, share: u32) -> Self
        ensures { result ≡ record self {
          options = record self.options {
            ghost_allocation = Some share;
          };
        } }
    {
        self.options.ghost_allocation(share);
        self
    }

    /// The greatest mark of an item, from 1 to 3.
    pub fn mark_cut(mut self, mark: u8) -> Self
        ensures { result ≡ record self { options = record self.options { mark_cut = Some mark } } }
    {
        self.options.mark_cut(mark);
        self
    }

    /// By what weigher entries are weighed.
    pub fn weigher<Other>(self, weigher: Other) -> Maker<Other, B, L>
    where
        We: Drop,
        ensures { result ≡ record {
          options = self.options;
          weigher = weigher;
          builder = self.builder;
          lifecycle = self.lifecycle;
        } }
    {
        Maker {
            options: self.options,
            weigher,
            builder: self.builder,
            lifecycle: self.lifecycle,
        }
    }

    /// By what builder keys are hashed.
    pub fn builder<Other>(self, builder: Other) -> Maker<We, Other, L>
    where
        B: Drop,
        ensures { result ≡ record {
          options = self.options;
          weigher = self.weigher;
          builder = builder;
          lifecycle = self.lifecycle;
        } }
    {
        Maker {
            options: self.options,
            weigher: self.weigher,
            builder,
            lifecycle: self.lifecycle,
        }
    }

    /// What pins items, and is told of what leaves.
    pub fn lifecycle<Other>(self, lifecycle: Other) -> Maker<We, B, Named<Other>>
    where
        L: Drop,
        ensures { result ≡ record {
          options = self.options;
          weigher = self.weigher;
          builder = self.builder;
          lifecycle = record { life = lifecycle };
        } }
    {
        Maker {
            options: self.options,
            weigher: self.weigher,
            builder: self.builder,
            lifecycle: Named { life: lifecycle },
        }
    }
}
