//! Entries, as they come in and go out, and the lists that they stand in.
ghost use Rattle.std.specs.Prelude.{◌≡◌};
ghost use Rattle.quick_cache_store.specs.Slots.{stand_by, weight_in, stand_in, loading_in};

use crate::slots::resident::Marked;
use quick_cache_model::Queue;

/// A key that is being loaded.
#[derive(Drop)]
pub struct Awaited<K, P> {
    pub key: K,
    pub queue: Queue,
    pub placeholder: P,
}

/// What stands under a token.
#[derive(Drop)]
pub enum Entry<K, V, P, T> {
    Item(Marked<K, V, T>),
    Loading(Awaited<K, P>),
    Ghost,
}

/// The list that an entry stands in.
#[derive(Clone, Copy)]
pub enum Stand {
    AmongHot,
    AmongCold,
    AmongStill,
    AmongLoading,
    AmongGhosts,
}

/// An entry under its hash.
#[derive(Drop)]
pub struct Slot<K, V, P, T> {
    pub entry: Entry<K, V, P, T>,
    pub hash: u64,
}

impl Stand {
    /// The list of an item: that of its queue, or neither if it weighs nothing.
    #[inline(always)]
    pub fn of_item(weight: u64, queue: Queue) -> Stand
        ensures { result ≡ stand_by weight queue }
    {
        if weight == 0 {
            return Stand::AmongStill;
        }
        match queue {
            Queue::Hot => Stand::AmongHot,
            Queue::Cold => Stand::AmongCold,
        }
    }

    /// How many placeholders an entry of that list is.
    #[inline(always)]
    pub fn loading(self) -> usize
        ensures { result ≡ loading_in self }
    {
        match self {
            Stand::AmongLoading => 1,
            _ => 0,
        }
    }
}

impl<K, V, P, T> Entry<K, V, P, T> {
    /// What it weighs: only an item weighs something.
    #[inline(always)]
    pub fn weight(&self) -> u64
        ensures { result ≡ weight_in self.now }
    {
        match self {
            Entry::Item(item) => item.weight(),
            Entry::Loading(_) => 0,
            Entry::Ghost => 0,
        }
    }

    /// The list that it stands in.
    #[inline(always)]
    pub fn stand(&self) -> Stand
        ensures { result ≡ stand_in self.now }
    {
        match self {
            Entry::Item(item) => item.stand(),
            Entry::Loading(_) => Stand::AmongLoading,
            Entry::Ghost => Stand::AmongGhosts,
        }
    }
}
