//! Numbers whose clones take memory, and what the caches of these tests go by.
ghost use Rattle.std.specs.Prelude.{◌≡◌, ◌==◌, ◌%◌, ◌/◌};

use crate::drawn::Drawn;
use quick_cache_model::{Lifecycle, Weighter};
use std::alloc::{AllocError, Global};
use test_tools::Rationed;

/// A number, as a key or as a value. A clone of it takes a block of the ration, and is refused
/// where none is left.
#[derive_where(PartialEq, Eq, Hash)]
#[derive(Drop)]
pub struct Slip<'a> {
    pub number: u64,
    #[derive_where(skip(EqHashOrd))]
    ration: &'a Rationed<Global>,
}

impl<'a> Slip<'a> {
    /// A number, which takes no memory.
    pub fn new(ration: &'a Rationed<Global>, number: u64) -> Slip<'a> {
        Slip { number, ration }
    }
}

impl Clone for Slip<'_> {
    ghost is_clone = { λ old new. new.number ≡ old.number };

    ghost is_infallible = { λ _. ⊥ };

    fn clone(&self) -> Result<Self, AllocError> {
        let _block = Box::new(self.ration, self.number)?;
        Ok(Slip {
            number: self.number,
            ration: self.ration,
        })
    }
}

/// Weighs an item by the last two digits of its value.
#[derive(Clone, Drop)]
pub struct ByDigits;

impl<'a> Weighter<Slip<'a>, Slip<'a>> for ByDigits {
    ghost weight_of = { λ _ _ value. value.number % 100 };

    fn weight(&self, _key: &Slip<'a>, value: &Slip<'a>) -> u64 {
        value.number % 100
    }
}

/// Pins the values from 100 to 199. Those from 200 lose their weight before they leave, and those
/// from 300 become light. What is told to the hooks of a call is drawn together.
#[derive(Clone, Drop)]
pub struct ByHundreds;

impl<'a> Lifecycle<Slip<'a>, Slip<'a>> for ByHundreds {
    type RequestState = Drawn;

    ghost pinned = { λ _ _ value. value.number / 100 == 1 };

    ghost before_evict_gives = { λ _ _ _ _ _ _. Unit {0} };

    ghost on_evict_gives = { λ _ _ _ _ _. Unit {0} };

    ghost on_evict_cold_gives = { λ _ _ _ _ _. Unit {0} };

    ghost on_evict_hot_gives = { λ _ _ _ _ _. Unit {0} };

    ghost keeps_fits = { λ _ _ _ _ _ _ _ fits. fits };

    ghost same_fits = { λ _ _ _ _ fits. fits };

    fn is_pinned(&self, _key: &Slip<'a>, val: &Slip<'a>) -> bool {
        val.number / 100 == 1
    }

    fn before_evict(&self, told: &mut Drawn, key: &Slip<'a>, val: &mut Slip<'a>) {
        told.add(&[1, key.number, val.number]);
        val.number = match val.number / 100 {
            2 => 200,
            3 => 301,
            _ => val.number,
        };
    }

    fn on_evict(&self, _told: &mut Drawn, _key: Slip<'a>, _val: Slip<'a>) {}

    fn on_evict_cold(&self, told: &mut Drawn, key: Slip<'a>, val: Slip<'a>) {
        told.add(&[2, key.number, val.number]);
    }

    fn on_evict_hot(&self, told: &mut Drawn, key: Slip<'a>, val: Slip<'a>) {
        told.add(&[3, key.number, val.number]);
    }
}
