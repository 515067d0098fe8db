//! What a value weighs, and what becomes of it by its kind.
ghost use Rattle.std.specs.Prelude.{◌≡◌};
ghost use Rattle.qcrun_parts.specs.Events.{Keeps};
ghost use Rattle.qcrun_parts.specs.declared.events.Event.{Event};
ghost use Rattle.qcrun_parts.specs.Kinds.{is_pinned, kind_of, value_left, weight_of};

use crate::events::{Event, Events, kept};
use quick_cache_model::{Lifecycle, Weighter};
use std::alloc::Allocator;
use std::marker::PhantomData;

/// How many values there are of a kind, one of each weight.
const WEIGHTS: u64 = 100;

/// The last two digits of a value are its weight.
#[derive(Drop)]
pub struct LastDigits;

impl Weighter<u64, u64> for LastDigits {
    ghost weight_of = { λ _ _ value. weight_of value };

    fn weight(&self, _key: &u64, val: &u64) -> u64 {
        weight_of(*val)
    }
}

/// The weight of a value.
pub(crate) fn weight_of(value: u64) -> u64
    ensures { result ≡ weight_of value }
{
    value % WEIGHTS
}

/// The kind of a value.
fn kind_of(value: u64) -> u64
    ensures { result ≡ kind_of value }
{
    value / WEIGHTS
}

/// What stays of a value that is to be evicted.
fn value_left(value: u64) -> u64
    ensures { result ≡ value_left value }
{
    match kind_of(value) {
        2 => 200,
        3 => 301,
        _ => value,
    }
}

/// Pins values of the first kind, lightens those of the second and the third, and keeps what it is
/// told.
#[derive(Drop)]
pub struct ByKind<A> {
    events: PhantomData<A>,
}

impl<A> ByKind<A> {
    /// The lifecycle; each one is like any other.
    pub fn new() -> Self {
        ByKind {
            events: PhantomData,
        }
    }
}

impl<A: Allocator> Lifecycle<u64, u64> for ByKind<A> {
    type RequestState = Events<A>;

    ghost pinned = { λ _ _ value. is_pinned value };

    ghost before_evict_gives = { λ _ old key value new left.
        Keeps old (Event.Before key value) new × (left ≡ value_left value) };

    ghost on_evict_gives = { λ _ old _ _ new. new ≡ old };

    ghost on_evict_cold_gives = { λ _ old key value new. Keeps old (Event.Cold key value) new };

    ghost on_evict_hot_gives = { λ _ old key value new. Keeps old (Event.Hot key value) new };

    ghost keeps_fits = { λ _ _ _ _ _ _ _ fits. fits };

    ghost same_fits = { λ _ _ _ _ fits. fits };

    fn is_pinned(&self, _key: &u64, val: &u64) -> bool {
        kind_of(*val) == 1
    }

    fn before_evict(&self, state: &mut Events<A>, key: &u64, val: &mut u64) {
        *state = kept(state.take(), Event::Before(*key, *val));
        *val = value_left(*val);
    }

    fn on_evict(&self, _state: &mut Events<A>, _key: u64, _val: u64) {}

    fn on_evict_cold(&self, state: &mut Events<A>, key: u64, val: u64) {
        *state = kept(state.take(), Event::Cold(key, val));
    }

    fn on_evict_hot(&self, state: &mut Events<A>, key: u64, val: u64) {
        *state = kept(state.take(), Event::Hot(key, val));
    }
}
