//! Weights that together pass a `u64`, items that all weigh nothing, and pins that change from one
//! question to the next.
ghost use Rattle.std.specs.Prelude.{◌≡◌};

use quick_cache_model::{DefaultHashBuilder, Lifecycle, UnitWeighter, Weighter};
use quick_cache_options::OptionsBuilder;
use quick_cache_options::options::DEFAULT_HOT_ALLOCATION;
use quick_cache_unsync::Cache;
use std::alloc::Global;
use std::cell::Cell;
use std::test::Fail;
use test_tools::{expect, expect_eq};

/// Weighs a number as itself.
#[derive(Drop)]
struct AsItself;

impl Weighter<u64, u64> for AsItself {
    ghost weight_of = { λ _ _ value. value };

    fn weight(&self, _key: &u64, value: &u64) -> u64 {
        *value
    }
}

/// Weighs everything as nothing.
#[derive(Drop)]
struct AsNothing;

impl Weighter<u64, u64> for AsNothing {
    ghost weight_of = { λ _ _ _. 0 };

    fn weight(&self, _key: &u64, _value: &u64) -> u64 {
        0
    }
}

/// Pins while a number is odd, to which it adds at each question, and counts the calls of its hooks.
#[derive(Drop)]
pub(crate) struct Counting<'a> {
    pub asked: &'a Cell<u64>,
    pub adds: u64,
}

impl Lifecycle<u64, u64> for Counting<'_> {
    type RequestState = u64;

    ghost steady = { λ _. ⊥ };

    ghost before_evict_gives = { λ _ _ _ value _ left. left ≡ value };

    ghost on_evict_gives = { λ _ _ _ _ _. Unit {0} };

    ghost on_evict_cold_gives = { λ _ _ _ _ _. Unit {0} };

    ghost on_evict_hot_gives = { λ _ _ _ _ _. Unit {0} };

    ghost keeps_fits = { λ _ _ _ _ _ _ _ fits. fits };

    ghost same_fits = { λ _ _ _ _ fits. fits };

    fn is_pinned(&self, _key: &u64, _val: &u64) -> bool {
        let asked = self.asked.get();
        self.asked.set(asked.wrapping_add(self.adds));
        asked % 2 == 1
    }

    fn before_evict(&self, events: &mut u64, _key: &u64, _val: &mut u64) {
        *events = events.saturating_add(1);
    }

    fn on_evict(&self, events: &mut u64, _key: u64, _val: u64) {
        *events = events.saturating_add(1);
    }

    fn on_evict_cold(&self, events: &mut u64, _key: u64, _val: u64) {
        *events = events.saturating_add(1);
    }

    fn on_evict_hot(&self, events: &mut u64, _key: u64, _val: u64) {
        *events = events.saturating_add(1);
    }
}

/// A cache with such pins.
pub(crate) type Pinning<'a, We> = Cache<u64, u64, We, DefaultHashBuilder, Counting<'a>>;

/// A cache in which this share of the weight may be hot.
pub(crate) fn pinning<'a, We: Weighter<u64, u64> + Drop>(
    alloc: Global,
    items: usize,
    weight: u64,
    hot: u32,
    weigher: We,
    pins: Counting<'a>,
) -> Result<Pinning<'a, We>, Fail> {
    let mut options = OptionsBuilder::new();
    options
        .estimated_items_capacity(items)
        .weight_capacity(weight)
        .hot_allocation(hot);
    let builder = DefaultHashBuilder::new();
    Ok(Cache::with_options(alloc, options.build()?, weigher, builder, pins)?)
}

/// Inserts a pair, and tells how many calls of hooks that made.
pub(crate) fn put<We: Weighter<u64, u64>>(
    cache: &mut Pinning<'_, We>,
    key: u64,
    value: u64,
) -> Option<u64> {
    let mut events = 0;
    cache.insert_with_lifecycle(key, value, &mut events).ok()?;
    Some(events)
}

/// How many items there are, and what they weigh.
fn sizes<We>(cache: &Pinning<'_, We>) -> (usize, u64) {
    (cache.len(), cache.weight())
}

#[test]
fn two_pinned_items_of_the_greatest_weight_stay(rt: HostRuntime) -> Result<(), Fail> {
    let odd = Cell::new(1);
    let pins = Counting {
        asked: &odd,
        adds: 0,
    };
    let mut cache = pinning(rt.alloc(), 2, u64::MAX, 1000000, AsItself, pins)?;
    let mut is_right = true;
    for (key, items) in [(1, 1), (2, 2)] {
        let events = put(&mut cache, key, u64::MAX);
        is_right = is_right && events == Some(0) && sizes(&cache) == (items, u64::MAX);
    }
    for (key, left) in [(1, (1, u64::MAX)), (2, (0, 0))] {
        cache.remove(&key);
        is_right = is_right && sizes(&cache) == left;
    }
    expect!(rt; is_right);
    Ok(())
}

#[test]
fn each_call_returns_where_pins_come_and_go(rt: HostRuntime) -> Result<(), Fail> {
    let turns = Cell::new(0);
    let pins = Counting {
        asked: &turns,
        adds: 1,
    };
    let mut cache = pinning(rt.alloc(), 4, 4, DEFAULT_HOT_ALLOCATION, UnitWeighter, pins)?;
    for key in 0..200 {
        let is_in = put(&mut cache, key, key).is_some();
        let is_its_own = match cache.get(&key) {
            Some(value) => *value == key,
            None => true,
        };
        let (items, weight) = sizes(&cache);
        assert!(rt; is_in && is_its_own && weight == items as u64, "at {key}");
    }
    Ok(())
}

#[test]
fn what_weighs_nothing_stays_where_there_is_no_capacity(rt: HostRuntime) -> Result<(), Fail> {
    let even = Cell::new(0);
    let pins = Counting {
        asked: &even,
        adds: 0,
    };
    let mut cache = pinning(rt.alloc(), 0, 0, DEFAULT_HOT_ALLOCATION, AsNothing, pins)?;
    let events = put(&mut cache, 1, 10);
    let found = cache.get(&1).copied();
    expect_eq!(rt; (events, found, sizes(&cache)), (Some(0), Some(10), (1, 0)));
    Ok(())
}
