//! Items are saved, and come back to where they stood.
ghost use Rattle.std.specs.Prelude.{◌==◌, ◌/◌};

use crate::asked::{Ask, Said, answers};
use crate::unsync::great::AsItself;
use quick_cache_listeners::{Pin, PinBy};
use quick_cache_unsync::{
    Cache, DefaultHashBuilder, DefaultLifecycle, Options, OptionsBuilder, Queue,
};
use std::alloc::Global;
use std::process::Abort;
use test_tools::{expect, expect_eq, expect_ok};

/// A pair that is saved, with its ring and its mark.
type Saved = (u64, u64, Queue, u8);

/// Pins the keys from 1000 to 1999.
#[derive(Drop)]
struct Great;

impl Pin<u64, u64> for Great {
    ghost pinned = { λ _ key _. key / 1000 == 1 };

    fn is_pinned(&self, key: &u64, _val: &u64) -> bool {
        key / 1000 == 1
    }
}

/// A cache whose weights are its values.
type Weighed = Cache<
    u64,
    u64,
    AsItself,
    DefaultHashBuilder,
    PinBy<Great, DefaultLifecycle<u64, u64>>,
>;

/// What such a cache of this capacity is made by.
fn sized(rt: &impl Abort, capacity: u64) -> Options {
    let mut options = OptionsBuilder::new();
    options.estimated_items_capacity(100);
    options.weight_capacity(capacity);
    expect_ok!(rt; options.build())
}

/// A cache of this capacity into which these pairs came back.
fn restored(rt: &impl Abort, alloc: Global, capacity: u64, pairs: &[Saved]) -> Weighed {
    let options = sized(rt, capacity);
    let lifecycle = PinBy(Great, DefaultLifecycle::new());
    let builder = DefaultHashBuilder::new();
    let pairs = pairs.iter().copied();
    expect_ok!(rt; Cache::restored(alloc, options, AsItself, builder, lifecycle, pairs))
}

/// All items, those that weigh nothing last, by ascending keys.
fn saved(rt: &impl Abort, alloc: Global, cache: &Weighed) -> Vec<Saved> {
    let mut list = Vec::new(alloc);
    for (key, value, queue, mark) in cache.saved() {
        expect_ok!(rt; list.push((*key, *value, queue, mark)));
    }
    // What weighs something stays in its order, which is the first.
    let place_of = |item: &Saved| if item.1 > 0 {
        0
    } else {
        item.0.saturating_add(1)
    };
    expect_ok!(rt; list.sort_by_key(place_of));
    list
}

/// Stops the test where the items that are saved are others.
fn saves(rt: &impl Abort, alloc: Global, cache: &Weighed, list: &[Saved]) {
    expect_eq!(rt; saved(rt, alloc, cache).as_slice(), list);
}

/// All items of a cache, with which it stands again.
fn stands_again(rt: &impl Abort, alloc: Global, cache: &Weighed) -> Vec<Saved> {
    let list = saved(rt, alloc, cache);
    let mut again = restored(rt, alloc, cache.capacity(), &list);
    saves(rt, alloc, &again, &list);
    let counts = [cache.len() as u64, cache.weight(), cache.capacity(), 0, 0];
    answers(rt, &mut again, &[(Ask::Counts, Said::Counts(counts))]);
    list
}

/// A number that looks random.
fn mixed(number: u64) -> u64 {
    (number.wrapping_mul(6364136223846793005) >> 33) % 70
}

/// Looks a key up, and writes it where it is not there.
fn look_or_write(rt: &impl Abort, cache: &mut Weighed, key: u64) {
    if cache.get(&key).is_none() {
        expect_ok!(rt; cache.insert(key, key % 31));
    }
}

/// How many of these items are hot, are cold, weigh nothing, and have a mark, of those that weigh
/// nothing and of the others.
fn kinds_of(list: &[Saved]) -> [u64; 5] {
    let (mut hot, mut cold, mut light) = (0u64, 0u64, 0u64);
    let (mut light_marked, mut marked) = (0u64, 0u64);
    for (_, value, queue, mark) in list {
        hot = hot.saturating_add(u64::from(*queue == Queue::Hot));
        cold = cold.saturating_add(u64::from(*queue == Queue::Cold));
        light = light.saturating_add(u64::from(*value == 0));
        light_marked = light_marked.saturating_add(u64::from((*value == 0) & (*mark > 0)));
        marked = marked.saturating_add(u64::from((*value > 0) & (*mark > 0)));
    }
    [hot, cold, light, light_marked, marked]
}

#[test]
fn rings_marks_and_what_weighs_nothing_stand_again(rt: HostRuntime) {
    let alloc = rt.alloc();
    let mut cache = restored(&rt, alloc, 500, &[]);
    let mut seen = Vec::new(alloc);
    for round in 0..3000u64 {
        look_or_write(&rt, &mut cache, mixed(round));
        if round % 100 == 0 {
            let list = stands_again(&rt, alloc, &cache);
            expect_ok!(rt; seen.extend_from_slice(&list));
        }
    }
    for count in kinds_of(&seen) {
        expect!(rt; count > 10);
    }
}

#[test]
fn a_cache_above_its_capacity_stands_again(rt: HostRuntime) {
    let alloc = rt.alloc();
    // Two pairs are pinned, and only one has room.
    let mut cache = restored(&rt, alloc, 1, &[]);
    for key in [1000, 1001] {
        answers(&rt, &mut cache, &[(Ask::Insert(key, 1), Said::Done)]);
    }
    let len = stands_again(&rt, alloc, &cache).len();
    expect_eq!(rt; (len, cache.weight()), (2, 2));
}

#[test]
fn the_next_write_makes_room_for_what_came_back_too_heavy(rt: HostRuntime) {
    let pairs = [(1, 40, Queue::Cold, 0), (2, 3, Queue::Hot, 1)];
    let mut cache = restored(&rt, rt.alloc(), 10, &pairs);
    let row = &[
        (Ask::Counts, Said::Counts([2, 43, 10, 0, 0])),
        (Ask::Insert(3, 1), Said::Done),
        (Ask::Contains(1), Said::Is(false)),
        (Ask::Contains(3), Said::Is(true)),
    ];
    answers(&rt, &mut cache, row);
    expect!(rt; cache.weight() <= 10);
}

#[test]
fn a_ring_may_be_empty_where_the_other_is_not(rt: HostRuntime) {
    let cold = [(2, 1, Queue::Cold, 0)];
    let cache = restored(&rt, rt.alloc(), 2, &cold);
    saves(&rt, rt.alloc(), &cache, &cold);
}

/// Whether an item comes back. One that does not is given back, with no refusal.
fn comes_back(rt: &impl Abort, cache: &mut Weighed, item: Saved) -> bool {
    let (key, value, queue, mark) = item;
    let back = cache.restore(key, value, queue, mark).err();
    let comes = back.is_none();
    expect_eq!(rt; back, (!comes).then_some((key, value, None)));
    comes
}

#[test]
fn what_cannot_come_back_is_given_back(rt: HostRuntime) {
    let alloc = rt.alloc();
    let mut cache = restored(&rt, alloc, 10, &[]);
    // The last two are heavier than the cache, and weigh nothing.
    let rows = [
        ((1, 4, Queue::Hot, 200), true),
        ((1, 3, Queue::Cold, 0), false),
        ((3, 60, Queue::Hot, 1), true),
        ((4, 0, Queue::Cold, 1), true),
    ];
    for (item, comes) in rows {
        expect_eq!(rt; comes_back(&rt, &mut cache, item), comes);
    }
    // The mark is the greatest there is.
    let list = [
        (1, 4, Queue::Hot, 2),
        (3, 60, Queue::Hot, 1),
        (4, 0, Queue::Cold, 1),
    ];
    saves(&rt, alloc, &cache, &list);
    // No ghost comes of it.
    answers(&rt, &mut cache, &[(Ask::Remove(1), Said::Pair(1, 4))]);
    expect!(rt; comes_back(&rt, &mut cache, (1, 4, Queue::Cold, 0)));
}

#[test]
fn of_many_pairs_of_a_key_the_first_comes_back(rt: HostRuntime) {
    let twice = [
        (1, 1, Queue::Hot, 0),
        (1, 2, Queue::Cold, 1),
        (2, 0, Queue::Hot, 3),
    ];
    let cache = restored(&rt, rt.alloc(), 10, &twice);
    let list = [(1, 1, Queue::Hot, 0), (2, 0, Queue::Hot, 2)];
    saves(&rt, rt.alloc(), &cache, &list);
}
