//! What leaves either cache is collected and handed on, weights are lengths, and a test pins.
ghost use Rattle.std.specs.Prelude.{◌==◌, ◌%◌};

use quick_cache::{DefaultHashBuilder, sync, unsync};
use quick_cache_listeners::{ByLength, Collect, Collected, Listener, OnLeave, Pin, PinBy};
use std::alloc::Global;
use std::process::Abort;
use test_tools::{expect_eq, expect_ok};

/// Pins the pairs of odd keys.
#[derive(Debug, Clone, Drop)]
pub struct Odd;

impl<V> Pin<u64, V> for Odd {
    ghost pinned = { λ _ key _. key % 2 == 1 };

    fn is_pinned(&self, key: &u64, _val: &V) -> bool {
        *key % 2 == 1
    }
}

/// Keeps what leaves, and pins the texts of odd keys.
type Keeping = PinBy<Odd, OnLeave<Collect>>;

/// A cache of texts by their length, for one thread.
type Texts = unsync::Cache<u64, String, ByLength, DefaultHashBuilder, Keeping>;

/// The same, shared by threads.
type SharedTexts = sync::Cache<u64, String, ByLength, DefaultHashBuilder, Keeping>;

/// What leaves a cache of ten bytes.
type Left = Collected<u64, String>;

/// The keys of the texts that are written, in their order.
const KEYS: [u64; 5] = [2, 1, 4, 6, 8];

/// A text of four bytes.
fn four(rt: &impl Abort, alloc: Global) -> String {
    expect_ok!(rt; String::from_str(alloc, "four"))
}

/// The keys of what left, as the digits of a number, and how long the texts were in all.
fn handed_on(left: Left) -> (u64, u64) {
    let (mut keys, mut bytes) = (0u64, 0u64);
    left.each(|key, text: String| {
        keys = keys.saturating_mul(10).saturating_add(key);
        bytes = bytes.saturating_add(text.len() as u64);
    });
    (keys, bytes)
}

#[test]
fn what_leaves_a_cache_for_one_thread_is_handed_on(rt: HostRuntime) {
    let keeping = PinBy(Odd, OnLeave(Collect));
    let builder = DefaultHashBuilder::new();
    let mut texts: Texts = expect_ok!(rt;
        unsync::Cache::with(rt.alloc(), 10, 10, ByLength, builder, keeping));
    let mut left = Left::with(Vec::new(rt.alloc()));
    for key in KEYS {
        let text = four(&rt, rt.alloc());
        expect_ok!(rt; texts.insert_with_lifecycle(key, text, &mut left));
    }
    expect_eq!(rt; handed_on(left), (246, 12));
    expect_eq!(rt; (texts.len(), texts.weight()), (2, 8));
}

#[test]
fn what_leaves_a_shared_cache_is_handed_on(rt: HostRuntime) {
    let keeping = PinBy(Odd, OnLeave(Collect));
    let builder = DefaultHashBuilder::new();
    let texts: SharedTexts = expect_ok!(rt;
        sync::Cache::with(rt.alloc(), 10, 10, ByLength, builder, keeping));
    let mut left = Left::with(Vec::new(rt.alloc()));
    for key in KEYS {
        let text = four(&rt, rt.alloc());
        expect_ok!(rt; texts.insert_with_lifecycle(&rt, key, text, &mut left));
    }
    expect_eq!(rt; handed_on(left), (246, 12));
    expect_eq!(rt; (texts.len(&rt), texts.weight(&rt)), (2, 8));
}

/// Adds up how long the texts are that leave.
#[derive(Debug, Clone, Drop)]
struct Bytes;

impl Listener<u64, &'static str> for Bytes {
    type State = u64;

    fn tell(&self, bytes: &mut u64, _key: u64, val: &'static str) {
        *bytes = bytes.saturating_add(val.len() as u64);
    }
}

/// A cache of borrowed texts with this listener, for one thread, and one that threads share.
type Borrowed = unsync::Cache<u64, &'static str, ByLength, DefaultHashBuilder, OnLeave<Bytes>>;

type SharedBorrowed = sync::Cache<u64, &'static str, ByLength, DefaultHashBuilder, OnLeave<Bytes>>;

/// Texts of nine bytes in all, behind one of three.
const TEXTS: [(u64, &str); 3] = [(1, "one"), (2, "three"), (3, "four")];

#[test]
fn a_listener_of_ones_own_is_told_by_a_cache_for_one_thread(rt: HostRuntime) {
    let builder = DefaultHashBuilder::new();
    let mut texts: Borrowed = expect_ok!(rt;
        unsync::Cache::with(rt.alloc(), 10, 10, ByLength, builder, OnLeave(Bytes)));
    let mut left = 0;
    for (key, text) in TEXTS {
        expect_ok!(rt; texts.insert_with_lifecycle(key, text, &mut left));
    }
    expect_eq!(rt; (left, texts.weight()), (3, 9));
}

#[test]
fn a_listener_of_ones_own_is_told_by_a_shared_cache(rt: HostRuntime) {
    let builder = DefaultHashBuilder::new();
    let texts: SharedBorrowed = expect_ok!(rt;
        sync::Cache::with(rt.alloc(), 10, 10, ByLength, builder, OnLeave(Bytes)));
    let mut left = 0;
    for (key, text) in TEXTS {
        expect_ok!(rt; texts.insert_with_lifecycle(&rt, key, text, &mut left));
    }
    expect_eq!(rt; (left, texts.weight(&rt)), (3, 9));
}
