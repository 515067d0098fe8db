//! A load of a text that is refused memory: guard and text come back, and its key goes on being
//! loaded.
use crate::sweeps::stage::AMPLE;
use quick_cache_guard::{FillError, GuardResult};
use quick_cache_model::{DefaultHashBuilder, UnitWeighter};
use quick_cache_sync::{Cache, DefaultLifecycle};
use std::alloc::Global;
use std::sync::Wait;
use std::time::{Clock, Duration};
use test_tools::{Rationed, expect, expect_eq, expect_ok};

/// A text whose clones can be refused.
pub type Text<'a> = String<&'a Rationed<Global>>;

/// A cache of such texts.
pub type Texts<'a> = Cache<
    u64,
    Text<'a>,
    UnitWeighter,
    DefaultHashBuilder,
    DefaultLifecycle<u64, Text<'a>>,
    &'a Rationed<Global>,
>;

/// What is found under the key, and how many items there are.
fn found<R: Wait>(rt: &R, cache: &Texts<'_>) -> ([bool; 2], usize) {
    let found = cache.get(rt, &1);
    let is_there = matches!(&found, Ok(Some(text)) if text.as_str() == "a");
    ([matches!(found, Ok(None)), is_there], cache.len(rt))
}

/// Whether who comes to the key now would have to wait.
fn is_loading<R: Wait + Clock>(rt: &R, cache: &Texts<'_>) -> bool {
    let now = Some(Duration::from_millis(0));
    matches!(cache.get_value_or_guard(rt, &1, now), GuardResult::Timeout)
}

#[test]
fn a_text_that_is_refused_memory_is_filled_in_later(rt: HostRuntime) {
    let ration = Rationed::new(rt.alloc(), AMPLE);
    let cache: Texts<'_> = expect_ok!(rt; Cache::new(&ration, 100));
    let text = expect_ok!(rt; String::from_str(&ration, "a"));
    match cache.get_value_or_guard(&rt, &1, None) {
        GuardResult::Guard(guard) => {
            ration.allow(0);
            match guard.insert(text) {
                Err(FillError::Memory(guard, text)) => {
                    ration.allow(AMPLE);
                    expect!(rt; is_loading(&rt, &cache));
                    expect_eq!(rt; found(&rt, &cache), ([true, false], 0));
                    expect!(rt; guard.insert(text).is_ok());
                }
                _ => panic!(rt; "the clone of the text is refused"),
            }
        }
        _ => panic!(rt; "the key is absent"),
    }
    expect_eq!(rt; found(&rt, &cache), ([false, true], 1));
}
