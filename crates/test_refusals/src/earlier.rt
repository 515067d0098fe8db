//! What a refused call keeps: the hit of a key that was met being loaded, and the steps before the one
//! that was refused.
use crate::sweeps::stage::AMPLE;
use crate::texts::{Text, Texts};
use quick_cache_guard::GuardResult;
use quick_cache_model::{DefaultHashBuilder, Queue, Refusal, UnitWeighter};
use quick_cache_sync::{Cache, DefaultLifecycle};
use quick_cache_unsync as unsync;
use quick_cache_unsync::LoadError;
use std::alloc::Global;
use std::time::Duration;
use test_tools::{Rationed, expect, expect_eq, expect_ok};

/// A shared cache of numbers whose memory is rationed.
type Numbers<'a> = Cache<
    u64,
    u64,
    UnitWeighter,
    DefaultHashBuilder,
    DefaultLifecycle<u64, u64>,
    &'a Rationed<Global>,
>;

/// A cache of numbers for one thread, whose memory is rationed.
type OwnNumbers<'a> = unsync::Cache<
    u64,
    u64,
    UnitWeighter,
    DefaultHashBuilder,
    unsync::DefaultLifecycle<u64, u64>,
    &'a Rationed<Global>,
>;

/// A cache for one thread, of texts whose clones can be refused.
type OwnTexts<'a> = unsync::Cache<
    u64,
    Text<'a>,
    UnitWeighter,
    DefaultHashBuilder,
    unsync::DefaultLifecycle<u64, Text<'a>>,
    &'a Rationed<Global>,
>;

#[test]
fn who_meets_a_load_and_cannot_wait_has_counted_a_hit(rt: HostRuntime) {
    let ration = Rationed::new(rt.alloc(), AMPLE);
    let cache: Numbers<'_> = expect_ok!(rt; Cache::new(&ration, 10));
    let GuardResult::Guard(_guard) = cache.get_value_or_guard(&rt, &1, None) else {
        panic!(rt; "the key is absent");
    };
    ration.allow(0);
    let mut hits = [0; 3];
    for counted in &mut hits {
        let limit = Some(Duration::from_millis(1));
        let refused = cache.get_value_or_guard(&rt, &1, limit);
        expect!(rt; matches!(refused, GuardResult::Refused(Refusal::Memory)));
        *counted = cache.hits(&rt);
    }
    expect_eq!(rt; hits, [1, 2, 3]);
    expect_eq!(rt; cache.misses(&rt), 1);
}

#[test]
fn a_load_whose_clone_is_refused_has_counted_its_look(rt: HostRuntime) {
    let ration = Rationed::new(rt.alloc(), AMPLE);
    let mut cache: OwnTexts<'_> = expect_ok!(rt; unsync::Cache::new(&ration, 10));
    let text = expect_ok!(rt; String::from_str(&ration, "a"));
    expect!(rt; cache.put(1, text).is_ok());
    ration.allow(0);
    let refused = cache.get_or_load(&1, || Err(()));
    expect!(rt; matches!(refused, Err(LoadError::Refused(Refusal::Memory))));
    expect_eq!(rt; [cache.hits(), cache.misses()], [1, 0]);
}

#[test]
fn what_came_in_before_a_refused_pair_stays(rt: HostRuntime) {
    let ration = Rationed::new(rt.alloc(), AMPLE);
    let cache: Numbers<'_> = expect_ok!(rt; Cache::new(&ration, 100_000));
    expect!(rt; cache.put(&rt, 0, 0).is_ok());
    ration.allow(20);
    let Err((key, _, Refusal::Memory, rest)) = cache.fill(&rt, (0..100_000).map(|n| (n, n))) else {
        panic!(rt; "a growth is refused");
    };
    let left = rest.count() as u64;
    expect_eq!(rt; (cache.len(&rt) as u64, key + 1 + left), (key, 100_000));
}

#[test]
fn what_came_back_before_a_refused_pair_stays(rt: HostRuntime) {
    let ration = Rationed::new(rt.alloc(), AMPLE);
    let mut cache: OwnNumbers<'_> = expect_ok!(rt; unsync::Cache::new(&ration, 100_000));
    expect!(rt; cache.put(0, 0).is_ok());
    ration.allow(20);
    let pairs = (1..100_000).map(|n| (n, n, Queue::Hot, 0));
    expect_eq!(rt; cache.restore_all(pairs), Err(Refusal::Memory));
    let left = cache.len() as u64;
    let there = [1, left.saturating_sub(1), left].map(|key| cache.contains_key(&key));
    expect_eq!(rt; there, [true, true, false]);
}

#[test]
fn what_was_looked_up_before_a_refused_clone_is_counted(rt: HostRuntime) {
    let ration = Rationed::new(rt.alloc(), AMPLE);
    // All keys of so small a cache have one shard.
    let cache: Texts<'_> = expect_ok!(rt; Cache::new(&ration, 8));
    for key in 1..3 {
        let text = expect_ok!(rt; String::from_str(&ration, "a"));
        expect!(rt; cache.put(&rt, key, text).is_ok());
    }
    // Two lists of answers are had, and one clone.
    ration.allow(1);
    let found = cache.get_many(&rt, rt.alloc(), &[1, 2]);
    expect!(rt; matches!(found, Err(Refusal::Memory)));
    expect_eq!(rt; cache.hits(&rt), 1);
}
