//! Texts that find what is kept under a `String`, by what the crates themselves give on.
use quick_cache_expiring::{
    DefaultHashBuilder, DefaultLifecycle, Expiring, Lasting, Text, TextIn, UnitWeighter,
};
use quick_cache_expiring_sync::SharedExpiring;
use quick_cache_model::Refusal;
use std::alloc::Global;
use std::convert::Infallible;
use test_tools::{Rationed, expect, expect_eq, expect_ok};

#[test]
fn a_text_finds_and_loads_what_ends(rt: HostRuntime) {
    let alloc = rt.alloc();
    let (builder, lifecycle) = (DefaultHashBuilder::new(), DefaultLifecycle::new());
    let mut ages: Expiring<String, u64> =
        expect_ok!(rt; Expiring::with(alloc, 8, 8, UnitWeighter, builder, lifecycle));
    let loader = || -> Result<u64, Infallible> { Ok(30) };
    expect_eq!(rt; ages.load(&TextIn::new(alloc, "anna"), 0, 10, loader), Ok(Ok(true)));
    expect_eq!(rt; ages.get(&Text("anna"), 9).copied(), Some(30));
    expect!(rt; ages.get(&Text("ann"), 9).is_none());
    expect_eq!(rt; ages.cache().weight(), 1);
    let removed = ages.remove(&Text("anna"));
    expect!(rt; matches!(removed, Some((_, Lasting { value: 30, until: 10 }))));
}

#[test]
fn a_load_whose_key_is_refused_a_copy_has_dropped_what_was_over(rt: HostRuntime) {
    let ration = Rationed::new(rt.alloc(), 1);
    let mut ages: Expiring<String<&Rationed<Global>>, u64> =
        expect_ok!(rt; Expiring::new(rt.alloc(), 8));
    let anna = TextIn::new(&ration, "anna");
    for (now, told) in [
        (0, Ok(Ok(true))),
        (9, Ok(Ok(true))),
        (10, Err(Refusal::Memory)),
    ] {
        let loader = || -> Result<u64, Infallible> { Ok(30) };
        expect_eq!(rt; ages.load(&anna, now, 10, loader), told);
    }
    expect_eq!(rt; (ages.len(), ages.stats().expired), (0, 1));
}

#[test]
fn a_text_finds_and_loads_what_threads_share(rt: HostRuntime) {
    let alloc = rt.alloc();
    let ages: SharedExpiring<String, u64> = expect_ok!(rt; SharedExpiring::new(alloc, 8));
    let anna = quick_cache_expiring_sync::TextIn::new(alloc, "anna");
    let loader = || -> Result<u64, Infallible> { Ok(30) };
    expect_eq!(rt; ages.get_or_insert_with(&rt, &anna, 0, 10, loader), Ok(Ok(30)));
    let found = ages.get(&rt, &quick_cache_expiring_sync::Text("anna"), 9);
    expect_eq!(rt; found, Ok(Some(30)));
}
