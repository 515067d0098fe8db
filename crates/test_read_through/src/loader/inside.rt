//! The cache behind a loader is shown.
use crate::loader::hundreds::hundreds;
use read_through::{DefaultHashBuilder, OptionsBuilder, ReadThrough, UnitWeighter};
use test_tools::{expect_eq, expect_ok};

#[test]
fn its_cache_is_walked_with_the_moments(rt: HostRuntime) {
    let options = expect_ok!(rt; OptionsBuilder::new()
        .estimated_items_capacity(8)
        .weight_capacity(8)
        .build());
    let loaded: ReadThrough<u64, u64, _> = expect_ok!(rt; ReadThrough::with_options(
        rt.alloc(),
        options,
        UnitWeighter,
        DefaultHashBuilder::new(),
        10,
        |key: &u64, now: u64| hundreds(*key, now),
    ));
    expect_eq!(rt; loaded.get(&rt, &1, 5), Ok(105));
    let shown = match loaded.cache().iter(&rt).next() {
        Some(Ok((key, it))) => Some((key, it.value, it.moment)),
        _ => None,
    };
    expect_eq!(rt; (shown, loaded.cache().len(&rt)), (Some((1, 105, 5)), 1));
}
