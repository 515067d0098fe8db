//! Caches are made by a maker, which names what differs from the defaults.
use quick_cache_expiring::Expiring;
use quick_cache_expiring_sync::SharedExpiring;
use quick_cache_listeners::ByLength;
use quick_cache_maker::{MakeError, Maker};
use quick_cache_sync::Cache as SharedCache;
use quick_cache_unsync::{Cache, DefaultHashBuilder, DefaultLifecycle, UnitWeighter};
use read_through::{AnySource, ReadThrough};
use std::alloc::Global;
use std::hash::RandomState;
use std::io;
use test_tools::{expect, expect_eq, expect_ok};

/// A cache whose weight is not named, which is a fault of its options.
fn make_faulty(alloc: Global) -> io::Result<Cache<u64, u64>> {
    Ok(Maker::new().items(100).make_unsync(alloc)?)
}

#[test]
fn caches_are_made_by_names(rt: HostRuntime) {
    let named = Maker::new().items(100).weight(1 << 20).weigher(ByLength);
    let named = named
        .hot_allocation(900000)
        .ghost_allocation(400000)
        .mark_cut(3);
    let named = named
        .builder(DefaultHashBuilder::new())
        .lifecycle(DefaultLifecycle::new());
    let mut texts: Cache<u64, &str, ByLength> = expect_ok!(rt; named.make_unsync(rt.alloc()));
    expect_eq!(rt; texts.put(1, "four"), Ok(()));
    expect_eq!(rt; (texts.weight(), texts.capacity()), (4, 1 << 20));
    let named = Maker::new().items(1000).weight(1000).shards(8);
    let shared: SharedCache<u64, u64> = expect_ok!(rt; named.make_shared(rt.alloc()));
    expect_eq!(rt; (shared.num_shards(), shared.capacity(&rt)), (8, 1000));
    // Entries that end.
    let named = Maker::new().items(100).weight(100);
    let mut ending: Expiring<u64, u64> = expect_ok!(rt; named.make_expiring(rt.alloc()));
    expect_eq!(rt; ending.put(1, 10, 0, 60), Ok(()));
    expect_eq!(rt; [ending.get(&1, 59).copied(), ending.get(&1, 60).copied()], [Some(10), None]);
    let named = Maker::new().items(1000).weight(1000).shards(4);
    let shared: SharedExpiring<u64, u64> = expect_ok!(rt; named.make_shared_expiring(rt.alloc()));
    expect_eq!(rt; shared.put(&rt, 1, 10, 0, 60), Ok(()));
    expect_eq!(rt; [shared.get(&rt, &1, 59), shared.get(&rt, &1, 60)], [Ok(Some(10)), Ok(None)]);
    // A loader with its cache, which strangers may ask.
    let random = expect_ok!(rt; RandomState::new(&rt));
    let named = Maker::new().items(100).weight(100).builder(random);
    let squares = expect_ok!(rt; named.make_read_through(
        rt.alloc(),
        60,
        |key: &u64, _now: u64| key.wrapping_mul(*key),
    ));
    let squares: ReadThrough<u64, u64, _, AnySource, Global, u64, UnitWeighter, RandomState> =
        squares;
    expect_eq!(rt; squares.get(&rt, &12, 0), Ok(144));
    // What has to be named and is not is a fault of the options.
    let faulty: Result<Cache<u64, u64>, _> = Maker::new().items(100).make_unsync(rt.alloc());
    expect!(rt; matches!(faulty, Err(MakeError::Options(_))));
    expect!(rt; matches!(make_faulty(rt.alloc()),
        Err(error) if error.kind() == io::ErrorKind::InvalidInput));
}
