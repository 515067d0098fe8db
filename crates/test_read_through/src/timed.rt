//! Caches with a clock and a life of their own.
ghost use Rattle.std.specs.Prelude.{◌≡◌, IfOk, length, vec_len};

use crate::loader::hundreds::{all_hundreds, hundreds};
use quick_cache_expiring::{Expiring, LoadError, Text};
use quick_cache_expiring_sync::SharedExpiring;
use quick_cache_timed::{
    Life, SetTicker, SharedTicker, SystemTicker, Ticker, Timed, TimedReading, millis_of,
};
use read_through::ReadThrough;
use std::alloc::AllocError;
use std::convert::Infallible;
use std::thread::sleep;
use std::time::Duration;
use test_tools::{expect, expect_eq, expect_ok};

/// Whether a life of 10 seconds slides, and looks in turn at what was stored at 1000: the moment, and
/// whether it serves.
const LOOKS: [(bool, &[(u64, bool)]); 4] = [
    (
        false,
        &[(1000, true), (10999, true), (11000, false), (10999, false)],
    ),
    // A clock that goes back.
    (false, &[(10999, true), (0, true), (11000, false)]),
    (true, &[(10999, true), (20998, true), (30998, false)]),
    (true, &[(11000, false), (10999, false)]),
];

#[test]
fn a_cache_tells_the_time_by_its_clock(rt: HostRuntime) {
    for (slides, looks) in LOOKS {
        let entries: Expiring<u64, u64> = expect_ok!(rt; Expiring::new(rt.alloc(), 8));
        let mut timed = Timed::time_to_live(
            entries,
            SetTicker { moment: 1000 },
            Duration::from_secs(10),
        );
        timed.life.slides = slides;
        expect_eq!(rt; timed.put(1, 100), Ok(()));
        for (moment, serves) in looks {
            timed.ticker.moment = *moment;
            let value = serves.then_some(100);
            expect_eq!(rt; (*moment, timed.peek(&1).copied()), (*moment, value));
            expect_eq!(rt; (*moment, timed.get(&1).copied()), (*moment, value));
        }
    }
}

#[test]
fn a_shared_cache_tells_the_time_by_its_clock(rt: HostRuntime) {
    for (slides, looks) in LOOKS {
        let ticker = SharedTicker::new(1000);
        let entries: SharedExpiring<u64, u64> = expect_ok!(rt; SharedExpiring::new(rt.alloc(), 8));
        let mut timed = Timed::time_to_live(entries, &ticker, Duration::from_secs(10));
        timed.life.slides = slides;
        expect_eq!(rt; timed.put(&rt, 1, 100), Ok(()));
        for (moment, serves) in looks {
            ticker.set(*moment);
            let value = serves.then_some(100);
            expect_eq!(rt; (*moment, timed.peek(&rt, &1)), (*moment, Ok(value)));
            expect_eq!(rt; (*moment, timed.get(&rt, &1)), (*moment, Ok(value)));
        }
    }
}

#[test]
fn each_call_takes_the_moment_and_the_life(rt: HostRuntime) {
    let entries: Expiring<u64, u64> = expect_ok!(rt; Expiring::new(rt.alloc(), 8));
    let mut timed = Timed::time_to_live(entries, SetTicker { moment: 0 }, Duration::from_secs(10));
    expect!(rt; timed.insert(1, 100).is_ok());
    timed.ticker.moment = 9999;
    expect_eq!(rt; (timed.touch(&1), timed.expires_at(&1)), (true, Some(19999)));
    expect_eq!(rt; timed.load(&2, || Ok::<u64, u64>(200)), Ok(Ok(true)));
    expect_eq!(rt; timed.get_or_load(&3, || Ok::<u64, u64>(300)), Ok(300));
    expect_eq!(rt; timed.get_or_load(&4, || Err::<u64, u64>(4)), Err(LoadError::Failed(4)));
    // The moment, what a load of 1 gives then, how many entries go as they are over, and the rest.
    for (moment, value, gone, left) in [
        (19998, 100, 0, 3),
        (19999, 101, 2, 1),
        (29999, 101, 0, 1),
    ] {
        timed.ticker.moment = moment;
        expect_eq!(rt; timed.get_or_load(&1, || Ok::<u64, u64>(101)), Ok(value));
        expect_eq!(rt; (moment, timed.purge(), timed.len()), (moment, gone, left));
    }
    expect!(rt; timed.remove(&1).is_some_and(|pair| pair.1.until == 39999));
    timed.clear();
    expect_eq!(rt; (timed.len(), timed.stats().expired), (0, 2));
}

#[test]
fn each_shared_call_takes_the_moment_and_the_life(rt: HostRuntime) {
    let ticker = SharedTicker::new(0);
    let entries: SharedExpiring<u64, u64> = expect_ok!(rt; SharedExpiring::new(rt.alloc(), 8));
    let timed = Timed::time_to_live(entries, &ticker, Duration::from_secs(10));
    expect!(rt; timed.insert(&rt, 1, 100).is_ok());
    ticker.set(9999);
    expect_eq!(rt; (timed.touch(&rt, &1), timed.expires_at(&rt, &1)), (true, Ok(Some(19999))));
    let failed = timed.get_or_insert_with(&rt, &4, || Err::<u64, u64>(4));
    expect_eq!(rt; failed, Ok(Err(4)));
    for (moment, value, gone, left) in [
        (19998, 100, 0, 1),
        (19999, 101, 0, 1),
        (30000, 101, 0, 1),
    ] {
        ticker.set(moment);
        let loaded = timed.get_or_insert_with(&rt, &1, || Ok::<u64, Infallible>(101));
        expect_eq!(rt; (moment, loaded), (moment, Ok(Ok(value))));
        expect_eq!(rt; (moment, timed.purge(&rt), timed.len(&rt)), (moment, gone, left));
    }
    ticker.advance(Duration::from_secs(10));
    expect_eq!(rt; (timed.purge(&rt), timed.remove(&rt, &1).is_some()), (1, false));
}

#[test]
fn a_load_renews_what_slides(rt: HostRuntime) {
    let ticker = SharedTicker::new(0);
    let entries: Expiring<u64, u64> = expect_ok!(rt; Expiring::new(rt.alloc(), 8));
    let mut alone = Timed::time_to_idle(entries, &ticker, Duration::from_secs(10));
    let entries: SharedExpiring<u64, u64> = expect_ok!(rt; SharedExpiring::new(rt.alloc(), 8));
    let shared = Timed::time_to_idle(entries, &ticker, Duration::from_secs(10));
    // The moment, and the moment of the load that gave the value.
    for (moment, value) in [(0, 0), (9999, 0), (19998, 0), (29998, 29998)] {
        ticker.set(moment);
        expect_eq!(rt; alone.get_or_load(&1, || Ok::<u64, u64>(moment)), Ok(value));
        let loaded = shared.get_or_insert_with(&rt, &1, || Ok::<u64, u64>(moment));
        expect_eq!(rt; loaded, Ok(Ok(value)));
    }
}

#[test]
fn a_loader_is_asked_at_the_moment_that_the_clock_tells(rt: HostRuntime) {
    let ticker = SharedTicker::new(0);
    let loader = |key: &u64, now: u64| hundreds(*key, now);
    let inner: ReadThrough<u64, u64, _> =
        expect_ok!(rt; ReadThrough::new(rt.alloc(), 8, 10_000, loader));
    let timed = TimedReading {
        inner,
        ticker: &ticker,
    };
    // The moment, what a get of 1 gives, and one which refreshes what is 5 seconds old.
    for (moment, value, refreshed) in [
        (0, 100, 100),
        (5000, 100, 100),
        (5001, 100, 5101),
        (15001, 15101, 15101),
    ] {
        ticker.set(moment);
        expect_eq!(rt; (moment, timed.get(&rt, &1)), (moment, Ok(value)));
        let anew = timed.get_or_refresh(&rt, &1, Duration::from_secs(5));
        expect_eq!(rt; (moment, anew), (moment, Ok(refreshed)));
    }
    expect_eq!(rt; timed.put(&rt, 2, 7), Ok(()));
    let load_all = |keys: &[u64]| -> Result<Vec<u64>, AllocError>
        ensures { IfOk result (λ values. vec_len values ≡ length keys.now) }
    { all_hundreds(rt.alloc(), keys, 15001) };
    let many = timed.load_many(&rt, rt.alloc(), &[1, 2, 3], load_all);
    let many = expect_ok!(rt; expect_ok!(rt; many));
    expect_eq!(rt; many.as_slice(), &[15101, 7, 15301]);
    expect_eq!(rt; (timed.len(&rt), timed.stats(&rt).expired), (3, 1));
}

#[test]
fn a_loader_that_fails_is_asked_at_the_next_moment(rt: HostRuntime) {
    let ticker = SharedTicker::new(0);
    let loader = |key: &u64, now: u64| if now < 1000 {
        Err(now)
    } else {
        Ok(key.wrapping_add(now))
    };
    let inner: ReadThrough<u64, u64, _> =
        expect_ok!(rt; ReadThrough::new(rt.alloc(), 8, 10_000, loader));
    let timed = TimedReading {
        inner,
        ticker: &ticker,
    };
    for (moment, given) in [
        (999, Err(999)),
        (1000, Ok(1001)),
        (10999, Ok(1001)),
        (11000, Ok(11001)),
    ] {
        ticker.set(moment);
        expect_eq!(rt; (moment, timed.try_get(&rt, &1)), (moment, Ok(given)));
    }
}

#[test]
fn jitter_is_within_its_bounds_and_the_same_twice(rt: HostRuntime) {
    let life = Life {
        millis: 1_000_000,
        slides: false,
        jitter: 250_000,
    };
    let mut least = u64::MAX;
    let mut most = 0u64;
    for key in 0..1000u64 {
        let lives = life.of(&key);
        expect_eq!(rt; life.of(&key), lives);
        least = least.min(lives);
        most = most.max(lives);
    }
    expect!(rt; least >= 750_000 && least < 752_000 && most <= 1_000_000 && most > 998_000);
    // A query has the life of its keys.
    let anna = expect_ok!(rt; String::from_str(rt.alloc(), "anna"));
    expect_eq!(rt; life.of(&Text("anna")), life.of(&anna));
    // No jitter takes more than there is.
    for (millis, jitter) in [(0, 5), (1, u32::MAX), (u64::MAX, u32::MAX), (u64::MAX, 0)] {
        let lives = Life {
            millis,
            jitter,
            slides: false,
        }
        .of(&3u64);
        expect!(rt; lives <= millis && (jitter > 0 || lives == millis));
    }
}

#[test]
fn the_clock_of_the_system_goes_on(rt: HostRuntime) {
    let ticker = expect_ok!(rt; SystemTicker::new(&rt));
    let entries: Expiring<u64, u64> = expect_ok!(rt; Expiring::new(rt.alloc(), 8));
    let mut timed = Timed::time_to_live(entries, &ticker, Duration::from_secs(3600));
    expect_eq!(rt; timed.put(1, 100), Ok(()));
    let before = ticker.moment();
    sleep(&rt, Duration::from_millis(20));
    expect!(rt; ticker.moment() >= before.saturating_add(20));
    expect_eq!(rt; timed.get(&1).copied(), Some(100));
    timed.life.millis = 0;
    expect_eq!(rt; timed.put(1, 100), Ok(()));
    expect_eq!(rt; timed.get(&1).copied(), None);
    expect_eq!(rt; millis_of(Duration::MAX), u64::MAX);
}
