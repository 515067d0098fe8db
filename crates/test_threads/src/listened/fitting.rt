//! A lifecycle that pins by a test says what the other says of values, in both caches.
ghost use Rattle.std.specs.Prelude.{◌≡◌, ◌*◌, IfOk, IfSome};
ghost use Rattle.std.proofs.Common.{ap, ◌∙◌};
ghost use Rattle.std.proofs.lemmas.Bool.{eqb-true};

use crate::listened::told::Odd;
use quick_cache::{DefaultHashBuilder, Lifecycle, Refusal, UnitWeighter, sync, unsync};
use quick_cache_listeners::PinBy;
use std::sync::Wait;
use test_tools::{expect, expect_eq, expect_ok};

/// Says that each value is ten times its key, and drops what leaves.
#[derive(Debug, Clone, Drop)]
struct Tens;

impl Lifecycle<u64, u64> for Tens {
    type RequestState = ();

    ghost fits = { λ key value. value ≡ 10 * key };

    ghost before_evict_gives = { λ _ _ _ value _ left. left ≡ value };

    ghost on_evict_gives = { λ _ _ _ _ _. Unit {0} };

    ghost on_evict_cold_gives = { λ _ _ _ _ _. Unit {0} };

    ghost on_evict_hot_gives = { λ _ _ _ _ _. Unit {0} };

    ghost keeps_fits = { λ _ _ _ _ _ _ same fits. same ∙ fits };

    ghost same_fits = { λ first second _ same fits. fits ∙ ap (λ key. 10 * key) (eqb-true first second same) };

    fn is_pinned(&self, _key: &u64, _val: &u64) -> bool {
        false
    }

    fn before_evict(&self, _state: &mut (), _key: &u64, _val: &mut u64) {}

    fn on_evict(&self, _state: &mut (), _key: u64, _val: u64) {}

    fn on_evict_cold(&self, _state: &mut (), _key: u64, _val: u64) {}

    fn on_evict_hot(&self, _state: &mut (), _key: u64, _val: u64) {}
}

/// Pins the pairs of odd keys, and says of values what the other says.
type OddTens = PinBy<Odd, Tens>;

/// A cache of such pairs for one thread, and one that threads share.
type TenCache = unsync::Cache<u64, u64, UnitWeighter, DefaultHashBuilder, OddTens>;

type SharedTens = sync::Cache<u64, u64, UnitWeighter, DefaultHashBuilder, OddTens>;

/// A lifecycle that pins by key and value alone, as it was given.
pub fn steady<L: Lifecycle<u64, u64>>(lifecycle: L) -> L
    requires { L.steady lifecycle }
    ensures { result ≡ lifecycle }
{
    lifecycle
}

/// The value under a key, whoever stored it: ten times the key.
fn stored<R: Wait>(rt: &R, cache: &SharedTens, key: u64) -> Result<Option<u64>, Refusal>
    ensures { IfOk result (λ found. IfSome found (λ value. value ≡ 10 * key)) }
{
    cache.get(rt, &key)
}

/// Stores ten times the key.
fn store<R: Wait>(rt: &R, cache: &SharedTens, key: u32) -> bool {
    let key = u64::from(key);
    cache.insert(rt, key, 10 * key).is_ok()
}

/// The keys that are stored, in their order.
const KEYS: [u32; 3] = [2, 1, 4];

/// What is found then: a new pair made room for itself, but not that of an odd key.
const FOUND: [(u64, Option<u64>); 3] = [(2, None), (1, Some(10)), (4, Some(40))];

#[test]
fn an_odd_pair_stays_in_a_cache_for_one_thread(rt: HostRuntime) {
    let lifecycle = steady(PinBy(Odd, Tens));
    let builder = DefaultHashBuilder::new();
    let mut cache: TenCache = expect_ok!(rt;
        unsync::Cache::with(rt.alloc(), 2, 2, UnitWeighter, builder, lifecycle));
    for key in KEYS {
        let key = u64::from(key);
        expect_ok!(rt; cache.insert(key, 10 * key));
    }
    for (key, wanted) in FOUND {
        expect_eq!(rt; cache.get(&key).copied(), wanted);
    }
}

#[test]
fn an_odd_pair_stays_in_a_cache_that_threads_share(rt: HostRuntime) {
    let lifecycle = steady(PinBy(Odd, Tens));
    let builder = DefaultHashBuilder::new();
    let cache: SharedTens = expect_ok!(rt;
        sync::Cache::with(rt.alloc(), 2, 2, UnitWeighter, builder, lifecycle));
    for key in KEYS {
        expect!(rt; store(&rt, &cache, key));
    }
    for (key, wanted) in FOUND {
        expect_eq!(rt; stored(&rt, &cache, key), Ok(wanted));
    }
}
