//! Values with numbers of their own: two that are equal but for these are told apart.
ghost use Rattle.std.specs.Prelude.{◌≡◌, Bool, All};
ghost use Rattle.quick_cache_runs.specs.Asked.{IfAsks, IfLoads};
ghost use Rattle.quick_cache_runs.specs.Conservation.{ConservesCalls};
ghost use Rattle.quick_cache_shard.specs.Copies.{ClonesAreEqual};
ghost use Rattle.quick_cache_shard.specs.Predicates.{IsAnsweredAs};
ghost use Rattle.quick_cache_shard.specs.Steps.{rules_in, hooks_in};
ghost use Rattle.quick_cache_unsync.specs.Touches.{no_touches};

use quick_cache_base::{DefaultHashBuilder, Lifecycle, UnitWeighter, Weighter};
use quick_cache_listeners::{Listener, OnLeave};
use quick_cache_runs::{Call, Reply, run};
use quick_cache_shard::Ruled;
use quick_cache_unsync::Cache;
use std::alloc::Global;
use std::hash::{BuildHasher, Hash};
use test_tools::{expect_eq, expect_ok};

/// A value, and a number that tells it from others which are equal to it.
#[derive(Clone, Drop)]
struct Numbered<V> {
    value: V,
    number: u64,
}

/// A predicate that a call may ask.
type Predicate = fn(&u64, &Numbered<u64>) -> bool;

/// A run over numbered values loses none, makes none, and tells of none twice. A pair is a key and a
/// numbered value here, so each is told from those that are equal to it but for the number.
fn run_numbered<
    F: Fn(&K, &Numbered<V>) -> bool + Drop,
    K: Eq + Hash + Clone + Drop,
    V: Clone + Drop,
    We: Weighter<K, Numbered<V>>,
    B: BuildHasher,
    L: Lifecycle<K, Numbered<V>>,
>(
    alloc: Global,
    cache: &mut Cache<K, Numbered<V>, We, B, L>,
    calls: Vec<Call<K, Numbered<V>, F>>,
    state: &mut L::RequestState,
) -> Result<Vec<Reply<K, Numbered<V>>>, (Vec<Reply<K, Numbered<V>>>, Vec<Call<K, Numbered<V>, F>>)>
    requires keys { All (IfLoads (ClonesAreEqual K.eq K.is_clone)) calls.items }
    requires callable { All (IfAsks (λ asked. F.IsAlwaysCallable asked)) calls.items }
    ensures conserves { L.steady cache.old.lifecycle → (answers : F → K → _ → Bool)
        → All (IfAsks (λ asked. IsAnsweredAs F.Fn asked (answers asked))) calls.items
        → ConservesCalls
        (rules_in ⟦<Cache<K, Numbered<V>, We, B, L> as Ruled>⟧.goes no_touches cache.old)
        K.eq K.is_clone (λ value shown. V.is_clone value.value shown.value
        × (shown.number ≡ value.number)) answers
        (hooks_in ⟦<Cache<K, Numbered<V>, We, B, L> as Ruled>⟧.goes cache.old)
        cache.old.state state.old calls.items result cache.new.state state.new }
{
    run(alloc, cache, calls, state)
}

/// Adds up the numbers of the values that leave through a hook.
#[derive(Drop)]
struct AddsUp;

impl<K: Drop, V: Drop> Listener<K, Numbered<V>> for AddsUp {
    type State = u64;

    fn tell(&self, sum: &mut u64, _key: K, val: Numbered<V>) {
        *sum = sum.saturating_add(val.number);
    }
}

/// The sum of the numbers of the values that a reply gives out.
fn given_out<K, V>(reply: &Reply<K, Numbered<V>>) -> u64 {
    match reply {
        Reply::NotAdmitted(_, value) => value.number,
        Reply::Pair(Some((_, value))) => value.number,
        Reply::Pairs(pairs) => {
            let mut sum = 0u64;
            for (_, value) in pairs {
                sum = sum.saturating_add(value.number);
            }
            sum
        }
        _ => 0,
    }
}

#[test]
fn each_numbered_value_comes_out_once(rt: HostRuntime) {
    let alloc = rt.alloc();
    let builder = DefaultHashBuilder::new();
    let mut cache: Cache<u64, Numbered<u64>, UnitWeighter, DefaultHashBuilder, OnLeave<AddsUp>> =
        expect_ok!(rt; Cache::with(alloc, 3, 3, UnitWeighter, builder, OnLeave(AddsUp)));
    // Equal values, each with a decimal place of its own.
    let one = |number| Numbered { value: 7, number };
    let calls: Vec<Call<u64, Numbered<u64>, Predicate>> = expect_ok!(rt; vec![in alloc;
        Call::Insert(1, one(1)),
        Call::Insert(1, one(10)),
        Call::Insert(2, one(100)),
        Call::Insert(3, one(1000)),
        Call::Insert(4, one(10000)),
        Call::Replace(9, one(100000), false),
        Call::Load(5, Some(one(1000000))),
        Call::Get(5),
        Call::Remove(5),
        Call::Drain,
    ]);
    let mut sum = 0;
    let replies = run_numbered(alloc, &mut cache, calls, &mut sum).ok();
    let replies = replies.expect(&rt, "there is memory");
    expect_eq!(rt; replies.len(), 10);
    for reply in &replies {
        sum = sum.saturating_add(given_out(reply));
    }
    expect_eq!(rt; sum, 1111111);
}
