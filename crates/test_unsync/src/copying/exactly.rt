//! Where a clone is the very value, as that of a number, the very value is shown.
ghost use Rattle.std.specs.Prelude.{◌≡◌, ℕ, Bool, All, IfOk, nat_eq};
ghost use Rattle.quick_cache_model.specs.CacheRun.{RunsCalls};
ghost use Rattle.quick_cache_model.specs.Shown.{IsItself};
ghost use Rattle.quick_cache_loading.specs.LoadingRun.{LoadingRun};
ghost use Rattle.quick_cache_runs.specs.Asked.{IfAsks, IfLoads};
ghost use Rattle.quick_cache_shard.specs.Copies.{ClonesAreEqual};
ghost use Rattle.quick_cache_shard.specs.Predicates.{IsAnsweredAs};
ghost use Rattle.quick_cache_shard.specs.Shard.{ClonesExactly};
ghost use Rattle.quick_cache_shard.specs.Steps.{rules_in, hooks_in};
ghost use Rattle.quick_cache_unsync.specs.Touches.{no_touches};

use crate::Predicate;
use crate::asked::{Ask, Said, answers};
use quick_cache_base::protocol::{Answer, Core, Event, run as run_loading};
use quick_cache_base::{Lifecycle, Refusal, Weighter};
use quick_cache_runs::{Call, Reply, run};
use quick_cache_shard::Ruled;
use quick_cache_unsync::Cache;
use std::alloc::{Allocator, Global};
use std::hash::{BuildHasher, Hash};
use test_tools::{expect_eq, expect_ok};

/// A run over any such keys and values shows those that it finds, where pinning is steady.
fn run_exactly<
    F: Fn(&K, &V) -> bool + Drop,
    K: Eq + Hash + Clone + Drop,
    V: Clone + Drop,
    We: Weighter<K, V>,
    B: BuildHasher,
    L: Lifecycle<K, V>,
    A: Allocator,
    M: Allocator + Clone,
>(
    alloc: M,
    cache: &mut Cache<K, V, We, B, L, A>,
    calls: Vec<Call<K, V, F>, M>,
    state: &mut L::RequestState,
) -> Result<Vec<Reply<K, V, M>, M>, (Vec<Reply<K, V, M>, M>, Vec<Call<K, V, F>, M>)>
    requires keys { All (IfLoads (ClonesAreEqual K.eq K.is_clone)) calls.items }
    requires callable { All (IfAsks (λ asked. F.IsAlwaysCallable asked)) calls.items }
    requires key_clones { ClonesExactly K.is_clone }
    requires clones { ClonesExactly V.is_clone }
    ensures runs { L.steady cache.old.lifecycle → (answers : F → K → V → Bool)
        → All (IfAsks (λ asked. IsAnsweredAs F.Fn asked (answers asked))) calls.items → RunsCalls
        (rules_in ⟦<Cache<K, V, We, B, L, A> as Ruled>⟧.goes no_touches cache.old)
        K.eq IsItself IsItself answers
        (hooks_in ⟦<Cache<K, V, We, B, L, A> as Ruled>⟧.goes cache.old)
        cache.old.state state.old calls.items result cache.new.state state.new }
{
    run(alloc, cache, calls, state)
}

/// Numbers need no condition: the search sees that a clone of one is the number.
fn run_numbers<
    F: Fn(&u64, &u64) -> bool + Drop,
    We: Weighter<u64, u64>,
    B: BuildHasher,
    L: Lifecycle<u64, u64>,
>(
    alloc: Global,
    cache: &mut Cache<u64, u64, We, B, L>,
    calls: Vec<Call<u64, u64, F>>,
    state: &mut L::RequestState,
) -> Result<Vec<Reply<u64, u64>>, (Vec<Reply<u64, u64>>, Vec<Call<u64, u64, F>>)>
    requires callable { All (IfAsks (λ asked. F.IsAlwaysCallable asked)) calls.items }
    ensures runs { L.steady cache.old.lifecycle → (answers : F → ℕ → ℕ → Bool)
        → All (IfAsks (λ asked. IsAnsweredAs F.Fn asked (answers asked))) calls.items → RunsCalls
        (rules_in ⟦<Cache<u64, u64, We, B, L> as Ruled>⟧.goes no_touches cache.old)
        nat_eq IsItself IsItself answers
        (hooks_in ⟦<Cache<u64, u64, We, B, L> as Ruled>⟧.goes cache.old)
        cache.old.state state.old calls.items result cache.new.state state.new }
{
    run(alloc, cache, calls, state)
}

/// A copy of numbers has the very state.
fn copy_numbers(cache: &Cache<u64, u64>) -> Result<Cache<u64, u64>, Refusal>
    ensures { IfOk result (λ copy. copy.state ≡ cache.now.state) }
{
    cache.try_clone()
}

/// Over any such values a loading core shows the value that filled it.
fn load_exactly<V: Clone>(
    core: &mut Core<V>,
    events: Vec<Event<V>>,
) -> Result<Vec<Answer<V>>, Refusal>
    requires clones { ClonesExactly V.is_clone }
    ensures { IfOk result (λ answers. LoadingRun IsItself
        core.old events.items answers.items core.new) }
{
    match run_loading(core, events) {
        Ok(answers) => Ok(answers),
        Err(refusal) => Err(refusal),
    }
}

#[test]
fn a_run_shows_the_numbers_that_it_finds(rt: HostRuntime) {
    let alloc = rt.alloc();
    let mut cache: Cache<u64, u64> = expect_ok!(rt; Cache::new(alloc, 5));
    let calls: Vec<Call<u64, u64, Predicate>> =
        expect_ok!(rt; vec![in alloc; Call::Insert(1, 10), Call::Get(1)]);
    let replies = run_exactly(alloc, &mut cache, calls, &mut ()).ok();
    let replies = replies.expect(&rt, "there is memory");
    let wanted = [Reply::Done, Reply::Value(Some(10))];
    expect_eq!(rt; replies.as_slice(), wanted.as_slice());
    let calls: Vec<Call<u64, u64, Predicate>> =
        expect_ok!(rt; vec![in alloc; Call::Remove(1), Call::Get(1)]);
    let replies = run_numbers(alloc, &mut cache, calls, &mut ()).ok();
    let replies = replies.expect(&rt, "there is memory");
    let wanted = [Reply::Pair(Some((1, 10))), Reply::Value(None)];
    expect_eq!(rt; replies.as_slice(), wanted.as_slice());
}

#[test]
fn a_copy_of_numbers_counts_what_was_counted(rt: HostRuntime) {
    let mut cache: Cache<u64, u64> = expect_ok!(rt; Cache::new(rt.alloc(), 5));
    let row = &[
        (Ask::Insert(1, 10), Said::Done),
        (Ask::Get(1), Said::Value(10)),
    ];
    answers(&rt, &mut cache, row);
    let mut copy = expect_ok!(rt; copy_numbers(&cache));
    let row = &[
        (Ask::Counts, Said::Counts([1, 1, 5, 1, 0])),
        (Ask::Peek(1), Said::Value(10)),
    ];
    answers(&rt, &mut copy, row);
}

#[test]
fn a_loaded_number_is_shown_as_it_is(rt: HostRuntime) {
    let mut core: Core<u64> = Core::new(rt.alloc());
    let events =
        expect_ok!(rt; vec![in rt.alloc(); Event::Create, Event::Fill(10), Event::Join(1)]);
    let answers = expect_ok!(rt; load_exactly(&mut core, events));
    let wanted = [Answer::Created, Answer::Done, Answer::Value(10)];
    expect_eq!(rt; answers.as_slice(), wanted.as_slice());
}
