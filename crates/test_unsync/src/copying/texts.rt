//! Texts: a clone has the bytes of what it copies, and what a call shows is such a clone.
ghost use Rattle.std.specs.Prelude.{◌≡◌, Bool, All, IfOk, IfSome, string_bytes, string_eq};
ghost use Rattle.quick_cache_model.specs.CacheRun.{RunsCalls};
ghost use Rattle.quick_cache_loading.specs.LoadingRun.{LoadingRun};
ghost use Rattle.quick_cache_loading.specs.LoadingStep.{LoadingStep};
ghost use Rattle.quick_cache_runs.specs.Asked.{IfAsks};
ghost use Rattle.quick_cache_shard.specs.Copies.{IsCopyOf};
ghost use Rattle.quick_cache_shard.specs.Predicates.{IsAnsweredAs};
ghost use Rattle.quick_cache_shard.specs.Steps.{rules_in, hooks_in};
ghost use Rattle.test_unsync.specs.Shown.{HasSameBytes, IsShownUnder};
ghost use Rattle.quick_cache_unsync.specs.Touches.{no_touches};

use quick_cache_base::protocol::{Answer, Core, Event, run as run_loading, step};
use quick_cache_base::{Lifecycle, Refusal, Weighter};
use quick_cache_runs::{Call, Reply, run};
use quick_cache_shard::Ruled;
use quick_cache_unsync::Cache;
use std::alloc::Global;
use std::hash::{BuildHasher, Hash};
use std::process::Abort;
use test_tools::{expect, expect_eq, expect_ok};

/// A predicate that a call may ask.
type Predicate = fn(&String, &String) -> bool;

/// Each text that a run shows has the bytes of the text that was found, where pinning is steady.
fn run_texts<
    F: Fn(&String, &String) -> bool + Drop,
    We: Weighter<String, String>,
    B: BuildHasher,
    L: Lifecycle<String, String>,
>(
    alloc: Global,
    cache: &mut Cache<String, String, We, B, L>,
    calls: Vec<Call<String, String, F>>,
    state: &mut L::RequestState,
) -> Result<Vec<Reply<String, String>>, (Vec<Reply<String, String>>, Vec<Call<String, String, F>>)>
    requires callable { All (IfAsks (λ asked. F.IsAlwaysCallable asked)) calls.items }
    ensures runs { L.steady cache.old.lifecycle → (answers : F → _ → _ → Bool)
        → All (IfAsks (λ asked. IsAnsweredAs F.Fn asked (answers asked))) calls.items → RunsCalls
        (rules_in ⟦<Cache<String, String, We, B, L> as Ruled>⟧.goes no_touches cache.old)
        string_eq HasSameBytes HasSameBytes answers
        (hooks_in ⟦<Cache<String, String, We, B, L> as Ruled>⟧.goes cache.old)
        cache.old.state state.old calls.items result cache.new.state state.new }
{
    run(alloc, cache, calls, state)
}

/// Looks one key up by a run. A text that is given has the bytes of the text that stands under the
/// key.
fn get_text(alloc: Global, cache: &mut Cache<String, String>, key: String) -> Option<String>
    ensures { IfSome result (IsShownUnder (string_eq key) HasSameBytes cache.old.state) }
{
    let mut calls: Vec<Call<String, String, Predicate>> = Vec::new(alloc);
    let Ok(()) = calls.push(Call::Get(key)) else {
        return None;
    };
    let Ok(replies) = run(alloc, cache, calls, &mut ()) else {
        return None;
    };
    match replies.into_iter().next() {
        Some(Reply::Value(text)) => text,
        _ => None,
    }
}

/// A copy has texts of the same bytes, in the same order, with the same marks.
fn copy_texts(cache: &Cache<String, String>) -> Result<Cache<String, String>, Refusal>
    ensures { IfOk result (λ copy.
        IsCopyOf HasSameBytes HasSameBytes cache.now.state copy.state) }
{
    cache.try_clone()
}

/// A loaded text is shown with the bytes of the text that filled.
fn load_text(core: &mut Core<String>, event: Event<String>) -> Answer<String>
    ensures { LoadingStep HasSameBytes core.old event result core.new }
{
    step(core, event)
}

/// So it is over a list of events.
fn load_texts(
    core: &mut Core<String>,
    events: Vec<Event<String>>,
) -> Result<Vec<Answer<String>>, Refusal>
    ensures { IfOk result (λ answers.
        LoadingRun HasSameBytes core.old events.items answers.items core.new) }
{
    run_loading(core, events)
}

/// A text of its own.
fn text(rt: &impl Abort, alloc: Global, of: &str) -> String {
    expect_ok!(rt; String::from_str(alloc, of))
}

/// A cache that has `blue` under `square`.
fn a_cache_with_a_square(rt: &impl Abort, alloc: Global) -> Cache<String, String> {
    let mut cache: Cache<String, String> = expect_ok!(rt; Cache::new(alloc, 5));
    expect_ok!(rt; cache.insert(text(rt, alloc, "square"), text(rt, alloc, "blue")));
    cache
}

#[test]
fn a_run_shows_the_texts_that_it_finds(rt: HostRuntime) {
    let alloc = rt.alloc();
    let mut cache: Cache<String, String> = expect_ok!(rt; Cache::new(alloc, 5));
    let calls: Vec<Call<String, String, Predicate>> = expect_ok!(rt; vec![in alloc;
        Call::Insert(text(&rt, alloc, "square"), text(&rt, alloc, "blue")),
        Call::Get(text(&rt, alloc, "square")),
        Call::Get(text(&rt, alloc, "circle")),
        Call::Remove(text(&rt, alloc, "square")),
        Call::Get(text(&rt, alloc, "square")),
    ]);
    let replies = run_texts(alloc, &mut cache, calls, &mut ()).ok();
    let replies = replies.expect(&rt, "there is memory");
    let wanted = [
        Reply::Done,
        Reply::Value(Some(text(&rt, alloc, "blue"))),
        Reply::Value(None),
        Reply::Pair(Some((text(&rt, alloc, "square"), text(&rt, alloc, "blue")))),
        Reply::Value(None),
    ];
    expect_eq!(rt; replies.as_slice(), wanted.as_slice());
}

#[test]
fn a_text_is_looked_up_and_stays(rt: HostRuntime) {
    let alloc = rt.alloc();
    let mut cache = a_cache_with_a_square(&rt, alloc);
    let found = get_text(alloc, &mut cache, text(&rt, alloc, "square"));
    expect_eq!(rt; found, Some(text(&rt, alloc, "blue")));
    expect!(rt; get_text(alloc, &mut cache, text(&rt, alloc, "circle")).is_none());
    expect_eq!(rt; (cache.len(), cache.hits(), cache.misses()), (1, 1, 1));
}

#[test]
fn a_copy_has_texts_of_its_own(rt: HostRuntime) {
    let alloc = rt.alloc();
    let cache = a_cache_with_a_square(&rt, alloc);
    let mut copy = expect_ok!(rt; copy_texts(&cache));
    let square = text(&rt, alloc, "square");
    expect_eq!(rt;
        copy.remove(&square),
        Some((text(&rt, alloc, "square"), text(&rt, alloc, "blue")))
    );
    expect_eq!(rt; copy.len(), 0);
    expect!(rt; cache.contains_key(&square));
}

#[test]
fn a_loaded_text_is_shown_to_who_comes_later(rt: HostRuntime) {
    let alloc = rt.alloc();
    let mut core: Core<String> = Core::new(alloc);
    let events = expect_ok!(rt; vec![in alloc;
        Event::Create,
        Event::Fill(text(&rt, alloc, "blue")),
        Event::Join(1),
    ]);
    let answers = expect_ok!(rt; load_texts(&mut core, events));
    let wanted = [
        Answer::Created,
        Answer::Done,
        Answer::Value(text(&rt, alloc, "blue")),
    ];
    expect_eq!(rt; answers.as_slice(), wanted.as_slice());
    let answer = load_text(&mut core, Event::Join(2));
    expect_eq!(rt; answer, Answer::Value(text(&rt, alloc, "blue")));
}
