//! A placeholder that is filled and still stands in its shard, as between the two steps of a guard
//! that puts its value in.
ghost use Rattle.std.specs.Prelude.{◌≡◌, IfSome, ⊤};

use futures::task::Poll;
use futures::test::MockTask;
use quick_cache_guard::entry_tasks::EntryFuture;
use quick_cache_guard::{Begun, EntryResult, LoadingShard};
use quick_cache_loading::sharing::{Placeholder, SharedPlaceholder};
use quick_cache_loading::waiting::{Filled, Waited, Wants};
use quick_cache_locked::LockedShard;
use quick_cache_model::{DefaultHashBuilder, UnitWeighter};
use quick_cache_options::OptionsBuilder;
use quick_cache_options::sizes::shard_sizes;
use quick_cache_shard::EntryAction;
use quick_cache_sync::DefaultLifecycle;
use std::alloc::{AllocError, Allocator};
use std::sync::{RwLock, Wait};
use test_tools::{expect, expect_ok};

/// A number of which each clone is refused.
#[derive(Drop)]
struct Unique(u64);

impl Clone for Unique {
    ghost is_clone = { λ _ _. ⊤ };

    ghost is_infallible = { λ _. ⊥ };

    fn clone(&self) -> Result<Self, AllocError> {
        Err(AllocError)
    }
}

type Life = DefaultLifecycle<u64, Unique>;

/// Loads the key 1 as 5, and gives that to those who wait. Nothing is put into the shard yet.
fn load_and_tell<S: LoadingShard<u64, Unique, Life, A>, R: Wait, A: Allocator>(
    rt: &R,
    locked: &mut S,
    placeholder: &Placeholder<u64, Unique, Life, A>,
) -> Option<Filled>
    ensures { IfSome result (λ filled. filled.ticket ≡ placeholder.now.ticket) }
{
    match placeholder.join(rt, locked, &1, Wants::Value, true) {
        Err(Waited::Guard(share)) => match placeholder.fill(rt, &1, share, Unique(5)) {
            Ok(filled) => Some(filled),
            Err((share, _)) => {
                placeholder.give_up(rt, locked, share);
                None
            }
        },
        Err(Waited::Value(_)) => None,
        Err(Waited::Timeout) => None,
        Err(Waited::Again) => None,
        Err(Waited::Refused(_)) => None,
        Ok(_place) => unreachable!(),
    }
}

#[test]
fn an_entry_call_asks_for_another_poll_and_for_no_clone(rt: HostRuntime) {
    let mut options = OptionsBuilder::new();
    options.estimated_items_capacity(100).weight_capacity(100);
    let Ok(options) = options.build() else {
        panic!(&rt; "the options are well");
    };
    let sizes = shard_sizes(&options);
    let (builder, lifecycle) = (DefaultHashBuilder::new(), DefaultLifecycle::new());
    let locked = expect_ok!(rt; LockedShard::new(
        rt.alloc(),
        &options,
        sizes,
        UnitWeighter,
        builder,
        lifecycle,
    ));
    let shard = RwLock::new(locked);
    let rt = &rt;
    let Ok(Begun::Loading(shared)) = shard.write(rt).begin_load(&1) else {
        panic!(rt; "the key is absent");
    };
    let Some(placeholder) = shared.into_placeholder() else {
        panic!(rt; "it has few owners");
    };
    let Some(filled) = load_and_tell(rt, &mut *shard.write(rt), &placeholder) else {
        panic!(rt; "its life begins");
    };
    let mut acts = EntryFuture::new(
        rt,
        &shard,
        &1,
        |_: &u64, v: &mut Unique| EntryAction::Retain(v.0),
    );
    let task = expect_ok!(rt; MockTask::new(rt));
    expect!(rt; task.poll(&mut acts).is_pending() && task.is_woken());
    let mut state = [None, None];
    let named = SharedPlaceholder::named(&placeholder);
    let put = filled.settle(&mut *shard.write(rt), &named, &1, Unique(5), &mut state);
    expect!(rt; put.is_ok());
    expect!(rt; matches!(task.poll(&mut acts), Poll::Ready(EntryResult::Retained(5))));
}
