//! What those rely on who take pairs out of a cache and tell its lifecycle.
ghost use Rattle.std.specs.Prelude.{◌≡◌, ◌<◌, ◌⊎◌, ◌∷◌, [], Some, None, IfSome, IfNone, length, false, ◌+◌, ◌^◌};
ghost use Rattle.std.specs.List.Sorted.{IsPermutation};
ghost use Rattle.quick_cache_expiring.specs.Lives.{lives};
ghost use Rattle.quick_cache_shard.specs.ShardDrain.{pairs_in};
ghost use Rattle.quick_cache_listeners.specs.declared.causes.cause.Cause.{Cause};

use crate::alone::listened::{LastCause, Odd};
use quick_cache_expiring::{Expiring, Lasting};
use quick_cache_listeners::{
    ByLength, Cause, Collect, Collected, Counted, CountedByThreads, Counts, ListenerWhy, OnLeave,
    OnLeaveWhy, PinBy, PinHeld, Request, SharedTallies, TellsTaken,
};
use quick_cache_unsync::Cache;
use std::hash::BuildHasher;
use std::rc::Rc;
use std::sync::Arc;

/// What is taken out is kept with the cause that its caller tells, whatever the last hook was, also
/// below a test that pins.
pub fn keep_what_was_taken(
    left: &mut Request<Collected<u64, (u64, Cause)>>,
    key: u64,
    value: u64,
    cause: Cause,
)
    requires empty { left.old.state.pairs ≡ Some [] }
    requires room { 0 < left.old.state.room }
    ensures kept { left.new.state.pairs ≡ Some ((key, (value, cause)) ∷ []) }
    ensures stage { left.new.stage ≡ left.old.stage }
{
    PinBy(Odd, OnLeaveWhy(Collect)).tell_taken(left, key, value, cause);
}

/// So is a handle, though others hold it.
pub fn keep_a_handle_that_was_taken(left: &mut Collected<u64, Rc<u64>>, key: u64, value: Rc<u64>)
    requires empty { left.old.pairs ≡ Some [] }
    requires room { 0 < left.old.room }
    ensures { left.new.pairs ≡ Some ((key, value) ∷ []) }
{
    PinHeld(OnLeave(Collect)).tell_taken(left, key, value, Cause::Removed);
}

/// What was removed is counted so with its weight, and the listener below is told.
pub fn count_a_removal(
    counts: &mut Request<Counts<Collected<u64, &'static str>>>,
    key: u64,
    text: &'static str,
)
    requires holds { counts.old.state.tallies.removed.weight + length text.now < 2 ^ 64 }
    requires empty { counts.old.state.state.pairs ≡ Some [] }
    requires room { 0 < counts.old.state.state.room }
    ensures weight { counts.new.state.tallies.removed.weight
        ≡ counts.old.state.tallies.removed.weight + length text.now }
    ensures others { counts.new.state.tallies.replaced ≡ counts.old.state.tallies.replaced }
    ensures kept { counts.new.state.state.pairs ≡ Some ((key, text.entry) ∷ []) }
{
    Counted(ByLength, OnLeave(Collect)).tell_taken(counts, key, text, Cause::Removed);
}

/// What threads count is told below them.
pub fn keep_what_threads_took(
    tallies: Arc<SharedTallies>,
    left: &mut Request<Collected<u64, &'static str>>,
    key: u64,
    text: &'static str,
)
    requires empty { left.old.state.pairs ≡ Some [] }
    requires room { 0 < left.old.state.room }
    ensures { left.new.state.pairs ≡ Some ((key, text.entry) ∷ []) }
{
    let lifecycle = CountedByThreads {
        tallies,
        weigher: ByLength,
        inner: OnLeave(Collect),
    };
    lifecycle.tell_taken(left, key, text, Cause::Cleared);
}

/// Of an option the pair is told that it has.
pub fn hear_of_one(heard: &mut Request<Option<Cause>>, key: u64, value: u64)
    ensures { heard.new.state ≡ Some Cause.Expired }
{
    OnLeaveWhy(LastCause).tell_each_taken(heard, Some((key, value)).into_iter(), Cause::Expired);
}

/// Of none nothing is told.
pub fn hear_of_none(heard: &mut Request<Option<Cause>>)
    ensures { heard.new ≡ heard.old }
{
    let none: Option<(u64, u64)> = None;
    OnLeaveWhy(LastCause).tell_each_taken(heard, none.into_iter(), Cause::Removed);
}

/// A pair that a predicate wants is given and gone, and no other. Where it wants none nothing changes.
pub fn take_one_above<We, B: BuildHasher, L>(
    cache: &mut Cache<u64, u64, We, B, L>,
    least: u64,
) -> Option<(u64, u64)>
    ensures wanted { IfSome result (λ pair. least < pair.1) }
    ensures gone { IfSome result
        (λ pair. IsPermutation (pairs_in cache.old) (pair ∷ pairs_in cache.new)) }
    ensures none { IfNone result (cache.new ≡ cache.old) }
{
    cache.extract_if(|_, value| *value > least).next()
}

/// Each pair that it gives may be told.
pub fn hear_of_those_above<We, B: BuildHasher, L>(
    heard: &mut Request<Option<Cause>>,
    cache: &mut Cache<u64, u64, We, B, L>,
    least: u64,
)
    ensures { (heard.new ≡ heard.old) ⊎ (heard.new.state ≡ Some Cause.Retained) }
{
    let wanted = cache.extract_if(|_, value| *value > least);
    OnLeaveWhy(LastCause).tell_each_taken(heard, wanted, Cause::Retained);
}

/// Keeps why the last entry left, and its end.
#[derive(Drop)]
pub struct LastEnd;

impl ListenerWhy<u64, Lasting<u64>> for LastEnd {
    type State = Option<(Cause, u64)>;

    ghost tells = { λ _ _ _ lasting cause new. new ≡ Some (cause, lasting.until) };

    fn tell(&self, last: &mut Option<(Cause, u64)>, _key: u64, val: Lasting<u64>, cause: Cause) {
        *last = Some((cause, val.until));
    }
}

/// So may each entry that is over, as expired, and what is told so was over.
pub fn hear_of_what_is_over(
    heard: &mut Request<Option<(Cause, u64)>>,
    entries: &mut Expiring<u64, u64>,
    now: u64,
)
    requires none { heard.old.state ≡ None }
    ensures { IfSome heard.new.state (λ told. (told.0 ≡ Cause.Expired)
        × (lives told.1 now ≡ false)) }
{
    OnLeaveWhy(LastEnd).tell_each_taken(heard, entries.take_over(now), Cause::Expired);
}
