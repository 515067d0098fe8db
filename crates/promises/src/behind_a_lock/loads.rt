//! What those rely on who load a key in the shared cache, or act on its entry.
ghost use Rattle.std.specs.Prelude.{◌≡◌, IfErr, IfOk, OnErr, OnOk, is_some, true, false, vec_len};
ghost use Rattle.quick_cache_model.specs.Hashing.{StandsForGiven};
ghost use Rattle.quick_cache_loading.specs.Core.{waits};
ghost use Rattle.quick_cache_loading.specs.Fitting.{ClonesFit};
ghost use Rattle.quick_cache_guard.specs.Fills.{FilledAlone, FilledBy};

use quick_cache_base::protocol::{Answer, Core, Event, run};
use quick_cache_guard::entries::EntryShard;
use quick_cache_guard::{EntryResult, FillError, LoadingShard, PlaceholderGuard, Turns};
use quick_cache_loading::sharing::SharedPlaceholder;
use quick_cache_loading::waiting::{Ended, Place, Share, State, Unroused};
use quick_cache_model::{EntryAction, Lifecycle, Refusal, ToKey};
use std::alloc::Global;
use std::hash::Hash;
use std::sync::{RwLock, Wait};
use std::time::Clock;

/// A fill tells a request state of its own. One that fails gives the value back, and the guard is
/// given up.
pub fn fill_or_take_back<
    K: Eq + Hash + Drop,
    V: Clone,
    L: Lifecycle<K, V>,
    S: LoadingShard<K, V, L, Global>,
    R: Wait,
>(guard: PlaceholderGuard<'_, K, V, L, S, R>, value: V) -> Result<(), V>
where
    L::RequestState: Drop,
    requires fits { L.fits guard value }
    requires clones { ClonesFit L.fits V.is_clone }
    ensures told { OnOk result
        (FilledAlone L.RequestState.is_default S.fills guard.entry value) }
    ensures back { IfErr result (λ back. back ≡ value) }
{
    match guard.insert(value) {
        Ok(()) => Ok(()),
        Err(FillError::Gone(value)) => Err(value),
        Err(FillError::Memory(guard, value)) => {
            guard.abandon();
            Err(value)
        }
    }
}

/// A fill is told by the request state that it is handed, and one that fails tells nothing.
pub fn fill_and_tell<
    K: Eq + Hash + Drop,
    V: Clone,
    L: Lifecycle<K, V>,
    S: LoadingShard<K, V, L, Global>,
    R: Wait,
>(guard: PlaceholderGuard<'_, K, V, L, S, R>, value: V, state: &mut L::RequestState) -> bool
    requires fits { L.fits guard value }
    requires clones { ClonesFit L.fits V.is_clone }
    ensures told { result ≡ true → FilledBy S.fills guard.entry value state.old
        state.new }
    ensures unchanged { result ≡ false → state.new ≡ state.old }
{
    match guard.insert_with_lifecycle(value, state) {
        Ok(()) => true,
        Err(FillError::Gone(_value)) => false,
        Err(FillError::Memory(guard, _value)) => {
            guard.abandon();
            false
        }
    }
}

/// The guard that the share of a placeholder makes is that of its key: by it the value is filled in
/// under this one.
pub fn start_and_fill<
    K: Eq + Hash + Drop,
    V: Clone,
    L: Lifecycle<K, V>,
    S: LoadingShard<K, V, L, Global>,
    R: Wait,
>(
    rt: &R,
    shard: &RwLock<S>,
    placeholder: SharedPlaceholder<K, V, L, Global>,
    key: K,
    share: Share,
    value: V,
) -> Result<(), V>
where
    L::RequestState: Drop,
    requires owned { is_some placeholder.placeholder ≡ true }
    requires share { share ≡ placeholder.ticket }
    requires fits { L.fits key value }
    requires clones { ClonesFit L.fits V.is_clone }
    ensures told { OnOk result (FilledAlone L.RequestState.is_default S.fills key value) }
    ensures back { IfErr result (λ back. back ≡ value) }
{
    fill_or_take_back(
        PlaceholderGuard::start_loading(rt, shard, placeholder, key, share),
        value,
    )
}

/// An entry call whose callback keeps what it sees removes nothing and replaces nothing, and with no
/// limit it is never too late.
pub fn keep_what_is_there<
    K: Eq + Hash + Drop,
    V: Clone,
    L: Lifecycle<K, V>,
    S: EntryShard<K, V, L, Global>,
    R: Wait + Clock,
    Q: ToKey<K>,
>(rt: &R, shard: &RwLock<S>, query: &Q) -> bool
    requires stands { StandsForGiven (Q.to_key_gives query.now) (Q.equivalent query.now) }
{
    let mut keeps = |_: &K, _: &mut V| -> EntryAction<()> { EntryAction::Retain(()) };
    match PlaceholderGuard::entry(rt, shard, query, &mut Turns::within(None), &mut keeps) {
        EntryResult::Retained(()) => true,
        EntryResult::Removed(_, _) => unreachable!(),
        EntryResult::Replaced(_, _) => unreachable!(),
        EntryResult::Vacant(_) => false,
        EntryResult::Timeout => unreachable!(),
        EntryResult::Refused(_) => false,
    }
}

/// A list of events has an answer each, or is refused whole.
pub fn run_events<V: Clone>(
    core: &mut Core<V>,
    events: Vec<Event<V>>,
) -> Result<Vec<Answer<V>>, Refusal>
    ensures answers { IfOk result (λ answers. vec_len answers ≡ vec_len events) }
    ensures same { OnErr result (core.new ≡ core.old) }
{
    run(core, events)
}

/// Who withdraws waits no more.
pub fn wait_no_more<K: Eq + Drop, V: Clone + Drop, L: Lifecycle<K, V>>(
    state: &mut State<K, V, L>,
    place: Place,
) -> Unroused<Option<Ended>>
    ensures { place.ticket ≡ state.old.ticket → waits place.number state.new.core ≡ false }
{
    state.cancel(place)
}
