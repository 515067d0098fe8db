//! What a caller relies on that sees values under the lock of the shared cache: they fit.
ghost use Rattle.std.specs.Prelude.{◌≡◌, ◌<◌, ◌≤◌, ◌/◌, IfOk, IfSome, None, Some};
ghost use Rattle.quick_cache_expiring.specs.Looks.{IfRetain};

use quick_cache_guard::{EntryResult, Fetched, GuardResult};
use quick_cache_model::{DefaultHashBuilder, EntryAction, Lifecycle, Refusal, UnitWeighter};
use quick_cache_sync::{Cache, LockContention, TryError};
use std::convert::Infallible;
use std::sync::Wait;
use std::time::Clock;

/// Says that no value is 0, and keeps the value of the last pair that left.
#[derive(Drop)]
pub struct AboveZero;

impl Lifecycle<u64, u64> for AboveZero {
    type RequestState = Option<u64>;

    ghost fits = { λ _ value. 0 < value };

    ghost before_evict_gives = { λ _ old _ value new left. (new ≡ old) × (0 < value → 0 < left) };

    ghost on_evict_gives = { λ _ _ _ value new. new ≡ Some value };

    ghost on_evict_cold_gives = { λ _ _ _ value new. new ≡ Some value };

    ghost on_evict_hot_gives = { λ _ _ _ value new. new ≡ Some value };

    ghost keeps_fits = { λ _ _ _ _ _ _ gives fits. gives.1 fits };

    ghost same_fits = { λ _ _ _ _ fits. fits };

    fn is_pinned(&self, _key: &u64, _value: &u64) -> bool {
        false
    }

    fn before_evict(&self, _state: &mut Option<u64>, _key: &u64, _value: &mut u64) {}

    fn on_evict(&self, state: &mut Option<u64>, _key: u64, value: u64) {
        *state = Some(value);
    }

    fn on_evict_cold(&self, state: &mut Option<u64>, _key: u64, value: u64) {
        *state = Some(value);
    }

    fn on_evict_hot(&self, state: &mut Option<u64>, _key: u64, value: u64) {
        *state = Some(value);
    }
}

/// A shared cache of such values.
pub type Shares = Cache<u64, u64, UnitWeighter, DefaultHashBuilder, AboveZero>;

/// A value that a look-up shows fits.
pub fn divide_by_found<R: Wait>(rt: &R, shares: &Shares, key: &u64, sum: u64) -> u64 {
    match shares.get(rt, key) {
        Ok(Some(value)) => sum / value,
        _ => sum,
    }
}

/// So does one that a peek shows.
pub fn divide_by_peeked<R: Wait>(rt: &R, shares: &Shares, key: &u64, sum: u64) -> u64 {
    match shares.peek(rt, key) {
        Ok(Some(value)) => sum / value,
        _ => sum,
    }
}

/// And one that is taken out.
pub fn divide_by_taken<R: Wait>(rt: &R, shares: &Shares, key: &u64, sum: u64) -> u64 {
    match shares.remove(rt, key) {
        Some((_, value)) => sum / value,
        None => sum,
    }
}

/// So it is where the call does not wait for the lock. Where the clones of a value cannot fail, only
/// another's lock keeps it from an answer.
pub fn try_to_divide(shares: &Shares, key: &u64, sum: u64) -> Result<u64, LockContention> {
    match shares.try_get(key) {
        Ok(Some(value)) => Ok(sum / value),
        Ok(None) => Ok(sum),
        Err(TryError::Contended(contention)) => Err(contention),
        Err(TryError::Refused(_)) => unreachable!(),
    }
}

/// By a peek too.
pub fn try_to_peek(shares: &Shares, key: &u64, sum: u64) -> Result<u64, LockContention> {
    match shares.try_peek(key) {
        Ok(Some(value)) => Ok(sum / value),
        Ok(None) => Ok(sum),
        Err(TryError::Contended(contention)) => Err(contention),
        Err(TryError::Refused(_)) => unreachable!(),
    }
}

/// And by a removal.
pub fn try_to_take(shares: &Shares, key: &u64, sum: u64) -> Result<u64, LockContention> {
    match shares.try_remove(key)? {
        Some((_, value)) => Ok(sum / value),
        None => Ok(sum),
    }
}

/// A loaded value fits, whoever loaded it. A loader that cannot fail is told to have failed by none.
pub fn divide_by_loaded<R: Wait>(rt: &R, shares: &Shares, key: &u64, sum: u64) -> u64 {
    let loaded: Result<Result<u64, Infallible>, Refusal> = shares.get_or_insert_with(
        rt,
        key,
        || Ok(7),
    );
    match loaded {
        Ok(Ok(value)) => sum / value,
        Ok(Err(never)) => match never {},
        Err(_) => sum,
    }
}

/// Where it is told that this call's loader gave the value, it did.
pub fn load_seven<R: Wait>(rt: &R, shares: &Shares, key: &u64) -> Option<u64>
    ensures { IfSome result (λ value. value ≡ 7) }
{
    let told: Result<Result<Fetched<u64>, Infallible>, Refusal> = shares.get_or_insert_told(
        rt,
        key,
        || Ok(7),
    );
    match told {
        Ok(Ok(fetched)) => {
            if fetched.loaded {
                Some(fetched.value)
            } else {
                None
            }
        }
        Ok(Err(never)) => match never {},
        Err(_) => None,
    }
}

/// A value for which one waited fits, and the guard in its place is that of the key.
pub fn divide_or_load<R: Wait + Clock>(rt: &R, shares: &Shares, key: &u64, sum: u64) -> u64 {
    match shares.get_value_or_guard(rt, key, None) {
        GuardResult::Value(value) => sum / value,
        GuardResult::Guard(guard) => {
            drop(guard.insert(7));
            sum
        }
        GuardResult::Timeout => sum,
        GuardResult::Refused(_) => sum,
    }
}

/// What an entry call takes out fits.
pub fn divide_by_entry<R: Wait + Clock>(rt: &R, shares: &Shares, key: &u64, sum: u64) -> u64 {
    let removes = |_: &u64, _: &mut u64| -> EntryAction<()> { EntryAction::Remove };
    match shares.entry(rt, key, None, removes) {
        EntryResult::Removed(_, value) => sum / value,
        _ => sum,
    }
}

/// A callback may be handed in that is safe at values that fit alone. What it tells, it told of such
/// a value.
pub fn share_by_entry<R: Wait + Clock>(rt: &R, shares: &Shares, key: &u64, sum: u64) -> Option<u64>
    ensures { IfSome result (λ share. share ≤ sum) }
{
    let divides = |_: &u64, value: &mut u64| -> EntryAction<u64>
        requires { 0 < value.old }
        ensures kept { value.new ≡ value.old }
        ensures share { IfRetain result (λ share. share ≤ sum) }
    { EntryAction::Retain(sum / *value) };
    match shares.entry(rt, key, None, divides) {
        EntryResult::Retained(share) => Some(share),
        _ => None,
    }
}

/// And one that gives away what it captured, since it is called once at most.
pub fn name_by_entry<R: Wait + Clock>(
    rt: &R,
    shares: &Shares,
    key: &u64,
    name: Vec<u8>,
) -> Option<Vec<u8>>
    ensures { IfSome result (λ told. told ≡ name) }
{
    let names = |_: &u64, _: &mut u64| -> EntryAction<Vec<u8>> { EntryAction::Retain(name) };
    match shares.entry(rt, key, None, names) {
        EntryResult::Retained(told) => Some(told),
        _ => None,
    }
}

/// A test that is safe at values that fit alone may be handed to a removal.
pub fn take_large<R: Wait>(rt: &R, shares: &Shares, key: &u64, sum: u64) -> Option<(u64, u64)>
    ensures { IfSome result (λ pair. 0 < pair.1) }
{
    shares.remove_if(rt, key, |value| sum / *value < 7)
}

/// And one at pairs that fit to a retain.
pub fn keep_small<R: Wait>(rt: &R, shares: &Shares, sum: u64) {
    shares.retain(rt, |key, value| *key < sum / *value);
}

/// And one to a walk, which gives what it wants, and what fits.
pub fn take_one_above<R: Wait>(rt: &R, shares: &Shares, sum: u64) -> Option<(u64, u64)>
    ensures wanted { IfSome result (λ pair. sum / pair.1 < pair.0) }
    ensures fits { IfSome result (λ pair. 0 < pair.1) }
{
    let mut walk = shares.extract_if(rt, |key, value| *key > sum / *value);
    walk.next()
}

/// What comes back from a replace fits.
pub fn replace_or_divide<R: Wait>(rt: &R, shares: &Shares, key: u64, value: u64, sum: u64) -> u64
    requires { 0 < value }
{
    match shares.replace(rt, key, value, false) {
        Ok(()) => sum,
        Err((_, back)) => sum / back,
    }
}

/// And so does what an insert left in the request state, since it came of pairs that fit.
pub fn insert_and_listen<R: Wait>(
    rt: &R,
    shares: &Shares,
    key: u64,
    value: u64,
) -> Result<Option<u64>, (u64, u64, Refusal)>
    requires { 0 < value }
    ensures { IfOk result (λ left. IfSome left (λ gone. 0 < gone)) }
{
    let mut left = None;
    shares.insert_with_lifecycle(rt, key, value, &mut left)?;
    Ok(left)
}
