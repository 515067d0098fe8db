//! What those rely on who ask a loader with its cache, where each answer has a life of its own.
ghost use Rattle.std.specs.Prelude.{◌≡◌, ◌⊎◌, ◌+◌, ◌<◌, ◌≤◌, Err, IfErr, IfOk, IfSome, IsTrue};
ghost use Rattle.quick_cache_guard.specs.Answers.{IsLoadRefusal};
ghost use Rattle.quick_cache_model.specs.Hashing.{StandsForGiven};
ghost use Rattle.read_through.specs.Loads.{LoadsFrom, LoadsOkFrom, LoadsSome};

use futures::Future;
use futures::task::{Context, Poll};
use quick_cache_model::ToKey;
use read_through::{ByAnswer, Given, Loaded, ReadThrough, Refusal, Source, WithLife};
use std::alloc::Global;
use std::sync::Wait;
use std::time::Clock;

/// An address, which tells its name and the moment at which it was asked for.
#[derive(Clone, Drop)]
pub struct Address {
    pub name: u64,
    pub asked: u64,
}

/// What a server says: an address of the name, asked for at the moment.
pub struct Server;

impl Source<u64, WithLife<Address>> for Server {
    ghost gives = { λ name moment answer.
        (answer.value.name ≡ name) × (answer.value.asked ≡ moment) };
}

/// Answers of such a server, each for as long as it says.
pub type Addresses<F> = ReadThrough<u64, WithLife<Address>, F, Server, Global, ByAnswer>;

/// An answer is of the name, and its life is not over; what has none is of this very moment.
pub fn get_living<R: Wait + Clock, F: Fn(&u64, u64) -> WithLife<Address>>(
    rt: &R,
    addresses: &Addresses<F>,
    name: u64,
    now: u64,
) -> Result<WithLife<Address>, Refusal>
    requires callable { F.IsAlwaysCallable addresses.now.loader }
    requires says { LoadsFrom F.Fn addresses.now.loader
        ⟦<Server as Source<u64, WithLife<Address>>>⟧.gives }
    ensures name { IfOk result (λ answer. answer.value.name ≡ name) }
    ensures lives { IfOk result (λ answer. 0 < answer.life
        → now < answer.value.asked + answer.life) }
    ensures own { IfOk result (λ answer. answer.life ≡ 0 → answer.value.asked ≡ now) }
{
    addresses.get(rt, &name, now)
}

/// So is one that may be asked for anew.
pub fn refresh_living<R: Wait + Clock, F: Fn(&u64, u64) -> WithLife<Address>>(
    rt: &R,
    addresses: &Addresses<F>,
    name: u64,
    now: u64,
    refresh_after: u64,
) -> Result<WithLife<Address>, Refusal>
    requires callable { F.IsAlwaysCallable addresses.now.loader }
    requires says { LoadsFrom F.Fn addresses.now.loader
        ⟦<Server as Source<u64, WithLife<Address>>>⟧.gives }
    ensures name { IfOk result (λ answer. answer.value.name ≡ name) }
    ensures lives { IfOk result (λ answer. 0 < answer.life
        → now < answer.value.asked + answer.life) }
    ensures own { IfOk result (λ answer. answer.life ≡ 0 → answer.value.asked ≡ now) }
{
    addresses.get_or_refresh(rt, &name, now, refresh_after)
}

/// So is one that is asked for by a query, whose name the query stands for.
pub fn get_living_by<R: Wait + Clock, Q: ToKey<u64>, F: Fn(&u64, u64) -> WithLife<Address>>(
    rt: &R,
    addresses: &Addresses<F>,
    query: &Q,
    now: u64,
) -> Result<WithLife<Address>, Refusal>
    requires stands { StandsForGiven (Q.to_key_gives query.now) (Q.equivalent query.now) }
    requires callable { F.IsAlwaysCallable addresses.now.loader }
    requires says { LoadsFrom F.Fn addresses.now.loader
        ⟦<Server as Source<u64, WithLife<Address>>>⟧.gives }
    ensures name { IfOk result (λ answer. IsTrue (Q.equivalent query.now answer.value.name)) }
    ensures lives { IfOk result (λ answer. 0 < answer.life
        → now < answer.value.asked + answer.life) }
    ensures own { IfOk result (λ answer. answer.life ≡ 0 → answer.value.asked ≡ now) }
    ensures refused { IfErr result IsLoadRefusal }
{
    addresses.get_by(rt, query, now)
}

/// Where the server may be away its error is of a name that the query gives.
pub fn try_living_by<
    R: Wait + Clock,
    Q: ToKey<u64>,
    F: Fn(&u64, u64) -> Result<WithLife<Address>, u8>,
>(rt: &R, addresses: &Addresses<F>, query: &Q, now: u64) -> Option<Result<WithLife<Address>, u8>>
    requires stands { StandsForGiven (Q.to_key_gives query.now) (Q.equivalent query.now) }
    requires callable { F.IsAlwaysCallable addresses.now.loader }
    requires says { LoadsOkFrom F.Fn addresses.now.loader
        ⟦<Server as Source<u64, WithLife<Address>>>⟧.gives }
    ensures name { IfSome result (λ loaded. IfOk loaded
        (λ answer. IsTrue (Q.equivalent query.now answer.value.name))) }
    ensures error { IfSome result (λ loaded. IfErr loaded (λ error.
        LoadsSome F.Fn addresses.now.loader (Q.to_key_gives query.now) now (Err error))) }
{
    match addresses.try_get_by(rt, query, now) {
        Ok(loaded) => Some(loaded),
        Err(_) => None,
    }
}

/// What is looked at is of the name, and lives; a clone of it never fails.
pub fn peek_living<R: Wait, F>(
    rt: &R,
    addresses: &Addresses<F>,
    name: u64,
    now: u64,
) -> Option<WithLife<Address>>
    ensures name { IfSome result (λ answer. answer.value.name ≡ name) }
    ensures lives { IfSome result (λ answer. now < answer.value.asked + answer.life) }
{
    match addresses.peek(rt, &name, now) {
        Ok(found) => found,
        Err(_) => unreachable!(),
    }
}

/// So is one that a task is given, by the first poll or by a later one.
pub fn poll_living<R: Wait + Clock, F: Fn(&u64, u64) -> WithLife<Address>>(
    rt: &R,
    addresses: &Addresses<F>,
    name: u64,
    now: u64,
    cx: &mut Context<'_>,
) -> Option<WithLife<Address>>
    requires callable { F.IsAlwaysCallable addresses.now.loader }
    requires says { LoadsFrom F.Fn addresses.now.loader
        ⟦<Server as Source<u64, WithLife<Address>>>⟧.gives }
    ensures name { IfSome result (λ answer. answer.value.name ≡ name) }
    ensures lives { IfSome result (λ answer. 0 < answer.life
        → now < answer.value.asked + answer.life) }
    ensures own { IfSome result (λ answer. answer.life ≡ 0 → answer.value.asked ≡ now) }
{
    let mut asks = addresses.get_async(rt, &name, now);
    match asks.poll(cx) {
        Poll::Ready(Ok(answer)) => Some(answer),
        Poll::Ready(Err(_)) => None,
        Poll::Pending => None,
    }
}

/// Where the server may be away, an old answer is of the name too, and within its life and the grace.
pub fn refresh_or_keep<R: Wait + Clock, F: Fn(&u64, u64) -> Result<WithLife<Address>, u8>>(
    rt: &R,
    addresses: &Addresses<F>,
    name: u64,
    now: u64,
    refresh_after: u64,
) -> Option<WithLife<Address>>
    requires callable { F.IsAlwaysCallable addresses.now.loader }
    requires says { LoadsOkFrom F.Fn addresses.now.loader
        ⟦<Server as Source<u64, WithLife<Address>>>⟧.gives }
    ensures name { IfSome result (λ answer. answer.value.name ≡ name) }
    ensures late { IfSome result (λ answer.
        now ≤ answer.value.asked + answer.life + addresses.now.grace) }
{
    match addresses.try_get_or_refresh(rt, &name, now, refresh_after) {
        Ok(Ok(Given::Fresh(answer))) => Some(answer),
        Ok(Ok(Given::Stale { value, .. })) => Some(value),
        Ok(Ok(Given::Unasked(value))) => Some(value),
        Ok(Err(_)) => None,
        Err(_) => None,
    }
}

/// What is taken out of the cache behind the loader is of its name, with the moment of its load.
pub fn take_living<R: Wait, F>(
    rt: &R,
    addresses: &Addresses<F>,
) -> Option<(u64, Loaded<WithLife<Address>>)>
    ensures name { IfSome result (λ taken. taken.1.value.value.name ≡ taken.0) }
    ensures moment { IfSome result (λ taken. taken.1.value.value.asked ≡ taken.1.moment) }
{
    addresses.cache().drain(rt).next()
}

/// That cache has the shards that the loader was made with.
pub fn count_shards_behind<F>(addresses: &Addresses<F>) -> usize
    ensures { result ≡ addresses.now.shards }
{
    addresses.cache().num_shards()
}

/// A put is refused for want of memory or of a slot.
pub fn put_or_tell_why<R: Wait, F>(
    rt: &R,
    addresses: &Addresses<F>,
    name: u64,
    now: u64,
    life: u64,
) -> Result<(), Refusal>
    ensures why { IfErr result (λ refusal. refusal ≡ Refusal.Memory ⊎ refusal ≡ Refusal.SlotsFull) }
{
    let value = Address { name, asked: now };
    addresses.put(rt, name, WithLife { value, life }, now)
}

/// What is taken out is of the name, and was asked for at the moment that stands beside it.
pub fn take_address<R: Wait, F>(
    rt: &R,
    addresses: &Addresses<F>,
    name: u64,
) -> Option<Loaded<WithLife<Address>>>
    ensures name { IfSome result (λ loaded. loaded.value.value.name ≡ name) }
    ensures moment { IfSome result (λ loaded. loaded.value.value.asked ≡ loaded.moment) }
{
    addresses.remove(rt, &name)
}
