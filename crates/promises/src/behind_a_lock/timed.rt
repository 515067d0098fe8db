//! What those rely on who share a cache that tells the time by a clock, or ask a loader that does.
ghost use Rattle.std.specs.Prelude.{◌≡◌, ◌+◌, ◌<◌, IfOk, IfSome, false};
ghost use Rattle.read_through.specs.Loads.{LoadsFrom};

use crate::behind_a_lock::ending::Ending;
use crate::behind_a_lock::lives::{Address, Addresses, Server};
use quick_cache_timed::{SetTicker, Timed, TimedReading};
use read_through::{Refusal, Source, WithLife};
use std::sync::Wait;
use std::time::Clock;

/// What is shown has its end above the moment that the clock tells.
pub fn peek_before_the_end<R: Wait>(
    rt: &R,
    ending: &Timed<Ending, SetTicker>,
    key: &u64,
) -> Result<Option<u64>, Refusal>
    ensures { IfOk result (λ shown. IfSome shown (λ _. ending.now.ticker.moment < 20)) }
{
    ending.peek(rt, key)
}

/// So has what is given.
pub fn get_before_the_end<R: Wait>(
    rt: &R,
    ending: &Timed<Ending, SetTicker>,
    key: &u64,
) -> Result<Option<u64>, Refusal>
    requires { ending.now.life.slides ≡ false }
    ensures { IfOk result (λ given. IfSome given (λ _. ending.now.ticker.moment < 20)) }
{
    ending.get(rt, key)
}

/// An answer is of the name, and its life is not over; what has none is of the moment that the clock
/// tells.
pub fn get_living<R: Wait + Clock, F: Fn(&u64, u64) -> WithLife<Address>>(
    rt: &R,
    addresses: &TimedReading<Addresses<F>, SetTicker>,
    name: u64,
) -> Result<WithLife<Address>, Refusal>
    requires callable { F.IsAlwaysCallable addresses.now.inner.loader }
    requires says { LoadsFrom F.Fn addresses.now.inner.loader
        ⟦<Server as Source<u64, WithLife<Address>>>⟧.gives }
    ensures name { IfOk result (λ answer. answer.value.name ≡ name) }
    ensures lives { IfOk result (λ answer. 0 < answer.life
        → addresses.now.ticker.moment < answer.value.asked + answer.life) }
    ensures own { IfOk result (λ answer. answer.life ≡ 0
        → answer.value.asked ≡ addresses.now.ticker.moment) }
{
    addresses.get(rt, &name)
}
