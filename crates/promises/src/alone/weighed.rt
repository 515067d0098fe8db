//! What the weighers that are ready made promise.
ghost use Rattle.std.specs.Prelude.{◌≡◌, ◌<◌, ◌∷◌, [], Some, length, ◌+◌, ◌-◌, ◌^◌};
ghost use Rattle.quick_cache_listeners.specs.declared.causes.cause.Cause.{Cause};
ghost use Rattle.quick_cache_listeners.specs.declared.causes.cause.Stage.{Stage};

use quick_cache_listeners::{
    ByBytes, ByContent, ByLength, Cause, Collect, Collected, OnLeaveWhy, Request, WithBytes,
};
use quick_cache_model::{Lifecycle, Weighter};
use std::rc::Rc;

/// In bytes a number weighs 8, a text its bytes, and an entry its overhead besides.
pub fn weigh_in_bytes(number: &u64, text: &'static str) -> u64
    requires short { length text.now < 2 ^ 32 }
    ensures { result ≡ length text.now + 88 }
{
    ByBytes::with_overhead(80).weight(number, &text)
}

/// What is held, or may be missing, weighs as it does alone, and parts weigh their sum.
pub fn weigh_parts(flag: bool, letter: Rc<char>, number: Option<u32>) -> u64
    requires there { (n : _) × (number ≡ Some n) }
    ensures { result ≡ 9 }
{
    ByBytes::default().weight(&(), &(flag, letter, number))
}

/// A weight that is beyond the greatest number stays there.
pub fn weigh_beyond_the_greatest(number: &u64) -> u64
    ensures { result ≡ 2 ^ 64 - 1 }
{
    ByBytes::with_overhead(1).weight(number, &WithBytes::new((), u64::MAX))
}

/// By its content a text weighs one byte more than it has, as its hash writes it.
pub fn weigh_by_content(text: &'static str) -> u64
    requires short { length text.now < 2 ^ 32 }
    ensures { result ≡ length text.now + 81 }
{
    ByContent::with_overhead(80).weight(&(), &text)
}

/// A handle is as long as what it holds.
pub fn measure_what_is_held(number: &u64, text: &Rc<&'static str>) -> u64
    ensures { result ≡ length text.now.value.now }
{
    ByLength.weight(number, text)
}

/// A value weighs what its closure answered.
pub fn measure_twice(text: &'static str) -> WithBytes<&'static str>
    requires short { length text.now < 2 ^ 32 }
    ensures bytes { result.bytes ≡ length text.now + length text.now }
    ensures same { result.value.now ≡ text.now }
{
    WithBytes::measured(text, |text: &&str| 2 * (text.len() as u64))
}

/// Why a pair left is kept beside its value.
pub fn keep_why_it_left(left: &mut Request<Collected<u64, (u64, Cause)>>, key: u64, value: u64)
    requires victim { left.old.stage ≡ Stage.Armed }
    requires empty { left.old.state.pairs ≡ Some [] }
    requires room { 0 < left.old.state.room }
    ensures { left.new.state.pairs ≡ Some ((key, (value, Cause.EvictedCold)) ∷ []) }
{
    OnLeaveWhy(Collect).on_evict_cold(left, key, value);
}
