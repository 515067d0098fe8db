//! Passes that threads share, each with its end written on it. Whatever other threads do, one is
//! given only before that.
ghost use Rattle.std.specs.Prelude.{◌≡◌, ⊤, true, IfOk, IfSome};
ghost use Rattle.quick_cache_expiring.specs.Lives.{end_of, lives};

use quick_cache_expiring_sync::{Lasting, Refusal, SharedExpiring, end_of};
use quick_cache_model::{DefaultHashBuilder, Lifecycle, UnitWeighter};
use std::alloc::AllocError;
use std::sync::Wait;
use std::time::Clock;

/// Who has it, and the moment at which it ends.
#[derive(Debug, Clone, Copy, PartialEq)]
pub struct Pass {
    pub holder: u64,
    pub until: u64,
}

/// Says that each pass is stored with its own end, and drops what leaves.
#[derive(Drop)]
pub struct ByItsEnd;

impl Clone for ByItsEnd {
    ghost is_clone = { λ old new. new ≡ old };

    ghost is_infallible = { λ _. ⊤ };

    fn clone(&self) -> Result<Self, AllocError> {
        Ok(ByItsEnd)
    }
}

impl Lifecycle<u64, Lasting<Pass>> for ByItsEnd {
    type RequestState = ();

    ghost fits = { λ _ lasting. lasting.value.until ≡ lasting.until };

    ghost before_evict_gives = { λ _ _ _ value _ left. left ≡ value };

    ghost on_evict_gives = { λ _ _ _ _ _. Unit {0} };

    ghost on_evict_cold_gives = { λ _ _ _ _ _. Unit {0} };

    ghost on_evict_hot_gives = { λ _ _ _ _ _. Unit {0} };

    ghost keeps_fits = { λ _ _ _ _ _ _ same fits. rw same fits };

    ghost same_fits = { λ _ _ _ _ fits. fits };

    fn is_pinned(&self, _holder: &u64, _pass: &Lasting<Pass>) -> bool {
        false
    }

    fn before_evict(&self, _state: &mut (), _holder: &u64, _pass: &mut Lasting<Pass>) {}

    fn on_evict(&self, _state: &mut (), _holder: u64, _pass: Lasting<Pass>) {}

    fn on_evict_cold(&self, _state: &mut (), _holder: u64, _pass: Lasting<Pass>) {}

    fn on_evict_hot(&self, _state: &mut (), _holder: u64, _pass: Lasting<Pass>) {}
}

/// The passes that threads share.
pub type Passes = SharedExpiring<u64, Pass, UnitWeighter, DefaultHashBuilder, ByItsEnd>;

/// The pass of a holder at a moment, if there is one whose own end is not reached.
pub fn pass_at<R: Wait>(
    rt: &R,
    passes: &Passes,
    holder: u64,
    now: u64,
) -> Result<Option<Pass>, Refusal>
    ensures serves { IfOk result (λ found. IfSome found (λ pass. lives pass.until now ≡ true)) }
{
    passes.get(rt, &holder, now)
}

/// The same, or a new pass for so long, which one thread makes.
pub fn pass_or_new<R: Wait + Clock>(
    rt: &R,
    passes: &Passes,
    holder: u64,
    now: u64,
    life: u64,
) -> Result<Pass, Refusal>
    requires life { lives (end_of now life) now ≡ true }
    ensures serves { IfOk result (λ pass. lives pass.until now ≡ true) }
{
    let until = end_of(now, life);
    let loader = || -> Result<Pass, ()> { Ok(Pass { holder, until }) };
    match passes.get_or_insert_with(rt, &holder, now, life, loader) {
        Ok(Ok(pass)) => Ok(pass),
        Ok(Err(())) => unreachable!(),
        Err(refusal) => Err(refusal),
    }
}

#[cfg(test)]
mod tests {
    use super::*;
    use test_tools::{expect_eq, expect_ok};

    #[test]
    fn a_pass_is_given_before_its_own_end(rt: HostRuntime) {
        let passes: Passes = expect_ok!(rt; SharedExpiring::with(
            rt.alloc(),
            8,
            8,
            UnitWeighter,
            DefaultHashBuilder::new(),
            ByItsEnd,
        ));
        let pass = |until: u64| Pass { holder: 1, until };
        expect_eq!(rt; pass_at(&rt, &passes, 1, 5), Ok(None));
        expect_eq!(rt; pass_or_new(&rt, &passes, 1, 5, 10), Ok(pass(15)));
        expect_eq!(rt; pass_or_new(&rt, &passes, 1, 14, 10), Ok(pass(15)));
        expect_eq!(rt; pass_at(&rt, &passes, 1, 15), Ok(None));
        expect_eq!(rt; pass_or_new(&rt, &passes, 1, 15, 10), Ok(pass(25)));
    }
}
