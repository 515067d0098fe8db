//! Numbers and their doubles: what a lifecycle says of values, each who looks one up can rely on.
ghost use Rattle.std.specs.Prelude.{◌≡◌, ◌*◌, IfOk, IfSome};
ghost use Rattle.std.proofs.Common.{ap, ◌∙◌};
ghost use Rattle.std.proofs.lemmas.Bool.{eqb-true};

use quick_cache::sync::Cache;
use quick_cache::{DefaultHashBuilder, Lifecycle, Refusal, UnitWeighter};
use std::sync::Wait;

/// Says that each value is twice its key, and drops what leaves.
#[derive(Drop)]
pub struct Doubles;

impl Lifecycle<u64, u64> for Doubles {
    type RequestState = ();

    // What fits rests on no pin, so of pins nothing is said.
    ghost steady = { λ _. ⊥ };

    ghost fits = { λ key value. value ≡ 2 * key };

    ghost before_evict_gives = { λ _ _ _ value _ left. left ≡ value };

    ghost on_evict_gives = { λ _ _ _ _ _. Unit {0} };

    ghost on_evict_cold_gives = { λ _ _ _ _ _. Unit {0} };

    ghost on_evict_hot_gives = { λ _ _ _ _ _. Unit {0} };

    ghost keeps_fits = { λ _ _ _ _ _ _ same fits. same ∙ fits };

    ghost same_fits = { λ first second _ same fits. fits ∙ ap (λ key. 2 * key) (eqb-true first second same) };

    fn is_pinned(&self, _key: &u64, _val: &u64) -> bool {
        false
    }

    fn before_evict(&self, _state: &mut (), _key: &u64, _val: &mut u64) {}

    fn on_evict(&self, _state: &mut (), _key: u64, _val: u64) {}

    fn on_evict_cold(&self, _state: &mut (), _key: u64, _val: u64) {}

    fn on_evict_hot(&self, _state: &mut (), _key: u64, _val: u64) {}
}

/// A cache of doubles, which threads share.
pub type DoubleCache = Cache<u64, u64, UnitWeighter, DefaultHashBuilder, Doubles>;

/// The double of a number, as any thread stored it, if it is there.
pub fn stored_double<R: Wait>(
    rt: &R,
    cache: &DoubleCache,
    number: u64,
) -> Result<Option<u64>, Refusal>
    ensures { IfOk result (λ found. IfSome found (λ double. double ≡ 2 * number)) }
{
    cache.get(rt, &number)
}
