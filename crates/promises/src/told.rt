//! What hooks are told, whatever is pinned.
ghost use Rattle.std.specs.Prelude.{◌≡◌, ◌∷◌, true, false, IfOk};
ghost use Rattle.std.specs.List.Sorted.{IsPermutation};
ghost use Rattle.quick_cache_model.specs.Fates.{residents};
ghost use Rattle.quick_cache_model.specs.Fitting.{AllFit};

use quick_cache_unsync::{Cache, DefaultHashBuilder, Lifecycle, Refusal, UnitWeighter, Weighter};
use std::hash::{BuildHasher, Hash};
use std::rc::Rc;

/// Pins what is held elsewhere too, and notes that something left.
#[derive(Drop)]
pub struct InUse;

impl Lifecycle<u64, Rc<u64>> for InUse {
    type RequestState = bool;

    // Handles come and go while the pair stays, so pins are no function of the pair.
    ghost steady = { λ _. ⊥ };

    ghost before_evict_gives = { λ _ old _ value new left. (new ≡ old) × (left ≡ value) };

    ghost on_evict_gives = { λ _ _ _ _ new. new ≡ true };

    ghost on_evict_cold_gives = { λ _ _ _ _ new. new ≡ true };

    ghost on_evict_hot_gives = { λ _ _ _ _ new. new ≡ true };

    ghost keeps_fits = { λ _ _ _ _ _ _ _ fits. fits };

    ghost same_fits = { λ _ _ _ _ fits. fits };

    fn is_pinned(&self, _key: &u64, value: &Rc<u64>) -> bool {
        Rc::strong_count(value) > 1
    }

    fn before_evict(&self, _state: &mut bool, _key: &u64, _value: &mut Rc<u64>) {}

    fn on_evict(&self, state: &mut bool, _key: u64, _value: Rc<u64>) {
        *state = true;
    }

    fn on_evict_cold(&self, state: &mut bool, _key: u64, _value: Rc<u64>) {
        *state = true;
    }

    fn on_evict_hot(&self, state: &mut bool, _key: u64, _value: Rc<u64>) {
        *state = true;
    }
}

/// Blocks that are pinned while they are held.
pub type Blocks = Cache<u64, Rc<u64>, UnitWeighter, DefaultHashBuilder, InUse>;

/// Where an insert tells of nobody, all stay, and the pair is one of them.
pub fn insert_and_listen(
    blocks: &mut Blocks,
    number: u64,
    block: Rc<u64>,
) -> Result<bool, (u64, Rc<u64>, Refusal)>
    ensures stay { IfOk result (λ left. left ≡ false
        → IsPermutation ((number, block) ∷ residents blocks.old.state)
        (residents blocks.new.state)) }
{
    let mut left = false;
    blocks.insert_with_lifecycle(number, block, &mut left)?;
    Ok(left)
}

/// An insert of a value that fits leaves values that fit.
pub fn insert_fitting<
    K: Eq + Hash + Drop,
    V: Drop,
    We: Weighter<K, V>,
    B: BuildHasher,
    L: Lifecycle<K, V>,
>(cache: &mut Cache<K, V, We, B, L>, key: K, value: V) -> Result<(), (K, V, Refusal)>
where
    L::RequestState: Drop,
    requires fits { L.fits key value }
    ensures stay { AllFit L.fits cache.old.state → AllFit L.fits cache.new.state }
{
    cache.insert(key, value)
}
