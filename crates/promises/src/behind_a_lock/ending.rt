//! What those rely on who share a cache whose entries end: what is over is neither shown nor renewed,
//! and what lives is not purged.
ghost use Rattle.std.specs.Prelude.{◌≡◌, IfOk, None, false};

use quick_cache_expiring::Lasting;
use quick_cache_expiring_sync::SharedExpiring;
use quick_cache_model::{DefaultHashBuilder, Lifecycle, Refusal, UnitWeighter};
use std::sync::Wait;

/// Says that each entry ends at the moment 20.
#[derive(Drop)]
pub struct EndsAtTwenty;

impl Lifecycle<u64, Lasting<u64>> for EndsAtTwenty {
    type RequestState = ();

    ghost fits = { λ _ lasting. lasting.until ≡ 20 };

    ghost before_evict_gives = { λ _ _ _ value _ left. value.until ≡ 20 → left.until ≡ 20 };

    ghost on_evict_gives = { λ _ _ _ _ _. Unit {0} };

    ghost on_evict_cold_gives = { λ _ _ _ _ _. Unit {0} };

    ghost on_evict_hot_gives = { λ _ _ _ _ _. Unit {0} };

    ghost keeps_fits = { λ _ _ _ _ _ _ gives fits. gives fits };

    ghost same_fits = { λ _ _ _ _ fits. fits };

    fn is_pinned(&self, _key: &u64, _value: &Lasting<u64>) -> bool {
        false
    }

    fn before_evict(&self, _state: &mut (), _key: &u64, _value: &mut Lasting<u64>) {}

    fn on_evict(&self, _state: &mut (), _key: u64, _value: Lasting<u64>) {}

    fn on_evict_cold(&self, _state: &mut (), _key: u64, _value: Lasting<u64>) {}

    fn on_evict_hot(&self, _state: &mut (), _key: u64, _value: Lasting<u64>) {}
}

/// A shared cache of such entries.
pub type Ending = SharedExpiring<u64, u64, UnitWeighter, DefaultHashBuilder, EndsAtTwenty>;

/// At that moment none is shown.
pub fn get_at_the_end<R: Wait>(rt: &R, ending: &Ending, key: &u64) -> Result<Option<u64>, Refusal>
    ensures { IfOk result (λ found. found ≡ None) }
{
    ending.get(rt, key, 20)
}

/// And none is renewed.
pub fn touch_at_the_end<R: Wait>(rt: &R, ending: &Ending, key: &u64) -> bool
    ensures { result ≡ false }
{
    ending.touch(rt, key, 20, 0)
}

/// Nor is one given as it is renewed.
pub fn get_and_touch_at_the_end<R: Wait>(
    rt: &R,
    ending: &Ending,
    key: &u64,
) -> Result<Option<u64>, Refusal>
    ensures { IfOk result (λ found. found ≡ None) }
{
    ending.get_and_touch(rt, key, 20, 0)
}

/// Just before it, a purge takes none.
pub fn purge_before_the_end<R: Wait>(rt: &R, ending: &Ending) -> usize
    ensures { result ≡ 0 }
{
    ending.purge(rt, 19)
}
