//! What those rely on who fill, bound or purge a cache for one thread whose entries end, or claim
//! a load.
ghost use Rattle.std.specs.Prelude.{◌≡◌, ◌+◌, ◌≤◌, ℕ, IfNone, IfOk, IfSome, OnErr, Ok, true, false};
ghost use Rattle.std.specs.List.{Contains};
ghost use Rattle.quick_cache_model.specs.CacheState.{Item};
ghost use Rattle.quick_cache_model.specs.Finding.{HasNoItem};
ghost use Rattle.quick_cache_model.specs.Fitting.{AllFit};
ghost use Rattle.quick_cache_shard.specs.Shard.{residents};
ghost use Rattle.quick_cache_expiring.specs.declared.lasting.Lasting.{Lasting};
ghost use Rattle.quick_cache_expiring.specs.Lives.{lives};

use quick_cache_expiring::{Expiring, Lasting, LoadError, Loaded, Refusal};

/// The capacity is the one that was set last, and no more is told to be over.
pub fn set_and_tell(entries: &mut Expiring<u64, u64>, capacity: u64) -> u64
    ensures set { result ≡ capacity }
    ensures same { entries.new.expired ≡ entries.old.expired }
{
    entries.set_capacity(capacity);
    entries.stats().capacity
}

/// A refused put leaves the state as it was.
pub fn put_or_leave(
    entries: &mut Expiring<u64, u64>,
    key: u64,
    value: u64,
    now: u64,
    life: u64,
) -> Result<(), Refusal>
    ensures { OnErr result (entries.new.cache.state ≡ entries.old.cache.state) }
{
    entries.put(key, value, now, life)
}

/// Of a key that is absent a load answers what the loader gave, and tells of none that was over.
pub fn load_absent<E, F: FnOnce() -> Result<u64, E>>(
    entries: &mut Expiring<u64, u64>,
    key: &u64,
    now: u64,
    life: u64,
    loader: F,
) -> Result<u64, LoadError<E>>
    requires loader { F.pre loader }
    requires absent { HasNoItem (⟦<u64 as PartialEq>⟧.eq key.now) entries.old.cache.state }
    ensures gave { IfOk result (λ value. F.post loader (Ok value)) }
    ensures none { entries.new.expired ≡ entries.old.expired }
{
    entries.get_or_load(key, now, life, loader)
}

/// A purge of none takes none.
pub fn purge_none(entries: &mut Expiring<u64, u64>, now: u64) -> usize
    ensures { result ≡ 0 }
{
    entries.purge_some(now, 0)
}

/// Where all live, a purge of some takes none.
pub fn purge_what_lives(entries: &mut Expiring<u64, u64>, now: u64, at_most: usize) -> usize
    requires live { AllFit (λ _ lasting. lives lasting.until now ≡ true) entries.old.cache.state }
    ensures { result ≡ 0 }
{
    entries.purge_some(now, at_most)
}

/// What lives is there still.
pub fn purge_and_keep(entries: &mut Expiring<u64, u64>, now: u64, at_most: usize)
    ensures { (item : Item ℕ (Lasting ℕ)) → Contains (residents entries.old.cache.state) item
        → lives item.value.until now ≡ true → Contains (residents entries.new.cache.state) item }
{
    entries.purge_some(now, at_most);
}

/// What is given was over. Where none is given, all is as it was.
pub fn take_one_over(entries: &mut Expiring<u64, u64>, now: u64) -> Option<(u64, Lasting<u64>)>
    ensures over { IfSome result (λ pair. lives pair.1.until now ≡ false) }
    ensures none { IfNone result (entries.new ≡ entries.old) }
{
    entries.take_over(now).next()
}

/// Where all are over, none is renewed.
pub fn touch_when_over(entries: &mut Expiring<u64, u64>, key: &u64, now: u64, life: u64) -> bool
    requires over { AllFit (λ _ lasting. lives lasting.until now ≡ false) entries.old.cache.state }
    ensures { result ≡ false }
{
    entries.touch(key, now, life)
}

/// A load is claimed once at a moment.
pub fn claim_again(loaded: &mut Loaded<u64>, refresh_after: u64, now: u64) -> bool
    ensures { result ≡ false }
{
    loaded.claim(refresh_after, now);
    loaded.claim(refresh_after, now)
}

/// What is over is not young, whenever its loader was asked.
pub fn ask_when_over(loaded: &Loaded<u64>, life: u64, refresh_after: u64, now: u64) -> bool
    requires over { loaded.now.moment + life ≤ now }
    ensures { result ≡ false }
{
    loaded.is_young(life, refresh_after, now)
}

/// What was just loaded is not due, nor is a clone of it.
pub fn load_again(value: u64, refresh_after: u64, now: u64) -> bool
    ensures { result ≡ false }
{
    match Loaded::at(value, now).clone() {
        Ok(copy) => copy.is_due(refresh_after, now),
        Err(_) => false,
    }
}
