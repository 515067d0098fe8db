//! A value that was loaded, with its moment, and whether it may be answered at another.
ghost use Rattle.std.specs.Bool.{OnTrue, OnFalse};
ghost use Rattle.std.specs.Prelude.{◌≡◌, ◌↔◌, IsTrue, IfOk, IfErr};
ghost use Rattle.quick_cache_expiring.specs.Looks.{IfRetain, Stays};
ghost use Rattle.quick_cache_expiring.specs.Moments.{IsDue, IsWithin, IsYoung, Serves};

use quick_cache_model::{EntryAction, Refusal};
use std::alloc::AllocError;

/// A value, the moment for which its loader was asked, and the one at which the loader was asked
/// last, for this value or for one in its place.
#[derive(Debug, Drop)]
pub struct Loaded<V> {
    pub value: V,
    pub moment: u64,
    pub asked: u64,
}

impl<V: Clone> Clone for Loaded<V> {
    ghost is_clone = { λ old new. V.is_clone old.value new.value × (new.moment ≡ old.moment)
        × (new.asked ≡ old.asked) };

    ghost is_infallible = { λ loaded. V.is_infallible loaded.value };

    fn clone(&self) -> Result<Self, AllocError> {
        Ok(Loaded {
            value: self.value.clone()?,
            moment: self.moment,
            asked: self.asked,
        })
    }
}

impl<V> Loaded<V> {
    /// A value that was loaded at a moment.
    pub fn at(value: V, moment: u64) -> Self
        ensures value { result.value ≡ value }
        ensures moment { result.moment ≡ moment }
        ensures asked { result.asked ≡ moment }
    {
        Loaded {
            value,
            moment,
            asked: moment,
        }
    }

    /// Whether it may be answered at a moment, where it lives so long. What lives for 0 serves
    /// nobody.
    #[inline(always)]
    pub fn serves(&self, life: u64, now: u64) -> bool
        ensures { IsTrue result ↔ Serves life self.now.moment now }
    {
        now.saturating_sub(self.moment) < life
    }

    /// Whether its life and a grace after it are not over at a moment.
    pub fn is_within(&self, life: u64, grace: u64, now: u64) -> bool
        ensures { IsTrue result ↔ IsWithin life grace self.now.moment now }
    {
        u128::from(now) < u128::from(self.moment) + u128::from(life) + u128::from(grace)
    }

    /// Whether its loader was last asked longer ago than that.
    #[inline(always)]
    pub fn is_due(&self, refresh_after: u64, now: u64) -> bool
        ensures { IsTrue result ↔ IsDue self.now.asked refresh_after now }
    {
        now.saturating_sub(self.asked) > refresh_after
    }

    /// Whether it serves at a moment, and its loader was asked no longer ago than that.
    #[inline(always)]
    pub fn is_young(&self, life: u64, refresh_after: u64, now: u64) -> bool
        ensures { IsTrue result
            ↔ IsYoung life self.now.moment self.now.asked refresh_after now }
    {
        if !self.serves(life, now) {
            return false;
        }
        !self.is_due(refresh_after, now)
    }

    /// Where it is due, its loader is to be asked now, by who is told so.
    pub fn claim(&mut self, refresh_after: u64, now: u64) -> bool
        ensures claimed { IsTrue result ↔ IsDue self.old.asked refresh_after now }
        ensures value { self.new.value ≡ self.old.value }
        ensures moment { self.new.moment ≡ self.old.moment }
        ensures asked { OnTrue result (self.new.asked ≡ now) }
        ensures unasked { OnFalse result (self.new.asked ≡ self.old.asked) }
    {
        if !self.is_due(refresh_after, now) {
            return false;
        }
        self.asked = now;
        true
    }

    /// What becomes of its entry at a moment: where it serves the entry stays, and a clone is told, or
    /// that there is no memory for one; else the entry gives its place to a guard.
    pub fn look(&self, life: u64, now: u64) -> EntryAction<Result<V, Refusal>>
    where
        V: Clone,
        ensures serves { Stays result ↔ Serves life self.now.moment now }
        ensures told { IfRetain result (λ told. IfOk told (V.is_clone self.now.value)) }
        ensures refused { IfRetain result
            (λ told. IfErr told (λ refusal. refusal ≡ Refusal.Memory)) }
    {
        if self.serves(life, now) {
            match self.value.clone() {
                Ok(value) => EntryAction::Retain(Ok(value)),
                Err(_) => EntryAction::Retain(Err(Refusal::Memory)),
            }
        } else {
            EntryAction::ReplaceWithGuard
        }
    }
}
