//! A placeholder that is found by a test of its own, and not by its key.
ghost use Rattle.std.specs.Prelude.{◌≡◌, Bool, MatchOption};
ghost use Rattle.std.specs.Bool.{OnTrue};
ghost use Rattle.std.specs.Int.NonZero.{non_zero_u32_get as number};
ghost use Rattle.quick_cache_store.specs.Placeholders.{HasNoPlaceholder, FindsPlaceholder, is_meant};

use crate::lists::lists::Lists;
use crate::slots::SlotRef;
use quick_cache_model::Token;
use std::alloc::Allocator;

/// Which placeholder of a cache of such keys is meant.
pub trait Meaning<K, P> {
    /// Whether this one is.
    ghost means: { Self → P → Bool };

    fn means(&self, placeholder: &P) -> bool
        ensures { result ≡ means self.now placeholder.now };
}

/// Whether a slot has a placeholder that is meant.
fn is_meant<K, V, P, T, M: Meaning<K, P>>(slot: &SlotRef<'_, K, V, P, T>, by: &M) -> bool
    ensures { result ≡ is_meant (M.means by.now) slot.now }
{
    match slot.as_awaited() {
        Some(awaited) => by.means(awaited.placeholder()),
        None => false,
    }
}

impl<K, V, P, T, A: Allocator> Lists<K, V, P, T, A> {
    /// The token of a placeholder that is meant.
    ///
    /// The slot of the token that is handed in is looked at first. Where it is not there, and some
    /// key is being loaded, each slot is looked at.
    pub fn find_placeholder<M: Meaning<K, P>>(&self, token: Token, by: &M) -> Option<Token>
        ensures { MatchOption result
            (HasNoPlaceholder (M.means by.now) self.now)
            (λ token. FindsPlaceholder (M.means by.now) self.now (number token)) }
    {
        if self.has_placeholder(token, by) {
            return Some(token);
        }
        if self.loading == 0 {
            return None;
        }
        self.seek_placeholder(by)
    }

    /// Whether the slot of a token has a placeholder that is meant.
    fn has_placeholder<M: Meaning<K, P>>(&self, token: Token, by: &M) -> bool
        ensures { OnTrue result (FindsPlaceholder (M.means by.now) self.now (number token)) }
    {
        match self.slots.get(token) {
            Some(slot) => is_meant(&slot, by),
            None => false,
        }
    }

    /// The token of a placeholder that is meant, by a walk over all slots.
    fn seek_placeholder<M: Meaning<K, P>>(&self, by: &M) -> Option<Token>
        ensures { MatchOption result
            (HasNoPlaceholder (M.means by.now) self.now)
            (λ token. FindsPlaceholder (M.means by.now) self.now (number token)) }
    {
        for (token, slot) in self.slots.iter_from(None) {
            if is_meant(&slot, by) {
                return Some(token);
            }
        }
        None
    }
}
