//! A value that is written where it stands.
ghost use Rattle.std.specs.Prelude.{◌≡◌, true};
ghost use Rattle.std.specs.Borrow.{sem};
ghost use Rattle.std.specs.Int.NonZero.{non_zero_u32_get as number};
ghost use Rattle.quick_cache_store.specs.Shown.{MayBeShownSlot, ShowsSlot};
ghost use Rattle.quick_cache_store.specs.Slots.{HasItem, HasValue};

use crate::slots::slots::Slots;
use quick_cache_model::Token;
use std::alloc::Allocator;

impl<K, V, P, T, A: Allocator> Slots<K, V, P, T, A> {
    ghost use Rattle.quick_cache_store.specs.Lent.{lends_slot_value};

    /// The value of the item of a token, to write. The item keeps its place and its weight.
    #[inline]
    pub fn value_mut(&mut self, token: Token) -> &mut V
        requires { HasItem self.old (number token) }
        ensures* writes_back { sem 𝓛 (lends_slot_value K.row V.row P.row T.row A.row A.Allocator
            self.entry (number token) result) }
        ensures value { HasValue self.old (number token) result.now }
    {
        let entry = self.pool.item_mut(token);
        entry.value_mut()
    }

    /// Shows the key of the item of a token, and its value to write. The item keeps its place and
    /// its weight.
    #[inline]
    pub fn show<R, F: FnMut(&K, &mut V) -> R>(&mut self, token: Token, callback: &mut F) -> R
        requires item { HasItem self.old (number token) }
        requires callable { MayBeShownSlot F.FnMut callback.old self.old (number token) }
        ensures { ShowsSlot F.FnMut callback.old self.old (number token) result callback.new
            self.new }
    {
        let entry = self.pool.item_mut(token);
        entry.show(callback)
    }
}
