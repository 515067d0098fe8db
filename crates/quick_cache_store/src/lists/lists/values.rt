//! A value that is written where it stands.
ghost use Rattle.std.specs.Borrow.{sem};
ghost use Rattle.std.specs.Int.NonZero.{non_zero_u32_get as number};
ghost use Rattle.quick_cache_store.specs.Lists.{HasItemToken, IsValueAt};
ghost use Rattle.quick_cache_store.specs.ListShown.{MayBeShownItem, ShowsItem};

use crate::lists::lists::Lists;
use quick_cache_model::Token;
use std::alloc::Allocator;

impl<K, V, P, T, A: Allocator> Lists<K, V, P, T, A> {
    ghost use Rattle.quick_cache_store.specs.ListLent.{lends_value_at};

    /// The value of the item of a token, to write. The item keeps its place and its weight.
    #[inline]
    pub fn value_mut(&mut self, token: Token) -> &mut V
        requires { HasItemToken self.old (number token) }
        ensures* writes_back { sem 𝓛 (lends_value_at K.row V.row P.row T.row A.row A.Allocator
            self.entry (number token) result) }
        ensures value { IsValueAt self.old (number token) result.now }
    {
        self.slots.value_mut(token)
    }

    /// Shows the key of the item of a token, and its value to write. The item keeps its place and
    /// its weight.
    #[inline]
    pub fn show<R, F: FnMut(&K, &mut V) -> R>(&mut self, token: Token, callback: &mut F) -> R
        requires token { HasItemToken self.old (number token) }
        requires callable { MayBeShownItem F.FnMut callback.old self.old (number token) }
        ensures { ShowsItem F.FnMut callback.old self.old (number token) result callback.new
            self.new }
    {
        self.slots.show(token, callback)
    }
}
