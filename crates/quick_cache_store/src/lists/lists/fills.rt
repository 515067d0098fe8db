//! A key that is being loaded, which becomes that of an item where it stands.
ghost use Rattle.std.specs.Prelude.{◌≡◌};
ghost use Rattle.std.specs.Int.NonZero.{non_zero_u32_get as number};
ghost use Rattle.quick_cache_store.specs.Fills.{FillsToken, filled};
ghost use Rattle.quick_cache_store.specs.Lists.{HasLoadingToken};

use crate::lists::lists::Lists;
use quick_cache_model::{Queue, Token};
use std::alloc::Allocator;

impl<K, V, P, T, A: Allocator> Lists<K, V, P, T, A> {
    /// Makes an item of the key that is being loaded under a token, and puts it last as with `put`.
    /// The token and the hash stay, so that the index does not change, and no room is needed.
    #[inline(always)]
    pub fn fill(&mut self, token: Token, queue: Queue, mark: u8, weight: u64, value: V, touch: T)
    where
        K: Drop,
        V: Drop,
        P: Drop,
        T: Drop,
        requires { HasLoadingToken self.old (number token) }
        ensures { FillsToken self.old (number token) (filled queue mark weight value) self.new }
    {
        self.slots.fill(token, queue, mark, weight, value, touch);
        self.rings.enter_item(token, queue, weight);
        self.loading -= 1;
    }
}
