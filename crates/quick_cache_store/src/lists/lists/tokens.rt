//! What stands at a token, where there may be nothing.
ghost use Rattle.std.specs.Prelude.{MatchOption};
ghost use Rattle.std.specs.Int.NonZero.{non_zero_u32_get as number};
ghost use Rattle.quick_cache_store.specs.Lists.{HasItemToken, IsItemOf};

use crate::lists::lists::Lists;
use crate::slots::ItemRef;
use quick_cache_model::Token;
use std::alloc::Allocator;

impl<K, V, P, T, A: Allocator> Lists<K, V, P, T, A> {
    /// The item of a token, if one stands there: a placeholder or a ghost is none.
    pub fn item_at(&self, token: Token) -> Option<ItemRef<'_, K, V, T>>
        ensures { MatchOption result
            (¬ HasItemToken self.now (number token))
            (λ item. IsItemOf self.now (number token) item) }
    {
        self.slots.get(token)?.as_item()
    }

    /// No item has the number 0 for its token.
    pub fn numbered(&self)
        ensures { ¬ HasItemToken self.now 0 }
    {
        self.slots.facts();
    }
}
