//! What stands at a token.
ghost use Rattle.std.specs.Prelude.{◌≡◌, Some, IfSome, IfNone};
ghost use Rattle.std.specs.Int.NonZero.{non_zero_u32_get as number};
ghost use Rattle.quick_cache_store.specs.Pool.{item_at, IsOccupied};

use crate::slots::refs::SlotRef;
use crate::slots::slots::{Slots, place};
use quick_cache_model::Token;
use std::alloc::Allocator;

impl<K, V, P, T, A: Allocator> Slots<K, V, P, T, A> {
    /// The slot of an occupied token.
    #[inline(always)]
    pub fn slot(&self, token: Token) -> SlotRef<'_, K, V, P, T>
        requires { IsOccupied self.now (number token) }
        ensures { item_at self.now (number token) ≡ Some result }
    {
        let entry = self.pool.item(token);
        SlotRef {
            entry,
            beside: self.asides.lists().at(place(token)),
        }
    }

    /// The slot of a token. A free or unknown token gives nothing.
    #[inline]
    pub fn get(&self, token: Token) -> Option<SlotRef<'_, K, V, P, T>>
        ensures absent { IfNone result (item_at self.now (number token) ≡ None) }
        ensures item { IfSome result (λ slot. item_at self.now (number token) ≡ Some slot) }
    {
        let entry = self.pool.get(token)?;
        Some(SlotRef {
            entry,
            beside: self.asides.lists().at(place(token)),
        })
    }
}
