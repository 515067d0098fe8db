//! A key that is being loaded, which becomes that of an item where it stands.
ghost use Rattle.std.specs.Prelude.{◌≡◌};
ghost use Rattle.std.specs.Int.NonZero.{non_zero_u32_get as number};
ghost use Rattle.quick_cache_store.specs.Items.{filled};
ghost use Rattle.quick_cache_store.specs.Slots.{HasLoading, slot_filled};
ghost use Rattle.quick_cache_store.specs.Writes.{Writes};

use crate::slots::slots::{Slots, place};
use quick_cache_model::{Queue, Token};
use std::alloc::Allocator;

impl<K, V, P, T, A: Allocator> Slots<K, V, P, T, A> {
    /// Makes an item, which was never read, of the key that is being loaded under a token.
    #[inline(always)]
    pub fn fill(&mut self, token: Token, queue: Queue, mark: u8, weight: u64, value: V, touch: T)
    where
        K: Drop,
        V: Drop,
        P: Drop,
        T: Drop,
        requires { HasLoading self.old (number token) }
        ensures { Writes self.old self.new (number token)
            (slot_filled (filled queue mark weight value)) }
    {
        let entry = self.pool.item_mut(token);
        let place = place(token);
        let mut beside = self.asides.get(place);
        entry.fill(&mut beside, queue, mark, weight, value, touch);
        self.asides.put(place, beside);
    }
}
