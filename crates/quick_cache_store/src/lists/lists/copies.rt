//! A copy of the lists, slot for slot: clones of the keys and the values, under the same tokens.
ghost use Rattle.std.specs.Prelude.{◌≡◌, IfOk, IfErr};
ghost use Rattle.quick_cache_store.specs.ListCopies.{AreCopies};

use crate::lists::lists::Lists;
use crate::lists::store::index_of;
use crate::slots::Copying;
use quick_cache_model::{Refusal, Touches};
use std::alloc::Allocator;

impl<K: Clone + Drop, V: Clone + Drop, P: Drop, T: Touches, A: Allocator> Lists<K, V, P, T, A> {
    /// A copy in memory of its own: clones of the keys and the values, with no touches, and shared
    /// placeholders. Each stands under its token, and under the hash that the copy gives its key; a
    /// ghost keeps its hash.
    ///
    /// A refusal is for want of memory, be it of a clone.
    pub fn try_clone<C: Copying<K, P>>(&self, alloc: A, by: &C) -> Result<Self, Refusal>
    where
        A: Clone,
        ensures copies { IfOk result (AreCopies K.is_clone V.is_clone (C.hash_of by.now)
            (C.shares by.now) self.now) }
        ensures refused { IfErr result (λ refused. refused ≡ Refusal.Memory) }
    {
        self.slots.facts();
        let Ok(for_slots) = alloc.clone() else {
            return Err(Refusal::Memory);
        };
        let slots = self.slots.try_copy(for_slots, by)?;
        let rings = self.rings.try_copy(&alloc, self.index.len())?;
        let index = index_of(&slots, alloc)?;
        Ok(Lists {
            slots,
            index,
            rings,
            loading: self.loading,
        })
    }
}
