//! A copy of a `Pool`, slot for slot.
ghost use Rattle.std.specs.Prelude.{◌≡◌, ◌≤◌, length, IfOk, OnErr, vec_capacity};
ghost use Rattle.std.specs.List.{AllZip};
ghost use Rattle.std.specs.Int.NonZero.{non_zero_u32_get as number};
ghost use Rattle.quick_cache_store.specs.Pool.{times, AreItemCopies, IsSlotCopy, IsParted};
ghost use Rattle.quick_cache_store.specs.Stack.{slot_if, slots_past, IsNoted, AreNoted};

use crate::pool::blank::{Blank, occupant};
use crate::pool::{Pool, past};
use quick_cache_model::{Refusal, Token};
use std::alloc::Allocator;

/// How the items of a pool are copied.
pub trait CopyItem<T> {
    /// The second is a copy of the first.
    ghost is_copy: { Self → T → T → Type 0 };

    /// A copy of an item. A refusal is for want of memory.
    fn copy(&self, item: &T) -> Result<T, Refusal>
        ensures copies { IfOk result (is_copy self.now item.now) }
        ensures refused { OnErr result (result ≡ Err Refusal.Memory) };
}

// A copy of the item of a slot, or a blank that has noted the same.
fn copy_slot<T: Blank, C: CopyItem<T>>(
    free: &[u32],
    token: Token,
    item: &T,
    copier: &C,
) -> Result<T, Refusal>
    requires { IsNoted T.is_blank T.note_of free.now (number token) item.now }
    ensures copies { IfOk result (λ copy. IsSlotCopy (C.is_copy copier.now)
        (slot_if (times (number token) free.now) item.now)
        (slot_if (times (number token) free.now) copy)) }
    ensures noted { IfOk result (IsNoted T.is_blank T.note_of free.now (number token)) }
    ensures refused { OnErr result (result ≡ Err Refusal.Memory) }
{
    match occupant(free, token, item) {
        Some(item) => copier.copy(item),
        None => Ok(T::blank(item.note())),
    }
}

// Copies of the slots, in their order, where these tokens are free.
fn copy_slots<T: Blank + Drop, A: Allocator, C: CopyItem<T>>(
    items: &[T],
    free: &[u32],
    alloc: A,
    copier: &C,
) -> Result<Vec<T, A>, Refusal>
    requires few { length items.now ≤ 4294967294 }
    requires noted { AreNoted T.is_blank T.note_of free.now 0 items.now }
    ensures copies { IfOk result (λ copies. AllZip (IsSlotCopy (C.is_copy copier.now))
        (slots_past free.now 0 items.now) (slots_past free.now 0 copies.items)) }
    ensures noted { IfOk result (λ copies. AreNoted T.is_blank T.note_of free.now 0 copies.items) }
    ensures len { IfOk result (λ copies. length copies.items ≡ length items.now) }
    ensures refused { OnErr result (result ≡ Err Refusal.Memory) }
{
    let Ok(mut copies) = Vec::with_capacity(alloc, items.len()) else {
        return Err(Refusal::Memory);
    };
    for i in 0..items.len() {
        copies.push_reserved(copy_slot(free, past(i), &items[i], copier)?);
    }
    Ok(copies)
}

// A copy of the free tokens, with room for so many.
fn copy_tokens<A: Allocator>(
    free: &[u32],
    alloc: A,
    capacity: usize,
) -> Result<Vec<u32, A>, Refusal>
    ensures items { IfOk result (λ copy. copy.items ≡ free.now) }
    ensures room { IfOk result (λ copy. capacity ≤ vec_capacity copy) }
    ensures refused { OnErr result (result ≡ Err Refusal.Memory) }
{
    let Ok(mut copy) = Vec::with_capacity(alloc, capacity) else {
        return Err(Refusal::Memory);
    };
    match copy.extend_from_slice(free) {
        Ok(()) => Ok(copy),
        Err(_) => Err(Refusal::Memory),
    }
}

impl<T: Blank + Drop, A: Allocator> Pool<T, A> {
    /// A pool with a copy of each item under the token that the item has here. The same tokens are
    /// free, and are given out in the same order.
    ///
    /// A refusal is for want of memory, be it of a copy.
    pub fn try_copy<C: CopyItem<T>>(
        &self,
        for_items: A,
        for_free: A,
        copier: &C,
    ) -> Result<Self, Refusal>
        ensures copies { IfOk result (AreItemCopies (C.is_copy copier.now) self.now) }
        ensures parted { IfOk result IsParted }
        ensures refused { OnErr result (result ≡ Err Refusal.Memory) }
    {
        let free = copy_tokens(self.free.as_slice(), for_free, self.items.len())?;
        let items = copy_slots(self.items.as_slice(), free.as_slice(), for_items, copier)?;
        Ok(Pool { items, free })
    }
}
