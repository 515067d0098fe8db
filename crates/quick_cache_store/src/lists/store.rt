//! The slots and the index in step: each entry is in a slot, and its hash leads to the slot.
ghost use Rattle.std.specs.Prelude.{◌≡◌, ◌+◌, ◌*◌, ◌<◌, ◌≤◌, ℕ, min, max, length, map, Some, IsOk, IfOk, IfErr, OnOk, OnErr};
ghost use Rattle.std.specs.Int.NonZero.{non_zero_u32_get as number};
ghost use Rattle.quick_cache_model.specs.Sequences.{times};
ghost use Rattle.quick_cache_store.specs.Pool.{next_token, IsOccupied, item_at};
ghost use Rattle.quick_cache_index.specs.Index.{token_count, wanted_room, HasToken};
ghost use Rattle.quick_cache_store.specs.Frames.{IsPlaced, IsRemoved};
ghost use Rattle.quick_cache_store.specs.Room.{most_room};
ghost use Rattle.quick_cache_store.specs.ListSlots.{weight_in, weight_at};
ghost use Rattle.quick_cache_store.specs.Sound.{AddsTokens, HasHash, IsKeyed, slot_room};

use crate::slots::{Slot, Slots, SlotsFrom};
use quick_cache_index::Index;
use quick_cache_model::{Refusal, Token};
use std::alloc::Allocator;

/// Puts an entry into a slot and its token into the index.
#[inline(always)]
pub(crate) fn place<K, V, P, T, A: Allocator>(
    slots: &mut Slots<K, V, P, T, A>,
    index: &mut Index<A>,
    slot: Slot<K, V, P, T>,
) -> Token
    requires keyed { IsKeyed slots.old index.old }
    requires room { 0 < slot_room slots.old index.old }
    requires light { weight_in slot.entry < 18446744073709551616 }
    ensures token { number result ≡ next_token slots.old }
    ensures placed { IsPlaced slots.old slots.new (number result) slot }
    ensures keyed { IsKeyed slots.new index.new }
    ensures count { token_count index.new ≡ token_count index.old + 1 }
    ensures room { slot_room slots.new index.new + 1 ≡ slot_room slots.old index.old }
{
    slots.facts();
    let hash = slot.hash;
    let token = slots.insert_reserved(slot);
    index.insert_reserved(hash, token);
    token
}

/// Takes an entry out of its slot and its token out of the index.
#[inline(always)]
pub(crate) fn displace<K, V, P, T, A: Allocator>(
    slots: &mut Slots<K, V, P, T, A>,
    index: &mut Index<A>,
    token: Token,
) -> Slot<K, V, P, T>
    requires keyed { IsKeyed slots.old index.old }
    requires occupied { IsOccupied slots.old (number token) }
    ensures item { item_at slots.old (number token) ≡ Some result }
    ensures removed { IsRemoved slots.old slots.new (number token) }
    ensures keyed { IsKeyed slots.new index.new }
    ensures count { token_count index.new + 1 ≡ token_count index.old }
    ensures room { slot_room slots.new index.new ≡ slot_room slots.old index.old + 1 }
{
    let slot = slots.remove(token);
    index.remove(slot.hash, token);
    slot
}

/// Takes an entry of that hash out of its slot and its token out of the index: `displace` with no
/// read of the hash.
#[inline(always)]
pub(crate) fn displace_known<K, V, P, T, A: Allocator>(
    slots: &mut Slots<K, V, P, T, A>,
    index: &mut Index<A>,
    hash: u64,
    token: Token,
) -> Slot<K, V, P, T>
    requires keyed { IsKeyed slots.old index.old }
    requires occupied { IsOccupied slots.old (number token) }
    requires hashed { HasHash slots.old hash (number token) }
    ensures item { item_at slots.old (number token) ≡ Some result }
    ensures removed { IsRemoved slots.old slots.new (number token) }
    ensures keyed { IsKeyed slots.new index.new }
    ensures count { token_count index.new + 1 ≡ token_count index.old }
    ensures room { slot_room slots.new index.new ≡ slot_room slots.old index.old + 1 }
{
    let slot = slots.remove(token);
    index.remove(hash, token);
    slot
}

// Puts the token of each of these entries into an index that has none of them.
fn key_all<K, V, P, T, A: Allocator>(index: &mut Index<A>, entries: SlotsFrom<'_, K, V, P, T>)
    requires room { length entries ≤ index.old.room }
    requires once { (token : ℕ) → times token (map (λ entry. entry.0) entries) ≤ 1 }
    requires apart { (token : ℕ) → HasToken index.old token
        → times token (map (λ entry. entry.0) entries) ≡ 0 }
    ensures adds { AddsTokens entries.entry index.old index.new }
    ensures room { index.new.room + length entries.entry ≡ index.old.room }
{
    for (token, slot) in entries {
        index.insert_reserved(slot.hash(), token);
    }
}

/// Leaves the tokens of all slots in the index, whatever it had, and room for so many more.
///
/// It goes along the slots, so that their hashes are read one after the other. A refusal is for want
/// of memory: it may keep memory that it got, and changes nothing else.
pub(crate) fn rekey<K, V, P, T, A: Allocator>(
    slots: &Slots<K, V, P, T, A>,
    index: &mut Index<A>,
    additional: usize,
) -> Result<(), Refusal>
    requires light { (token : ℕ) → weight_at (item_at slots.now token) < 18446744073709551616 }
    ensures keyed { OnOk result (IsKeyed slots.now index.new) }
    ensures room { OnOk result (min (token_count index.new + additional) 4294967294
        ≤ token_count index.new + index.new.room) }
    ensures more { OnOk result (token_count index.old + index.old.room
        ≤ token_count index.new + index.new.room) }
    ensures at_most { OnOk result (token_count index.new + index.new.room
        ≤ max (token_count index.old + index.old.room)
        (2 * (token_count index.new + additional) + 14)) }
    ensures memory { IfErr result (λ refused. refused ≡ Refusal.Memory) }
    ensures refused { OnErr result (index.new
        ≡ record index.old { allocated = index.new.allocated }) }
{
    slots.facts();
    index.clear_for(slots.len().saturating_add(additional))?;
    key_all(index, slots.iter_from(None));
    Ok(())
}

/// An index with the tokens of all slots. A refusal is for want of memory.
pub(crate) fn index_of<K, V, P, T, A: Allocator>(
    slots: &Slots<K, V, P, T, A>,
    alloc: A,
) -> Result<Index<A>, Refusal>
where
    A: Clone,
    requires light { (token : ℕ) → weight_at (item_at slots.now token) < 18446744073709551616 }
    ensures keyed { IfOk result (IsKeyed slots.now) }
    ensures refused { IfErr result (λ refused. refused ≡ Refusal.Memory) }
{
    let mut index = Index::new(alloc)?;
    rekey(slots, &mut index, 0)?;
    Ok(index)
}

/// Makes room in the index for so many more entries, or for all that can still come.
///
/// A refusal is for want of memory: it may keep memory that it got, and changes nothing else.
pub(crate) fn grow_index<K, V, P, T, A: Allocator>(
    slots: &Slots<K, V, P, T, A>,
    index: &mut Index<A>,
    additional: usize,
) -> Result<(), Refusal>
    requires keyed { IsKeyed slots.now index.old }
    ensures keyed { IsKeyed slots.now index.new }
    ensures room { OnOk result (wanted_room index.old additional ≤ index.new.room) }
    ensures grows { index.old.room ≤ index.new.room }
    ensures at_most { index.new.room
        ≤ max index.old.room (most_room (token_count index.old) additional) }

    // Where there is room it succeeds, and nothing changes.
    ensures had_room { wanted_room index.old additional ≤ index.old.room
        → IsOk result × (index.new ≡ index.old) }
    ensures memory { IfErr result (λ refused. refused ≡ Refusal.Memory) }
{
    if index.has_room_for(additional) {
        return Ok(());
    }
    rekey(slots, index, additional)
}
