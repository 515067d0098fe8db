//! What is stored in a slab or a table is there, and what was taken out is gone.
ghost use Rattle.std.specs.Prelude.{◌≡◌, ◌≢◌, ℕ, ◌<◌, List, [], ◌∷◌, Some, None, OnOk, OnErr, OnSome, IfOk, IfErr, IfSome, IfNone, true};
ghost use Rattle.std.specs.Prelude.{false};
ghost use Rattle.std.specs.Int.NonZero.{non_zero_u32_get as number};
ghost use Rattle.quick_cache_containers.specs.LinkedSlab.{item_at, items, left, successor, with_item};
ghost use Rattle.quick_cache_containers.specs.Table.{has_pair, pair_count};

use quick_cache_base::linked_slab::{LinkedSlab, Token};
use quick_cache_base::{Refusal, Table};
use std::alloc::Global;

/// A stored item is found under its token. A refused one comes back, and the slab is as it was.
pub fn store_and_look<T: Copy>(slab: &mut LinkedSlab<T>, item: T) -> Result<Option<T>, (T, Refusal)>
    ensures found { IfOk result (λ found. found ≡ Some item) }
    ensures back { IfErr result (λ back. back.0 ≡ item) }
    ensures same { OnErr result (slab.new ≡ slab.old) }
{
    let token = slab.insert(item)?;
    match slab.get(token) {
        Some((found, _)) => Ok(Some(*found)),
        None => Ok(None),
    }
}

/// Takes an item out twice: the second time there is none.
pub fn take_twice<T: Drop>(slab: &mut LinkedSlab<T>, token: Token) -> bool
    ensures { result ≡ false }
{
    let _ = slab.remove(token);
    slab.remove(token).is_some()
}

/// Writes over an item, and tells the token behind it.
pub fn write<T: Drop>(slab: &mut LinkedSlab<T>, token: Token, item: T) -> Option<Token>
    ensures absent { IfNone result (slab.new ≡ slab.old) }
    ensures free { IfNone result (item_at slab.old (number token) ≡ None) }
    ensures written { OnSome result (slab.new ≡ with_item slab.old (number token) item) }
    ensures next { IfSome result (λ next. number next ≡ successor slab.old (number token)) }
{
    let held = slab.get_mut(token)?;
    let next = held.next_token();
    *held.into_mut() = item;
    Some(next)
}

/// Takes an item out and puts another in. The slot that was freed suffices, so none is refused.
pub fn exchange<T: Drop>(slab: &mut LinkedSlab<T>, token: Token, item: T) -> Option<T>
    ensures absent { IfNone result (slab.new ≡ slab.old) }
    ensures taken { IfSome result (λ taken. item_at slab.old (number token) ≡ Some taken) }
    ensures others { (other : ℕ) → other ≢ number token
        → item_at slab.new other ≡ item_at slab.old other }
    ensures put { OnSome result (item_at slab.new (number token) ≡ Some item) }
{
    let (taken, _) = slab.remove(token)?;
    match slab.insert(item) {
        Ok(_) => Some(taken),
        Err(_) => unreachable!(),
    }
}

/// A drain that is dropped empties the slab.
pub fn drain_all<T: Drop>(slab: &mut LinkedSlab<T>) -> usize
    ensures { result ≡ 0 }
{
    drop(slab.drain());
    slab.len()
}

/// A walk begins with the first item, and gives none only where there is none.
pub fn first_item<T: Copy>(slab: &LinkedSlab<T>) -> Option<T>
    ensures none { IfNone result (items slab.now ≡ []) }
    ensures first { IfSome result (λ first.
        (rest : List T) × (items slab.now ≡ first ∷ rest)) }
{
    slab.iter().next().copied()
}

/// So does a walk that is asked for by the other name.
pub fn first_entry<T: Copy>(slab: &LinkedSlab<T>) -> Option<T>
    ensures none { IfNone result (items slab.now ≡ []) }
    ensures first { IfSome result (λ first.
        (rest : List T) × (items slab.now ≡ first ∷ rest)) }
{
    slab.iter_entries().next().copied()
}

/// A slab of whose slots none is taken has no item.
pub fn count_of_new<T: Drop>(alloc: Global) -> Result<usize, Refusal>
    ensures { IfOk result (λ count. count ≡ 0) }
{
    let slab: LinkedSlab<T> = LinkedSlab::with_capacity(alloc, 4)?;
    Ok(slab.len())
}

/// Room that was reserved in a slab is there.
pub fn reserve_slot<T>(slab: &mut LinkedSlab<T>) -> Result<bool, Refusal>
    ensures { IfOk result (λ there. 0 < left slab.old → there ≡ true) }
{
    slab.reserve(1)?;
    Ok(slab.has_room())
}

/// A pair that was put into a table is there until it is taken out, once.
pub fn put_and_take(table: &mut Table, hash: u64, token: Token) -> bool
    requires room { 0 < table.old.room }
    requires new { has_pair table.old hash (number token) ≡ false }
    ensures { result ≡ true }
{
    table.insert_reserved(hash, token);
    table.remove(hash, token) && !table.remove(hash, token)
}

/// Room that was reserved in a table is there.
pub fn reserve_room(table: &mut Table) -> Result<bool, Refusal>
    ensures { IfOk result (λ there. pair_count table.old < 4294967294 → there ≡ true) }
{
    table.reserve(1)?;
    Ok(table.has_room())
}

/// A table that was cleared has no pair.
pub fn clear_all(table: &mut Table) -> usize
    ensures { result ≡ 0 }
{
    table.clear();
    table.len()
}

/// A search for a token of a hash finds it where the table has the pair, and else nothing.
pub fn find_token(table: &Table, hash: u64, token: Token) -> bool
    ensures { result ≡ has_pair table.now hash (number token) }
{
    table.find(hash, |other| other == token).is_some()
}

/// The tokens of a hash have a pair each, and there is none only where no token has one.
pub fn first_token(table: &Table, hash: u64) -> Option<Token>
    ensures { IfSome result (λ token. has_pair table.now hash (number token) ≡ true) }
{
    table.iter_hash(hash).next()
}
