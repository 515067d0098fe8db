//! Places of pairs, in groups of sixteen, and a tag for each place: the groups of the index.
ghost use Rattle.std.specs.Prelude.{◌≡◌, ◌≢◌, ℕ, List, ◌+◌, ◌-◌, ◌*◌, ◌^◌, ◌<◌, ◌≤◌, ◌==◌, ◌&&◌, false, length, count_by, map, replicate};
ghost use Rattle.std.specs.Prelude.{IsTrue, IsFalse, OnOk, OnErr, IfErr, bit_xor, slice_index, slice_set, vec_len, vec_capacity};
ghost use Rattle.std.specs.Simd.Lanes.{chunk, mask_l};
ghost use Rattle.std.specs.Int.{IsPowerOfTwo};
ghost use Rattle.quick_cache_index.specs.Index.{tag_of as tag_number, home_of as home_number, distance, IsReached};
ghost use Rattle.quick_cache_index.specs.IndexGroups.{capacity_of, ReachesGrow};
ghost use Rattle.quick_cache_containers.specs.TableGroups.{hash_at, is_free, place_at, IsGrouped, IsHoused, IsBareBelow, IsWhole};
ghost use Rattle.quick_cache_containers.specs.TableGroups.{HasOneMore, HasSamePairs, HasPairOf, empty_place};

use super::places::{Places, Seen};
use quick_cache_index::index::groups::{LANES, home_of, tag_of, untagged};
use quick_cache_model::Refusal;
use std::alloc::Allocator;

// Gives the place the tag of the hash, and has the home reach it.
fn tag_place(tags: &mut [u8], reaches: &mut [u32], mask: usize, hash: u64, position: usize)
    requires within { position < length tags.old }
    requires groups { length reaches.old ≡ mask + 1 }
    requires sized { length tags.old ≡ 16 * (mask + 1) }
    requires power { IsPowerOfTwo (mask + 1) }
    requires few { mask < 2 ^ 29 }
    requires near { (group : ℕ) → slice_index reaches.old group ≤ mask }
    ensures tags { tags.new ≡ slice_set tags.old position (tag_number hash) }
    ensures reached { IsReached reaches.new mask hash position }
    ensures grow { ReachesGrow reaches.old reaches.new }
    ensures near { (group : ℕ) → slice_index reaches.new group ≤ mask }
{
    tags[position] = tag_of(hash);
    let home = home_of(hash, mask);
    let step = (home ^ position / LANES) as u32;
    if step > reaches[home] {
        reaches[home] = step;
    }
}

// Puts the pair at a place where a search finds it.
pub(crate) fn take_place<A: Allocator>(
    tags: &mut [u8],
    places: &mut Places<A>,
    reaches: &mut [u32],
    mask: usize,
    hash: u64,
    token: u32,
)
    requires whole { IsWhole tags.old places.old.items reaches.old mask }
    requires token { 0 < token }
    requires room { 0 < count_by is_free places.old.items }
    ensures whole { IsWhole tags.new places.new.items reaches.new mask }
    ensures gains { HasOneMore places.old.items places.new.items hash token }
    ensures groups { length reaches.new ≡ length reaches.old }
    ensures allocated { places.new.allocated ≡ places.old.allocated }
{
    let position = untagged(tags, mask, home_of(hash, mask));
    tag_place(tags, reaches, mask, hash, position);
    places.put(position, hash, token);
}

// Houses the pair at that position, where it has no tag, and each that makes room for the one
// before.
fn house<A: Allocator>(
    tags: &mut [u8],
    places: &mut Places<A>,
    reaches: &mut [u32],
    mask: usize,
    position: usize,
)
    requires housed { IsHoused tags.old places.old.items reaches.old mask }
    requires bare { IsBareBelow tags.old places.old.items position }
    requires within { position < length places.old.items }
    ensures housed { IsHoused tags.new places.new.items reaches.new mask }
    ensures bare { IsBareBelow tags.new places.new.items (position + 1) }
    ensures pairs { HasSamePairs places.old.items places.new.items }
    ensures places { length places.new.items ≡ length places.old.items }
    ensures groups { length reaches.new ≡ length reaches.old }
    ensures allocated { places.new.allocated ≡ places.old.allocated }
{
    while tags[position] == 0 && places.seen().token(position) != 0 {
        let hash = places.seen().hash(position);
        let other = untagged(tags, mask, home_of(hash, mask));
        places.swap(position, other);
        tag_place(tags, reaches, mask, hash, other);
    }
}

// Houses every pair that has no tag.
fn house_all<A: Allocator>(
    tags: &mut [u8],
    places: &mut Places<A>,
    reaches: &mut [u32],
    mask: usize,
)
    requires housed { IsHoused tags.old places.old.items reaches.old mask }
    ensures whole { IsWhole tags.new places.new.items reaches.new mask }
    ensures pairs { HasSamePairs places.old.items places.new.items }
    ensures places { length places.new.items ≡ length places.old.items }
    ensures groups { length reaches.new ≡ length reaches.old }
    ensures allocated { places.new.allocated ≡ places.old.allocated }
{
    for position in 0..places.len() {
        house(tags, places, reaches, mask, position);
    }
}

// Makes so many groups, where there is memory, and houses all pairs anew.
#[cold]
#[inline(never)]
pub(crate) fn grow<A: Allocator>(
    tags: &mut Vec<u8, A>,
    places: &mut Places<A>,
    reaches: &mut Vec<u32, A>,
    count: usize,
) -> Result<(), Refusal>
    requires power { IsPowerOfTwo count }
    requires few { count ≤ 2 ^ 29 }
    requires longer { length places.old.items ≤ 16 * count }
    ensures whole { OnOk result
        (IsWhole tags.new.items places.new.items reaches.new.items (count - 1)) }
    ensures groups { OnOk result (vec_len reaches.new ≡ count) }
    ensures pairs { OnOk result (HasSamePairs places.old.items places.new.items) }
    ensures tags_grow { vec_capacity tags.old ≤ vec_capacity tags.new }
    ensures places_grow { places.old.allocated ≤ places.new.allocated }
    ensures reaches_grow { vec_capacity reaches.old ≤ vec_capacity reaches.new }
    ensures tags_stay { OnErr result (tags.new.items ≡ tags.old.items) }
    ensures places_stay { OnErr result (places.new.items ≡ places.old.items) }
    ensures reaches_stay { OnErr result (reaches.new.items ≡ reaches.old.items) }
    ensures refused { IfErr result (λ refusal. refusal ≡ Refusal.Memory) }
{
    let wanted = LANES * count;
    if tags
        .reserve_exact(wanted.saturating_sub(tags.len()))
        .is_err()
        || reaches
            .reserve_exact(count.saturating_sub(reaches.len()))
            .is_err()
    {
        return Err(Refusal::Memory);
    }
    // The places come last: they grow or stay as they are, and the others then need no memory.
    places.fill_up(wanted)?;
    tags.clear();
    let _ = tags.resize(wanted, 0);
    reaches.clear();
    let _ = reaches.resize(count, 0);
    house_all(
        tags.as_mut_slice(),
        places,
        reaches.as_mut_slice(),
        count - 1,
    );
    Ok(())
}

// Frees every place.
pub(crate) fn free_all<A: Allocator>(
    tags: &mut [u8],
    places: &mut Places<A>,
    reaches: &mut [u32],
    mask: usize,
)
    requires sized { IsGrouped tags.old places.old.items reaches.old mask }
    ensures whole { IsWhole tags.new places.new.items reaches.new mask }
    ensures free { places.new.items ≡ replicate (length places.old.items) empty_place }
    ensures groups { length reaches.new ≡ length reaches.old }
    ensures allocated { places.new.allocated ≡ places.old.allocated }
{
    tags.fill(0);
    places.free_all();
    reaches.fill(0);
}

// Whether a pair of that home is in the group.
fn is_home_of(places: &Seen<'_>, mask: usize, home: usize, group: usize) -> bool
    requires within { 16 * group + 16 ≤ length places.now }
    requires few { length places.now ≤ 2 ^ 33 }
    ensures found { IsTrue result → HasPairOf places.now mask home group }
    ensures none { IsFalse result → (lane : ℕ) → lane < 16
        → let place = place_at places.now (16 * group + lane) in
        0 < place.token → home_number mask (hash_at place) ≢ home }
{
    for lane in 0..LANES {
        let position = LANES * group + lane;
        if places.token(position) != 0 && home_of(places.hash(position), mask) == home {
            return true;
        }
    }
    false
}

// Lets a home reach no farther than to the last group that has a pair of it.
fn shorten(places: &Seen<'_>, reaches: &mut [u32], mask: usize, home: usize)
    requires groups { length reaches.old ≡ mask + 1 }
    requires sized { length places.now ≡ 16 * (mask + 1) }
    requires power { IsPowerOfTwo (mask + 1) }
    requires few { mask < 2 ^ 29 }
    requires near { (group : ℕ) → slice_index reaches.old group ≤ mask }
    requires home { home ≤ mask }
    ensures groups { length reaches.new ≡ mask + 1 }
    ensures near { (group : ℕ) → slice_index reaches.new group ≤ mask }
    ensures reached { (position : ℕ) → position < length places.now
        → let place = place_at places.now position in
        0 < place.token → IsReached reaches.old mask (hash_at place) position
        → IsReached reaches.new mask (hash_at place) position }
    ensures tight { 0 < slice_index reaches.new home
        → HasPairOf places.now mask home (bit_xor home (slice_index reaches.new home)) }
    ensures others { (group : ℕ) → group ≢ home
        → slice_index reaches.new group ≡ slice_index reaches.old group }
{
    let mut step = reaches[home];
    while step != 0 && !is_home_of(places, mask, home, home ^ step as usize) {
        step -= 1;
    }
    reaches[home] = step;
}

// Frees a place, and leaves each reach as it is. The list of hashes is neither read nor written.
#[inline(always)]
pub(crate) fn free_place<A: Allocator>(tags: &mut [u8], places: &mut Places<A>, position: usize)
    requires tagged { length tags.old ≡ length places.old.items }
    requires within { position < length places.old.items }
    requires taken { is_free (place_at places.old.items position) ≡ false }
    ensures whole { (reaches : List ℕ) (mask : ℕ) → IsWhole tags.old places.old.items reaches mask
        → IsWhole tags.new places.new.items reaches mask }
    ensures loses { let left = place_at places.old.items position in
        HasOneMore places.new.items places.old.items (hash_at left) left.token }
    ensures allocated { places.new.allocated ≡ places.old.allocated }
{
    places.free(position);
    tags[position] = 0;
}

// Frees a place, whose pair is of that hash, and lets its home reach no farther than it needs.
pub(crate) fn leave_place<A: Allocator>(
    tags: &mut [u8],
    places: &mut Places<A>,
    reaches: &mut [u32],
    mask: usize,
    hash: u64,
    position: usize,
)
    requires whole { IsWhole tags.old places.old.items reaches.old mask }
    requires within { position < length places.old.items }
    requires taken { is_free (place_at places.old.items position) ≡ false }
    requires hash { hash_at (place_at places.old.items position) ≡ hash }
    ensures whole { IsWhole tags.new places.new.items reaches.new mask }
    ensures loses { let left = place_at places.old.items position in
        HasOneMore places.new.items places.old.items (hash_at left) left.token }
    ensures groups { length reaches.new ≡ length reaches.old }
    ensures allocated { places.new.allocated ≡ places.old.allocated }
{
    let home = home_of(hash, mask);
    free_place(tags, places, position);
    let step = home ^ position / LANES;
    if step != 0 && step == reaches[home] as usize {
        shorten(&places.seen(), reaches, mask, home);
    }
}
