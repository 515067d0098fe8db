//! Places of tokens, in groups of sixteen, and a tag for each place.
//!
//! A search reads the group that the hash names, its home, and where tokens had no room there, the
//! groups at distance 1, 2 and so on, up to the home's reach. The group at a distance is the one
//! whose number differs from the home's in the bits of that distance, so that the next few lie in
//! the same line of the cache, and each group is met once.
ghost use Rattle.std.specs.Prelude.{◌≡◌, ◌≢◌, ℕ, ◌+◌, ◌-◌, ◌*◌, ◌^◌, ◌<◌, ◌≤◌, ◌==◌, max, length, count_by, map, replicate, OnOk, OnErr};
ghost use Rattle.std.specs.Prelude.{IfErr, bit_xor, slice_index, slice_set, vec_capacity};
ghost use Rattle.std.specs.Simd.Lanes.{chunk, mask_l};
ghost use Rattle.std.specs.Int.{IsPowerOfTwo};
ghost use Rattle.quick_cache_index.specs.Index.{tag_of as tag_number, home_of as home_number, distance, told as told_number, IsReached};
ghost use Rattle.quick_cache_index.specs.Index.{is_free};
ghost use Rattle.quick_cache_index.specs.IndexGroups.{IsGrouped, IsMatched, HasDistances, HasAtDistance, capacity_of, ReachesGrow};
ghost use Rattle.quick_cache_index.specs.IndexGroups.{KeepsReached, TakesPlace};

use quick_cache_model::{Refusal, Token};
use std::alloc::Allocator;
use std::simd::prelude::*;

/// How many places a group has.
pub const LANES: usize = 16;

// How many tokens a group is made for.
const TOKENS_A_GROUP: usize = 14;

// The greatest distance that a byte tells.
const FAR: usize = 255;

/// As many as there are tokens.
pub const MOST_TOKENS: usize = 4_294_967_294;

/// How many tokens so many groups are made for.
pub fn capacity(groups: usize) -> usize
    requires { groups ≤ 2 ^ 29 }
    ensures { result ≡ capacity_of groups }
{
    (TOKENS_A_GROUP * groups).min(MOST_TOKENS)
}

/// How many groups an index of so many tokens has at least, a power of two.
pub fn groups_for(tokens: usize) -> usize
    requires { tokens ≤ 4294967294 }
    ensures power { IsPowerOfTwo result }
    ensures few { result ≤ 2 ^ 29 }
    ensures enough { tokens ≤ capacity_of result }
    ensures at_most { capacity_of result ≤ 2 * tokens + 14 }
{
    tokens.div_ceil(TOKENS_A_GROUP).next_power_of_two()
}

/// The tag of a hash: its highest byte, but never 0, which is the tag of a free place.
pub fn tag_of(hash: u64) -> u8
    ensures value { result ≡ tag_number hash }
    ensures some { 0 < result }
{
    (hash >> 56).max(1) as u8
}

/// The group at which a search for the hash begins.
pub fn home_of(hash: u64, mask: usize) -> usize
    ensures value { result ≡ home_number mask hash }
    ensures within { result ≤ mask }
{
    hash as usize & mask
}

// A distance as a byte tells it.
fn told(step: usize) -> u8
    ensures { result ≡ told_number step }
{
    step.min(FAR) as u8
}

/// A bit for each place of the group that has the tag, or the distance.
pub fn lanes_of(tags: &[u8], group: usize, tag: u8) -> u64
    requires { 16 * group + 16 ≤ length tags.now }
    ensures { result ≡ mask_l (map (λ t. t == tag) (chunk (16 * group) 16 tags.now)) }
{
    let lanes = u8x16::from_slice(&tags[LANES * group..]);
    lanes.simd_eq(u8x16::splat(tag)).to_bitmask()
}

/// The position of a place without a tag, as near to the home as there is one.
pub fn untagged(tags: &[u8], mask: usize, home: usize) -> usize
    requires sized { length tags.now ≡ 16 * (mask + 1) }
    requires power { IsPowerOfTwo (mask + 1) }
    requires few { mask < 2 ^ 29 }
    requires home { home ≤ mask }
    requires some { 0 < count_by (λ t. t == 0) tags.now }
    ensures within { result < length tags.now }
    ensures untagged { slice_index tags.now result ≡ 0 }
    ensures nearest { (position : ℕ) → position < length tags.now
        → slice_index tags.now position ≡ 0 → distance home result ≤ distance home position }
{
    let mut step = 0;
    loop {
        let group = home ^ step;
        let lanes = lanes_of(tags, group, 0);
        if lanes != 0 {
            return LANES * group + lanes.trailing_zeros() as usize;
        }
        step += 1;
    }
}

// Notes how far from its home a token stands that is not there, and has the home reach it. It is
// seldom called.
#[cold]
#[inline(never)]
fn note_away(distances: &mut [u8], reaches: &mut [u32], home: usize, position: usize, step: usize)
    requires within { position < length distances.old }
    requires home { home < length reaches.old }
    requires few { step < 2 ^ 29 }
    ensures distances { distances.new ≡ slice_set distances.old position (told_number step) }
    ensures reached { step ≤ slice_index reaches.new home }
    ensures grow { ReachesGrow reaches.old reaches.new }
    ensures most { (group : ℕ) → slice_index reaches.new group
        ≤ max (slice_index reaches.old group) step }
{
    distances[position] = told(step);
    if step as u32 > reaches[home] {
        reaches[home] = step as u32;
    }
}

// Gives the place the tag and the distance of the hash, and has the home reach it.
fn tag_place(
    tags: &mut [u8],
    distances: &mut [u8],
    reaches: &mut [u32],
    mask: usize,
    hash: u64,
    position: usize,
)
    requires within { position < length tags.old }
    requires groups { length reaches.old ≡ mask + 1 }
    requires sized { length tags.old ≡ 16 * (mask + 1) }
    requires power { IsPowerOfTwo (mask + 1) }
    requires few { mask < 2 ^ 29 }
    requires near { (group : ℕ) → slice_index reaches.old group ≤ mask }
    requires as_long { length distances.old ≡ length tags.old }
    requires none { slice_index distances.old position ≡ 0 }
    ensures tags { tags.new ≡ slice_set tags.old position (tag_number hash) }
    ensures distances { distances.new
        ≡ slice_set distances.old position (told_number (distance (home_number mask hash) position)) }
    ensures reached { IsReached reaches.new mask hash position }
    ensures grow { ReachesGrow reaches.old reaches.new }
    ensures near { (group : ℕ) → slice_index reaches.new group ≤ mask }
{
    tags[position] = tag_of(hash);
    let home = home_of(hash, mask);
    let step = home ^ position / LANES;
    if step != 0 {
        note_away(distances, reaches, home, position, step);
    }
}

// Puts the token at a place where a search for the hash finds it.
pub(crate) fn take_place(
    tags: &mut [u8],
    tokens: &mut [u32],
    distances: &mut [u8],
    reaches: &mut [u32],
    mask: usize,
    hash: u64,
    token: u32,
)
    requires sized { IsGrouped tags.old tokens.old reaches.old mask }
    requires matched { IsMatched tags.old tokens.old }
    requires distant { HasDistances tags.old distances.old }
    requires token { 0 < token }
    requires room { 0 < count_by is_free tokens.old }
    ensures sized { IsGrouped tags.new tokens.new reaches.new mask }
    ensures takes { TakesPlace tags.old tags.new tokens.old tokens.new distances.old distances.new
        reaches.old reaches.new mask hash token }
{
    let position = untagged(tags, mask, home_of(hash, mask));
    tag_place(tags, distances, reaches, mask, hash, position);
    tokens[position] = token;
}

// Makes so many groups, all free, where there is memory.
pub(crate) fn make_groups<A: Allocator>(
    tags: &mut Vec<u8, A>,
    tokens: &mut Vec<u32, A>,
    distances: &mut Vec<u8, A>,
    reaches: &mut Vec<u32, A>,
    count: usize,
) -> Result<(), Refusal>
    requires few { count ≤ 2 ^ 29 }
    ensures tags { OnOk result (tags.new.items ≡ replicate (16 * count) 0) }
    ensures tokens { OnOk result (tokens.new.items ≡ replicate (16 * count) 0) }
    ensures distances { OnOk result (distances.new.items ≡ replicate (16 * count) 0) }
    ensures reaches { OnOk result (reaches.new.items ≡ replicate count 0) }
    ensures tags_grow { vec_capacity tags.old ≤ vec_capacity tags.new }
    ensures tokens_grow { vec_capacity tokens.old ≤ vec_capacity tokens.new }
    ensures distances_grow { vec_capacity distances.old ≤ vec_capacity distances.new }
    ensures reaches_grow { vec_capacity reaches.old ≤ vec_capacity reaches.new }
    ensures tags_stay { OnErr result (tags.new.items ≡ tags.old.items) }
    ensures tokens_stay { OnErr result (tokens.new.items ≡ tokens.old.items) }
    ensures distances_stay { OnErr result (distances.new.items ≡ distances.old.items) }
    ensures reaches_stay { OnErr result (reaches.new.items ≡ reaches.old.items) }
    ensures refused { IfErr result (λ refusal. refusal ≡ Refusal.Memory) }
{
    let wanted = LANES * count;
    if tags
        .reserve_exact(wanted.saturating_sub(tags.len()))
        .is_err()
        || tokens
            .reserve_exact(wanted.saturating_sub(tokens.len()))
            .is_err()
        || distances
            .reserve_exact(wanted.saturating_sub(distances.len()))
            .is_err()
        || reaches
            .reserve_exact(count.saturating_sub(reaches.len()))
            .is_err()
    {
        return Err(Refusal::Memory);
    }
    // There is memory for all four, and none is asked for from here on.
    tags.clear();
    let _ = tags.resize(wanted, 0);
    tokens.clear();
    let _ = tokens.resize(wanted, 0);
    distances.clear();
    let _ = distances.resize(wanted, 0);
    reaches.clear();
    let _ = reaches.resize(count, 0);
    Ok(())
}

// Frees every place.
pub(crate) fn free_all(
    tags: &mut [u8],
    tokens: &mut [u32],
    distances: &mut [u8],
    reaches: &mut [u32],
)
    ensures tags { tags.new ≡ replicate (length tags.old) 0 }
    ensures tokens { tokens.new ≡ replicate (length tokens.old) 0 }
    ensures distances { distances.new ≡ replicate (length distances.old) 0 }
    ensures reaches { reaches.new ≡ replicate (length reaches.old) 0 }
{
    tags.fill(0);
    tokens.fill(0);
    distances.fill(0);
    reaches.fill(0);
}

// Lets a home reach no farther than to the last group that has a token as far from its own home.
// That is a token of this home, but where it is 255 or farther. It is seldom called.
fn shorten(distances: &[u8], reaches: &mut [u32], mask: usize, home: usize)
    requires groups { length reaches.old ≡ mask + 1 }
    requires sized { length distances.now ≡ 16 * (mask + 1) }
    requires power { IsPowerOfTwo (mask + 1) }
    requires few { mask < 2 ^ 29 }
    requires near { (group : ℕ) → slice_index reaches.old group ≤ mask }
    requires home { home ≤ mask }
    ensures near { (group : ℕ) → slice_index reaches.new group ≤ mask }
    ensures reached { KeepsReached distances.now reaches.old reaches.new }
    ensures tight { let step = slice_index reaches.new home in 0 < step
        → HasAtDistance distances.now (bit_xor home step) (told_number step) }
    ensures others { (group : ℕ) → group ≢ home
        → slice_index reaches.new group ≡ slice_index reaches.old group }
{
    let mut step = reaches[home] as usize;
    while step != 0 && lanes_of(distances, home ^ step, told(step)) == 0 {
        step -= 1;
    }
    reaches[home] = step as u32;
}

// Frees a place whose token is at home, where its distance is 0 already, and lets the reaches be.
#[inline(always)]
pub(crate) fn free_place(tags: &mut [u8], tokens: &mut [u32], position: usize)
    requires tagged { length tags.old ≡ length tokens.old }
    requires within { position < length tokens.old }
    ensures tags { tags.new ≡ slice_set tags.old position 0 }
    ensures tokens { tokens.new ≡ slice_set tokens.old position 0 }
{
    tags[position] = 0;
    tokens[position] = 0;
}

// Frees a place, whose token is of that hash. Where the place was as far out as its home reaches,
// the home reaches no farther than it needs then.
pub(crate) fn leave_place(
    tags: &mut [u8],
    tokens: &mut [u32],
    distances: &mut [u8],
    reaches: &mut [u32],
    mask: usize,
    hash: u64,
    position: usize,
)
    requires sized { IsGrouped tags.old tokens.old reaches.old mask }
    requires within { position < length tokens.old }
    requires as_long { length distances.old ≡ length tags.old }
    ensures sized { IsGrouped tags.new tokens.new reaches.new mask }
    ensures tags { tags.new ≡ slice_set tags.old position 0 }
    ensures tokens { tokens.new ≡ slice_set tokens.old position 0 }
    ensures distances { distances.new ≡ slice_set distances.old position 0 }
    ensures reached { KeepsReached distances.new reaches.old reaches.new }
{
    let home = home_of(hash, mask);
    free_place(tags, tokens, position);
    distances[position] = 0;
    let step = home ^ position / LANES;
    if step != 0 && step == reaches[home] as usize {
        shorten(distances, reaches, mask, home);
    }
}
