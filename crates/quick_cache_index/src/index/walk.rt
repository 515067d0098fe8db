//! A walk over the places that have the tag of a hash.
ghost use Rattle.std.specs.Prelude.{◌≡◌, ◌/◌, ◌<◌, ◌==◌, ◌∷◌, [], length, count_by, slice_index, bit_xor, IfSome, IfNone};
ghost use Rattle.quick_cache_index.specs.Index.{home_of as home_number, IsSeen};
ghost use Rattle.quick_cache_index.specs.IndexGroups.{reach_of, IsGrouped, IsMatched, IsWalk, candidates_left, CoversTagged};

use super::Token;
use super::candidates::Look;
use super::groups::{LANES, home_of, lanes_of, tag_of};

/// What is left of the groups in which tokens of a hash can be.
#[derive(Drop)]
pub(crate) struct Walk<'a> {
    pub(crate) tags: &'a [u8],
    pub(crate) tokens: &'a [u32],
    pub(crate) reaches: &'a [u32],
    pub(crate) hash: u64,
    pub(crate) home: usize,
    // The group that is being read.
    pub(crate) group: usize,
    // The distance of that group from the home.
    pub(crate) step: usize,
    // A bit for each place of that group that has the tag and was not looked at.
    pub(crate) lanes: u64,
}

impl<'a> Walk<'a> {
    /// A walk of an index that has groups.
    #[inline(always)]
    pub(crate) fn begin(
        tags: &'a [u8],
        tokens: &'a [u32],
        reaches: &'a [u32],
        mask: usize,
        hash: u64,
    ) -> Walk<'a>
        requires sized { IsGrouped tags.now tokens.now reaches.now mask }
        requires matched { IsMatched tags.now tokens.now }
        requires some { 0 < length reaches.now }
        ensures walk { IsWalk result }
        ensures tokens { result.tokens ≡ tokens.entry }
        ensures at_home { bit_xor result.home result.step ≡ home_number mask hash }
        ensures all { CoversTagged tags.now tokens.now reaches.now mask hash
            (candidates_left result) }
    {
        let home = home_of(hash, mask);
        Walk {
            tags,
            tokens,
            reaches,
            hash,
            home,
            group: home,
            step: 0,
            lanes: lanes_of(tags, home, tag_of(hash)),
        }
    }

    pub(crate) fn new(
        tags: &'a [u8],
        tokens: &'a [u32],
        reaches: &'a [u32],
        mask: usize,
        hash: u64,
    ) -> Walk<'a>
        requires sized { IsGrouped tags.now tokens.now reaches.now mask }
        requires matched { IsMatched tags.now tokens.now }
        ensures walk { IsWalk result }
        ensures tokens { result.tokens ≡ tokens.entry }
        ensures all { CoversTagged tags.now tokens.now reaches.now mask hash
            (candidates_left result) }
    {
        // Only an index without groups has no reach there. `reach` asks the same, so that the
        // compiler leaves out the second test.
        if home_of(hash, mask) < reaches.len() {
            return Walk::begin(tags, tokens, reaches, mask, hash);
        }
        Walk {
            tags,
            tokens,
            reaches,
            hash,
            home: home_of(hash, mask),
            group: home_of(hash, mask),
            step: 0,
            lanes: 0,
        }
    }

    // The distance of the group that is read last.
    #[inline(always)]
    fn reach(&self) -> usize
        ensures { result ≡ reach_of self.now }
    {
        match self.reaches.get(self.home) {
            Some(reach) => *reach as usize,
            None => 0,
        }
    }

    /// The token of the next place that has the tag of the hash, if the group that is being read
    /// has one.
    #[inline(always)]
    pub(crate) fn look(&self) -> Look
        requires { IsWalk self.now }
        ensures { IsSeen (candidates_left self.now) result }
    {
        if self.lanes == 0 {
            return if self.step >= self.reach() {
                Look::Nothing
            } else {
                Look::Beyond
            };
        }
        let position = LANES * self.group + self.lanes.trailing_zeros() as usize;
        let tokens = self.tokens;
        Look::At(unsafe { Token::new_unchecked(tokens[position]) })
    }

    /// The position of the next place that has the tag of the hash.
    #[inline(always)]
    pub(crate) fn next_tagged(&mut self) -> Option<usize>
        requires { IsWalk self.old }
        ensures walk { IsWalk self.new }
        ensures tokens { self.new.tokens ≡ self.old.tokens }
        ensures none { IfNone result (candidates_left self.old ≡ []) }
        ensures ended { IfNone result (candidates_left self.new ≡ []) }
        ensures within { IfSome result (λ position. position < length self.old.tokens.now) }
        ensures some { IfSome result (λ position.
            let token = slice_index self.old.tokens.now position in
            (0 < token) × (candidates_left self.old ≡ token ∷ candidates_left self.new)) }
    {
        while self.lanes == 0 {
            if self.step >= self.reach() {
                return None;
            }
            self.step += 1;
            self.group = self.home ^ self.step;
            self.lanes = lanes_of(self.tags, self.group, tag_of(self.hash));
        }
        let lane = self.lanes.trailing_zeros() as usize;
        self.lanes &= self.lanes - 1;
        Some(LANES * self.group + lane)
    }
}

// The position of that token, where the next place of the group that is being read has it.
#[inline(always)]
pub(crate) fn first_position_of(walk: &Walk<'_>, token: u32) -> Option<usize>
    requires { IsWalk walk.now }
    ensures within { IfSome result (λ position. position < length walk.now.tokens.now) }
    ensures here { IfSome result (λ position.
        position / 16 ≡ bit_xor walk.now.home walk.now.step) }
    ensures found { IfSome result (λ position.
        slice_index walk.now.tokens.now position ≡ token) }
{
    if walk.lanes == 0 {
        return None;
    }
    let position = LANES * walk.group + walk.lanes.trailing_zeros() as usize;
    let tokens = walk.tokens;
    if tokens[position] == token {
        Some(position)
    } else {
        None
    }
}

// The position of that token, where a place has it that has the tag of the hash.
pub(crate) fn position_on_walk(mut walk: Walk<'_>, token: u32) -> Option<usize>
    requires { IsWalk walk }
    ensures within { IfSome result (λ position. position < length walk.entry.tokens.now) }
    ensures found { IfSome result (λ position.
        slice_index walk.entry.tokens.now position ≡ token) }
    ensures none { IfNone result
        (count_by (λ t. t == token) (candidates_left walk.entry) ≡ 0) }
{
    while let Some(position) = walk.next_tagged() {
        let tokens = walk.tokens;
        if tokens[position] == token {
            return Some(position);
        }
    }
    None
}
