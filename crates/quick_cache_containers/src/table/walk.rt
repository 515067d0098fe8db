//! A walk over the places of one hash.
ghost use Rattle.std.specs.Prelude.{◌≡◌, ◌<◌, ◌==◌, ◌∷◌, [], length, count_by, IfSome, IfNone, IsTrue};
ghost use Rattle.quick_cache_containers.specs.TableGroups.{hash_at, holds_pair, place_at, reach_of, IsWhole, IsWalk, tokens_left};
ghost use Rattle.quick_cache_containers.specs.TableGroups.{AreTokensOf};

use super::places::Seen;
use quick_cache_index::index::groups::{LANES, home_of, lanes_of, tag_of};

/// What is left of the groups in which pairs of a hash can be.
#[derive(Drop)]
pub(crate) struct Walk<'a> {
    pub(crate) tags: &'a [u8],
    pub(crate) places: Seen<'a>,
    pub(crate) reaches: &'a [u32],
    pub(crate) hash: u64,
    pub(crate) home: usize,
    // The distance of the group that is being read.
    pub(crate) step: usize,
    // A bit for each place of that group that has the tag and was not looked at.
    pub(crate) lanes: u64,
}

impl<'a> Walk<'a> {
    /// A walk of a table that has groups.
    #[inline(always)]
    pub(crate) fn begin(
        tags: &'a [u8],
        places: Seen<'a>,
        reaches: &'a [u32],
        mask: usize,
        hash: u64,
    ) -> Walk<'a>
        requires whole { IsWhole tags.now places reaches.now mask }
        requires some { 0 < length reaches.now }
        ensures walk { IsWalk result }
        ensures places { result.places ≡ places.entry }
        ensures hash { result.hash ≡ hash }
        ensures all { AreTokensOf places.entry hash (tokens_left result) }
    {
        let home = home_of(hash, mask);
        Walk {
            tags,
            places,
            reaches,
            hash,
            home,
            step: 0,
            lanes: lanes_of(tags, home, tag_of(hash)),
        }
    }

    pub(crate) fn new(
        tags: &'a [u8],
        places: Seen<'a>,
        reaches: &'a [u32],
        mask: usize,
        hash: u64,
    ) -> Walk<'a>
        requires { IsWhole tags.now places reaches.now mask }
        ensures walk { IsWalk result }
        ensures places { result.places ≡ places.entry }
        ensures hash { result.hash ≡ hash }
        ensures all { AreTokensOf places.entry hash (tokens_left result) }
    {
        let mut walk = Walk {
            tags,
            places,
            reaches,
            hash,
            home: home_of(hash, mask),
            step: 0,
            lanes: 0,
        };
        // Only a table without groups has no reach there. `reach` asks the same, so that the
        // compiler leaves out the second test.
        if walk.home < reaches.len() {
            walk.lanes = lanes_of(tags, walk.home, tag_of(hash));
        }
        walk
    }

    // The distance of the group that is read last.
    #[inline(always)]
    fn reach(&self) -> usize
        ensures { result ≡ reach_of self.now }
    {
        match self.reaches.get(self.home) {
            Some(reach) => *reach as usize,
            None => 0,
        }
    }

    // The position of the next pair of the hash in the group that is being read.
    //
    // A lane is left behind once its place was compared, and not before: a look-up that ends there
    // does not need the rest. Each way leaves it behind in words of its own, since the compiler
    // would work out what both ask for before it compares.
    #[inline(always)]
    fn next_in_group(&mut self) -> Option<usize>
        requires { IsWalk self.old }
        ensures walk { IsWalk self.new }
        ensures stays { self.new ≡ record self.old { lanes = self.new.lanes } }
        ensures read { IfNone result (self.new.lanes ≡ 0) }
        ensures passed { IfNone result (tokens_left self.new ≡ tokens_left self.old) }
        ensures within { IfSome result (λ position. position < length self.old.places) }
        ensures some { IfSome result (λ position.
            let place = place_at self.old.places position in
            (0 < place.token) × (hash_at place ≡ self.old.hash)
            × (tokens_left self.old ≡ place.token ∷ tokens_left self.new)) }
    {
        while self.lanes != 0 {
            let lane = self.lanes.trailing_zeros() as usize;
            let position = LANES * (self.home ^ self.step) + lane;
            if self.places.hash(position) == self.hash {
                self.lanes ^= 1 << lane;
                return Some(position);
            }
            self.lanes &= self.lanes - 1;
        }
        None
    }

    // The same in the groups behind it.
    #[inline(always)]
    fn next_behind(&mut self) -> Option<usize>
        requires walk { IsWalk self.old }
        requires read { self.old.lanes ≡ 0 }
        ensures walk { IsWalk self.new }
        ensures places { self.new.places ≡ self.old.places }
        ensures hash { self.new.hash ≡ self.old.hash }
        ensures none { IfNone result (tokens_left self.old ≡ []) }
        ensures ended { IfNone result (tokens_left self.new ≡ []) }
        ensures within { IfSome result (λ position. position < length self.old.places) }
        ensures some { IfSome result (λ position.
            let place = place_at self.old.places position in
            (0 < place.token) × (hash_at place ≡ self.old.hash)
            × (tokens_left self.old ≡ place.token ∷ tokens_left self.new)) }
    {
        while self.step < self.reach() {
            self.step += 1;
            self.lanes = lanes_of(self.tags, self.home ^ self.step, tag_of(self.hash));
            if let Some(position) = self.next_in_group() {
                return Some(position);
            }
        }
        None
    }

    /// The position of the next pair of the hash.
    #[inline(always)]
    pub(crate) fn next_position(&mut self) -> Option<usize>
        requires { IsWalk self.old }
        ensures walk { IsWalk self.new }
        ensures places { self.new.places ≡ self.old.places }
        ensures hash { self.new.hash ≡ self.old.hash }
        ensures none { IfNone result (tokens_left self.old ≡ []) }
        ensures ended { IfNone result (tokens_left self.new ≡ []) }
        ensures within { IfSome result (λ position. position < length self.old.places) }
        ensures some { IfSome result (λ position.
            let place = place_at self.old.places position in
            (0 < place.token) × (hash_at place ≡ self.old.hash)
            × (tokens_left self.old ≡ place.token ∷ tokens_left self.new)) }
    {
        if let Some(position) = self.next_in_group() {
            return Some(position);
        }
        self.next_behind()
    }
}

// The position of that pair.
pub(crate) fn position_of(mut walk: Walk<'_>, token: u32) -> Option<usize>
    requires walk { IsWalk walk }
    requires all { AreTokensOf walk.places walk.hash (tokens_left walk) }
    ensures within { IfSome result (λ position. position < length walk.entry.places) }
    ensures found { IfSome result (λ position.
        IsTrue (holds_pair walk.entry.hash token (place_at walk.entry.places position))) }
    ensures none { IfNone result
        (count_by (holds_pair walk.entry.hash token) walk.entry.places ≡ 0) }
{
    while let Some(position) = walk.next_position() {
        if walk.places.token(position) == token {
            return Some(position);
        }
    }
    None
}
