//! Tokens by hash: tokens in groups of sixteen places, found by tags of their hashes.
ghost use Rattle.std.specs.Prelude.{◌≡◌, ◌+◌, ◌-◌, ◌*◌, ◌^◌, ◌<◌, ◌≤◌, ◌↔◌, min, max, IsTrue, IsOk, IfOk, IfErr, OnOk, OnErr};
ghost use Rattle.std.specs.Int.NonZero.{non_zero_u32_get};
ghost use Rattle.quick_cache_index.specs.Index.{HasToken, HasNone, GainsToken, LosesToken, Leads, KeepsOtherLeads, KeepsAllLeads};
ghost use Rattle.quick_cache_index.specs.Index.{AreCandidates, token_count, wanted_room};

pub(crate) mod candidates;
pub mod groups;
pub(crate) mod walk;

pub use candidates::{Candidates, Look};
use groups::{LANES, MOST_TOKENS, capacity, groups_for, home_of};
use quick_cache_model::{Refusal, Token};
use std::alloc::{Allocator, Global};
use std::hint::spin_loop;
use std::marker::Model;
use walk::{Walk, first_position_of, position_on_walk};

// The mask from which on there are so many groups that what is removed next is read ahead.
const SOME_GROUPS: usize = 4095;

// The mask from which on there are so many groups that their tags do not stay near: a look-up
// reads ahead.
const MANY_GROUPS: usize = 65535;

/// Tokens by hash, each at one place at most.
///
/// It keeps no hash. A place has a tag of one byte from the hash of its token, and a look-up
/// compares the sixteen tags of a group at once before it reads a token, as Rust's own hash map
/// does (SwissTable). So a look-up gives candidates, which the caller compares, and an index that
/// grows forgets its tokens, which the caller puts in again. A token that goes gives its room back,
/// and no call but `clear_for` allocates. A look-up reads no group past the farthest that has a
/// token of its own, so that a removal leaves nothing behind; where that is 255 groups away or
/// more, it may read some past it.
#[derive(Drop)]
pub struct Index<A: Allocator = Global> {
    // The tag of each place, or 0 where it is free.
    tags: Vec<u8, A>,
    // The token of each place, or 0 where it is free.
    tokens: Vec<u32, A>,
    // For each place how far from its home the token is, or 255 where that is farther.
    distances: Vec<u8, A>,
    // For each group, how far from it the tokens are whose home it is.
    reaches: Vec<u32, A>,
    // One less than how many groups there are.
    mask: usize,
    // How many more tokens the groups are made for.
    room: usize,
}

impl<A: Allocator> Model for Index<A> {
    ghost use Rattle.std.specs.Prelude.{◌+◌, ◌-◌, ◌*◌, length, vec_capacity};
    ghost use Rattle.quick_cache_index.specs.Index.{Index as Shown, index_code};

    ghost Value = { Shown };

    ghost coded = { index_code };

    ghost use Rattle.quick_cache_index.specs.IndexGroups.{taken_count, capacity_of, IsSound};

    ghost view = { λ i. record {
      tags = i.tags.items;
      tokens = i.tokens.items;
      distances = i.distances.items;
      reaches = i.reaches.items;
      mask = i.mask;
      room = capacity_of (length i.reaches.items) - taken_count i.tokens.items;
      allocated = vec_capacity i.tags + 4 * vec_capacity i.tokens + vec_capacity i.distances
          + 4 * vec_capacity i.reaches;
    } };

    ghost invariant = { λ i. IsSound i.tags.items i.tokens.items i.distances.items i.reaches.items
        i.mask i.room };
}

impl<A: Allocator> Index<A> {
    /// An empty index, which allocates nothing until the first `clear_for`.
    ///
    /// # Errors
    ///
    /// `Memory` where the allocator cannot be cloned.
    pub fn new(alloc: A) -> Result<Self, Refusal>
    where
        A: Clone,
        ensures empty { IfOk result HasNone }
        ensures count { IfOk result (λ index. token_count index ≡ 0) }
        ensures room { IfOk result (λ index. index.room ≡ 0) }
        ensures allocated { IfOk result (λ index. index.allocated ≡ 0) }
        ensures succeeds { A.is_infallible alloc → IsOk result }
        ensures refused { OnErr result (result ≡ Err Refusal.Memory) }
    {
        let Ok(for_tags) = alloc.clone() else {
            return Err(Refusal::Memory);
        };
        let Ok(for_distances) = alloc.clone() else {
            return Err(Refusal::Memory);
        };
        let Ok(for_reaches) = alloc.clone() else {
            return Err(Refusal::Memory);
        };
        Ok(Index {
            tags: Vec::new(for_tags),
            tokens: Vec::new(alloc),
            distances: Vec::new(for_distances),
            reaches: Vec::new(for_reaches),
            mask: 0,
            room: 0,
        })
    }

    /// How many tokens there are.
    pub fn len(&self) -> usize
        ensures value { result ≡ token_count self.now }
        ensures most { token_count self.now + self.now.room ≤ 4294967294 }
    {
        capacity(self.reaches.len()) - self.room
    }

    /// Whether it takes one more token as it is.
    #[inline(always)]
    pub fn has_room(&self) -> bool
        ensures room { IsTrue result ↔ 0 < self.now.room }
        ensures most { token_count self.now + self.now.room ≤ 4294967294 }
    {
        self.room > 0
    }

    /// How many more tokens it takes as it is.
    #[inline(always)]
    pub fn room(&self) -> usize
        ensures { result ≡ self.now.room }
    {
        self.room
    }

    /// How many bytes the index holds, apart from its own.
    pub fn allocation_size(&self) -> usize
        ensures { result ≡ min self.now.allocated (2 ^ 64 - 1) }
    {
        let tags = self.tags.capacity();
        let tokens = self.tokens.capacity().saturating_mul(size_of::<u32>());
        let reaches = self.reaches.capacity().saturating_mul(size_of::<u32>());
        tags.saturating_add(tokens)
            .saturating_add(self.distances.capacity())
            .saturating_add(reaches)
    }

    /// Whether it takes `additional` more tokens as it is, or all that an index can still take.
    pub fn has_room_for(&self, additional: usize) -> bool
        ensures room { IsTrue result ↔ wanted_room self.now additional ≤ self.now.room }
        ensures most { token_count self.now + self.now.room ≤ 4294967294 }
    {
        additional.min(MOST_TOKENS - self.len()) <= self.room
    }

    /// Removes every token, and makes room for so many, or for as many as an index can have.
    ///
    /// This is how an index grows: it keeps no hash, so the caller puts the tokens in again. It
    /// asks for memory only where there are too few groups, and then makes at least twice as many.
    /// A refused call may keep memory that it got, and changes nothing else.
    ///
    /// # Errors
    ///
    /// `Memory` where there is none.
    pub fn clear_for(&mut self, tokens: usize) -> Result<(), Refusal>
        ensures empty { OnOk result (HasNone self.new) }
        ensures count { OnOk result (token_count self.new ≡ 0) }
        ensures room { OnOk result (min tokens 4294967294 ≤ self.new.room) }
        ensures more { OnOk result (self.old.room + token_count self.old ≤ self.new.room) }
        ensures most { OnOk result (self.new.room ≤ 4294967294) }
        ensures at_most { OnOk result (self.new.room
            ≤ max (self.old.room + token_count self.old) (2 * tokens + 14)) }

        // Where it had that room for all of its tokens, it takes no memory.
        ensures succeeds { min tokens 4294967294 ≤ self.old.room + token_count self.old
            → IsOk result × (self.new.allocated ≡ self.old.allocated) }
        ensures memory { IfErr result (λ refusal. refusal ≡ Refusal.Memory) }
        ensures refused { OnErr result (self.new
            ≡ record self.old { allocated = self.new.allocated }) }
        ensures kept { OnErr result (KeepsAllLeads self.old self.new) }
        ensures allocated { self.old.allocated ≤ self.new.allocated }
    {
        let tokens = tokens.min(MOST_TOKENS);
        if tokens <= capacity(self.reaches.len()) {
            self.clear();
            return Ok(());
        }
        let count = groups_for(tokens);
        groups::make_groups(
            &mut self.tags,
            &mut self.tokens,
            &mut self.distances,
            &mut self.reaches,
            count,
        )?;
        (self.mask, self.room) = (count - 1, capacity(count));
        Ok(())
    }

    /// Puts the token into the index, into the first group on the hash's way that has a free place.
    ///
    /// Of n tokens of one hash the next reads about n / 16 groups.
    pub fn insert_reserved(&mut self, hash: u64, token: Token)
        requires room { 0 < self.old.room }
        requires is_new { ¬ HasToken self.old (non_zero_u32_get token) }
        ensures leads { Leads self.new hash (non_zero_u32_get token) }
        ensures kept { KeepsAllLeads self.old self.new }
        ensures tokens { GainsToken self.old self.new (non_zero_u32_get token) }
        ensures count { token_count self.new ≡ token_count self.old + 1 }
        ensures room { self.new.room + 1 ≡ self.old.room }
        ensures allocated { self.new.allocated ≡ self.old.allocated }
    {
        groups::take_place(
            self.tags.as_mut_slice(),
            self.tokens.as_mut_slice(),
            self.distances.as_mut_slice(),
            self.reaches.as_mut_slice(),
            self.mask,
            hash,
            token.get(),
        );
        self.room -= 1;
    }

    /// Takes the token out of the index, to which that hash leads.
    ///
    /// It goes by the tag and the token alone. Where no token of its home lies farther out, later
    /// look-ups read no farther than to the last of those that are left.
    pub fn remove(&mut self, hash: u64, token: Token)
        requires there { Leads self.old hash (non_zero_u32_get token) }
        ensures tokens { LosesToken self.old self.new (non_zero_u32_get token) }
        ensures kept { KeepsOtherLeads self.old self.new (non_zero_u32_get token) }
        ensures count { token_count self.new + 1 ≡ token_count self.old }
        ensures room { self.new.room ≡ self.old.room + 1 }
        ensures allocated { self.new.allocated ≡ self.old.allocated }
    {
        let walk = Walk::begin(
            self.tags.as_slice(),
            self.tokens.as_slice(),
            self.reaches.as_slice(),
            self.mask,
            hash,
        );
        // The first place of the home group is nearly always the one, and no reach ends there, so
        // that a look at it alone takes half of the instructions.
        match first_position_of(&walk, token.get()) {
            Some(position) => {
                groups::free_place(
                    self.tags.as_mut_slice(),
                    self.tokens.as_mut_slice(),
                    position,
                );
                self.room += 1;
            }
            None => self.remove_on_walk(hash, token),
        }
    }

    // The same by a walk over all places that may have the token.
    #[cold]
    #[inline(never)]
    fn remove_on_walk(&mut self, hash: u64, token: Token)
        requires there { Leads self.old hash (non_zero_u32_get token) }
        ensures tokens { LosesToken self.old self.new (non_zero_u32_get token) }
        ensures kept { KeepsOtherLeads self.old self.new (non_zero_u32_get token) }
        ensures count { token_count self.new + 1 ≡ token_count self.old }
        ensures room { self.new.room ≡ self.old.room + 1 }
        ensures allocated { self.new.allocated ≡ self.old.allocated }
    {
        let walk = Walk::new(
            self.tags.as_slice(),
            self.tokens.as_slice(),
            self.reaches.as_slice(),
            self.mask,
            hash,
        );
        let Some(position) = position_on_walk(walk, token.get()) else {
            unreachable!()
        };
        groups::leave_place(
            self.tags.as_mut_slice(),
            self.tokens.as_mut_slice(),
            self.distances.as_mut_slice(),
            self.reaches.as_mut_slice(),
            self.mask,
            hash,
            position,
        );
        self.room += 1;
    }

    /// Tokens that are there, among them each to which that hash leads, in no order that counts.
    ///
    /// These are the tokens of all places on the hash's way that have its tag, so that of 255
    /// others about one is among them. It asks for no hash. A caller who compares keys needs none.
    #[inline(always)]
    pub fn candidates(&self, hash: u64) -> Candidates<'_>
        ensures { AreCandidates self.now hash result }
    {
        let walk = Walk::new(
            self.tags.as_slice(),
            self.tokens.as_slice(),
            self.reaches.as_slice(),
            self.mask,
            hash,
        );
        Candidates { walk }
    }

    /// Reads where a token of that hash most likely stands, so that its removal finds these lines
    /// near. It changes nothing, and decides nothing by what it reads.
    #[inline(always)]
    pub fn bring_near(&self, hash: u64) {
        // Few groups stay near by themselves.
        if self.mask < SOME_GROUPS {
            return;
        }
        let home = home_of(hash, self.mask);
        // A load that nothing came of would be left out. Hardly a token is so high, and a pause
        // does no harm.
        if home < self.reaches.len()
            && self.tokens[LANES * home] == u32::MAX - u32::from(self.tags[LANES * home])
        {
            spin_loop();
        }
    }

    /// The same of the tokens alone, for a look-up: it reads the tags itself, and waits for a token
    /// once it knows them.
    #[inline(always)]
    pub fn bring_tokens_near(&self, hash: u64) {
        // The tags of few groups stay near, so that the tokens are known soon.
        if self.mask < MANY_GROUPS {
            return;
        }
        let home = home_of(hash, self.mask);
        // No token is so high, and a pause does no harm.
        if home < self.reaches.len() && self.tokens[LANES * home] == u32::MAX {
            spin_loop();
        }
    }

    /// Removes every token. The room and the memory stay.
    pub fn clear(&mut self)
        ensures empty { HasNone self.new }
        ensures count { token_count self.new ≡ 0 }
        ensures room { self.new.room ≡ self.old.room + token_count self.old }
        ensures allocated { self.new.allocated ≡ self.old.allocated }
    {
        if self.len() == 0 {
            return;
        }
        groups::free_all(
            self.tags.as_mut_slice(),
            self.tokens.as_mut_slice(),
            self.distances.as_mut_slice(),
            self.reaches.as_mut_slice(),
        );
        self.room = capacity(self.reaches.len());
    }
}
