//! Tokens by hash: a set of pairs of a hash and a token, in groups of sixteen places.
ghost use Rattle.std.specs.Prelude.{◌≡◌, ℕ, Bool, ◌+◌, ◌-◌, ◌^◌, ◌<◌, ◌≤◌, ◌↔◌, [], min, IsTrue, IsOk, IfOk, IfErr, OnOk, OnErr, IfSome};
ghost use Rattle.std.specs.Bool.{OnTrue, OnFalse};
ghost use Rattle.std.specs.Int.NonZero.{non_zero_u32_get};
ghost use Rattle.quick_cache_containers.specs.Table.{HasPair, pair_count, AddsPair, RemovesPair, IsTokensOf, SearchesHash, CallsKeep};
ghost use Rattle.quick_cache_containers.specs.Table.{FindsByAnswer, ComputesTest, FindsPassing, wanted_room};

pub(crate) mod groups;
pub(crate) mod places;
pub(crate) mod tokens;
pub(crate) mod walk;

use places::Places;
use quick_cache_index::index::groups::{MOST_TOKENS, capacity, groups_for};
use quick_cache_model::{Refusal, Token};
use std::alloc::{Allocator, Global};
use std::marker::Model;
pub use tokens::Tokens;
use walk::{Walk, position_of};

/// A set of pairs of a hash and a token.
///
/// Pairs of one hash may be many. A pair that goes gives its room back, and no call but `reserve`
/// allocates. A place has a tag of one byte from its hash, and a look-up compares the sixteen tags
/// of a group at once before it reads a place, as Rust's own hash map does (SwissTable). It reads
/// no group past the farthest that has a pair of its own, so that a removal leaves nothing behind.
#[derive(Drop)]
pub struct Table<A: Allocator = Global> {
    // The tag of each place, or 0 where it is free.
    tags: Vec<u8, A>,
    places: Places<A>,
    // For each group, how far from it the pairs are whose home it is.
    reaches: Vec<u32, A>,
    // One less than how many groups there are.
    mask: usize,
    // How many places are taken.
    len: usize,
}

impl<A: Allocator> Model for Table<A> {
    ghost use Rattle.std.specs.Prelude.{◌+◌, ◌-◌, ◌*◌, length, vec_capacity};
    ghost use Rattle.quick_cache_containers.specs.Table.{Table as Pairs, table_code, in_order};

    ghost Value = { Pairs };

    ghost coded = { table_code };

    ghost use Rattle.quick_cache_index.specs.IndexGroups.{capacity_of};
    ghost use Rattle.quick_cache_containers.specs.TableGroups.{pairs_of, IsSound};

    ghost view = { λ t. record {
      pairs = in_order (pairs_of t.places.items);
      room = capacity_of (length t.reaches.items) - length (pairs_of t.places.items);
      allocated = vec_capacity t.tags + t.places.allocated + 4 * vec_capacity t.reaches;
    } };

    ghost invariant = { λ t. IsSound t.tags.items t.places.items t.reaches.items t.mask t.len };
}

impl<A: Allocator> Table<A> {
    /// An empty table, which allocates nothing until the first `reserve`.
    ///
    /// # Errors
    ///
    /// `Memory` where the allocator cannot be cloned.
    pub fn new(alloc: A) -> Result<Self, Refusal>
    where
        A: Clone,
        ensures empty { IfOk result (λ table. table.pairs ≡ []) }
        ensures room { IfOk result (λ table. table.room ≡ 0) }
        ensures allocated { IfOk result (λ table. table.allocated ≡ 0) }
        ensures succeeds { A.is_infallible alloc → IsOk result }
        ensures refused { OnErr result (result ≡ Err Refusal.Memory) }
    {
        let Ok(for_tags) = alloc.clone() else {
            return Err(Refusal::Memory);
        };
        let Ok(for_hashes) = alloc.clone() else {
            return Err(Refusal::Memory);
        };
        let Ok(for_reaches) = alloc.clone() else {
            return Err(Refusal::Memory);
        };
        Ok(Table {
            tags: Vec::new(for_tags),
            places: Places::new(for_hashes, alloc),
            reaches: Vec::new(for_reaches),
            mask: 0,
            len: 0,
        })
    }

    /// How many pairs there are.
    pub fn len(&self) -> usize
        ensures value { result ≡ pair_count self.now }
        ensures most { pair_count self.now + self.now.room ≤ 4294967294 }
    {
        self.len
    }

    /// Whether it takes one more pair as it is.
    #[inline(always)]
    pub fn has_room(&self) -> bool
        ensures room { IsTrue result ↔ 0 < self.now.room }
        ensures most { pair_count self.now + self.now.room ≤ 4294967294 }
    {
        capacity(self.reaches.len()) > self.len
    }

    /// How many bytes the table holds, apart from its own.
    pub fn allocation_size(&self) -> usize
        ensures { result ≡ min self.now.allocated (2 ^ 64 - 1) }
    {
        let tags = self.tags.capacity();
        let places = self.places.allocation_size();
        let reaches = self.reaches.capacity().saturating_mul(size_of::<u32>());
        tags.saturating_add(places).saturating_add(reaches)
    }

    /// Makes room for `additional` more pairs, or for all that the table can still take.
    ///
    /// It asks for memory only where the room does not suffice. A growth at least doubles the
    /// groups, and puts each pair into its group anew. A refused call may keep memory that it got,
    /// and changes nothing else.
    ///
    /// # Errors
    ///
    /// `Memory` where there is none.
    pub fn reserve(&mut self, additional: usize) -> Result<(), Refusal>
        ensures pairs { self.new.pairs ≡ self.old.pairs }
        ensures room { OnOk result (wanted_room self.old additional ≤ self.new.room) }
        ensures more { self.old.room ≤ self.new.room }
        ensures most { pair_count self.new + self.new.room ≤ 4294967294 }

        // Where there is room it succeeds and nothing changes, so that it takes no memory.
        ensures succeeds { wanted_room self.old additional ≤ self.old.room → IsOk result }
        ensures had_room { wanted_room self.old additional ≤ self.old.room
            → self.new ≡ self.old }

        // It is refused only where there was no room, and then nothing but the memory changes.
        ensures lacked_room { OnErr result (self.old.room < wanted_room self.old additional) }
        ensures memory { IfErr result (λ refusal. refusal ≡ Refusal.Memory) }
        ensures refused { OnErr result (self.new
            ≡ record self.old { allocated = self.new.allocated }) }
        ensures allocated { self.old.allocated ≤ self.new.allocated }
    {
        let wanted = additional.min(MOST_TOKENS - self.len);
        if wanted <= capacity(self.reaches.len()) - self.len {
            return Ok(());
        }
        let count = groups_for(self.len + wanted);
        groups::grow(&mut self.tags, &mut self.places, &mut self.reaches, count)?;
        self.mask = count - 1;
        Ok(())
    }

    /// Puts the pair into the table, into the first group on its way that has a free place.
    ///
    /// Of n pairs of one hash the next reads about n / 16 groups.
    pub fn insert_reserved(&mut self, hash: u64, token: Token)
        requires room { 0 < self.old.room }
        requires is_new { ¬ HasPair self.old hash (non_zero_u32_get token) }
        ensures adds { AddsPair self.old self.new hash (non_zero_u32_get token) }
        ensures room { self.new.room + 1 ≡ self.old.room }
        ensures allocated { self.new.allocated ≡ self.old.allocated }
    {
        groups::take_place(
            self.tags.as_mut_slice(),
            &mut self.places,
            self.reaches.as_mut_slice(),
            self.mask,
            hash,
            token.get(),
        );
        self.len += 1;
    }

    /// Takes the pair out of the table, and says whether it was there.
    ///
    /// Where no pair of its home lies farther out, it reads the groups on the way back until one
    /// has another, so that later look-ups read no more than they need.
    pub fn remove(&mut self, hash: u64, token: Token) -> bool
        ensures found { IsTrue result ↔ HasPair self.old hash (non_zero_u32_get token) }
        ensures removes { OnTrue result (RemovesPair self.old self.new hash
            (non_zero_u32_get token)) }
        ensures missing { OnFalse result (self.new ≡ self.old) }
        ensures room { OnTrue result (self.new.room ≡ self.old.room + 1) }
        ensures allocated { self.new.allocated ≡ self.old.allocated }
    {
        let walk = Walk::new(
            self.tags.as_slice(),
            self.places.seen(),
            self.reaches.as_slice(),
            self.mask,
            hash,
        );
        let Some(position) = position_of(walk, token.get()) else {
            return false;
        };
        groups::leave_place(
            self.tags.as_mut_slice(),
            &mut self.places,
            self.reaches.as_mut_slice(),
            self.mask,
            hash,
            position,
        );
        self.len -= 1;
        true
    }

    /// The tokens of that hash, each once, in no order that counts.
    pub fn iter_hash(&self, hash: u64) -> Tokens<'_>
        ensures { IsTokensOf self.now hash result }
    {
        let walk = Walk::new(
            self.tags.as_slice(),
            self.places.seen(),
            self.reaches.as_slice(),
            self.mask,
            hash,
        );
        Tokens { walk }
    }

    /// A token of that hash for which `is_it` answers true. The tokens are shown to it in no order
    /// that counts, each at most once, until it does.
    pub fn find<F: FnMut(Token) -> bool>(&self, hash: u64, mut is_it: F) -> Option<Token>
        requires { F.IsAlwaysCallable is_it }
        ensures found { IfSome result (λ token. HasPair self.now hash (non_zero_u32_get token)) }
        ensures searches { SearchesHash F.step self.now hash is_it result }
        ensures answers { CallsKeep F.step is_it → FindsByAnswer F.step self.now hash is_it result }
        ensures decides { (passes : ℕ → Bool) → ComputesTest F.step is_it passes
            → FindsPassing self.now hash passes result }
    {
        if self.reaches.is_empty() {
            return None;
        }
        for token in self.iter_hash(hash) {
            if is_it(token) {
                return Some(token);
            }
        }
        None
    }

    /// Removes every pair. The room and the memory stay.
    pub fn clear(&mut self)
        ensures pairs { self.new.pairs ≡ [] }
        ensures room { self.new.room ≡ self.old.room + pair_count self.old }
        ensures allocated { self.new.allocated ≡ self.old.allocated }
    {
        if self.len == 0 {
            return;
        }
        groups::free_all(
            self.tags.as_mut_slice(),
            &mut self.places,
            self.reaches.as_mut_slice(),
            self.mask,
        );
        self.len = 0;
    }
}
