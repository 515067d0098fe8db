//! The places of pairs: their hashes in one list and their tokens in another.
//!
//! A look-up that asks for keys reads the tokens alone, of which sixteen lie in a line of the cache.
ghost use Rattle.std.specs.Prelude.{◌≡◌, ◌+◌, ◌-◌, ◌*◌, ◌^◌, ◌<◌, ◌≤◌, ◌++◌, [], length, min, replicate, slice_set, IfOk, IfErr, OnOk};
ghost use Rattle.std.specs.Prelude.{OnErr};
ghost use Rattle.std.specs.List.{swap};
ghost use Rattle.quick_cache_containers.specs.TableGroups.{hash_at, place_at, empty_place};

use quick_cache_model::Refusal;
use std::alloc::Allocator;
use std::marker::Model;

/// Places, each with a pair or free.
#[derive(Drop)]
pub(crate) struct Places<A: Allocator> {
    hashes: Vec<u64, A>,
    // 0 where the place is free.
    tokens: Vec<u32, A>,
}

impl<A: Allocator> Model for Places<A> {
    ghost use Rattle.std.specs.Prelude.{◌≡◌, ◌+◌, ◌*◌, length, vec_capacity};
    ghost use Rattle.quick_cache_containers.specs.Places.{Places as PlacesHeld, places_code, places_of};

    ghost Value = { PlacesHeld };

    ghost coded = { places_code };

    ghost view = { λ places. record {
      items = places_of places.hashes.items places.tokens.items;
      allocated = 8 * vec_capacity places.hashes + 4 * vec_capacity places.tokens;
    } };

    ghost invariant = { λ places. length places.hashes.items ≡ length places.tokens.items };
}

/// Places as a look-up reads them.
#[derive(Drop)]
pub(crate) struct Seen<'a> {
    hashes: &'a [u64],
    tokens: &'a [u32],
}

impl<'a> Model for Seen<'a> {
    ghost use Rattle.std.specs.Prelude.{◌≡◌, ◌*◌, ◌^◌, ◌<◌, List, length};
    ghost use Rattle.std.specs.Coded.{coded_list};
    ghost use Rattle.quick_cache_containers.specs.Places.{Place, place_code, places_of};

    ghost Value = { List Place };

    ghost coded = { coded_list place_code };

    ghost view = { λ seen. places_of seen.hashes.now seen.tokens.now };

    // The bytes of the hashes can be counted.
    ghost invariant = { λ seen. (length seen.hashes.now ≡ length seen.tokens.now)
        × (8 * length seen.hashes.now < 2 ^ 64) };
}

impl<'a> Seen<'a> {
    #[inline(always)]
    pub(crate) fn hash(&self, position: usize) -> u64
        requires { position < length self.now }
        ensures { result ≡ hash_at (place_at self.now position) }
    {
        let hashes = self.hashes;
        hashes[position]
    }

    #[inline(always)]
    pub(crate) fn token(&self, position: usize) -> u32
        requires { position < length self.now }
        ensures { result ≡ (place_at self.now position).token }
    {
        let tokens = self.tokens;
        tokens[position]
    }
}

impl<A: Allocator> Places<A> {
    pub(crate) fn new(for_hashes: A, for_tokens: A) -> Places<A>
        ensures { result ≡ record { items = []; allocated = 0 } }
    {
        Places {
            hashes: Vec::new(for_hashes),
            tokens: Vec::new(for_tokens),
        }
    }

    pub(crate) fn len(&self) -> usize
        ensures { result ≡ length self.now.items }
    {
        self.tokens.len()
    }

    // How many bytes they hold.
    pub(crate) fn allocation_size(&self) -> usize
        ensures { result ≡ min self.now.allocated (2 ^ 64 - 1) }
    {
        let hashes = self.hashes.capacity().saturating_mul(size_of::<u64>());
        let tokens = self.tokens.capacity().saturating_mul(size_of::<u32>());
        hashes.saturating_add(tokens)
    }

    #[inline(always)]
    pub(crate) fn seen(&self) -> Seen<'_>
        ensures { result ≡ self.now.items }
    {
        Seen {
            hashes: self.hashes.as_slice(),
            tokens: self.tokens.as_slice(),
        }
    }

    // Puts the pair at that place.
    #[inline(always)]
    pub(crate) fn put(&mut self, position: usize, hash: u64, token: u32)
        requires { position < length self.old.items }
        ensures { self.new ≡ record self.old {
          items = slice_set self.old.items position (record { hash = hash; token = token });
        } }
    {
        self.hashes[position] = hash;
        self.tokens[position] = token;
    }

    // Frees that place. Its hash stays behind, since a look at it would cost more than it is worth.
    #[inline(always)]
    pub(crate) fn free(&mut self, position: usize)
        requires { position < length self.old.items }
        ensures { self.new ≡ record self.old {
          items = slice_set self.old.items position (record {
            hash = hash_at (place_at self.old.items position);
            token = 0;
          });
        } }
    {
        self.tokens[position] = 0;
    }

    pub(crate) fn swap(&mut self, position: usize, other: usize)
        requires position { position < length self.old.items }
        requires other { other < length self.old.items }
        ensures { self.new ≡ record self.old { items = swap self.old.items position other } }
    {
        self.hashes.swap(position, other);
        self.tokens.swap(position, other);
    }

    // Frees all.
    pub(crate) fn free_all(&mut self)
        ensures { self.new ≡ record self.old {
          items = replicate (length self.old.items) empty_place;
        } }
    {
        self.hashes.fill(0);
        self.tokens.fill(0);
    }

    // Puts free places behind them up to that count, where there is memory.
    pub(crate) fn fill_up(&mut self, count: usize) -> Result<(), Refusal>
        requires { length self.old.items ≤ count }
        ensures filled { OnOk result (self.new.items
            ≡ self.old.items ++ replicate (count - length self.old.items) empty_place) }
        ensures stay { OnErr result (self.new.items ≡ self.old.items) }
        ensures allocated { self.old.allocated ≤ self.new.allocated }
        ensures refused { IfErr result (λ refusal. refusal ≡ Refusal.Memory) }
    {
        let more = count - self.tokens.len();
        if self.hashes.reserve_exact(more).is_err() || self.tokens.reserve_exact(more).is_err() {
            return Err(Refusal::Memory);
        }
        let _ = self.hashes.resize(count, 0);
        let _ = self.tokens.resize(count, 0);
        Ok(())
    }
}
