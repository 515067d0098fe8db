//! Look-ups and removals.
ghost use Rattle.std.specs.Prelude.{◌≡◌, ◌≤◌, IsOk, MatchOption};
ghost use Rattle.std.specs.Int.NonZero.{non_zero_u32_get as number};
ghost use Rattle.quick_cache_store.specs.Lists.{Finds, FindsItem, HasItemToken, HasNoItem, with_change};
ghost use Rattle.quick_cache_model.specs.Lookups.{looked_up};
ghost use Rattle.quick_cache_model.specs.Removal.{Removes};
ghost use Rattle.quick_cache_model.specs.CacheState.{UpToOrder};
ghost use Rattle.quick_cache_policy.specs.Contents.{state_of};
ghost use Rattle.quick_cache_policy.specs.Copies.{CopiesItem, FindsCopy};
ghost use Rattle.quick_cache_policy.specs.Entering.{CountsHit};
ghost use Rattle.quick_cache_policy.specs.Finding.{AreUnder, IsLookedUp, IsMissed};
ghost use Rattle.quick_cache_policy.specs.Places.{places_of, LosesOnly};
ghost use Rattle.quick_cache_policy.specs.Stays.{KeepsSound};

use crate::contents::Contents;
use quick_cache_model::{Equivalent, Refusal, SharedPlaceholder, Token};
use quick_cache_store::lists::{Entry, Found, Order};
use std::alloc::Allocator;
use std::hash::Hash;

impl<K: Eq + Hash, V, P: SharedPlaceholder<K>, A: Allocator> Contents<K, V, P, A> {
    /// Takes note of a look-up: the item is marked and read, and a hit is counted, or a miss.
    #[inline(always)]
    pub fn look_up<Q: Equivalent<K>>(&mut self, hash: u64, query: &Q) -> Option<Token>
        requires under { AreUnder (Q.equivalent query.now) hash self.old.lists }
        ensures looks_up { MatchOption result
            (IsMissed P.ticket_of (Q.equivalent query.now) self.old self.new)
            (λ token. IsLookedUp P.ticket_of (Q.equivalent query.now) self.old token self.new) }
        ensures sound { KeepsSound P.ticket_of K.eq self.old self.new }
        // No item moves.
        ensures places { places_of self.new.lists ≡ places_of self.old.lists }
        ensures room { self.new.lists.room ≡ self.old.lists.room }
        ensures same { self.new ≡ record self.old {
          lists = self.new.lists;
          hits = self.new.hits;
          misses = self.new.misses;
        } }
    {
        let Some(token) = self.find_item(hash, query) else {
            self.count_miss();
            return None;
        };
        self.count_hit(token, hash, query);
        Some(token)
    }

    /// A clone of the value under the query, looked up as by `look_up`. It is made before the hit is
    /// counted, and where there is no item nothing is counted.
    ///
    /// # Errors
    ///
    /// `Memory` where the clone failed. Nothing has changed then.
    #[inline(always)]
    pub fn look_up_copy<Q: Equivalent<K>>(
        &mut self,
        hash: u64,
        query: &Q,
    ) -> Result<Option<V>, Refusal>
    where
        V: Clone,
        requires under { AreUnder (Q.equivalent query.now) hash self.old.lists }
        ensures finds { FindsCopy (Q.equivalent query.now) V.is_clone
            (state_of P.ticket_of self.old) result (state_of P.ticket_of self.new) }
        ensures succeeds { ((value : V) → V.is_infallible value) → IsOk result }
        ensures sound { KeepsSound P.ticket_of K.eq self.old self.new }
        // No item moves.
        ensures places { places_of self.new.lists ≡ places_of self.old.lists }
        ensures room { self.new.lists.room ≡ self.old.lists.room }
        ensures same { self.new ≡ record self.old {
          lists = self.new.lists;
          hits = self.new.hits;
        } }
    {
        let Some(token) = self.find_item(hash, query) else {
            return Ok(None);
        };
        Ok(Some(self.copy_item(token, hash, query)?))
    }

    /// A clone of the value of an item that the query found, which is looked up: the clone is made
    /// before the hit is counted.
    #[inline(always)]
    pub(crate) fn copy_item<Q: Equivalent<K>>(
        &mut self,
        token: Token,
        hash: u64,
        query: &Q,
    ) -> Result<V, Refusal>
    where
        V: Clone,
        requires found { FindsItem (Q.equivalent query.now) hash self.old.lists (number token) }
        ensures copies { CopiesItem (Q.equivalent query.now) V.is_clone
            (state_of P.ticket_of self.old) result (state_of P.ticket_of self.new) }
        ensures succeeds { ((value : V) → V.is_infallible value) → IsOk result }
        ensures sound { KeepsSound P.ticket_of K.eq self.old self.new }
        // No item moves.
        ensures places { places_of self.new.lists ≡ places_of self.old.lists }
        ensures room { self.new.lists.room ≡ self.old.lists.room }
        ensures same { self.new ≡ record self.old {
          lists = self.new.lists;
          hits = self.new.hits;
        } }
    {
        self.lists.facts();
        let copy: Result<_, _> = self.lists.item(token).value().clone();
        let Ok(copy) = copy else {
            return Err(Refusal::Memory);
        };
        self.count_hit(token, hash, query);
        Ok(copy)
    }

    /// The item under the query.
    ///
    /// The lists compare keys alone. It has the hash, as each item has for whose key the query
    /// stands.
    #[inline(always)]
    pub(crate) fn find_item<Q: Equivalent<K>>(&self, hash: u64, query: &Q) -> Option<Token>
        requires under { AreUnder (Q.equivalent query.now) hash self.now.lists }
        ensures { MatchOption result
            (HasNoItem (Q.equivalent query.now) hash self.now.lists)
            (λ token. FindsItem (Q.equivalent query.now) hash self.now.lists (number token)) }
    {
        self.lists.bring_tokens_near(hash);
        self.lists.find_item(hash, query)
    }

    /// What stands under the query. As `find_item` it compares keys alone.
    #[inline(always)]
    pub(crate) fn find_by_key<Q: Equivalent<K>>(&self, hash: u64, query: &Q) -> Found
        requires under { AreUnder (Q.equivalent query.now) hash self.now.lists }
        ensures { Finds (Q.equivalent query.now) hash self.now.lists result }
    {
        self.lists.bring_tokens_near(hash);
        self.lists.find_by_key(hash, query)
    }

    /// Marks an item and counts a read of it.
    ///
    /// A full mark is not written again: most look-ups meet one, and write one number of a slot.
    #[inline(always)]
    fn mark_and_read(&mut self, token: Token)
        requires { HasItemToken self.old.lists (number token) }
        ensures { self.new ≡ record self.old {
          lists = with_change (number token) (looked_up self.old.mark_cut) self.old.lists;
        } }
    {
        self.lists.facts();
        let mark = self.lists.item(token).mark();
        if mark == self.mark_cut {
            self.lists.count_read(token);
            return;
        }
        self.lists
            .count_use(token, mark.saturating_add(1).min(self.mark_cut));
    }

    /// Counts a hit at an item that the query found: it is marked and read.
    #[inline]
    pub(crate) fn count_hit<Q: Equivalent<K>>(&mut self, token: Token, hash: u64, _query: &Q)
        requires found { FindsItem (Q.equivalent _query.now) hash self.old.lists (number token) }
        ensures looks_up { IsLookedUp P.ticket_of (Q.equivalent _query.now) self.old token self.new }
        ensures counts { CountsHit (Q.equivalent _query.now) (state_of P.ticket_of self.old)
            (state_of P.ticket_of self.new) }
        ensures found { FindsItem (Q.equivalent _query.now) hash self.new.lists (number token) }
        ensures sound { KeepsSound P.ticket_of K.eq self.old self.new }
        // No item moves.
        ensures places { places_of self.new.lists ≡ places_of self.old.lists }
        ensures room { self.new.lists.room ≡ self.old.lists.room }
        ensures same { self.new ≡ record self.old {
          lists = self.new.lists;
          hits = self.new.hits;
        } }
    {
        self.lists.facts();
        self.mark_and_read(token);
        self.hits = self.hits.saturating_add(1);
    }

    /// Takes out the item under the query, and gives its pair, or the placeholder, or a ghost of
    /// its hash.
    pub fn remove<Q: Equivalent<K>>(&mut self, hash: u64, query: &Q) -> Option<(K, V)>
    where
        K: Drop,
        V: Drop,
        requires under { AreUnder (Q.equivalent query.now) hash self.old.lists }
        ensures removes { UpToOrder
            (Removes (Q.equivalent query.now) (state_of P.ticket_of self.old) hash result)
            (state_of P.ticket_of self.new) }
        ensures sound { KeepsSound P.ticket_of K.eq self.old self.new }
        ensures places { LosesOnly (places_of self.old.lists) (places_of self.new.lists) }
        ensures room { self.old.lists.room ≤ self.new.lists.room }
        ensures same { self.new ≡ record self.old { lists = self.new.lists } }
    {
        self.lists.facts();
        match self.find_by_key(hash, query) {
            Found::Item(token) => {
                let slot = self.lists.take_found(hash, token);
                match slot.entry {
                    Entry::Item(item) => {
                        self.keep_hits(&item);
                        Some(item.into_pair())
                    }
                    Entry::Loading(_) => unreachable!(),
                    Entry::Ghost => unreachable!(),
                }
            }
            Found::Loading(token) => {
                let _ = self.lists.take(token, Order::Kept);
                None
            }
            Found::Ghost(token) => {
                let _ = self.lists.take(token, Order::Kept);
                None
            }
            Found::Nothing => None,
        }
    }
}
