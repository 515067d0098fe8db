//! What the lists have: found by a query, or seen at a token.
ghost use Rattle.std.specs.Prelude.{◌≡◌, MatchOption};
ghost use Rattle.std.specs.Int.NonZero.{non_zero_u32_get as number};
ghost use Rattle.quick_cache_model.specs.CacheState.{ring_place};
ghost use Rattle.quick_cache_store.specs.Pool.{IsOccupied, item_at};
ghost use Rattle.quick_cache_store.specs.ListSlots.{is_item_under_at};
ghost use Rattle.quick_cache_store.specs.Lists.{Finds, FindsByKey, FindsItemOfAnyHash, HasNoItem, HasItemToken, IsItemOf, HasLoadingToken};
ghost use Rattle.quick_cache_store.specs.Lists.{IsAwaitedOf, IsFirstAbove, number_or_zero, IsFirstOf, items_at};

use crate::lists::found::Found;
use crate::lists::lists::Lists;
use crate::slots::{AwaitedRef, ItemRef, Slots};
use quick_cache_index::Look;
use quick_cache_model::{Equivalent, Queue, Token};
use std::alloc::Allocator;
use std::hash::Hash;

/// Whether an item for whose key the query stands is in the slot of a token.
#[inline(always)]
fn is_item_under<K, V, P, T, A: Allocator, Q: Equivalent<K>>(
    slots: &Slots<K, V, P, T, A>,
    token: Token,
    query: &Q,
) -> bool
where
    K: Eq + Hash,
    requires { IsOccupied slots.now (number token) }
    ensures { result ≡ is_item_under_at (Q.equivalent query.now)
        (item_at slots.now (number token)) }
{
    slots.slot(token).is_item_under(query)
}

impl<K, V, P, T, A: Allocator> Lists<K, V, P, T, A> {
    /// The item or the placeholder of that hash whose key the query stands for; else some ghost of
    /// that hash; else nothing.
    #[inline(always)]
    pub fn find<Q: Equivalent<K>>(&self, hash: u64, query: &Q) -> Found
    where
        K: Eq + Hash,
        ensures { Finds (Q.equivalent query.now) hash self.now result }
    {
        // A fresh key mostly has no candidate, and then it needs no walk.
        match self.index.candidates(hash).look() {
            Look::Nothing => Found::Nothing,
            Look::At(_) => self.find_on_walk(hash, query),
            Look::Beyond => self.find_on_walk(hash, query),
        }
    }

    /// The same by a walk over the entries that may be of the hash.
    #[cold]
    #[inline(never)]
    fn find_on_walk<Q: Equivalent<K>>(&self, hash: u64, query: &Q) -> Found
    where
        K: Eq + Hash,
        ensures { Finds (Q.equivalent query.now) hash self.now result }
    {
        let mut shade = None;
        for token in self.index.candidates(hash) {
            let slot = self.slots.slot(token);
            if !slot.is_of(hash) {
                continue;
            }
            if slot.is_under(query) {
                return if slot.is_item() {
                    Found::Item(token)
                } else {
                    Found::Loading(token)
                };
            }
            if slot.is_ghost() {
                shade = Some(token);
            }
        }
        match shade {
            Some(token) => Found::Ghost(token),
            None => Found::Nothing,
        }
    }

    /// An item whose key the query stands for, or nothing where none has that hash. It looks among
    /// the entries that may be of the hash, and compares keys alone: the caller knows which hash
    /// such a key has.
    #[inline(always)]
    pub fn find_item<Q: Equivalent<K>>(&self, hash: u64, query: &Q) -> Option<Token>
    where
        K: Eq + Hash,
        ensures { MatchOption result
            (HasNoItem (Q.equivalent query.now) hash self.now)
            (λ token. FindsItemOfAnyHash (Q.equivalent query.now) self.now (number token)) }
    {
        // The first is nearly always the one, and apart from the rest it takes fewer instructions.
        match self.index.candidates(hash).look() {
            Look::Nothing => None,
            Look::At(first) => {
                if is_item_under(&self.slots, first, query) {
                    return Some(first);
                }
                self.find_item_on_walk(hash, query)
            }
            Look::Beyond => self.find_item_on_walk(hash, query),
        }
    }

    /// The same by a walk over the entries that may be of the hash.
    #[cold]
    #[inline(never)]
    fn find_item_on_walk<Q: Equivalent<K>>(&self, hash: u64, query: &Q) -> Option<Token>
    where
        K: Eq + Hash,
        ensures { MatchOption result
            (HasNoItem (Q.equivalent query.now) hash self.now)
            (λ token. FindsItemOfAnyHash (Q.equivalent query.now) self.now (number token)) }
    {
        for token in self.index.candidates(hash) {
            if is_item_under(&self.slots, token, query) {
                return Some(token);
            }
        }
        None
    }

    /// The item or the placeholder whose key the query stands for; else some ghost of that hash;
    /// else nothing. As `find_item` it compares keys alone: the caller knows which hash such a key
    /// has.
    #[inline(always)]
    pub fn find_by_key<Q: Equivalent<K>>(&self, hash: u64, query: &Q) -> Found
    where
        K: Eq + Hash,
        ensures { FindsByKey (Q.equivalent query.now) hash self.now result }
    {
        match self.index.candidates(hash).look() {
            Look::Nothing => Found::Nothing,
            // The first is nearly always the item, if there is one.
            Look::At(first) => {
                if is_item_under(&self.slots, first, query) {
                    return Found::Item(first);
                }
                self.find_on_walk(hash, query)
            }
            Look::Beyond => self.find_on_walk(hash, query),
        }
    }

    /// The token of the item that is visited next.
    pub fn first(&self, queue: Queue) -> Option<Token>
        ensures { IsFirstOf (λ held. held.token) (items_at (ring_place queue) self.now) result }
    {
        self.rings.queue(queue).first()
    }

    /// The token of the oldest ghost.
    pub fn oldest_ghost(&self) -> Option<Token>
        ensures { IsFirstOf (λ shade. shade.token) self.now.ghosts result }
    {
        self.rings.ghosts().first()
    }

    /// Reads of the index where the token of an entry of that hash most likely stands, for a look-up
    /// that follows: it then waits for tags and tokens at once, and not for one after the other. It
    /// changes nothing.
    #[inline(always)]
    pub fn bring_tokens_near(&self, hash: u64) {
        self.index.bring_tokens_near(hash);
    }

    /// Reads what taking out the oldest ghost, if there is one, reads first, so that it is near by
    /// then: its slot, its hash, and the places of that in the index. It changes nothing.
    #[inline(always)]
    pub fn bring_oldest_ghost_near(&self) {
        if let Some(oldest) = self.rings.ghosts().first() {
            self.index.bring_near(self.slots.slot(oldest).hash());
        }
    }

    /// The item of a token.
    pub fn item(&self, token: Token) -> ItemRef<'_, K, V, T>
        requires { HasItemToken self.now (number token) }
        ensures { IsItemOf self.now (number token) result }
    {
        self.slots.slot(token).item()
    }

    /// The key that is being loaded under a token.
    pub fn awaited(&self, token: Token) -> AwaitedRef<'_, K, P>
        requires { HasLoadingToken self.now (number token) }
        ensures { IsAwaitedOf self.now (number token) result }
    {
        match self.slots.slot(token).as_awaited() {
            Some(awaited) => awaited,
            None => unreachable!(),
        }
    }

    /// The token of the item with the least token above this one, or the least of all.
    ///
    /// It looks at the slots between.
    pub fn first_above(&self, token: Option<Token>) -> Option<Token>
        ensures { IsFirstAbove self.now (number_or_zero token) result }
    {
        for (next, slot) in self.slots.iter_from(token) {
            if slot.is_item() {
                return Some(next);
            }
        }
        None
    }

    /// The token that the next entry gets: 4294967295 where all slots are taken.
    pub fn next_token(&self) -> Token
        ensures { number result ≡ self.now.next }
    {
        self.slots.next_free()
    }
}
