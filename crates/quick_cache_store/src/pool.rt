//! A pool: items in slots that tokens name, and a stack of the free tokens.
ghost use Rattle.std.specs.Prelude.{◌≡◌, ◌↔◌, ◌+◌, ◌-◌, ◌<◌, ◌≤◌, Some, IfSome, IfNone, MatchOption, length, vec_len, vec_capacity};
ghost use Rattle.std.specs.Int.NonZero.{non_zero_u32_get as number};
ghost use Rattle.quick_cache_store.specs.Pool.{item_at, IsOccupied, next_token, spare, placed, removed, emptied, IsParted, entries_after};
ghost use Rattle.quick_cache_store.specs.PoolEdits.{PlacesItem};

mod blank;
mod copies;
mod counts;
mod growth;
mod iter;

pub use blank::Blank;
use blank::occupant;
pub use copies::CopyItem;
pub use growth::make_room;
pub use iter::IterFrom;
use quick_cache_model::Token;
use std::alloc::{Allocator, Global};
use std::marker::Model;
use std::mem;

/// How many slots there may be.
const MAX_SLOTS: usize = 4294967294;

/// Items under tokens. None is linked to another.
///
/// A token keeps its item until that is taken out, and only then is it given out again.
#[derive(Drop)]
pub struct Pool<T: Blank, A: Allocator = Global> {
    // The items. A free slot has a blank, which notes where the token of the slot stands in `free`.
    items: Vec<T, A>,
    // The free tokens, of which the last is the next to be given out. Each slot has room here, so
    // that it takes no memory to free one.
    free: Vec<u32, A>,
}

impl<T: Blank, A: Allocator> Model for Pool<T, A> {
    ghost use Rattle.std.specs.Prelude.{vec_len, vec_capacity};
    ghost use Rattle.quick_cache_store.specs.Pool.{Pool as Tokens};

    ghost Value = { Tokens T };

    ghost use Rattle.quick_cache_store.specs.Stack.{view_of, room_of, IsSound};

    ghost view = { λ p. view_of p.items.items p.free.items
        (room_of (vec_capacity p.items) (vec_capacity p.free) (vec_len p.items)) };

    ghost invariant = { λ p.
        IsSound T.is_blank T.note_of p.items.items p.free.items (vec_capacity p.free) };
}

// The token of the slot past so many.
fn past(len: usize) -> Token
    requires { len < 4294967295 }
    ensures { number result ≡ len + 1 }
{
    Token::MIN.saturating_add(len as u32)
}

// Where the slot of a token stands.
#[inline(always)]
fn place(token: Token) -> usize
    ensures { result + 1 ≡ number token }
{
    (token.get() - 1) as usize
}

impl<T: Blank, A: Allocator> Pool<T, A> {
    ghost use Rattle.std.specs.Borrow.{sem};
    ghost use Rattle.quick_cache_store.specs.PoolLends.{lends_item};

    /// An empty pool. It asks for no memory.
    pub fn new(for_items: A, for_free: A) -> Self
        ensures { result ≡ emptied result.room }
    {
        Pool {
            items: Vec::new(for_items),
            free: Vec::new(for_free),
        }
    }

    /// Stores an item under the token that was freed last, or under a new one. It takes one of the
    /// room, and no memory.
    #[inline(always)]
    pub fn insert_reserved(&mut self, item: T) -> Token
        requires { 0 < spare self.old }
        ensures token { number result ≡ next_token self.old }
        ensures placed { self.new
            ≡ record (placed self.old.free self.old item) { room = self.new.room } }
        ensures spare { spare self.new + 1 ≡ spare self.old }
        ensures edit { PlacesItem self.old self.new (number result) item }
        ensures parted { IsParted self.new }
    {
        match self.free.pop() {
            Some(freed) => {
                let token = unsafe { Token::new_unchecked(freed) };
                mem::replace(&mut self.items[place(token)], item).discard();
                token
            }
            None => {
                let len = self.items.len();
                self.items.push_reserved(item);
                past(len)
            }
        }
    }

    /// Takes the item of an occupied token out, and answers it. The token is the next that is given
    /// out.
    #[inline(always)]
    pub fn remove(&mut self, token: Token) -> T
        requires { IsOccupied self.old (number token) }
        ensures item { item_at self.old (number token) ≡ Some result }
        ensures removed { self.new ≡ removed self.old (number token) }
        ensures parted { IsParted self.new }
    {
        let blank = T::blank(self.free.len() as u32);
        self.free.push_reserved(token.get());
        mem::replace(&mut self.items[place(token)], blank)
    }

    /// The item of an occupied token.
    #[inline(always)]
    pub fn item(&self, token: Token) -> &T
        requires { IsOccupied self.now (number token) }
        ensures item { item_at self.now (number token) ≡ Some result.now }
    {
        &self.items[place(token)]
    }

    /// The item of an occupied token, for writing.
    #[inline(always)]
    pub fn item_mut(&mut self, token: Token) -> &mut T
        requires { IsOccupied self.old (number token) }
        ensures* writes_back { sem 𝓛 (lends_item T.row A.row T.Blank A.Allocator self.entry
            (number token) result) }
        ensures item { item_at self.old (number token) ≡ Some result.now }
    {
        &mut self.items[place(token)]
    }

    /// The item of a token. A free or unknown token gives nothing.
    #[inline]
    pub fn get(&self, token: Token) -> Option<&T>
        ensures absent { IfNone result (item_at self.now (number token) ≡ None) }
        ensures item { IfSome result (λ found. item_at self.now (number token) ≡ Some found.now) }
    {
        let at = place(token);
        if at >= self.items.len() {
            return None;
        }
        occupant(self.free.as_slice(), token, &self.items[at])
    }

    /// The tokens and items of greater token than this, or all of them, by ascending token.
    pub fn iter_from(&self, token: Option<Token>) -> IterFrom<'_, T>
        ensures { MatchOption token (result ≡ entries_after self.now 0)
            (λ token. result ≡ entries_after self.now (number token)) }
    {
        match token {
            Some(token) => self.after(token.get() as usize),
            None => self.after(0),
        }
    }

    // The tokens and items past so many slots.
    fn after(&self, passed: usize) -> IterFrom<'_, T>
        ensures { result ≡ entries_after self.now passed }
    {
        let items = self.items.as_slice();
        let passed = passed.min(items.len());
        IterFrom {
            items: &items[passed..],
            free: self.free.as_slice(),
            passed,
        }
    }

    /// Drops each item, and keeps the room.
    pub fn clear(&mut self)
    where
        T: Drop,
        ensures { self.new ≡ emptied (self.old.room + length self.old.slots) }
    {
        self.items.clear();
        self.free.clear();
    }
}
