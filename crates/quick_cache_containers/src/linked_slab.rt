//! A slab: items in slots that tokens name, the occupied ones in rings, the free ones in a list.
ghost use Rattle.std.specs.Prelude.{◌≡◌, ◌≢◌, ◌⊎◌, ◌↔◌, ◌+◌, ◌-◌, ◌<◌, ◌≤◌, min, [], ◌∷◌, ◌++◌, length, count_by, is_some, IsOk, IsNone};
ghost use Rattle.std.specs.Prelude.{IfOk, IfErr, OnOk, OnErr, IfSome, OnSome, IfNone, MatchOption, Some, vec_len, vec_capacity};
ghost use Rattle.std.specs.Int.NonZero.{non_zero_u32_get as number};
ghost use Rattle.quick_cache_containers.specs.LinkedSlab.{item_at, IsOccupied, ring_from, successor, next_token, spare, left, IsFull};
ghost use Rattle.quick_cache_containers.specs.LinkedSlab.{placed, linked, unlinked, removed, IsNextOf, IsAlone, IsAloneIf, JoinsEnd};
ghost use Rattle.quick_cache_containers.specs.LinkedSlab.{IsParted, items, entries_after, emptied, times};
ghost use Rattle.quick_cache_containers.specs.SlabEdits.{PlacesItem, LinksToken, UnlinksToken, RemovesItem};

mod copies;
mod counts;
mod drain;
mod growth;
mod item;
mod iter;
mod links;
mod node;
mod unchecked;

pub use copies::CopyItem;
pub use drain::Drain;
pub use growth::make_room;
pub use item::ItemMut;
pub use iter::{Iter, IterFrom};
use links::{fill, is_occupied, link, unlink};
use node::Node;
use quick_cache_model::Refusal;
pub use quick_cache_model::Token;
use std::alloc::{Allocator, Global};
use std::marker::Model;

/// How many slots there may be.
const MAX_SLOTS: usize = 4294967294;

/// Items under tokens. Each item stands in a ring, at first alone.
///
/// A token keeps its item until that item is removed, and only then can `insert` give it out again.
#[derive(Drop)]
pub struct LinkedSlab<T, A: Allocator = Global> {
    nodes: Vec<Node<T>, A>,
    // The token of the next insert: the last one freed, or else the first past the end.
    next_free: Token,
}

impl<T, A: Allocator> Model for LinkedSlab<T, A> {
    ghost use Rattle.std.specs.Prelude.{map, vec_len, vec_capacity};
    ghost use Rattle.std.specs.Int.NonZero.{non_zero_u32_get as number};
    ghost use Rattle.quick_cache_containers.specs.LinkedSlab.{LinkedSlab as Slots};

    ghost Value = { Slots T };

    ghost use Rattle.quick_cache_containers.specs.Links.{room_of, view_of, IsSound};
    ghost use Rattle.quick_cache_containers.specs.Nodes.{item_of, next_link, prev_link};

    ghost view = { λ s. view_of
        (map item_of s.nodes.items) (map next_link s.nodes.items) (number s.next_free)
        (room_of (vec_capacity s.nodes) (vec_len s.nodes)) };

    ghost invariant = { λ s. IsSound
        (map item_of s.nodes.items) (map next_link s.nodes.items) (map prev_link s.nodes.items)
        (number s.next_free) };
}

// The token of the slot past so many.
fn past(len: usize) -> Token
    requires { len < 4294967295 }
    ensures { number result ≡ len + 1 }
{
    Token::MIN.saturating_add(len as u32)
}

impl<T, A: Allocator> LinkedSlab<T, A> {
    ghost use Rattle.std.specs.Borrow.{sem};
    ghost use Rattle.quick_cache_containers.specs.SlabLends.{held_lender, held_slab, held_token, lends_item, rests_if_free};
    ghost use Rattle.quick_cache_containers.specs.SlabDrain.{drain_rest, drain_room, drain_lender, DrainCanStep, DrainKeepsAlong};

    /// An empty slab with room for so many items, of the 4294967294 that a slab can have.
    ///
    /// A refusal is for want of memory.
    pub fn with_capacity(alloc: A, capacity: usize) -> Result<Self, Refusal>
        ensures empty { IfOk result (λ slab. slab ≡ emptied slab.room) }
        ensures room { IfOk result (λ slab. min capacity 4294967294 ≤ slab.room) }
        ensures parted { IfOk result IsParted }
        ensures memory { IfErr result (λ refused. refused ≡ Refusal.Memory) }
        ensures succeeds { capacity ≡ 0 → IsOk result }
    {
        match Vec::with_capacity(alloc, capacity.min(MAX_SLOTS)) {
            Ok(nodes) => Ok(LinkedSlab {
                nodes,
                next_free: Token::MIN,
            }),
            Err(_) => Err(Refusal::Memory),
        }
    }

    /// Stores an item, a ring of its own, under the token that was freed last, or under a new one.
    ///
    /// It allocates only where no token is free and there is no room. A refused item comes back.
    #[inline(always)]
    pub fn insert(&mut self, item: T) -> Result<Token, (T, Refusal)>
        ensures token { IfOk result (λ token. number token ≡ next_token self.old) }
        ensures placed { OnOk result (self.new
            ≡ record (placed self.old.free self.old item) { room = self.new.room }) }
        ensures spare { OnOk result (0 < spare self.old → spare self.new + 1 ≡ spare self.old) }

        ensures item { IfOk result (λ token. item_at self.new (number token) ≡ Some item) }
        ensures alone { IfOk result (λ token. IsAlone self.new (number token)) }
        ensures edit { IfOk result (λ token. PlacesItem self.old self.new (number token) item) }
        ensures parted { IsParted self.new }

        // Without memory it is refused only where it needs some, and a full slab refuses.
        ensures succeeds { 0 < spare self.old → IsOk result }
        ensures full { (result ≡ Err (item, Refusal.SlotsFull)) ↔ IsFull self.old }
        ensures memory { result ≡ Err (item, Refusal.Memory) → spare self.old ≡ 0 }
        ensures refusals { IfErr result
            (λ refused. (refused ≡ (item, Refusal.SlotsFull))
            ⊎ (refused ≡ (item, Refusal.Memory))) }
        ensures unchanged { OnErr result (self.new ≡ self.old) }
    {
        let token = self.next_free;
        let len = self.nodes.len();
        if token.get() as usize <= len {
            let link = fill(self.nodes.as_mut_slice(), token, item);
            self.next_free = if link.get() == token.get() {
                past(len)
            } else {
                link
            };
            return Ok(token);
        }
        if len >= MAX_SLOTS {
            return Err((item, Refusal::SlotsFull));
        }
        if make_room(&mut self.nodes, 1).is_err() {
            return Err((item, Refusal::Memory));
        }
        self.nodes.push_reserved(Node::holding(item, token));
        self.next_free = past(len + 1);
        Ok(token)
    }

    /// The item of a token and the token behind it in its ring.
    ///
    /// A free or unknown token gives nothing.
    #[inline]
    pub fn get(&self, token: Token) -> Option<(&T, Token)>
        ensures absent { IfNone result (item_at self.now (number token) ≡ None) }
        ensures item { IfSome result (λ found. item_at self.now (number token) ≡ Some found.0.now) }
        ensures next { IfSome result (λ found. number found.1 ≡ successor self.now (number token)) }

        // The token is its own successor exactly where it is a ring of one.
        ensures alone { IfSome result (λ found. IsAloneIf self.now token found.1) }
        ensures parted { IsParted self.now }
    {
        links::get(self.nodes.as_slice(), token)
    }

    /// The item of a token, for writing, and the token behind it in its ring.
    ///
    /// A free or unknown token gives nothing.
    #[inline]
    pub fn get_mut(&mut self, token: Token) -> Option<ItemMut<'_, T, A>>
        ensures* unchanged { sem 𝓛 (rests_if_free T.row A.row A.Allocator self.entry result) }
        ensures absent { IfNone result (item_at self.old (number token) ≡ None) }
        ensures occupied { OnSome result (IsOccupied self.old (number token)) }

        // It holds this slab as it is, at this token.
        ensures same_reference { IfSome result (λ held. held_lender held
            ≡ self.entry.ghost_name) }
        ensures slab { IfSome result (λ held. held_slab held ≡ self.old) }
        ensures token { IfSome result (λ held. held_token held ≡ number token) }
    {
        if self.contains(token) {
            Some(ItemMut {
                slab: self,
                place: token.get(),
            })
        } else {
            None
        }
    }

    // The item of an occupied token, for writing.
    #[inline]
    fn item_mut(&mut self, token: Token) -> &mut T
        requires { IsOccupied self.old (number token) }
        ensures* writes_back { sem 𝓛 (lends_item T.row A.row A.Allocator self.entry (number token)
            result) }
        ensures item { item_at self.old (number token) ≡ Some result.now }
    {
        let (item, _) = unsafe { self.get_mut_unchecked(token) };
        item
    }

    // Whether the token is occupied.
    fn contains(&self, token: Token) -> bool
        ensures { result ≡ is_some (item_at self.now (number token)) }
    {
        is_occupied(self.nodes.as_slice(), token)
    }

    /// Puts an item that is a ring of its own before the head of another, so at that ring's end.
    ///
    /// It answers the head. With no head nothing changes, and the answer is the token itself.
    pub fn link(&mut self, token: Token, head: Option<Token>) -> Token
        requires occupied { IsOccupied self.old (number token) }
        requires alone { IsAlone self.old (number token) }
        requires head { IfSome head (λ head. IsOccupied self.old (number head)) }
        requires apart { IfSome head (λ head. number head ≢ number token) }
        ensures head { MatchOption head (number result ≡ number token)
            (λ head. number result ≡ number head) }
        ensures linked { MatchOption head (self.new ≡ self.old)
            (λ head. self.new ≡ linked self.old (number token) (number head)) }
        ensures ring { IfSome head
            (λ head. JoinsEnd self.old self.new (number token) (number head)) }
        ensures edit { IfSome head
            (λ head. LinksToken self.old self.new (number token) (number head)) }
        ensures parted { IsParted self.new }
    {
        let Some(head) = head else {
            self.validate();
            return token;
        };
        link(self.nodes.as_mut_slice(), token, head);
        head
    }

    /// Takes an item out of its ring, and leaves it a ring of its own.
    ///
    /// It answers the token that was behind it, if that was another.
    pub fn unlink(&mut self, token: Token) -> Option<Token>
        requires { IsOccupied self.old (number token) }
        ensures unlinked { self.new ≡ unlinked self.old (number token) }
        ensures alone { IsAlone self.new (number token) }
        ensures edit { UnlinksToken self.old self.new (number token) }
        ensures parted { IsParted self.new }
        ensures next { IsNextOf self.old (number token) result }
    {
        unlink(self.nodes.as_mut_slice(), token)
    }

    /// Takes an item out of its ring and out of the slab, and answers it.
    ///
    /// With it comes the token that was behind it, if that was another. The token is the next that
    /// `insert` gives out. A free or unknown token gives nothing.
    pub fn remove(&mut self, token: Token) -> Option<(T, Option<Token>)>
        ensures absent { IfNone result (item_at self.old (number token) ≡ None) }
        ensures unchanged { IfNone result (self.new ≡ self.old) }
        ensures item { IfSome result (λ taken. item_at self.old (number token) ≡ Some taken.0) }
        ensures next { IfSome result (λ taken. IsNextOf self.old (number token) taken.1) }
        ensures removed { OnSome result (self.new ≡ removed self.old (number token)) }
        ensures edit { OnSome result (RemovesItem self.old self.new (number token)) }
        ensures parted { IsParted self.new }
    {
        if !self.contains(token) {
            self.validate();
            return None;
        }
        Some(unsafe { self.remove_unchecked(token) })
    }

    /// The items, by ascending token.
    pub fn iter(&self) -> Iter<'_, T>
        ensures { result ≡ items self.now }
    {
        Iter {
            nodes: self.nodes.as_slice(),
        }
    }

    /// The items, by ascending token, as `iter` gives them.
    pub fn iter_entries(&self) -> Iter<'_, T>
        ensures { result ≡ items self.now }
    {
        self.iter()
    }

    /// The tokens and items of greater token than this, or all of them, by ascending token.
    pub fn iter_from(&self, token: Option<Token>) -> IterFrom<'_, T>
        ensures { MatchOption token (result ≡ entries_after self.now 0)
            (λ token. result ≡ entries_after self.now (number token)) }
    {
        match token {
            Some(token) => self.after(token.get() as usize),
            None => self.after(0),
        }
    }

    // The tokens and items past so many slots.
    fn after(&self, passed: usize) -> IterFrom<'_, T>
        ensures { result ≡ entries_after self.now passed }
    {
        let nodes = self.nodes.as_slice();
        let passed = passed.min(nodes.len());
        IterFrom {
            nodes: &nodes[passed..],
            passed,
        }
    }

    /// Takes the items out, by ascending token.
    ///
    /// The slab is empty once the iterator is dropped, and keeps its room.
    pub fn drain(&mut self) -> Drain<'_, T, A>
    where
        T: Drop,
        ensures rest { drain_rest result ≡ items self.old }
        ensures room { drain_room result ≡ self.old.room + length self.old.slots }
        ensures ready { DrainCanStep result }
        ensures same_reference { drain_lender result ≡ self.entry.ghost_name }
        ensures stays { DrainKeepsAlong result }
    {
        Drain {
            slab: self,
            passed: 0,
        }
    }

    // Drops each item, and keeps the room.
    fn empty(&mut self)
    where
        T: Drop,
        ensures { self.new ≡ emptied (self.old.room + length self.old.slots) }
    {
        self.nodes.clear();
        self.next_free = Token::MIN;
    }

    // How many slots there are, whether occupied or free.
    fn slot_count(&self) -> usize
        ensures count { result ≡ length self.now.slots }
        ensures few { result < 4294967295 }
    {
        self.nodes.len()
    }
}
