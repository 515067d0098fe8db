//! Look-ups at a token that the caller knows to be occupied.
ghost use Rattle.std.specs.Prelude.{◌≡◌, Some};
ghost use Rattle.std.specs.Int.NonZero.{non_zero_u32_get as number};
ghost use Rattle.quick_cache_containers.specs.LinkedSlab.{item_at, IsOccupied, IsNextOf, IsParted, removed, successor};
ghost use Rattle.quick_cache_containers.specs.SlabEdits.{RemovesItem};

use crate::linked_slab::LinkedSlab;
use crate::linked_slab::links::{place, unlink, vacate};
use quick_cache_model::Token;
use std::alloc::Allocator;

impl<T, A: Allocator> LinkedSlab<T, A> {
    ghost use Rattle.std.specs.Borrow.{sem};
    ghost use Rattle.quick_cache_containers.specs.SlabLends.{lends_item};

    /// The item of an occupied token and the token behind it in its ring.
    #[inline]
    pub unsafe fn get_unchecked(&self, token: Token) -> (&T, Token)
        requires { IsOccupied self.now (number token) }
        ensures item { item_at self.now (number token) ≡ Some result.0.now }
        ensures next { number result.1 ≡ successor self.now (number token) }
    {
        let node = &self.nodes[place(token)];
        (node.item(), node.next())
    }

    /// The item of an occupied token, for writing, and the token behind it in its ring.
    #[inline]
    pub unsafe fn get_mut_unchecked(&mut self, token: Token) -> (&mut T, Token)
        requires { IsOccupied self.old (number token) }
        ensures* writes_back { sem 𝓛 (lends_item T.row A.row A.Allocator self.entry (number token)
            result.0) }
        ensures item { item_at self.old (number token) ≡ Some result.0.now }
        ensures next { number result.1 ≡ successor self.old (number token) }
    {
        let node = &mut self.nodes[place(token)];
        let next = node.next();
        (node.item_mut(), next)
    }

    /// Takes the item of an occupied token out of its ring and out of the slab, and answers it.
    ///
    /// With it comes the token that was behind it, if that was another. The token is the next that
    /// `insert` gives out.
    #[inline]
    pub unsafe fn remove_unchecked(&mut self, token: Token) -> (T, Option<Token>)
        requires { IsOccupied self.old (number token) }
        ensures item { item_at self.old (number token) ≡ Some result.0 }
        ensures next { IsNextOf self.old (number token) result.1 }
        ensures removed { self.new ≡ removed self.old (number token) }
        ensures edit { RemovesItem self.old self.new (number token) }
        ensures parted { IsParted self.new }
    {
        let len = self.nodes.len();
        let nodes = self.nodes.as_mut_slice();
        let next = unlink(nodes, token);
        let link = if self.next_free.get() as usize <= len {
            self.next_free
        } else {
            token
        };
        let item = vacate(nodes, token, link);
        self.next_free = token;
        (item, next)
    }
}
