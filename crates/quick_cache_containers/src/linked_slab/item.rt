//! What `get_mut` of a `LinkedSlab` gives.
ghost use Rattle.std.specs.Prelude.{◌≡◌};
ghost use Rattle.std.specs.Int.NonZero.{non_zero_u32_get as number};
ghost use Rattle.quick_cache_containers.specs.LinkedSlab.{item_at, IsOccupied, successor};

use crate::linked_slab::LinkedSlab;
use quick_cache_model::Token;
use std::alloc::{Allocator, Global};

/// An item of a slab, for writing, and the token behind it in its ring.
///
/// It knows that the item is there, so its methods ask nothing.
#[derive(Drop)]
pub struct ItemMut<'a, T, A: Allocator = Global> {
    pub(super) slab: &'a mut LinkedSlab<T, A>,
    // The number of the token, since no `Option` holds a `&mut` beside a token.
    pub(super) place: u32,
    // There is an item at the token.
    ghost occupied: { IsOccupied slab.now place },
}

impl<'a, T, A: Allocator> ItemMut<'a, T, A> {
    ghost use Rattle.std.specs.Prelude.{Some};
    ghost use Rattle.std.specs.Borrow.{sem};
    ghost use Rattle.quick_cache_containers.specs.SlabLends.{held_slab, held_token, lends_held};

    /// The token behind the item in its ring.
    #[inline]
    pub fn next_token(&self) -> Token
        ensures { number result ≡ successor (held_slab self.now) (held_token self.now) }
    {
        let (_, next) = unsafe { self.slab.get_unchecked(self.token()) };
        next
    }

    /// The item.
    #[inline]
    pub fn into_mut(self) -> &'a mut T
        ensures* writes_back { sem 𝓛 (lends_held T.row A.row A.Allocator self.entry result) }
        ensures item { item_at (held_slab self.entry) (held_token self.entry)
            ≡ Some result.now }
    {
        let token = self.token();
        let ItemMut { slab, place: _ } = self;
        slab.item_mut(token)
    }

    // The token of the item.
    #[inline(always)]
    fn token(&self) -> Token
        ensures { number result ≡ held_token self.now }
    {
        unsafe { Token::new_unchecked(self.place) }
    }
}
