//! A slot of a slab: two links, and an item if it is occupied.
ghost use Rattle.std.specs.Prelude.{◌≡◌, Some, None, IfSome, IfNone, is_some, true, false};
ghost use Rattle.std.specs.Int.NonZero.{non_zero_u32_get as number};
ghost use Rattle.quick_cache_containers.specs.Nodes.{item_of, next_link, prev_link};

use quick_cache_model::Token;
use std::mem;

/// A slot, free or with an item.
#[derive(Drop)]
pub(crate) struct Node<T> {
    next: Token,
    prev: Token,
    item: Option<T>,
}

impl<T> Node<T> {
    ghost use Rattle.std.specs.Borrow.{sem};
    ghost use Rattle.quick_cache_containers.specs.Nodes.{lends_node};

    /// A slot with that item, which names the token twice.
    #[inline(always)]
    pub(crate) fn holding(item: T, token: Token) -> Self
        ensures item { item_of result ≡ Some item }
        ensures next { next_link result ≡ number token }
        ensures prev { prev_link result ≡ number token }
    {
        Node {
            next: token,
            prev: token,
            item: Some(item),
        }
    }

    #[inline(always)]
    pub(crate) fn next(&self) -> Token
        ensures { number result ≡ next_link self.now }
    {
        self.next
    }

    #[inline(always)]
    pub(crate) fn set_next(&mut self, next: Token)
        ensures item { item_of self.new ≡ item_of self.old }
        ensures next { next_link self.new ≡ number next }
        ensures prev { prev_link self.new ≡ prev_link self.old }
    {
        self.next = next;
    }

    #[inline(always)]
    pub(crate) fn prev(&self) -> Token
        ensures { number result ≡ prev_link self.now }
    {
        self.prev
    }

    #[inline(always)]
    pub(crate) fn set_prev(&mut self, prev: Token)
        ensures item { item_of self.new ≡ item_of self.old }
        ensures next { next_link self.new ≡ next_link self.old }
        ensures prev { prev_link self.new ≡ number prev }
    {
        self.prev = prev;
    }

    #[inline(always)]
    pub(crate) fn is_occupied(&self) -> bool
        ensures { result ≡ is_some (item_of self.now) }
    {
        self.item.is_some()
    }

    #[inline(always)]
    pub(crate) fn get(&self) -> Option<&T>
        ensures absent { IfNone result (item_of self.now ≡ None) }
        ensures item { IfSome result (λ found. item_of self.now ≡ Some found.now) }
    {
        self.item.as_ref()
    }

    // The item of an occupied slot. It does not look whether there is one: a shift too far has no
    // value, and so tells the compiler what the proof says, that no one comes there.
    #[inline(always)]
    pub(crate) fn item(&self) -> &T
        requires { is_some (item_of self.now) ≡ true }
        ensures { item_of self.now ≡ Some result.now }
    {
        match &self.item {
            Some(item) => item,
            None => {
                let too_far = usize::BITS;
                let none: &[T] = &[];
                &none[1 << too_far]
            }
        }
    }

    // The same for writing. It does not look either.
    #[inline]
    pub(crate) fn item_mut(&mut self) -> &mut T
        requires { is_some (item_of self.old) ≡ true }
        ensures* lends { sem 𝓛 (lends_node T.row self.entry result) }
        ensures value { item_of self.old ≡ Some result.now }
    {
        match &mut self.item {
            Some(item) => item,
            None => {
                let too_far = usize::BITS;
                let mut none = [0u8; 0];
                none[1 << too_far] = 0;
                unreachable!()
            }
        }
    }

    /// Puts an item into a free slot, which names the token then, and answers the link that it had.
    #[inline(always)]
    pub(crate) fn fill(&mut self, item: T, token: Token) -> Token
        requires { is_some (item_of self.old) ≡ false }
        ensures item { item_of self.new ≡ Some item }
        ensures next { next_link self.new ≡ number token }
        ensures prev { prev_link self.new ≡ number token }
        ensures link { number result ≡ next_link self.old }
    {
        let link = self.next;
        self.next = token;
        self.prev = token;
        match mem::replace(&mut self.item, Some(item)) {
            None => link,
            Some(_) => unreachable!(),
        }
    }

    /// Takes the item out of an occupied slot, and gives the slot a link.
    #[inline(always)]
    pub(crate) fn vacate(&mut self, link: Token) -> T
        requires { is_some (item_of self.old) ≡ true }
        ensures item { item_of self.old ≡ Some result }
        ensures free { item_of self.new ≡ None }
        ensures next { next_link self.new ≡ number link }
    {
        self.next = link;
        match self.item.take() {
            Some(item) => item,
            None => unreachable!(),
        }
    }

    /// A slot with the same links and that item, or none.
    pub(crate) fn with(&self, item: Option<T>) -> Self
        ensures item { item_of result ≡ item }
        ensures next { next_link result ≡ next_link self.now }
        ensures prev { prev_link result ≡ prev_link self.now }
    {
        Node {
            next: self.next,
            prev: self.prev,
            item,
        }
    }
}
