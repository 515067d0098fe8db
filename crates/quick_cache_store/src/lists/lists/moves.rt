//! Entries that go from list to list and keep their tokens, so that the index does not change.
ghost use Rattle.std.specs.Prelude.{◌≡◌, false, Some};
ghost use Rattle.std.specs.Int.NonZero.{non_zero_u32_get as number};
ghost use Rattle.quick_cache_store.specs.Rings.{restarts};
ghost use Rattle.quick_cache_store.specs.Lists.{HasEntry, HasItemToken, IsFirstOf, Replaces, Requeues, requeued};

use crate::lists::lists::Lists;
use crate::rings::Order;
use crate::slots::{Entry, Marked, Stand};
use quick_cache_model::{Queue, Token};
use std::alloc::Allocator;

impl<K, V, P, T, A: Allocator> Lists<K, V, P, T, A> {
    /// Puts another entry under a token, and answers the old one. The old one leaves its list as
    /// with `take`, the new one is put last as with `put`; the hash stays, and no room is needed.
    #[inline(always)]
    pub fn replace(
        &mut self,
        token: Token,
        order: Order,
        entry: Entry<K, V, P, T>,
    ) -> Entry<K, V, P, T>
        requires { HasEntry self.old (number token) }
        ensures { Replaces self.old (number token) (restarts order) entry result self.new }
    {
        let to = entry.stand();
        let weight = entry.weight();
        let was = self.slots.replace(token, entry);
        let from = was.stand();
        let weighed = was.weight();
        self.rings.leave(token, from, order, weighed);
        self.rings.enter(token, to, weight);
        self.loading = self.loading - from.loading() + to.loading();
        was
    }

    /// Makes the newest ghost of the first cold item, and answers the item. The token and the hash
    /// stay, and no room is needed. It is `replace` by a ghost, with no test of what stands there,
    /// and no search for the token.
    #[inline(always)]
    pub fn bury(&mut self, token: Token) -> Marked<K, V, T>
        requires { IsFirstOf (λ held. held.token) self.old.cold (Some token) }
        ensures { Replaces {T = T} self.old (number token) false Entry.Ghost (Entry.Item result)
            self.new }
    {
        let item = self.slots.bury(token);
        let weight = item.weight();
        self.rings.bury_first(token, weight);
        item
    }

    /// Gives the item of a token another queue, mark and weight, and puts it last in its ring, or
    /// beside the rings where it then weighs nothing. The rest of the ring that it leaves is in
    /// that order then.
    pub fn requeue(&mut self, token: Token, order: Order, queue: Queue, mark: u8, weight: u64)
        requires { HasItemToken self.old (number token) }
        ensures { Requeues self.old (number token) (restarts order) (requeued queue mark weight) self.new }
    {
        let slot = self.slots.slot(token);
        let from = slot.stand();
        let weighed = slot.weight();
        self.slots.requeue(token, queue, mark, weight);
        let to = Stand::of_item(weight, queue);
        self.rings.leave(token, from, order, weighed);
        self.rings.enter(token, to, weight);
    }
}
