//! What changes the lists: an entry comes, goes, moves or is written.
ghost use Rattle.std.specs.Prelude.{◌≡◌, ◌+◌, ◌<◌, false, Some};
ghost use Rattle.std.specs.Int.NonZero.{non_zero_u32_get as number};
ghost use Rattle.quick_cache_store.specs.Rings.{restarts};
ghost use Rattle.quick_cache_store.specs.Lists.{PutsLast, HasEntry, IsEntry, without_entry, IsFirstOf, HasItemToken, HasItemUnder};
ghost use Rattle.quick_cache_store.specs.Lists.{ring_turned, with_change, with_counts, with_mark, read_once, used, HasItemOfQueue};
ghost use Rattle.quick_cache_store.specs.Lists.{Rewrites, Reweighs};

use crate::lists::lists::Lists;
use crate::lists::store::{displace, displace_known, place};
use crate::rings::Order;
use crate::slots::{Entry, Marked, Slot, Stand};
use quick_cache_model::{Queue, Token, Touches};
use std::alloc::Allocator;

impl<K, V, P, T, A: Allocator> Lists<K, V, P, T, A> {
    /// Puts an entry last in its ring, or beside the rings where it is a placeholder or an item
    /// that weighs nothing. It takes one of the room, and no memory.
    #[inline(always)]
    pub fn put(&mut self, hash: u64, entry: Entry<K, V, P, T>) -> Token
        requires { 0 < self.old.room }
        ensures token { number result ≡ self.old.next }
        ensures last { PutsLast self.old (number result) hash entry self.new }
        ensures room { self.new.room + 1 ≡ self.old.room }
    {
        let stand = entry.stand();
        let weight = entry.weight();
        let token = place(&mut self.slots, &mut self.index, Slot { hash, entry });
        self.rings.enter(token, stand, weight);
        self.loading += stand.loading();
        token
    }

    /// Takes an entry out. The rest of its ring is in that order then.
    #[inline(always)]
    pub fn take(&mut self, token: Token, order: Order) -> Slot<K, V, P, T>
        requires { HasEntry self.old (number token) }
        ensures taken { IsEntry self.old (number token) result.hash result.entry }
        ensures rest { self.new ≡ without_entry (restarts order) (number token) self.old }
    {
        let slot = displace(&mut self.slots, &mut self.index, token);
        let stand = slot.entry.stand();
        let weight = slot.entry.weight();
        self.rings.leave(token, stand, order, weight);
        self.loading -= stand.loading();
        slot
    }

    /// Takes an item out that was found under that hash. Its ring keeps the order of the rest. It is
    /// `take` with no read of the hash.
    #[inline(always)]
    pub fn take_found(&mut self, hash: u64, token: Token) -> Slot<K, V, P, T>
        requires { HasItemUnder self.old (number token) hash }
        ensures taken { IsEntry self.old (number token) result.hash result.entry }
        ensures rest { self.new ≡ without_entry false (number token) self.old }
    {
        let slot = displace_known(&mut self.slots, &mut self.index, hash, token);
        let stand = slot.entry.stand();
        let weight = slot.entry.weight();
        self.rings.leave(token, stand, Order::Kept, weight);
        self.loading -= stand.loading();
        slot
    }

    /// Takes the oldest ghost out. The others keep their order. It is `take` with no test of what
    /// stands there, and no search for the token.
    #[inline(always)]
    pub fn forget_first(&mut self, token: Token)
    where
        K: Drop,
        V: Drop,
        P: Drop,
        T: Drop,
        requires { IsFirstOf (λ shade. shade.token) self.old.ghosts (Some token) }
        ensures { self.new ≡ without_entry false (number token) self.old }
    {
        let _ = displace(&mut self.slots, &mut self.index, token);
        self.rings.forget_first();
    }

    /// Begins the ring one further on.
    pub fn turn(&mut self, queue: Queue)
        ensures { self.new ≡ ring_turned queue self.old }
    {
        self.rings.turn(queue);
    }

    /// Gives the item of a token another mark and another count of reads.
    pub fn set_counts(&mut self, token: Token, mark: u8, reads: u64)
        requires { HasItemToken self.old (number token) }
        ensures { self.new ≡ with_change (number token) (with_counts mark reads) self.old }
    {
        self.slots.set_counts(token, mark, reads);
    }

    /// Gives the item of a token another mark, and writes nothing else of its slot.
    #[inline(always)]
    pub fn set_mark(&mut self, token: Token, mark: u8)
        requires { HasItemToken self.old (number token) }
        ensures { self.new ≡ with_change (number token) (with_mark mark) self.old }
    {
        self.slots.set_mark(token, mark);
    }

    /// Counts a read of the item of a token, up to the greatest count, and writes nothing else of
    /// its slot.
    #[inline(always)]
    pub fn count_read(&mut self, token: Token)
        requires { HasItemToken self.old (number token) }
        ensures { self.new ≡ with_change (number token) read_once self.old }
    {
        self.slots.count_read(token);
    }

    /// Counts a read of the item of a token, as `count_read` does, and gives it another mark.
    #[inline(always)]
    pub fn count_use(&mut self, token: Token, mark: u8)
        requires { HasItemToken self.old (number token) }
        ensures { self.new ≡ with_change (number token) (used mark) self.old }
    {
        self.slots.count_use(token, mark);
    }

    /// Puts another item of the same ring in the place of the item of a token, and gives the old
    /// one back. The other goes on with the counter of touches. Where only one of the two weighs
    /// something, the old one leaves its list, its ring begins behind it, and the other is put last
    /// as with `put`.
    pub fn rewrite(&mut self, token: Token, resident: Marked<K, V, T>) -> Marked<K, V, T>
        requires { HasItemOfQueue self.old (number token) resident.queue }
        ensures { Rewrites self.old (number token) resident result self.new }
    {
        let item = self.item(token);
        let stand = item.stand();
        let was = item.weight();
        let weight = resident.weight();
        if (was == 0) != (weight == 0) {
            return match self.replace(token, Order::Restarted, Entry::Item(resident)) {
                Entry::Item(old) => old,
                Entry::Loading(_) => unreachable!(),
                Entry::Ghost => unreachable!(),
            };
        }
        let old = self.slots.rewrite(token, resident);
        self.rings.reweigh(stand, was, weight);
        old
    }

    /// Gives the item of a token another weight, which decides of its place as with `rewrite`.
    pub fn reweigh(&mut self, token: Token, weight: u64)
        requires { HasItemToken self.old (number token) }
        ensures { Reweighs self.old (number token) weight self.new }
    {
        let item = self.item(token);
        let stand = item.stand();
        let was = item.weight();
        let queue = item.queue();
        let mark = item.mark();
        if (was == 0) != (weight == 0) {
            self.requeue(token, Order::Restarted, queue, mark, weight);
            return;
        }
        self.slots.set_weight(token, weight);
        self.rings.reweigh(stand, was, weight);
    }

    /// Takes what readers counted at the item of a token. The count begins anew.
    pub fn take_touch(&mut self, token: Token) -> u64
    where
        T: Touches,
        requires { HasItemToken self.old (number token) }
        ensures counted { T.may_count result }
        ensures same { self.new ≡ self.old }
    {
        self.slots.take_touch(token)
    }
}
