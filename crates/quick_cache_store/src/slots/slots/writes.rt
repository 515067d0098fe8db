//! What is written to the slot of a token: to its entry, for the hash stays.
ghost use Rattle.std.specs.Prelude.{◌≡◌, Some};
ghost use Rattle.std.specs.Int.NonZero.{non_zero_u32_get as number};
ghost use Rattle.quick_cache_store.specs.Pool.{IsOccupied};
ghost use Rattle.quick_cache_store.specs.Items.{with_counts, with_mark, read_once, used, with_weight, requeued};
ghost use Rattle.quick_cache_store.specs.Slots.{HasItem, HasItemEntry, HasEntry, slot_changed, with_entry};
ghost use Rattle.quick_cache_store.specs.Writes.{Writes};

use crate::slots::entry::Entry;
use crate::slots::resident::Marked;
use crate::slots::slots::{Slots, place};
use quick_cache_model::{Queue, Token, Touches};
use std::alloc::Allocator;

impl<K, V, P, T, A: Allocator> Slots<K, V, P, T, A> {
    /// Gives the item of a token another mark, and writes nothing else of its slot.
    #[inline(always)]
    pub fn set_mark(&mut self, token: Token, mark: u8)
        requires { HasItem self.old (number token) }
        ensures { Writes self.old self.new (number token) (slot_changed (with_mark mark)) }
    {
        self.asides.set_mark(place(token), mark);
    }

    /// Counts a read of the item of a token, up to the greatest count, and writes nothing else.
    #[inline(always)]
    pub fn count_read(&mut self, token: Token)
        requires { HasItem self.old (number token) }
        ensures { Writes self.old self.new (number token) (slot_changed read_once) }
    {
        let entry = self.pool.item(token);
        if entry.is_counted_out() {
            self.settle_read(token);
            return;
        }
        let entry = self.pool.item_mut(token);
        entry.count_late();
    }

    // Counts a read of the item of a token, beside its slot where that can count no more. It is a
    // call of its own, so that a look-up does not work out where that is.
    #[cold]
    #[inline(never)]
    fn settle_read(&mut self, token: Token)
        requires { HasItem self.old (number token) }
        ensures { Writes self.old self.new (number token) (slot_changed read_once) }
    {
        let entry = self.pool.item_mut(token);
        let place = place(token);
        let mut beside = self.asides.get(place);
        entry.settle_read(&mut beside);
        self.asides.put(place, beside);
    }

    /// Counts a read of the item of a token, as `count_read` does, and gives it another mark.
    #[inline(always)]
    pub fn count_use(&mut self, token: Token, mark: u8)
        requires { HasItem self.old (number token) }
        ensures { Writes self.old self.new (number token) (slot_changed (used mark)) }
    {
        self.count_read(token);
        self.set_mark(token, mark);
    }

    /// Gives the item of a token another mark and another count of reads.
    #[inline]
    pub fn set_counts(&mut self, token: Token, mark: u8, reads: u64)
        requires { HasItem self.old (number token) }
        ensures { Writes self.old self.new (number token)
            (slot_changed (with_counts mark reads)) }
    {
        let entry = self.pool.item_mut(token);
        let place = place(token);
        let mut beside = self.asides.get(place);
        entry.set_counts(&mut beside, mark, reads);
        self.asides.put(place, beside);
    }

    /// Gives the item of a token another weight.
    #[inline]
    pub fn set_weight(&mut self, token: Token, weight: u64)
        requires { HasItem self.old (number token) }
        ensures { Writes self.old self.new (number token) (slot_changed (with_weight weight)) }
    {
        let entry = self.pool.item_mut(token);
        let place = place(token);
        let mut beside = self.asides.get(place);
        entry.set_weight(&mut beside, weight);
        self.asides.put(place, beside);
    }

    /// Gives the item of a token another queue, mark and weight.
    #[inline]
    pub fn requeue(&mut self, token: Token, queue: Queue, mark: u8, weight: u64)
        requires { HasItem self.old (number token) }
        ensures { Writes self.old self.new (number token)
            (slot_changed (requeued queue mark weight)) }
    {
        let entry = self.pool.item_mut(token);
        let place = place(token);
        let mut beside = self.asides.get(place);
        entry.requeue(&mut beside, queue, mark, weight);
        self.asides.put(place, beside);
    }

    /// Puts another entry under a token, and gives the old one back. An item in the place of an
    /// item goes on with its counter of touches.
    #[inline(always)]
    pub fn replace(&mut self, token: Token, entry: Entry<K, V, P, T>) -> Entry<K, V, P, T>
        requires { IsOccupied self.old (number token) }
        ensures writes { Writes self.old self.new (number token) (with_entry entry) }
        ensures old { HasEntry self.old (number token) result }
    {
        let stored = self.pool.item_mut(token);
        let place = place(token);
        let mut beside = self.asides.get(place);
        let old = stored.replace(&mut beside, entry);
        self.asides.put(place, beside);
        old
    }

    /// Leaves a ghost in the place of the item of a token, and gives the item. It does not look
    /// whether an item is there.
    #[inline(always)]
    pub fn bury(&mut self, token: Token) -> Marked<K, V, T>
        requires { HasItem self.old (number token) }
        ensures writes { Writes self.old self.new (number token) (with_entry Entry.Ghost) }
        ensures old { HasItemEntry self.old (number token) result }
    {
        let entry = self.pool.item_mut(token);
        entry.bury(&self.asides.get(place(token)))
    }

    /// Puts another item in the place of the item of a token, and gives the old one back. The other
    /// goes on with the counter of touches.
    #[inline]
    pub fn rewrite(&mut self, token: Token, resident: Marked<K, V, T>) -> Marked<K, V, T>
        requires { HasItem self.old (number token) }
        ensures writes { Writes self.old self.new (number token) (slot_changed (λ _. resident)) }
        ensures old { HasItemEntry self.old (number token) result }
    {
        let entry = self.pool.item_mut(token);
        let place = place(token);
        let mut beside = self.asides.get(place);
        let old = entry.rewrite(&mut beside, resident);
        self.asides.put(place, beside);
        old
    }

    /// Takes the count of touches of the item of a token, which begins anew.
    #[inline]
    pub fn take_touch(&mut self, token: Token) -> u64
    where
        T: Touches,
        requires { HasItem self.old (number token) }
        ensures counted { T.may_count result }
        ensures same { self.new ≡ self.old }
    {
        let entry = self.pool.item_mut(token);
        entry.take_touch()
    }
}
