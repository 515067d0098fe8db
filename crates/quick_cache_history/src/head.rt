//! The word beside a lock, which counts the calls of its shard.
ghost use Rattle.std.specs.Prelude.{◌≡◌, ◌+◌, ◌-◌, ◌<◌, ◌^◌, [], length, true};
ghost use mathlib.Core.List.{IsPrefix};
ghost use Rattle.quick_cache_history.specs.Histories.{calls_of, is_in, is_of, shards_in};
ghost use Rattle.quick_cache_history.specs.Laws.{AddsBehind, word_of};

use crate::entry::Entry;
use crate::law::{Add, Law, Look, Naming, Nothing, Take};
use crate::seat::Seat;
use crate::turn::Turn;
use logbook::{Offer, Pens, Seen, Word};
use std::marker::PhantomData;

/// The word of the shard of this number, and a beginning of the history in which there is one.
#[derive(Drop)]
pub(crate) struct Head<K, V, J: Naming> {
    pub(crate) number: u64,
    word: Word<Entry<K, V>, u64, Law<K, V>>,
    opened: Seen<Entry<K, V>, u64, Law<K, V>>,
    of: PhantomData<J>,
    ghost word_is: { word ≡ word_of J.book number },
    ghost book: { opened.book ≡ J.book },
    ghost names: { opened.names ≡ [] },
    ghost within: { number < shards_in opened.log },
}

impl<K, V, J: Naming> Head<K, V, J> {
    /// The next word of the row, which is the one of this number.
    pub(crate) fn new(
        number: u64,
        pens: &mut Pens,
        opened: Seen<Entry<K, V>, u64, Law<K, V>>,
    ) -> Self
        requires book { (pens.old.book ≡ J.book) × (opened.book ≡ J.book) }
        requires names { opened.names ≡ [] }
        requires within { number < shards_in opened.log }
        requires next { pens.old.next ≡ number }
        requires left { 0 < pens.old.left }
        ensures number { result.number ≡ number }
        ensures book { pens.new.book ≡ pens.old.book }
        ensures next { pens.new.next ≡ pens.old.next + 1 }
        ensures left { pens.new.left ≡ pens.old.left - 1 }
    {
        let mut pen = pens.take();
        Head {
            number,
            word: Word::tracked(0, &mut pen),
            opened,
            of: PhantomData,
        }
    }

    /// A seat that has seen how the history began, with a turn that was not used.
    pub(crate) fn seat(&self) -> Seat<K, V, J>
        ensures none { result.mine ≡ [] }
    {
        let mut seen = self.opened.again();
        let mut pen = seen.no_pen();
        let mut offer = seen.plain::<Nothing, (), Look>(&());
        let _ = self
            .word
            .compare_exchange::<Take, Nothing>(0, 0, &mut seen, &mut offer, &mut pen);
        let word = Word::tracked(0, &mut pen);
        Seat::new(seen, Turn::new(pen), word)
    }

    /// A turn, for the next call of a seat.
    pub(crate) fn turn(&self) -> Turn<J> {
        let Seat { turn, .. } = self.seat();
        turn
    }

    /// How many calls of the shard there are, which are then seen.
    pub(crate) fn calls(&self, seen: &mut Seen<Entry<K, V>, u64, Law<K, V>>) -> u64
        requires book { seen.old.book ≡ J.book }
        requires names { seen.old.names ≡ [] }
        requires within { self.now.number < shards_in seen.old.log }
        ensures count { result ≡ length (calls_of self.now.number seen.new.log) }
        ensures longer { IsPrefix seen.old.log seen.new.log }
        ensures book { seen.new.book ≡ J.book }
        ensures names { seen.new.names ≡ [] }
    {
        let mut offer = seen.plain::<Nothing, (), Look>(&());
        self.word.load::<Look, Nothing>(seen, &mut offer)
    }

    /// Adds a call of the shard behind all that there is, which is then seen. It adds none, and says
    /// so, where not so many calls of the shard came before.
    pub(crate) fn add(
        &self,
        calls: u64,
        seen: &mut Seen<Entry<K, V>, u64, Law<K, V>>,
        turn: Turn<J>,
        mut entry: Offer<Entry<K, V>, u64, Law<K, V>, Nothing>,
    ) -> bool
        requires book { seen.old.book ≡ J.book }
        requires names { (seen.old.names ≡ []) × (entry.names ≡ []) }
        requires within { self.now.number < shards_in seen.old.log }
        requires own { is_of self.now.number entry.ask ≡ true }
        requires turn { is_in turn entry.ask ≡ true }
        ensures adds { result ≡ true
            → AddsBehind self.now.number calls turn entry.ask seen.old.log seen.new.log }
        ensures few { result ≡ true → calls < 2 ^ 64 - 1 }
        ensures book { seen.new.book ≡ J.book }
        ensures names { seen.new.names ≡ [] }
    {
        if calls == u64::MAX {
            return false;
        }
        let mut pen = turn.into_pen();
        let found = self
            .word
            .compare_exchange::<Add, Nothing>(calls, calls + 1, seen, &mut entry, &mut pen);
        found == calls
    }
}
