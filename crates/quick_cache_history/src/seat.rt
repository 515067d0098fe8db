//! Seats: who makes calls, and what it has seen.
ghost use Rattle.std.specs.Prelude.{◌≡◌, ◌<◌, ◌-◌, ◌^◌, [], true};
ghost use mathlib.Core.List.{IsPrefix};
ghost use Rattle.quick_cache_history.specs.Histories.{calls_in, is_in, is_of, next_of, shards_in};
ghost use Rattle.quick_cache_history.specs.Laws.{AddsBehind};
ghost use Rattle.quick_cache_history.specs.Seats.{Extends};

use crate::entry::Entry;
use crate::head::Head;
use crate::law::{Law, Naming, Nothing};
use crate::turn::Turn;
use logbook::{Offer, Seen, Word};
use std::marker::Model;
use std::sync::Wait;

/// Who makes calls of a cache. Contracts see the beginning of the history that it has seen, and the
/// calls that it made.
#[derive(Drop)]
pub struct Seat<K, V, J: Naming> {
    pub(crate) seen: Seen<Entry<K, V>, u64, Law<K, V>>,
    // What it had seen at its last call.
    pub(crate) own: Seen<Entry<K, V>, u64, Law<K, V>>,
    pub(crate) turn: Turn<J>,
    // The word of its first turn.
    pub(crate) first: Word<Entry<K, V>, u64, Law<K, V>>,
}

impl<K, V, J: Naming> Model for Seat<K, V, J> {
    ghost use Rattle.std.specs.Prelude.{◌≡◌, [], List};
    ghost use Rattle.quick_cache_history.specs.Histories.{calls_from, turn_after};
    ghost use Rattle.quick_cache_history.specs.Seats.{Caller};
    ghost use mathlib.Core.List.{IsPrefix};

    ghost Value = { Caller K V };

    ghost view = { λ seat. record {
      first = seat.first.key;
      turn = seat.turn;
      seen = seat.seen.log;
      mine = calls_from seat.first.key seat.own.log;
    } };

    ghost invariant = { λ seat. (seat.seen.book ≡ J.book) × (seat.seen.names ≡ [])
        × IsPrefix seat.own.log seat.seen.log
        × (turn_after seat.first.key seat.own.log ≡ seat.turn) };
}

impl<K, V, J: Naming> Seat<K, V, J> {
    /// A seat that has seen this, with a turn that was not used.
    pub(crate) fn new(
        seen: Seen<Entry<K, V>, u64, Law<K, V>>,
        turn: Turn<J>,
        first: Word<Entry<K, V>, u64, Law<K, V>>,
    ) -> Self
        requires book { seen.book ≡ J.book }
        requires names { seen.names ≡ [] }
        requires first { first.key ≡ turn }
        requires unused { calls_in turn seen.log ≡ [] }
        ensures seen { result.seen ≡ seen.log }
        ensures none { result.mine ≡ [] }
    {
        Seat {
            own: seen.again(),
            seen,
            turn,
            first,
        }
    }

    /// Makes this call of the shard of the word in its turn, behind all that was seen by it and here,
    /// and has the next turn then.
    pub(crate) fn add<R: Wait>(
        &mut self,
        rt: &R,
        head: &Head<K, V, J>,
        calls: u64,
        past: &Seen<Entry<K, V>, u64, Law<K, V>>,
        next: Turn<J>,
        entry: Offer<Entry<K, V>, u64, Law<K, V>, Nothing>,
    )
        requires book { past.now.book ≡ J.book }
        requires names { entry.names ≡ [] }
        requires within { head.now.number < shards_in past.now.log }
        requires own { is_of head.now.number entry.ask ≡ true }
        requires turn { is_in self.old.turn entry.ask ≡ true }
        requires next { next_of entry.ask ≡ next }
        ensures extends { Extends self.old entry.ask self.new }
        ensures turn { self.new.turn ≡ next }
        ensures behind { AddsBehind head.now.number calls self.old.turn entry.ask past.now.log
            self.new.seen }
        ensures few { calls < 2 ^ 64 - 1 }
    {
        let mut seen = self.seen.again();
        seen.learn(past);
        let turn = std::mem::replace(&mut self.turn, next);
        if head.add(calls, &mut seen, turn, entry) {
            self.own = seen.again();
            self.seen = seen;
            return;
        }
        // No clause says that who holds the lock alone adds calls of its shard.
        for _ in rt.forever() {}
        unreachable!()
    }

    /// Afterwards it has seen what both had seen.
    pub fn learn(&mut self, other: &Self)
        ensures own { IsPrefix self.old.seen self.new.seen }
        ensures others { IsPrefix other.now.seen self.new.seen }
        ensures same { self.new ≡ record self.old { seen = self.new.seen } }
    {
        self.seen.learn(&other.seen);
    }
}
