//! What a shard behind its lock knows of the history.
ghost use Rattle.std.specs.Prelude.{◌≡◌, ◌<◌, ◌++◌, ◌∷◌, [], true};
ghost use mathlib.Core.List.{IsPrefix};
ghost use Rattle.quick_cache_history.specs.declared.entry.Entry.{Entry};
ghost use Rattle.quick_cache_history.specs.Histories.{calls_of, first_in, is_in, is_of, next_of, shards_in};
ghost use Rattle.quick_cache_history.specs.Seats.{Extends};

use crate::entry::Entry;
use crate::head::Head;
use crate::law::{Law, Made, Naming, Nothing, Told};
use crate::seat::Seat;
use crate::turn::Turn;
use logbook::{Offer, Seen};
use std::marker::{Model, PhantomData};
use std::sync::Wait;

/// A beginning of the history in which all calls of a shard are.
#[derive(Drop)]
pub(crate) struct Past<K, V, J: Naming> {
    shard: u64,
    calls: u64,
    seen: Seen<Entry<K, V>, u64, Law<K, V>>,
    of: PhantomData<J>,
}

impl<K, V, J: Naming> Model for Past<K, V, J> {
    ghost use Rattle.std.specs.Prelude.{◌≡◌, ◌<◌, [], length};
    ghost use Rattle.quick_cache_history.specs.Histories.{calls_of, shards_in};
    ghost use Rattle.quick_cache_history.specs.Pasts.{Known};

    ghost Value = { Known K V };

    ghost view = { λ past. record { shard = past.shard; log = past.seen.log } };

    ghost invariant = { λ past. (past.calls ≡ length (calls_of past.shard past.seen.log))
        × (past.shard < shards_in past.seen.log) × (past.seen.book ≡ J.book)
        × (past.seen.names ≡ []) };
}

impl<K, V, J: Naming> Past<K, V, J> {
    /// What a shard knows that had no call.
    pub(crate) fn new(shard: u64, seen: Seen<Entry<K, V>, u64, Law<K, V>>) -> Self
        requires book { seen.book ≡ J.book }
        requires names { seen.names ≡ [] }
        requires some { shard < shards_in seen.log }
        requires none { calls_of shard seen.log ≡ [] }
        ensures { result ≡ record { shard = shard; log = seen.log } }
    {
        Past {
            shard,
            calls: 0,
            seen,
            of: PhantomData,
        }
    }

    /// A call of this shard that was made, as an entry.
    pub(crate) fn made<X, M: Made<X, K, V>>(
        &self,
        turn: &Turn<J>,
        next: &Turn<J>,
        about: &X,
    ) -> Offer<Entry<K, V>, u64, Law<K, V>, Nothing>
        ensures asks { result.ask ≡ Entry.Made turn.now next.now self.now.shard (M.call about.now)
            (M.reply about.now) }
        ensures names { result.names ≡ [] }
    {
        self.seen
            .plain::<Nothing, (&Turn<J>, &Turn<J>, u64, &X), Told<M>>(&(
                turn, next, self.shard, about,
            ))
    }

    /// Waits for good where the word is not that of this shard: no clause says which lock has a past.
    pub(crate) fn meet<R: Wait>(&self, rt: &R, head: &Head<K, V, J>)
        ensures number { head.now.number ≡ self.now.shard }
    {
        if head.number == self.shard {
            return;
        }
        for _ in rt.forever() {}
        unreachable!()
    }

    /// Adds a call of this shard at the end of the history, which the seat has seen then.
    pub(crate) fn add<R: Wait>(
        &mut self,
        rt: &R,
        head: &Head<K, V, J>,
        seat: &mut Seat<K, V, J>,
        next: Turn<J>,
        entry: Offer<Entry<K, V>, u64, Law<K, V>, Nothing>,
    )
        requires number { head.now.number ≡ self.old.shard }
        requires own { is_of self.old.shard entry.ask ≡ true }
        requires turn { is_in seat.old.turn entry.ask ≡ true }
        requires next { next_of entry.ask ≡ next }
        requires names { entry.names ≡ [] }
        ensures extends { Extends seat.old entry.ask seat.new }
        // The call is the only one of the shard since.
        ensures one_more { calls_of self.old.shard seat.new.seen
            ≡ calls_of self.old.shard self.old.log ++ entry.ask ∷ [] }
        ensures first { first_in seat.new.seen ≡ first_in self.old.log }
        ensures turn { seat.new.turn ≡ next }
        ensures knows { self.new ≡ record self.old { log = seat.new.seen } }
    {
        seat.add(rt, head, self.calls, &self.seen, next, entry);
        self.seen = seat.seen.again();
        self.calls += 1;
    }

    /// Shows the seat all that it had seen and the calls of this shard.
    pub(crate) fn show<R: Wait>(&self, rt: &R, head: &Head<K, V, J>, seat: &mut Seat<K, V, J>)
        requires number { head.now.number ≡ self.now.shard }
        ensures longer { IsPrefix seat.old.seen seat.new.seen }
        ensures same { calls_of self.now.shard seat.new.seen ≡ calls_of self.now.shard self.now.log }
        ensures first { first_in seat.new.seen ≡ first_in self.now.log }
        ensures seat { seat.new ≡ record seat.old { seen = seat.new.seen } }
    {
        let mut seen = seat.seen.again();
        seen.learn(&self.seen);
        // No clause says that no other step counts here.
        if head.calls(&mut seen) == self.calls {
            seat.seen = seen;
            return;
        }
        for _ in rt.forever() {}
        unreachable!()
    }
}
