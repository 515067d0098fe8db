//! Those who come to a placeholder and look at it again: what each of them is told.
ghost use Rattle.std.specs.Prelude.{◌≡◌, ◌≢◌, ◌⊎◌, ◌==◌, ◌+◌, ◌≤◌, ℕ, true, false, Some, is_some, IfSome, IfOk, IfErr, IsOk, IsErr, OnOk, OnErr};
ghost use Rattle.futures.specs.Task.{Covers, Keeps};
ghost use Rattle.quick_cache_loading.specs.LoadingLaws.{given_by};
ghost use Rattle.quick_cache_loading.specs.Fitting.{FitsIfClonesDo, ShowsFitting};
ghost use Rattle.quick_cache_loading.specs.Tasks.{HasWaker, has_slot, slots_after_poll, slots_of_others};
ghost use Rattle.quick_cache_loading.specs.Waiters.{IsTold, IsWanted, KeepsKey, KeepsKeyAndNext, Polls, Tells, by_number, has_ended, has_joined, is_refused, is_timed_out, is_timeout, poll_event};
ghost use Rattle.quick_cache_loading.specs.Waiters.{told_or_none, waits_on};
ghost use Rattle.quick_cache_loading.specs.Joining.{BeginsOrJoins, PollsAtOnce, TellsJoiner};

use crate::protocol::{Answer, Event};
use crate::waiting::{Place, Share, State, Waited, Wants};
use futures::task::{Context, Poll, Source};
use quick_cache_model::{Equivalent, Lifecycle, Refusal};
use std::alloc::Allocator;
use std::hash::Hash;

impl<K: Eq + Hash + Drop, V: Clone, L: Lifecycle<K, V>, A: Allocator> State<K, V, L, A> {
    /// Whether the query stands for its key.
    pub fn is_for<Q: Equivalent<K>>(&self, query: &Q) -> bool
        ensures { result ≡ Q.equivalent query.now self.now.key }
    {
        query.equivalent(&self.key)
    }

    /// Whether the load has ended for one who wants this: the value has come, and it wants none.
    pub fn has_ended(&self, wants: Wants) -> bool
        ensures { result ≡ has_ended wants self.now.core.life }
    {
        match wants {
            Wants::Value => false,
            Wants::End => self.is_filled(),
        }
    }

    /// A waiter looks whether the guard or the value has come, for the last time where its time is
    /// over. One who goes on waiting keeps its place. A place at another placeholder ends, and who
    /// has it looks in the shard again; so does one who wants no value, once that has come.
    pub fn poll<Q: Equivalent<K>>(
        &mut self,
        place: Place,
        query: &Q,
        wants: Wants,
        is_over: bool,
    ) -> Result<Waited<V>, Place>
        ensures looks { place.ticket ≡ self.old.ticket → has_ended wants self.old.core.life ≡ false
            → Polls V.is_clone (Q.equivalent query.now self.old.key) self.old.core (poll_event place.number is_over)
            (told_or_none result) self.new.core }
        ensures ended { place.ticket ≡ self.old.ticket → has_ended wants self.old.core.life ≡ true
            → (result ≡ Ok Waited.Again) × (self.new ≡ self.old) }
        ensures elsewhere { place.ticket ≢ self.old.ticket
            → (result ≡ Ok Waited.Again) × (self.new ≡ self.old) }
        ensures place { IfErr result (λ kept. kept ≡ place) }
        ensures over { is_over ≡ true → IsOk result }
        ensures timely { is_over ≡ false → IfOk result (λ told. is_timeout told ≡ false) }
        ensures told { IfOk result (IsTold place.ticket (IsWanted wants
            (FitsIfClonesDo L.fits V.is_clone (Q.equivalent query.now)))) }
        // One who wants no value asks for no memory, and is not refused.
        ensures refused { wants ≡ Wants.End → IfOk result (λ told. is_refused told ≡ false) }
        ensures waits { OnErr result (has_slot place.number self.new.tasks ≡ true) }
        ensures woken { place.ticket ≡ self.old.ticket → has_ended wants self.old.core.life ≡ false
            → self.new.tasks ≡ slots_after_poll is_over place.number self.old.tasks }
        ensures same { KeepsKeyAndNext self.old self.new }
    {
        if place.ticket() != self.ticket || self.has_ended(wants) {
            place.end();
            return Ok(Waited::Again);
        }
        if is_over {
            return Ok(self.poll_last(place, query));
        }
        match self.take(place) {
            Ok((answer, share)) => Ok(self.told(query, answer, share)),
            Err(place) => Err(place),
        }
    }

    /// A waiter looks for the last time.
    fn poll_last<Q: Equivalent<K>>(&mut self, place: Place, query: &Q) -> Waited<V>
        requires place { place.ticket ≡ self.old.ticket }
        ensures looks { Polls V.is_clone (Q.equivalent query.now self.old.key) self.old.core (Event.TimeOut place.number) (Some result)
            self.new.core }
        ensures told { IsTold self.old.ticket
            (FitsIfClonesDo L.fits V.is_clone (Q.equivalent query.now)) result }
        ensures woken { self.new.tasks ≡ slots_of_others place.number self.old.tasks }
        ensures same { KeepsKeyAndNext self.old self.new }
    {
        let (answer, share) = self.time_out(place);
        self.told(query, answer, share)
    }

    /// What one who waits no more is told of the core's answer, and of the share that came with it.
    fn told<Q: Equivalent<K>>(
        &self,
        query: &Q,
        answer: Answer<V>,
        share: Option<Share>,
    ) -> Waited<V>
        requires gives { is_some share ≡ (given_by answer == 1) }
        requires ends { waits_on answer ≡ false }
        requires share { IfSome share (λ share. share ≡ self.now.ticket) }
        requires fits { ShowsFitting L.fits V.is_clone self.now.key answer }
        ensures tells { Tells (Q.equivalent query.now self.now.key) answer (Some result) }
        ensures timely { is_timed_out answer ≡ false → is_timeout result ≡ false }
        ensures told { IsTold self.now.ticket
            (FitsIfClonesDo L.fits V.is_clone (Q.equivalent query.now)) result }
    {
        if let Some(share) = share {
            return Waited::Guard(share);
        }
        match answer {
            Answer::Value(value) => {
                if self.is_for(query) {
                    Waited::Value(value)
                } else {
                    Waited::Again
                }
            }
            Answer::TimedOut => Waited::Timeout,
            Answer::Refused(_) => Waited::Refused(Refusal::Memory),
            Answer::Waiting => unreachable!(),
            Answer::Created => unreachable!(),
            Answer::Guard => unreachable!(),
            _ => Waited::Again,
        }
    }

    /// As `poll`, for a task, which leaves its waker where it goes on waiting.
    pub fn poll_as_task<Q: Equivalent<K>>(
        &mut self,
        place: Place,
        query: &Q,
        wants: Wants,
        source: &Source,
        cx: &mut Context<'_>,
    ) -> Result<Waited<V>, Place>
        ensures looks { place.ticket ≡ self.old.ticket → has_ended wants self.old.core.life ≡ false
            → Polls V.is_clone (Q.equivalent query.now self.old.key) self.old.core (Event.Take place.number)
            (told_or_none result) self.new.core }
        ensures ended { place.ticket ≡ self.old.ticket → has_ended wants self.old.core.life ≡ true
            → (result ≡ Ok Waited.Again) × (self.new ≡ self.old) }
        ensures elsewhere { place.ticket ≢ self.old.ticket
            → (result ≡ Ok Waited.Again) × (self.new ≡ self.old) }
        ensures place { IfErr result (λ kept. kept ≡ place) }
        ensures timely { IfOk result (λ told. is_timeout told ≡ false) }
        ensures told { IfOk result (IsTold place.ticket (IsWanted wants
            (FitsIfClonesDo L.fits V.is_clone (Q.equivalent query.now)))) }
        ensures refused { wants ≡ Wants.End → IfOk result (λ told. is_refused told ≡ false) }
        ensures same { KeepsKeyAndNext self.old self.new }
        ensures registered { OnErr result (Covers cx.new (λ s. s ≡ source.now.id)) }
        ensures kept { Keeps cx.old cx.new }
        // A pending poll has left its waker in its slot, unless none could be made.
        ensures waits { OnErr result (has_slot place.number self.new.tasks ≡ true) }
        ensures waker { OnErr result ((cx.new.lacks_waker ≡ true)
            ⊎ HasWaker place.number cx.old self.new.tasks) }
    {
        let looked = self.poll(place, query, wants, false);
        if let Err(place) = &looked {
            let _: Poll<()> = self.tasks.wait(place.number(), source, cx);
        }
        looked
    }

    /// One comes to load the value or to wait for it. It gets the share of a life that begins, or
    /// the value; or it gets its place among those who wait. One whose time is over never waits.
    pub fn join<Q: Equivalent<K>>(&mut self, query: &Q, is_over: bool) -> Result<Place, Waited<V>>
        ensures enters { BeginsOrJoins V.is_clone (Q.equivalent query.now self.old.key) self.old.next is_over
            self.old.core (by_number result) self.new.core }
        // Its number is one that nobody had.
        ensures place { IfOk result
            (λ place. place ≡ record { ticket = self.old.ticket; number = self.old.next }) }
        ensures next { OnOk result (self.new.next ≡ self.old.next + 1) }
        ensures grows { self.old.next ≤ self.new.next }
        ensures over { is_over ≡ true → IsErr result }
        ensures timely { is_over ≡ false → IfErr result (λ told. is_timeout told ≡ false) }
        ensures told { IfErr result (IsTold self.old.ticket
            (FitsIfClonesDo L.fits V.is_clone (Q.equivalent query.now))) }
        ensures same { KeepsKey self.old self.new }
    {
        if let Some(share) = self.create() {
            return Err(Waited::Guard(share));
        }
        if is_over {
            return Err(self.poll_at_once(query));
        }
        if self.next == u64::MAX {
            return Err(Waited::Refused(Refusal::TicketsSpent));
        }
        let (answer, place) = self.add_waiter();
        self.told_joiner(place, query, answer)
    }

    /// One who comes when its time is over looks once, by a number that it does not keep.
    fn poll_at_once<Q: Equivalent<K>>(&mut self, query: &Q) -> Waited<V>
        ensures looks { PollsAtOnce V.is_clone (Q.equivalent query.now self.old.key) self.old.core
            self.old.next result self.new.core }
        ensures told { IsTold self.old.ticket
            (FitsIfClonesDo L.fits V.is_clone (Q.equivalent query.now)) result }
        ensures same { KeepsKeyAndNext self.old self.new }
    {
        match self.poll_last(Place::new(self.ticket, self.next), query) {
            Waited::Again => Waited::Timeout,
            told => told,
        }
    }

    /// What one who came to wait is told of the core's answer.
    fn told_joiner<Q: Equivalent<K>>(
        &self,
        place: Option<Place>,
        query: &Q,
        answer: Answer<V>,
    ) -> Result<Place, Waited<V>>
        requires gives { is_some place ≡ has_joined answer }
        requires fits { ShowsFitting L.fits V.is_clone self.now.key answer }
        ensures tells { (n : ℕ) → IfSome place (λ place. place.number ≡ n)
            → TellsJoiner (Q.equivalent query.now self.now.key) n answer (by_number result) }
        ensures place { IfOk result (λ own. place ≡ Some own) }
        ensures timely { IfErr result (λ told. is_timeout told ≡ false) }
        ensures told { IfErr result (IsTold self.now.ticket
            (FitsIfClonesDo L.fits V.is_clone (Q.equivalent query.now))) }
    {
        if let Some(place) = place {
            return Ok(place);
        }
        match answer {
            Answer::Value(value) => {
                if self.is_for(query) {
                    Err(Waited::Value(value))
                } else {
                    Err(Waited::Again)
                }
            }
            Answer::Refused(_) => Err(Waited::Refused(Refusal::Memory)),
            Answer::Joined => unreachable!(),
            _ => Err(Waited::Again),
        }
    }
}
