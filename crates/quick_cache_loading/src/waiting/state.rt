//! The state of a placeholder, as its lock keeps it.
ghost use Rattle.std.specs.Prelude.{◌≡◌, ◌≢◌, ◌==◌, true, false, not, length, Some, None, [], IfSome, is_some};
ghost use Rattle.quick_cache_loading.specs.Core.{new_core, is_filled, is_sound, waiters_of, waits};
ghost use Rattle.quick_cache_loading.specs.LettingGo.{HandsOn, LetsGo};
ghost use Rattle.quick_cache_loading.specs.Tasks.{slots_of_others};
ghost use Rattle.quick_cache_loading.specs.Waiters.{KeepsKeyAndNext, ends_life};

mod events;
mod visits;

use crate::protocol::{Answer, Core, Event, abandon, cancel};
use crate::waiting::{Ended, Place, Share, Tasks, Unroused};
use quick_cache_model::Lifecycle;
use std::alloc::{Allocator, Global};
use std::marker::{Model, PhantomData};

/// The state of a placeholder. It holds the share exactly where no guard is held, and the value that
/// it is filled with fits its key. Who waits has a slot for its waker, and a number that nobody had.
/// Contracts see its ticket, its own copy of the key, its core, the slots, and the next number.
pub struct State<K: Eq + Drop, V: Drop, L: Lifecycle<K, V>, A: Allocator = Global> {
    ticket: u64,
    key: K,
    core: Core<V, A>,
    share: Option<Share>,
    tasks: Tasks<A>,
    // The number for the next one who comes to wait.
    next: u64,
    of: PhantomData<L>,
}

impl<K: Eq + Drop, V: Drop, L: Lifecycle<K, V>, A: Allocator> Model for State<K, V, L, A> {
    ghost use Rattle.std.specs.Prelude.{◌≡◌, ◌≢◌, ◌⊎◌, ◌==◌, true, MatchOption, MatchResult, is_some, IfSome};
    ghost use Rattle.quick_cache_loading.specs.Core.{held_count};
    ghost use Rattle.quick_cache_loading.specs.Fitting.{FilledFits};
    ghost use Rattle.quick_cache_loading.specs.Waiters.{HaveSlots, WaitingState};

    ghost Value = { WaitingState K V };

    ghost view = { λ s. record { ticket = s.ticket; key = s.key; core = s.core; tasks = s.tasks; next = s.next } };

    ghost invariant = { λ s. (is_some s.share ≡ (held_count s.core == 0))
        × IfSome s.share (λ share. share ≡ s.ticket) × FilledFits L.fits s.key s.core.life
        × HaveSlots s.tasks s.next s.core.life };
}

impl<K: Eq + Drop, V: Drop, L: Lifecycle<K, V>, A: Allocator> Drop for State<K, V, L, A> {
    fn drop(self) {
        let State {
            ticket: _,
            key: _key,
            core: _core,
            share,
            tasks: _tasks,
            next: _,
            of: _,
        } = self;
        if let Some(share) = share {
            share.end();
        }
    }
}

/// Puts the share into its place, which is empty.
fn keep(place: &mut Option<Share>, share: Share)
    ensures { place.new ≡ Some share }
{
    if let Some(other) = std::mem::replace(place, Some(share)) {
        other.end();
    }
}

/// What tells the shard that a life ended, exactly where it did.
fn ended_by<V>(ticket: u64, answer: &Answer<V>) -> Option<Ended>
    ensures ends { is_some result ≡ ends_life answer.now }
    ensures ended { IfSome result (λ ended. ended.ticket ≡ ticket) }
{
    match answer {
        Answer::GivenUp => Some(Ended::new(ticket)),
        _ => None,
    }
}

impl<K: Eq + Drop, V: Drop, L: Lifecycle<K, V>, A: Allocator> State<K, V, L, A> {
    /// A state whose life has not begun, with the one share of its ticket. It allocates nothing.
    pub fn new(alloc: A, tasks: A, ticket: u64, key: K) -> Self
        ensures { result ≡ record { ticket = ticket; key = key; core = new_core; tasks = []; next = 0 } }
    {
        State {
            ticket,
            key,
            core: Core::new(alloc),
            share: Some(Share::new(ticket)),
            tasks: Tasks::new(tasks),
            next: 0,
            of: PhantomData,
        }
    }

    /// The ticket of its placeholder.
    pub fn ticket(&self) -> u64
        ensures { result ≡ self.now.ticket }
    {
        self.ticket
    }

    /// Its own copy of the key.
    pub fn key(&self) -> &K
        ensures { result.now ≡ self.now.key }
    {
        &self.key
    }

    /// Brings up what holds of each core.
    fn is_sound(&self)
        ensures { is_sound self.now.core.life ≡ true }
    {
        self.core.is_held();
    }

    /// Hands the guard of a share on where anyone waits. Else the share comes back. A share of
    /// another placeholder ends.
    pub fn hand_on(&mut self, share: Share) -> Result<Unroused<()>, Share>
        ensures event { HandsOn share self.old self.new result }
        ensures same { KeepsKeyAndNext self.old self.new }
    {
        if !self.has_waiters() {
            return Err(share);
        }
        match self.abandon(share).open() {
            None => Ok(Unroused::new(())),
            Some(_ended) => unreachable!(),
        }
    }

    /// Whether the value has come.
    pub fn is_filled(&self) -> bool
        ensures { result ≡ is_filled self.now.core.life }
    {
        self.core.is_filled()
    }

    /// Whether anyone waits.
    pub fn has_waiters(&self) -> bool
        ensures { result ≡ not (length (waiters_of self.now.core.life) == 0) }
    {
        self.core.has_waiters()
    }

    /// Gives the guard of a share up, which takes the share back. Where no guard is held the share
    /// ends. So does a share of another placeholder, and nothing changes.
    pub fn abandon(&mut self, share: Share) -> Unroused<Option<Ended>>
        // What tells the shard comes exactly where the life was given up.
        ensures event { share ≡ self.old.ticket → LetsGo Event.Abandon (is_some result)
            self.old.core self.old.tasks self.new.core self.new.tasks }
        ensures other { share ≢ self.old.ticket → (self.new ≡ self.old) × (result ≡ None) }
        ensures ended { IfSome result
            (λ ended. (ended.ticket ≡ share) × (share ≡ self.old.ticket)) }
        ensures same { KeepsKeyAndNext self.old self.new }
    {
        if share.ticket() != self.ticket {
            share.end();
            return Unroused::new(None);
        }
        self.is_sound();
        let answer = abandon(&mut self.core);
        self.tasks.wake_handed(&answer);
        let ended = ended_by(self.ticket, &answer);
        match answer {
            Answer::NotNow => share.end(),
            _ => keep(&mut self.share, share),
        }
        Unroused::new(ended)
    }

    /// Withdraws a waiter, whose task is woken. A guard that was on its way to it is handed on, or
    /// given up. A place at another placeholder ends, and nothing changes.
    pub fn cancel(&mut self, place: Place) -> Unroused<Option<Ended>>
        // Its slot is gone. What tells the shard comes exactly where the life was given up.
        ensures event { place.ticket ≡ self.old.ticket
            → LetsGo (Event.Cancel place.number) (is_some result) self.old.core
            (slots_of_others place.number self.old.tasks) self.new.core self.new.tasks }
        ensures other { place.ticket ≢ self.old.ticket
            → (self.new ≡ self.old) × (result ≡ None) }
        ensures ended { IfSome result
            (λ ended. (ended.ticket ≡ place.ticket) × (place.ticket ≡ self.old.ticket)) }
        // It waits no more.
        ensures withdrawn { place.ticket ≡ self.old.ticket
            → waits place.number self.new.core ≡ false }
        ensures same { KeepsKeyAndNext self.old self.new }
    {
        if place.ticket() != self.ticket {
            place.end();
            return Unroused::new(None);
        }
        self.is_sound();
        let waiter = place.end();
        self.tasks.wake(waiter);
        let answer = cancel(&mut self.core, waiter);
        self.tasks.wake_handed(&answer);
        Unroused::new(ended_by(self.ticket, &answer))
    }
}
