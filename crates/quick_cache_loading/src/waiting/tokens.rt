//! What a state gives and takes back, once each. None of it has a clone, and only a state makes it.
ghost use Rattle.std.specs.Prelude.{◌≡◌, IfErr, OnOk, OnErr};

use crate::sharing::{LoadingShard, SharedPlaceholder};
use quick_cache_model::Lifecycle;
use std::alloc::Allocator;
use std::hash::Hash;
use std::marker::Model;
use std::sync::Condvar;

/// The place of one who waits at the placeholder of this ticket, by its number there. It has no
/// drop: a state gives it when one joins, and takes it back when it waits no more.
pub struct Place {
    ticket: u64,
    number: u64,
}

impl Place {
    pub(super) fn new(ticket: u64, number: u64) -> Self
        ensures { result ≡ record { ticket = ticket; number = number } }
    {
        Place { ticket, number }
    }

    /// The ticket of the placeholder.
    pub fn ticket(&self) -> u64
        ensures { result ≡ self.now.ticket }
    {
        self.ticket
    }

    /// Who has it waits no more. The answer is its number.
    pub(super) fn end(self) -> u64
        ensures { result ≡ self.number }
    {
        let Place { ticket: _, number } = self;
        number
    }

    /// The number there.
    pub fn number(&self) -> u64
        ensures { result ≡ self.now.number }
    {
        self.number
    }
}

/// The right to fill a placeholder or to give it up. Contracts see it as the ticket of its placeholder.
pub struct Share {
    ticket: u64,
}

impl Model for Share {
    ghost use Rattle.std.specs.Prelude.{ℕ};

    ghost Value = { ℕ };

    ghost view = { λ share. share.ticket };
}

impl Share {
    /// The one share of the placeholder of this ticket.
    pub(super) fn new(ticket: u64) -> Self
        ensures { result ≡ ticket }
    {
        Share { ticket }
    }

    /// The ticket of its placeholder.
    pub fn ticket(&self) -> u64
        ensures { result ≡ self.now }
    {
        self.ticket
    }

    /// Lets go of a share that is of no use.
    pub(super) fn end(self) {
        let Share { ticket: _ } = self;
    }
}

/// The life of the placeholder of this ticket was given up, so it has to leave its shard. It has no
/// drop: only a shard takes it.
pub struct Ended {
    ticket: u64,
}

impl Ended {
    pub(super) fn new(ticket: u64) -> Self
        ensures { result.ticket ≡ ticket }
    {
        Ended { ticket }
    }

    /// Takes the placeholder out of its shard, if it is there.
    pub fn settle<
        K: Eq + Hash + Drop,
        V: Clone,
        L: Lifecycle<K, V>,
        A: Allocator,
        S: LoadingShard<K, V, L, A>,
    >(self, locked: &mut S, placeholder: &SharedPlaceholder<K, V, L, A>)
        requires ended { self.ticket ≡ placeholder.now.ticket }
        ensures gives_up { S.gives_up self.ticket locked.old locked.new }
    {
        locked.give_up_load(placeholder, &self);
        let Ended { ticket: _ } = self;
    }
}

/// The placeholder of this ticket was filled, so its value has to be put into its shard. It has no
/// drop: only a shard takes it.
pub struct Filled {
    ticket: u64,
    waited: bool,
}

impl Filled {
    pub(super) fn new(ticket: u64, waited: bool) -> Self
        ensures { result ≡ record { ticket = ticket; waited = waited } }
    {
        Filled { ticket, waited }
    }

    /// Whether anyone waited for it.
    pub fn waited(&self) -> bool
        ensures { result ≡ self.now.waited }
    {
        self.waited
    }

    /// Puts the value into the shard, as `end_load` does.
    pub fn settle<
        K: Eq + Hash + Drop,
        V: Clone,
        L: Lifecycle<K, V>,
        A: Allocator,
        S: LoadingShard<K, V, L, A>,
    >(
        self,
        locked: &mut S,
        placeholder: &SharedPlaceholder<K, V, L, A>,
        key: &K,
        value: V,
        state: &mut L::RequestState,
    ) -> Result<(), V>
        requires fits { L.fits key.now value }
        requires filled { self.ticket ≡ placeholder.now.ticket }
        ensures back { IfErr result (λ back. back ≡ value) }
        ensures lacks { OnErr result (S.lacks self.ticket key.now locked.old) }
        ensures unchanged { OnErr result (state.new ≡ state.old) }
        ensures told { OnOk result
            (S.fills self.ticket self.waited key.now value state.old state.new) }
    {
        let put = locked.end_load(placeholder, &self, key, value, state);
        let Filled {
            ticket: _,
            waited: _,
        } = self;
        put
    }
}

/// What a state gives once it may have changed for those who wait. It has no drop: only `rouse` takes
/// it apart, which wakes the threads that sleep. Contracts see what it holds.
pub struct Unroused<T> {
    inner: T,
}

impl<T> Model for Unroused<T> {
    ghost Value = { T };

    ghost view = { λ unroused. unroused.inner };
}

impl<T> Unroused<T> {
    pub(super) fn new(inner: T) -> Self
        ensures { result ≡ inner }
    {
        Unroused { inner }
    }

    /// What it holds, for another call of the state, which gives it on.
    pub(super) fn open(self) -> T
        ensures { result ≡ self }
    {
        let Unroused { inner } = self;
        inner
    }

    /// Wakes all threads that sleep there, and gives what it holds.
    pub fn rouse(self, ready: &Condvar) -> T
        ensures { result ≡ self }
    {
        ready.notify_all();
        self.open()
    }
}
