//! The core of a placeholder: how far its life has come, and what each event does to it.
ghost use Rattle.std.specs.Prelude.{◌≡◌, ◌⊎◌, ◌==◌, ℕ, [], ◌∷◌, ◌++◌, true, not, length};
ghost use Rattle.quick_cache_loading.specs.Core.{new_core, is_filled, is_handed_to, is_loading, is_sound, waiters_of, held_count};
ghost use Rattle.quick_cache_loading.specs.Waiting.{has, without_waiter};
ghost use Rattle.quick_cache_loading.specs.LoadingStep.{Creates, Joins, Fills, Abandons, Takes, TimesOut, Cancels, Leaves, PassesOn};

use crate::protocol::events::Answer;
use quick_cache_model::Refusal;
use std::alloc::{Allocator, Global};
use std::marker::Model;

/// Where the guard of a loading life is.
#[derive(Debug, Clone, Copy, PartialEq, Eq)]
pub enum Holder {
    /// It is held.
    Held,
    /// It is on its way to the waiter of this number.
    HandedTo(u64),
}

impl Holder {
    fn is_handed_to(&self, waiter: u64) -> bool
        ensures { result ≡ is_handed_to self.now waiter }
    {
        match *self {
            Holder::Held => false,
            Holder::HandedTo(other) => other == waiter,
        }
    }
}

/// How far a life has come.
#[derive(Drop)]
enum Stage<V> {
    Loading(Holder),
    Filled(V),
    GivenUp,
}

/// The life of a placeholder, and whether the placeholder is in the shard.
///
/// While a value is loading it has one guard, and the numbers of those who wait besides.
#[derive(Drop)]
pub struct Core<V, A: Allocator = Global> {
    stage: Stage<V>,
    // In the order in which they came.
    waiters: Vec<u64, A>,
    in_shard: bool,
}

impl<V, A: Allocator> Model for Core<V, A> {
    ghost use Rattle.std.specs.Prelude.{◌≡◌, true};
    ghost use Rattle.quick_cache_loading.specs.Core.{CoreState, core_state, is_sound};
    ghost use Rattle.quick_cache_loading.specs.Stage.{life_of};

    ghost Value = { CoreState V };

    ghost view = { λ core. core_state (life_of core.stage core.waiters.items) core.in_shard };

    ghost invariant = { λ core. is_sound (life_of core.stage core.waiters.items) ≡ true };
}

impl<V, A: Allocator> Core<V, A> {
    /// A life that is given up, outside the shard. It allocates nothing.
    pub fn new(alloc: A) -> Self
        ensures { result ≡ new_core }
    {
        Core {
            stage: Stage::GivenUp,
            waiters: Vec::new(alloc),
            in_shard: false,
        }
    }

    /// Whether the guard is held, so that it can be filled or abandoned.
    pub fn is_held(&self) -> bool
        ensures value { result ≡ (held_count self.now == 1) }
        // Those who wait are distinct, and the one to whom the guard was handed is not among them.
        ensures sound { is_sound self.now.life ≡ true }
    {
        matches!(self.stage, Stage::Loading(Holder::Held))
    }

    /// Whether it is filled.
    pub fn is_filled(&self) -> bool
        ensures { result ≡ is_filled self.now.life }
    {
        matches!(self.stage, Stage::Filled(_))
    }

    /// Whether anyone waits, so that an abandoned guard would be handed on.
    pub fn has_waiters(&self) -> bool
        ensures { result ≡ not (length (waiters_of self.now.life) == 0) }
    {
        matches!(self.stage, Stage::Loading(_)) && !self.waiters.is_empty()
    }
}

impl<V: Drop, A: Allocator> Core<V, A> {
    pub(crate) fn create(&mut self) -> Answer<V>
        ensures { Creates self.old.life self.old result self.new }
    {
        match self.stage {
            Stage::GivenUp => {
                self.stage = Stage::Loading(Holder::Held);
                self.waiters.clear();
                self.in_shard = true;
                Answer::Created
            }
            _ => Answer::NotNow,
        }
    }

    pub(crate) fn fill(&mut self, value: V) -> Answer<V>
        ensures { Fills self.old.life value self.old result self.new }
    {
        match self.stage {
            Stage::Loading(Holder::Held) => {
                self.stage = Stage::Filled(value);
                Answer::Done
            }
            _ => Answer::NotNow,
        }
    }

    pub(crate) fn abandon(&mut self) -> Answer<V>
        ensures { Abandons self.old.life self.old result self.new }
    {
        match self.stage {
            Stage::Loading(Holder::Held) => self.pass_on(),
            _ => Answer::NotNow,
        }
    }

    pub(crate) fn cancel(&mut self, waiter: u64) -> Answer<V>
        ensures { Cancels self.old.life waiter self.old result self.new }
    {
        match &self.stage {
            Stage::Loading(holder) => {
                if holder.is_handed_to(waiter) {
                    return self.pass_on();
                }
                if !has(&self.waiters, waiter) {
                    return Answer::NotNow;
                }
                remove(&mut self.waiters, waiter);
                Answer::Done
            }
            Stage::Filled(_) => Answer::Done,
            Stage::GivenUp => Answer::NotNow,
        }
    }

    pub(crate) fn leave(&mut self) -> Answer<V>
        ensures { Leaves self.old result self.new }
    {
        if !self.in_shard {
            return Answer::NotNow;
        }
        self.in_shard = false;
        Answer::Done
    }

    /// Hands the guard to the waiter that was added last. With none the life is given up.
    fn pass_on(&mut self) -> Answer<V>
        requires { is_loading self.old.life ≡ true }
        ensures { PassesOn (waiters_of self.old.life) self.old result self.new }
    {
        match self.waiters.pop() {
            Some(waiter) => {
                self.stage = Stage::Loading(Holder::HandedTo(waiter));
                Answer::HandedTo(waiter)
            }
            None => {
                self.stage = Stage::GivenUp;
                self.in_shard = false;
                Answer::GivenUp
            }
        }
    }
}

impl<V: Clone, A: Allocator> Core<V, A> {
    pub(crate) fn join(&mut self, waiter: u64) -> Answer<V>
        ensures { Joins V.is_clone self.old.life waiter self.old result self.new }
    {
        if !self.in_shard {
            return Answer::NotNow;
        }
        match &self.stage {
            Stage::Loading(holder) => {
                if holder.is_handed_to(waiter) || has(&self.waiters, waiter) {
                    return Answer::NotNow;
                }
                if self.waiters.push(waiter).is_err() {
                    return Answer::Refused(Refusal::Memory);
                }
                Answer::Joined
            }
            Stage::Filled(value) => shown(value),
            Stage::GivenUp => Answer::NotNow,
        }
    }

    pub(crate) fn take(&mut self, waiter: u64) -> Answer<V>
        ensures { Takes V.is_clone self.old.life waiter self.old result self.new }
    {
        match &self.stage {
            Stage::Loading(holder) => {
                if holder.is_handed_to(waiter) {
                    self.stage = Stage::Loading(Holder::Held);
                    return Answer::Guard;
                }
                if has(&self.waiters, waiter) {
                    Answer::Waiting
                } else {
                    Answer::NotNow
                }
            }
            Stage::Filled(value) => shown(value),
            Stage::GivenUp => Answer::NotNow,
        }
    }

    pub(crate) fn time_out(&mut self, waiter: u64) -> Answer<V>
        ensures { TimesOut V.is_clone self.old.life waiter self.old result self.new }
    {
        match &self.stage {
            Stage::Loading(holder) => {
                if holder.is_handed_to(waiter) {
                    self.stage = Stage::Loading(Holder::Held);
                    return Answer::Guard;
                }
                if !has(&self.waiters, waiter) {
                    return Answer::NotNow;
                }
                remove(&mut self.waiters, waiter);
                Answer::TimedOut
            }
            Stage::Filled(value) => shown(value),
            Stage::GivenUp => Answer::NotNow,
        }
    }
}

/// Whether this one waits.
fn has<A: Allocator>(waiters: &Vec<u64, A>, waiter: u64) -> bool
    ensures { result ≡ has waiter waiters.now.items }
{
    waiters.contains(&waiter)
}

/// Takes this one out, and keeps the order of the others.
fn remove<A: Allocator>(waiters: &mut Vec<u64, A>, waiter: u64)
    ensures { waiters.new.items ≡ without_waiter waiter waiters.old.items }
{
    waiters.retain(|other| *other != waiter);
}

/// A clone of the value, or that its memory was refused.
fn shown<V: Clone>(value: &V) -> Answer<V>
    ensures { ((w : V) × V.is_clone value.now w × (result ≡ Answer.Value w))
        ⊎ (result ≡ Answer.Refused Refusal.Memory) }
{
    match value.clone() {
        Ok(value) => Answer::Value(value),
        Err(_) => Answer::Refused(Refusal::Memory),
    }
}
