//! The slots of those who wait, with the wakers of tasks.
ghost use Rattle.std.specs.Prelude.{◌≡◌, ◌⊎◌, ◌<◌, ◌==◌, true, false, [], IfSome, OnOk, OnErr, HoldsAt, vec_len};
ghost use Rattle.std.specs.List.{position};
ghost use Rattle.futures.specs.Poll.{OnPending};
ghost use Rattle.futures.specs.Task.{Covers, Keeps};
ghost use Rattle.quick_cache_loading.specs.Tasks.{HasWaker, has_slot, numbers_of, slots_after, slots_of_others, with_slot};

use crate::protocol::Answer;
use futures::task::{Context, Poll, Source, Waker};
use std::alloc::{AllocError, Allocator, Global};
use std::marker::Model;

/// The slot of a waiter, with the waker of a task once it has left one.
#[derive(Drop)]
pub struct Slot {
    /// The waiter's number.
    pub waiter: u64,
    /// It wakes the task when it is dropped.
    pub waker: Option<Waker>,
}

/// The slots of those who wait. One that is taken out wakes its task. Contracts see the list of slots.
#[derive(Drop)]
pub struct Tasks<A: Allocator = Global> {
    slots: Vec<Slot, A>,
}

impl<A: Allocator> Model for Tasks<A> {
    ghost use Rattle.std.specs.Prelude.{List};
    ghost use Rattle.quick_cache_loading.specs.declared.waiting.tasks.Slot.{Slot};

    ghost Value = { List Slot };

    ghost view = { λ tasks. tasks.slots.items };
}

impl<A: Allocator> Tasks<A> {
    /// Nobody waits. It allocates nothing.
    pub fn new(alloc: A) -> Self
        ensures { result ≡ [] }
    {
        Tasks {
            slots: Vec::new(alloc),
        }
    }

    /// A slot for a waiter, which may allocate. Where it cannot be had, nothing changes.
    pub fn add(&mut self, waiter: u64) -> Result<(), AllocError>
        ensures added { OnOk result (self.new ≡ with_slot waiter self.old) }
        ensures refused { OnErr result (self.new ≡ self.old) }
    {
        self.slots.push(Slot {
            waiter,
            waker: None,
        })?;
        Ok(())
    }

    /// Leaves the task's waker in the waiter's slot. A waiter without a slot is polled again.
    pub fn wait<T>(&mut self, waiter: u64, source: &Source, cx: &mut Context<'_>) -> Poll<T>
        ensures pending { result ≡ Poll.Pending }
        ensures registered { Covers cx.new (λ s. s ≡ source.now.id) }
        ensures kept { Keeps cx.old cx.new }
        ensures waker { (cx.new.lacks_waker ≡ true)
            ⊎ (((has_slot waiter self.old ≡ false) × (cx.new.is_woken ≡ true))
            ⊎ HasWaker waiter cx.old self.new) }
        // Nobody gets a slot by it, or loses one.
        ensures same { numbers_of self.new ≡ numbers_of self.old }
    {
        match place_of(&self.slots, waiter) {
            None => cx.yield_now(),
            Some(at) => {
                let slot = &mut self.slots[at];
                cx.register(source, &mut slot.waker)
            }
        }
    }

    /// Takes the waiter's slot out, and so wakes its task, and no other.
    pub fn wake(&mut self, waiter: u64)
        ensures { self.new ≡ slots_of_others waiter self.old }
    {
        self.slots.retain(|slot| slot.waiter != waiter);
    }

    /// Wakes the task to whom the guard is handed, where that is the answer.
    pub fn wake_handed<V>(&mut self, answer: &Answer<V>)
        ensures { self.new ≡ slots_after answer.now self.old }
    {
        if let Answer::HandedTo(waiter) = answer {
            self.wake(*waiter);
        }
    }

    /// Takes all slots out, and so wakes their tasks.
    pub fn wake_all(&mut self)
        ensures { self.new ≡ [] }
    {
        self.slots.clear();
    }
}

/// The place of a waiter's slot.
fn place_of<A: Allocator>(slots: &Vec<Slot, A>, waiter: u64) -> Option<usize>
    ensures range { IfSome result (λ at. at < vec_len slots.now) }
    ensures place { IfSome result (HoldsAt (λ slot. slot.waiter ≡ waiter) slots.now.items) }
    ensures found { result ≡ position (λ slot. slot.waiter == waiter) slots.now.items }
{
    slots.iter().position(|slot| slot.waiter == waiter)
}
