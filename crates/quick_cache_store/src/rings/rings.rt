//! The three rings, chosen by the list of an entry.
ghost use Rattle.std.specs.Prelude.{◌≡◌, ◌≤◌, [], max, IsOk, IfOk, IfErr, OnOk, OnErr, Err};
ghost use Rattle.std.specs.Int.NonZero.{non_zero_u32_get as number};
ghost use Rattle.quick_cache_store.specs.Queues.{tokens_of, IsQueue};
ghost use Rattle.quick_cache_store.specs.Slots.{stand_by};
ghost use Rattle.quick_cache_store.specs.Rings.{no_rings, emptied, ring_of, CanEnter, entered, CanLeaveRing, LeavesRingOf, restarts};
ghost use Rattle.quick_cache_store.specs.Rings.{CanBury, buried, first_forgotten, rings_turned, CanReweigh, reweighed, AreWithin};

use crate::queue::{Numbers, TokenQueue};
use crate::rings::ring::{Order, Ring, join, leave, leave_first, turn};
use crate::slots::Stand;
use quick_cache_model::{Queue, Refusal, Token};
use std::alloc::{Allocator, Global};
use std::marker::Model;

// A clone of an allocator. A refusal is for want of memory.
fn cloned<A: Clone>(alloc: &A) -> Result<A, Refusal>
    ensures succeeds { A.is_infallible alloc.now → IsOk result }
    ensures refused { OnErr result (result ≡ Err Refusal.Memory) }
{
    match alloc.clone() {
        Ok(copy) => Ok(copy),
        Err(_) => Err(Refusal::Memory),
    }
}

// A ring without tokens.
fn no_ring<A: Allocator + Clone>(alloc: &A) -> Result<Ring<A>, Refusal>
    ensures tokens { IfOk result (λ ring. tokens_of ring.queue ≡ []) }
    ensures sound { IfOk result (λ ring. IsQueue ring.queue) }
    ensures weight { IfOk result (λ ring. ring.weight ≡ 0) }
    ensures succeeds { A.is_infallible alloc.now → IsOk result }
    ensures refused { OnErr result (result ≡ Err Refusal.Memory) }
{
    Ok(Ring {
        queue: TokenQueue::new(cloned(alloc)?),
        weight: 0,
    })
}

/// The rings of the hot items, of the cold ones, and of the ghosts.
#[derive(Drop)]
pub struct Rings<A: Allocator = Global> {
    hot: Ring<A>,
    cold: Ring<A>,
    ghosts: Ring<A>,
    // Where in its ring each token likely stands.
    numbers: Numbers<A>,
    // For how many tokens each ring has room, and there are numbers.
    capacity: usize,
}

impl<A: Allocator> Model for Rings<A> {
    ghost use Rattle.quick_cache_store.specs.Rings.{Rings as Shown};
    ghost use Rattle.quick_cache_store.specs.OneRing.{shown, AreRings};

    ghost Value = { Shown };

    ghost view = { λ r. record {
      hot = shown r.hot;
      cold = shown r.cold;
      ghosts = shown r.ghosts;
      capacity = r.capacity;
    } };

    ghost invariant = { λ r. AreRings r.hot r.cold r.ghosts r.capacity };
}

impl<A: Allocator> Rings<A> {
    /// Three rings without tokens. It asks for no memory, but for that of clones of the allocator.
    pub fn new(alloc: &A) -> Result<Self, Refusal>
    where
        A: Clone,
        ensures empty { IfOk result (λ rings. rings ≡ no_rings) }
        ensures succeeds { A.is_infallible alloc.now → IsOk result }
        ensures refused { OnErr result (result ≡ Err Refusal.Memory) }
    {
        Ok(Rings {
            hot: no_ring(alloc)?,
            cold: no_ring(alloc)?,
            ghosts: no_ring(alloc)?,
            numbers: Numbers::new(cloned(alloc)?),
            capacity: 0,
        })
    }

    /// How many tokens each of the rings can have with no allocation.
    #[inline(always)]
    pub fn capacity(&self) -> usize
        ensures { result ≡ self.now.capacity }
    {
        self.capacity
    }

    /// The tokens of the ring of a queue.
    #[inline(always)]
    pub fn queue(&self, queue: Queue) -> &TokenQueue<A>
        ensures tokens { tokens_of result.now ≡ (ring_of queue self.now).tokens }
        ensures sound { IsQueue result.now }
    {
        match queue {
            Queue::Hot => &self.hot.queue,
            Queue::Cold => &self.cold.queue,
        }
    }

    /// The tokens of the ghosts.
    #[inline(always)]
    pub fn ghosts(&self) -> &TokenQueue<A>
        ensures tokens { tokens_of result.now ≡ self.now.ghosts.tokens }
        ensures sound { IsQueue result.now }
    {
        &self.ghosts.queue
    }

    /// What the items of the ring of a queue weigh.
    #[inline(always)]
    pub fn weight(&self, queue: Queue) -> u128
        ensures { result ≡ (ring_of queue self.now).weight }
    {
        match queue {
            Queue::Hot => self.hot.weight,
            Queue::Cold => self.cold.weight,
        }
    }

    /// Makes room for so many tokens in each of the rings.
    ///
    /// A refusal is for want of memory: it may keep memory that it got, and changes nothing else.
    pub fn reserve(&mut self, tokens: usize) -> Result<(), Refusal>
        ensures kept { self.new ≡ record self.old { capacity = self.new.capacity } }
        ensures room { OnOk result (self.new.capacity ≡ max self.old.capacity tokens) }

        // Where there is room it succeeds, and nothing changes.
        ensures had_room { tokens ≤ self.old.capacity → IsOk result × (self.new ≡ self.old) }
        ensures refused { OnErr result (self.new ≡ self.old) }
        ensures memory { IfErr result (λ refused. refused ≡ Refusal.Memory) }
    {
        if tokens <= self.capacity {
            return Ok(());
        }
        self.hot.queue.reserve(tokens)?;
        self.cold.queue.reserve(tokens)?;
        self.ghosts.queue.reserve(tokens)?;
        self.numbers.reserve(tokens)?;
        self.capacity = tokens;
        Ok(())
    }

    /// Puts a token last in the ring of that list, if it is one.
    #[inline(always)]
    pub fn enter(&mut self, token: Token, stand: Stand, weight: u64)
        requires { CanEnter self.old weight stand }
        ensures { self.new ≡ entered (number token) weight stand self.old }
    {
        match stand {
            Stand::AmongHot => join(&mut self.hot, &mut self.numbers, token, weight),
            Stand::AmongCold => join(&mut self.cold, &mut self.numbers, token, weight),
            Stand::AmongGhosts => join(&mut self.ghosts, &mut self.numbers, token, weight),
            Stand::AmongStill => (),
            Stand::AmongLoading => (),
        }
    }

    /// Puts a token last in the ring of that queue, if its item weighs something. It is `enter` with
    /// two rings to choose from.
    #[inline(always)]
    pub fn enter_item(&mut self, token: Token, queue: Queue, weight: u64)
        requires { CanEnter self.old weight (stand_by weight queue) }
        ensures { self.new ≡ entered (number token) weight (stand_by weight queue) self.old }
    {
        if weight == 0 {
            return;
        }
        match queue {
            Queue::Hot => join(&mut self.hot, &mut self.numbers, token, weight),
            Queue::Cold => join(&mut self.cold, &mut self.numbers, token, weight),
        }
    }

    /// Takes a token out of the ring of that list, if it is one. The rest is in that order then.
    #[inline(always)]
    pub fn leave(&mut self, token: Token, stand: Stand, order: Order, weight: u64)
        requires { CanLeaveRing self.old (number token) weight stand }
        ensures { LeavesRingOf self.old self.new (number token) (restarts order) weight stand }
    {
        match stand {
            Stand::AmongHot => leave(&mut self.hot, &mut self.numbers, token, order, weight),
            Stand::AmongCold => leave(&mut self.cold, &mut self.numbers, token, order, weight),
            Stand::AmongGhosts => leave(&mut self.ghosts, &mut self.numbers, token, order, weight),
            Stand::AmongStill => (),
            Stand::AmongLoading => (),
        }
    }

    /// Takes the first token out of the cold ring, with the weight of its item, and puts it last
    /// among the ghosts. It is `leave` and `enter` with no search for the token.
    #[inline(always)]
    pub fn bury_first(&mut self, token: Token, weight: u64)
        requires { CanBury self.old weight }
        ensures { self.new ≡ buried (number token) weight self.old }
    {
        leave_first(&mut self.cold, weight);
        join(&mut self.ghosts, &mut self.numbers, token, 0);
    }

    /// Takes the first token out of the ghosts. It is `leave` with no search for the token.
    #[inline(always)]
    pub fn forget_first(&mut self)
        ensures { self.new ≡ first_forgotten self.old }
    {
        leave_first(&mut self.ghosts, 0);
    }

    /// Begins the ring of a queue one further on.
    #[inline(always)]
    pub fn turn(&mut self, queue: Queue)
        ensures { self.new ≡ rings_turned queue self.old }
    {
        match queue {
            Queue::Hot => turn(&mut self.hot, &mut self.numbers),
            Queue::Cold => turn(&mut self.cold, &mut self.numbers),
        }
    }

    /// Counts another weight of an item of that list, where its ring counts weights.
    pub fn reweigh(&mut self, stand: Stand, from: u64, to: u64)
        requires { CanReweigh self.old from to stand }
        ensures { self.new ≡ reweighed from to stand self.old }
    {
        match stand {
            Stand::AmongHot => {
                self.hot.weight = self.hot.weight - u128::from(from) + u128::from(to);
            }
            Stand::AmongCold => {
                self.cold.weight = self.cold.weight - u128::from(from) + u128::from(to);
            }
            Stand::AmongGhosts => (),
            Stand::AmongStill => (),
            Stand::AmongLoading => (),
        }
    }

    /// The bytes of the rings and of the numbers, with those of the room.
    pub fn memory_used(&self) -> usize {
        let items = self.hot.queue.memory_used();
        let items = items.saturating_add(self.cold.queue.memory_used());
        let ghosts = self.ghosts.queue.memory_used();
        items
            .saturating_add(ghosts)
            .saturating_add(self.numbers.memory_used())
    }

    /// Takes all tokens out, and keeps the room.
    pub fn clear(&mut self)
        ensures { self.new ≡ emptied self.old }
    {
        self.hot.queue.clear();
        self.hot.weight = 0;
        self.cold.queue.clear();
        self.cold.weight = 0;
        self.ghosts.queue.clear();
        self.ghosts.weight = 0;
    }

    /// A copy in memory of its own: the same tokens in the same order, with room for so many.
    ///
    /// A refusal is for want of memory.
    pub fn try_copy(&self, alloc: &A, tokens: usize) -> Result<Self, Refusal>
    where
        A: Clone,
        requires { AreWithin self.now tokens }
        ensures copies { IfOk result (λ copy. copy ≡ record self.now { capacity = tokens }) }
        ensures memory { IfErr result (λ refused. refused ≡ Refusal.Memory) }
    {
        let mut copy = Rings::new(alloc)?;
        copy.reserve(tokens)?;
        self.hot
            .queue
            .copy_to(&mut copy.hot.queue, &mut copy.numbers);
        self.cold
            .queue
            .copy_to(&mut copy.cold.queue, &mut copy.numbers);
        self.ghosts
            .queue
            .copy_to(&mut copy.ghosts.queue, &mut copy.numbers);
        copy.hot.weight = self.hot.weight;
        copy.cold.weight = self.cold.weight;
        copy.ghosts.weight = self.ghosts.weight;
        Ok(copy)
    }
}
