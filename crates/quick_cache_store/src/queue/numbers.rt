//! Where in their queues tokens likely stand.
ghost use Rattle.std.specs.Prelude.{◌≡◌, IfErr};

use quick_cache_model::{Refusal, Token};
use std::alloc::{Allocator, Global};
use std::mem::size_of;

/// For each token the number of its place in its queue.
///
/// A number is a thought and no fact: who goes by it looks whether the token stands there. So no
/// contract speaks of one, and a token that has none here costs time alone.
#[derive(Drop)]
pub struct Numbers<A: Allocator = Global> {
    // That of token n stands at n. The first is of none: numbers of empty places go there.
    numbers: Vec<u32, A>,
}

impl<A: Allocator> Numbers<A> {
    /// Numbers of no tokens. It asks for no memory.
    pub fn new(alloc: A) -> Self {
        Numbers {
            numbers: Vec::new(alloc),
        }
    }

    /// Makes room for the numbers of the tokens up to that one.
    ///
    /// A refusal is for want of memory, and changes nothing.
    pub fn reserve(&mut self, tokens: usize) -> Result<(), Refusal>
        ensures memory { IfErr result (λ refused. refused ≡ Refusal.Memory) }
    {
        if tokens < self.numbers.len() {
            return Ok(());
        }
        let wanted = tokens.saturating_add(1);
        let more = wanted.saturating_sub(self.numbers.len());
        if self.numbers.reserve_exact(more).is_err() {
            return Err(Refusal::Memory);
        }
        match self.numbers.resize(wanted, 0) {
            Ok(()) => Ok(()),
            Err(_) => Err(Refusal::Memory),
        }
    }

    /// The bytes of the numbers.
    pub(crate) fn memory_used(&self) -> usize {
        self.numbers.capacity().saturating_mul(size_of::<u32>())
    }

    /// The number of a token, or 0 where it has none.
    #[inline(always)]
    pub(crate) fn of(&self, token: Token) -> u32 {
        match self.numbers.get(token.get() as usize) {
            Some(number) => *number,
            None => 0,
        }
    }

    /// Notes the number of what stands at a place, a token or 0, if there is room for it.
    #[inline(always)]
    pub(crate) fn note(&mut self, place: u32, number: u32) {
        let index = place as usize;
        if index < self.numbers.len() {
            self.numbers[index] = number;
        }
    }
}
