//! A ring: the queue of its tokens, and what their entries weigh.
ghost use Rattle.std.specs.Prelude.{◌≡◌};
ghost use Rattle.std.specs.Int.NonZero.{non_zero_u32_get as number};
ghost use Rattle.quick_cache_store.specs.Queues.{IsQueue};
ghost use Rattle.quick_cache_store.specs.OneRing.{HasPlace, IsJoined, CanGo, IsGone, CanLose, HasLost, IsTurned};
ghost use Rattle.quick_cache_store.specs.Rings.{restarts};

use crate::queue::{Numbers, TokenQueue};
use quick_cache_model::Token;
use std::alloc::{Allocator, Global};

/// Tokens, the next to be visited first, and what their entries weigh.
#[derive(Drop)]
pub(crate) struct Ring<A: Allocator = Global> {
    pub(crate) queue: TokenQueue<A>,
    pub(crate) weight: u128,
}

/// The order of a ring that a token has left.
#[derive(Clone, Copy)]
pub enum Order {
    /// The rest keeps its order.
    Kept,
    /// The ring begins behind the token, and what stood before it comes last.
    Restarted,
}

/// Puts a token last in a ring.
#[inline(always)]
pub(crate) fn join<A: Allocator>(
    ring: &mut Ring<A>,
    numbers: &mut Numbers<A>,
    token: Token,
    weight: u64,
)
    requires { HasPlace ring.old weight }
    ensures { IsJoined ring.old ring.new (number token) weight }
{
    ring.queue.push_last(numbers, token);
    ring.weight += u128::from(weight);
}

/// Takes a token out of a ring, whose rest is in that order then.
#[inline(always)]
pub(crate) fn leave<A: Allocator>(
    ring: &mut Ring<A>,
    numbers: &mut Numbers<A>,
    token: Token,
    order: Order,
    weight: u64,
)
    requires { CanGo ring.old (number token) weight }
    ensures { IsGone ring.old ring.new (number token) (restarts order) weight }
{
    ring.weight -= u128::from(weight);
    match order {
        Order::Kept => ring.queue.leave(numbers, token),
        Order::Restarted => ring.queue.restart(numbers, token),
    }
}

/// Takes the first token out of a ring, if there is one, and so much weight.
#[inline(always)]
pub(crate) fn leave_first<A: Allocator>(ring: &mut Ring<A>, weight: u64)
    requires { CanLose ring.old weight }
    ensures { HasLost ring.old ring.new weight }
{
    ring.weight -= u128::from(weight);
    ring.queue.leave_first();
}

/// Puts the first token of a ring last.
#[inline(always)]
pub(crate) fn turn<A: Allocator>(ring: &mut Ring<A>, numbers: &mut Numbers<A>)
    requires { IsQueue ring.old.queue }
    ensures { IsTurned ring.old ring.new }
{
    ring.queue.turn(numbers);
}
