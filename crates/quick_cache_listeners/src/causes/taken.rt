//! Pairs that the caller takes out of a cache: the caches hand them over and call no hook, so the
//! caller tells of them.
ghost use Rattle.std.specs.Iterator.{IsFinite};
ghost use Rattle.quick_cache_listeners.specs.declared.causes.cause.Cause.{Cause};
ghost use Rattle.quick_cache_listeners.specs.Taken.{TellsEach, TellsPairTaken, CountsTaken};

use crate::causes::cause::Cause;
use crate::causes::counted::{Counted, Counts};
use crate::causes::counted_by_threads::CountedByThreads;
use crate::causes::listener::{ListenerWhy, OnLeaveWhy, Request};
use crate::listener::{Listener, OnLeave};
use crate::pins::{Held, Pin, PinBy, PinHeld};
use quick_cache_model::{Lifecycle, Weighter};
use std::alloc::Allocator;

/// A lifecycle that can be told of a pair that the caller took out, by a removal, a drain or
/// whatever else hands pairs over, and why it did so.
pub trait TellsTaken<K: Eq + Drop, V: Drop>: Lifecycle<K, V> {
    /// From a state, at a pair that was taken out for that cause, to the state after: anything,
    /// where the lifecycle says no more.
    ghost tells_taken: { Self → Self.RequestState → K → V → Cause → Self.RequestState
        → Type 0 } = { λ _ _ _ _ _ _. Unit {0} };

    /// Takes a pair that the caller took out.
    fn tell_taken(&self, state: &mut Self::RequestState, key: K, val: V, cause: Cause)
        ensures { tells_taken self.now state.old key val cause state.new };

    /// Takes each pair that an iterator gives: those of a `drain`, or the one that a `remove` gave,
    /// as `cache.remove(&key).into_iter()`.
    fn tell_each_taken<I: Iterator<Item = (K, V)> + Drop>(
        &self,
        state: &mut Self::RequestState,
        mut pairs: I,
        cause: Cause,
    )
        requires can { I.can_next pairs }
        requires ends { IsFinite (I.remaining pairs) }
        // It takes all that come, in their order.
        ensures tells { TellsEach I.next_gives pairs (tells_taken self.now) cause state.old
            state.new }
    {
        while let Some((key, val)) = pairs.next() {
            self.tell_taken(state, key, val, cause);
        }
    }
}

/// The listener is told, as of any pair that leaves.
impl<K: Eq + Drop, V: Drop, L: Listener<K, V>> TellsTaken<K, V> for OnLeave<L> {
    ghost tells_taken = { λ told old key value _ new. L.tells told.0 old key value new };

    fn tell_taken(&self, state: &mut L::State, key: K, val: V, _cause: Cause) {
        self.0.tell(state, key, val);
    }
}

/// The listener is told, with that cause. A call that goes on is told of as before.
impl<K: Eq + Drop, V: Drop, L: ListenerWhy<K, V>> TellsTaken<K, V> for OnLeaveWhy<L> {
    ghost tells_taken = { λ told. TellsPairTaken (L.tells told.0) };

    fn tell_taken(&self, state: &mut Request<L::State>, key: K, val: V, cause: Cause) {
        self.0.tell(&mut state.state, key, val, cause);
    }
}

/// The pair is counted under that cause, and the inner lifecycle is told.
impl<K: Eq + Drop, V: Drop, W: Weighter<K, V>, L: TellsTaken<K, V>> TellsTaken<K, V>
    for Counted<W, L> {
    ghost tells_taken = { λ by. CountsTaken (L.tells_taken by.1) (W.weight_of by.0) };

    fn tell_taken(
        &self,
        state: &mut Request<Counts<L::RequestState>>,
        key: K,
        val: V,
        cause: Cause,
    ) {
        state.state.tallies.count(cause, self.0.weight(&key, &val));
        self.1.tell_taken(&mut state.state.state, key, val, cause);
    }
}

/// The pair is counted under that cause, and the inner lifecycle is told.
impl<K: Eq + Drop, V: Drop, W: Weighter<K, V>, L: TellsTaken<K, V>, A: Allocator> TellsTaken<K, V>
    for CountedByThreads<W, L, A> {
    ghost tells_taken = { λ by. TellsPairTaken (L.tells_taken by.inner) };

    fn tell_taken(&self, state: &mut Request<L::RequestState>, key: K, val: V, cause: Cause) {
        self.tallies.count(cause, self.weigher.weight(&key, &val));
        self.inner.tell_taken(&mut state.state, key, val, cause);
    }
}

/// The inner lifecycle is told.
impl<K: Eq + Drop, V: Drop, P: Pin<K, V>, L: TellsTaken<K, V>> TellsTaken<K, V> for PinBy<P, L> {
    ghost tells_taken = { λ by. L.tells_taken by.1 };

    fn tell_taken(&self, state: &mut L::RequestState, key: K, val: V, cause: Cause) {
        self.1.tell_taken(state, key, val, cause);
    }
}

/// The inner lifecycle is told.
impl<K: Eq + Drop, V: Held + Drop, L: TellsTaken<K, V>> TellsTaken<K, V> for PinHeld<L> {
    ghost tells_taken = { λ by. L.tells_taken by.0 };

    fn tell_taken(&self, state: &mut L::RequestState, key: K, val: V, cause: Cause) {
        self.0.tell_taken(state, key, val, cause);
    }
}
