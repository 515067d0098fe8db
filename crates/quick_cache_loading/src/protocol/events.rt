//! What can happen to a placeholder, and what the one to whom it happens is answered.
use quick_cache_model::Refusal;

/// What happens to a placeholder. A waiter goes by a number of its own.
#[derive(Debug, PartialEq, Eq, Drop)]
pub enum Event<V> {
    /// A loader comes, and gets the guard of a new life.
    Create,
    /// A waiter asks for the value, and waits for it where it is loading.
    Join(u64),
    /// The holder of the guard gives the value.
    Fill(V),
    /// The holder of the guard gives it up.
    Abandon,
    /// A waiter looks whether the guard or the value has come.
    Take(u64),
    /// A waiter's time is over: it takes what has come, or stops waiting.
    TimeOut(u64),
    /// A waiter goes away: it stops waiting, or hands on the guard that was on its way to it.
    Cancel(u64),
    /// The placeholder is taken out of the shard.
    Leave,
}

/// What an event is answered.
#[derive(Debug, PartialEq, Eq, Drop)]
pub enum Answer<V> {
    /// A life has begun, and the guard is given.
    Created,
    /// The waiter was added.
    Joined,
    /// A clone of the value that the life is filled with.
    Value(V),
    /// The guard is given to the waiter to whom it was handed.
    Guard,
    /// The waiter goes on waiting.
    Waiting,
    /// The waiter no longer waits.
    TimedOut,
    /// The guard is on its way to this waiter, which is to be woken.
    HandedTo(u64),
    /// Nobody waited: the life is given up, outside the shard.
    GivenUp,
    /// It is done.
    Done,
    /// Memory was refused, and nothing has changed.
    Refused(Refusal),
    /// No case applies, and nothing has changed.
    NotNow,
}
