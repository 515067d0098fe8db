//! The steps of a schedule, and what each of them may be told.

/// A step of a schedule. Guards and futures are named by their places. Where one is taken out, the
/// last one gets its place.
#[derive(Clone, Copy)]
pub enum Step {
    Insert(u64, u64),
    Replace(u64, u64),
    Get(u64),
    Remove(u64),
    Clear,
    Count,
    /// Asks for the value of a key or its guard, and does not wait.
    Ask(u64),
    /// Acts on the entry of a key, and waits for so many milliseconds.
    Act(u64, u64),
    Fill(usize, u64),
    LetGo(usize),
    /// Begins a future that asks for a key, and is not polled yet.
    Begin(u64),
    /// Polls a future. One that goes on waiting comes last.
    Poll(usize),
    Cancel(usize),
    /// Polls the future that acts on an entry.
    PollActs,
    /// Polls the future that loads.
    PollLoads,
}

/// What a step is told.
#[derive(Clone, Copy, PartialEq)]
pub enum Told {
    Nothing,
    Done,
    Value(u64),
    /// A value that this call's own loader gave.
    Loaded(u64),
    Guard,
    Timeout,
    Retained(u64),
    Removed(u64),
    Replaced(u64),
    Gone(u64),
    Pending,
    /// The loader gave no value.
    Failed,
    Count(usize),
    Refused,
    /// It had something to say, and its task was not woken.
    Unwoken,
}
