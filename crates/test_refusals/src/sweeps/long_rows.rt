//! Rows of many calls, each made by a rule.
use crate::sweeps::rows::Step;
use crate::sweeps::shared_rows::Step as SharedStep;
use quick_cache_runs::Call;
use std::alloc::{AllocError, Global};

/// For how many blocks there is memory when a call is made for the first time, and again behind each
/// refusal. Room that was had may stay, so each number has five turns.
pub(crate) fn blocks_of_try(tries: u64) -> u64 {
    tries.saturating_add(4) / 5
}

/// Ninety-seven keys, and a thousand others behind them.
pub(crate) fn scan(alloc: Global) -> Result<Vec<Step>, AllocError> {
    let mut steps = Vec::new(alloc);
    for key in 0..1097 {
        steps.push(Call::Insert(key, 401))?;
    }
    Ok(steps)
}

/// An item of weight 0, and ninety-nine that weigh more, each of them written twice.
pub(crate) fn beside_a_weightless_item(alloc: Global) -> Result<Vec<Step>, AllocError> {
    let mut steps = Vec::new(alloc);
    steps.push(Call::Insert(0, 400))?;
    for key in 1..100u64 {
        steps.push(Call::Insert(key, key.saturating_add(400)))?;
        steps.push(Call::Insert(key, key.saturating_add(400)))?;
    }
    steps.push(Call::Get(0))?;
    Ok(steps)
}

/// A call that a generator drew: which of seven, its key, and its number.
#[derive(Clone, Copy)]
struct DrawnCall {
    kind: u64,
    key: u64,
    number: u64,
}

impl DrawnCall {
    /// A value of weight 1, which no other call has.
    fn value(self) -> u64 {
        self.number.saturating_mul(100).saturating_add(401)
    }
}

/// Three thousand calls.
fn drawn_calls(alloc: Global) -> Result<Vec<DrawnCall>, AllocError> {
    let mut calls = Vec::new(alloc);
    let mut drawn: u64 = 1;
    for number in 0..3000 {
        drawn = drawn.wrapping_mul(1103515245).wrapping_add(12345) % 2147483648;
        let place = drawn / 65536;
        calls.push(DrawnCall {
            kind: place % 7,
            key: place / 7 % 16,
            number,
        })?;
    }
    Ok(calls)
}

/// The mixed run of calls, for the cache for one thread.
pub(crate) fn mixed(alloc: Global) -> Result<Vec<Step>, AllocError> {
    let mut steps = Vec::new(alloc);
    for call in &drawn_calls(alloc)? {
        let key = call.key;
        steps.push(match call.kind {
            0 => Call::Insert(key, call.value()),
            1 => Call::Replace(key, call.value(), false),
            2 => Call::Get(key),
            3 => Call::Peek(key),
            4 => Call::Contains(key),
            5 => Call::Stats(key),
            _ => Call::Remove(key),
        })?;
    }
    Ok(steps)
}

/// The same for the cache that threads share, every second call by its form that does not wait, if
/// that may be refused.
pub(crate) fn shared_mixed(alloc: Global) -> Result<Vec<SharedStep>, AllocError> {
    let mut steps = Vec::new(alloc);
    for call in &drawn_calls(alloc)? {
        let (key, waits) = (call.key, call.number % 2 == 0);
        steps.push(match call.kind {
            0 if waits => SharedStep::Insert(key, call.value()),
            0 => SharedStep::TryInsert(key, call.value()),
            1 => SharedStep::Replace(key, call.value()),
            2 if waits => SharedStep::Get(key),
            2 => SharedStep::TryGet(key),
            3 if waits => SharedStep::Peek(key),
            3 => SharedStep::TryPeek(key),
            4 => SharedStep::Contains(key),
            5 => SharedStep::Stats(key),
            _ => SharedStep::Remove(key),
        })?;
    }
    Ok(steps)
}

/// Five hundred items, a walk over them and a drain.
pub(crate) fn walked_and_drained(alloc: Global) -> Result<Vec<SharedStep>, AllocError> {
    let mut steps = Vec::new(alloc);
    for key in 0..500 {
        steps.push(SharedStep::Insert(key, 401))?;
    }
    steps.push(SharedStep::Walk)?;
    steps.push(SharedStep::Drain)?;
    Ok(steps)
}
