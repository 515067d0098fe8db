//! What threads tell each other of the values that they write, so that one can say of an answer
//! whether it may come.
use std::alloc::{AllocError, Global};
use std::sync::atomic::{AtomicU64, Ordering};

/// How many keys there are.
pub const KEYS: u64 = 256;

/// For each of four threads the number of a turn.
pub type Turns = [u64; 4];

/// What a call found.
#[derive(Clone, Copy)]
pub enum Found {
    /// A value that stood under the key, or came.
    Item(u64),
    /// A value that came to one who had waited for it.
    Waited(u64),
    /// At some moment of the call no item stood under the key.
    Nothing,
    Unknown,
}

/// The turns that the threads have ended, and for each key the turns whose values are gone from it.
#[derive(Drop)]
pub struct Board {
    ended: [AtomicU64; 4],
    gone: Vec<[AtomicU64; 4]>,
}

/// Four numbers that threads share.
fn four() -> [AtomicU64; 4] {
    [
        AtomicU64::new(0),
        AtomicU64::new(0),
        AtomicU64::new(0),
        AtomicU64::new(0),
    ]
}

/// The value of a key that a thread writes in a turn. No other turn writes it.
pub fn value_of(key: u64, thread: u64, turn: u64) -> u64 {
    turn.wrapping_mul(4)
        .wrapping_add(thread)
        .wrapping_mul(KEYS)
        .wrapping_add(key)
}

impl Board {
    pub fn new(alloc: Global) -> Result<Self, AllocError> {
        let mut gone = Vec::new(alloc);
        for _ in 0..KEYS {
            gone.push(four())?;
        }
        Ok(Board {
            ended: four(),
            gone,
        })
    }

    /// The turns that have ended.
    pub fn ended(&self) -> Turns {
        seen(&self.ended)
    }

    /// The turns up to which no value stands under the key any more.
    pub fn gone(&self, key: u64) -> Turns {
        match self.gone.get(key as usize) {
            Some(gone) => seen(gone),
            None => [0; 4],
        }
    }

    /// A thread has ended a turn. Where it found no item under the key, all that was written by the
    /// turns that had ended before is gone.
    pub fn end(&self, thread: u64, turn: u64, key: u64, found: Found, before: &Turns) {
        if let Found::Nothing = found {
            if let Some(gone) = self.gone.get(key as usize) {
                for at in 0..4 {
                    gone[at].fetch_max(before[at], Ordering::SeqCst);
                }
            }
        }
        self.ended[(thread % 4) as usize].store(turn, Ordering::SeqCst);
    }
}

fn seen(turns: &[AtomicU64; 4]) -> Turns {
    let mut seen = [0; 4];
    for at in 0..4 {
        seen[at] = turns[at].load(Ordering::SeqCst);
    }
    seen
}

/// Whether a call on the key may be told what it found. `gone` is what was gone from the key before
/// the call began, and `before` are the turns that had ended by then: who waits is told the value of
/// the load that it waits for, or one that was written later, and so none of these turns.
pub fn may_be(key: u64, found: Found, gone: &Turns, before: &Turns) -> bool {
    let (value, last) = match found {
        Found::Item(value) => (value, gone),
        Found::Waited(value) => (value, before),
        _ => return true,
    };
    let thread = (value / KEYS % 4) as usize;
    value % KEYS == key && value / KEYS / 4 > last[thread]
}
