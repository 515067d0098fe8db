//! Threads that meet: each raises a flag, and waits for the other one's.
use std::sync::atomic::{AtomicU64, Ordering};
use std::thread::yield_now;

/// For how many turns one waits for the other.
const TURNS: u64 = 5000;

/// How often others may go on in a turn, so that a thread that starts late is met too.
const YIELDS: u64 = 1000;

/// Raises a flag, and tells whether a second one is up within 5000 turns.
pub fn raise_and_meet(flags: &AtomicU64) -> bool {
    flags.fetch_add(1, Ordering::SeqCst);
    for _ in 0..TURNS {
        if is_met_in_a_turn(flags) {
            return true;
        }
    }
    false
}

/// Whether two flags are up within a turn.
fn is_met_in_a_turn(flags: &AtomicU64) -> bool {
    for _ in 0..YIELDS {
        if flags.load(Ordering::SeqCst) > 1 {
            return true;
        }
        yield_now();
    }
    false
}
