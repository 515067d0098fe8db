//! What a trace is run through.

use crate::trace::Trace;
use std::alloc::AllocError;

/// A cache that goes by a policy.
pub trait Simulated {
    /// Asks for a key of this weight, and tells whether it is there. One that is not is put in, as
    /// the policy has it.
    ///
    /// # Errors
    ///
    /// Where there was no memory.
    fn ask(&mut self, key: u64, weight: u32) -> Result<bool, AllocError>;
}

/// How many keys of a trace are there when they are asked for.
///
/// # Errors
///
/// Where there was no memory.
pub fn hits_of<C: Simulated>(cache: &mut C, trace: &Trace) -> Result<u64, AllocError> {
    let mut hits = 0u64;
    for (index, key) in trace.keys().iter().enumerate() {
        if cache.ask(*key, trace.weight(index))? {
            hits = hits.saturating_add(1);
        }
    }
    Ok(hits)
}
