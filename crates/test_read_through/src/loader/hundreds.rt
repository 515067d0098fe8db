//! The loader of the rows: a hundred times the key, and the moment.
ghost use Rattle.std.specs.Prelude.{◌≡◌, IfOk, length, vec_len};

use read_through::{ReadThrough, Refusal};
use std::alloc::{AllocError, Global};
use std::sync::Wait;
use std::sync::atomic::{AtomicU64, Ordering};
use std::time::Clock;

/// What is loaded for a key at a moment.
pub fn hundreds(key: u64, now: u64) -> u64 {
    key.wrapping_mul(100).wrapping_add(now)
}

/// What is loaded for each of the keys at a moment.
pub fn all_hundreds(alloc: Global, keys: &[u64], now: u64) -> Result<Vec<u64>, AllocError>
    ensures { IfOk result (λ values. vec_len values ≡ length keys.now) }
{
    let mut values = Vec::with_capacity(alloc, keys.len())?;
    for key in keys {
        values.push(hundreds(*key, now))?;
    }
    Ok(values)
}

/// Gets a key at each moment, and tells the first that answers another value than it should, or
/// after which the loader was called another number of times.
pub fn first_wrong<R: Wait + Clock, F: Fn(&u64, u64) -> u64>(
    rt: &R,
    loaded: &ReadThrough<u64, u64, F>,
    calls: &AtomicU64,
    gets: &[(u64, u64, u64)],
) -> Option<u64>
    requires { F.IsAlwaysCallable loaded.now.loader }
{
    for (now, value, count) in gets {
        let answer = loaded.get(rt, &1, *now);
        if answer != Ok(*value) || calls.load(Ordering::SeqCst) != *count {
            return Some(*now);
        }
    }
    None
}
