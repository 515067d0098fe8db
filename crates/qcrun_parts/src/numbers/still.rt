//! The items of weight 0, which stand in no ring.
ghost use Rattle.std.specs.Prelude.{◌≡◌, IfOk, filter};
ghost use Rattle.qcrun_parts.specs.Still.{AreStill, is_weightless};

use crate::numbers::NumberCache;
use crate::numbers::kinds::weight_of;
use quick_cache_shard::Iter;
use quick_cache_unsync::Placeholder;
use std::alloc::{AllocError, Allocator};

/// The pairs of all items of weight 0, by key.
///
/// # Errors
///
/// No memory for them.
pub fn still<M: Allocator, A: Allocator>(
    alloc: M,
    cache: &NumberCache<A>,
) -> Result<Vec<(u64, u64), M>, AllocError>
    ensures are_still { IfOk result (λ still. AreStill cache.now.state still.items) }
{
    let mut still = weightless(alloc, cache.shard().iter())?;
    still.sort_unstable_by_key(|pair| pair.0);
    Ok(still)
}

/// Those of the pairs whose value weighs nothing.
fn weightless<M: Allocator>(
    alloc: M,
    pairs: Iter<'_, u64, u64, Placeholder>,
) -> Result<Vec<(u64, u64), M>, AllocError>
    ensures filters { IfOk result (λ light. light.items ≡ filter is_weightless pairs.entry) }
{
    let mut light = Vec::new(alloc);
    for (key, value) in pairs {
        if weight_of(*value) == 0 {
            light.push((*key, *value))?;
        }
    }
    Ok(light)
}
