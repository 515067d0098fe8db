//! What those rely on who have a list of calls made.
ghost use Rattle.std.specs.Prelude.{◌≡◌, ℕ, ◌++◌, All, List, IfOk, IfErr, length};
ghost use Rattle.quick_cache_model.specs.Answered.{AreAnswered, replies_of};
ghost use Rattle.quick_cache_model.specs.declared.calls.call.Call.{Call as AnyCall};
ghost use Rattle.quick_cache_runs.specs.Asked.{IfAsks};
ghost use Rattle.quick_cache_runs.specs.Room.{AreInRoom};

use quick_cache_runs::{Call, Reply, run};
use quick_cache_unsync::Cache;
use std::alloc::Global;

/// Each call that is made has its reply, and those that are not made come back in their order. A
/// look is never refused, since clones of numbers cannot fail; nor is a call that takes an entry in
/// refused for want of memory, as long as those before it left room.
pub fn run_all<F: Fn(&u64, &u64) -> bool + Drop>(
    alloc: Global,
    cache: &mut Cache<u64, u64>,
    calls: Vec<Call<u64, u64, F>>,
) -> Result<Vec<Reply<u64, u64>>, (Vec<Reply<u64, u64>>, Vec<Call<u64, u64, F>>)>
    // No call of the list asks a predicate.
    requires none { All (IfAsks (λ asked. ⊥)) calls.items }
    ensures replies { IfOk result (λ replies. length replies.items ≡ length calls.items) }
    ensures back { IfErr result (λ back. (made : List (AnyCall ℕ ℕ F))
        × (calls.items ≡ made ++ back.1.items) × (length back.0.items ≡ length made)) }
    ensures answered { AreAnswered calls.items (replies_of result) }
    ensures room { AreInRoom cache.old.room calls.items (replies_of result) }
{
    run(alloc, cache, calls, &mut ())
}
