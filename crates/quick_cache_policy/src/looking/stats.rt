//! What is told of one item.
ghost use Rattle.std.specs.Prelude.{MatchOption};
ghost use Rattle.quick_cache_model.specs.Finding.{HasNoItem};
ghost use Rattle.quick_cache_policy.specs.Contents.{state_of};
ghost use Rattle.quick_cache_policy.specs.Finding.{AreUnder};
ghost use Rattle.quick_cache_policy.specs.Stats.{ShowsReads};

use crate::contents::Contents;
use quick_cache_model::{Equivalent, SharedPlaceholder, Touches};
use std::alloc::Allocator;
use std::hash::Hash;

impl<K: Eq + Hash, V, P: SharedPlaceholder<K>, A: Allocator> Contents<K, V, P, A> {
    /// How often the item under the query was read, up to the greatest u64, with the reads that
    /// readers counted since the cache last took them in. Nothing changes.
    pub fn reads<Q: Equivalent<K>>(&self, hash: u64, query: &Q) -> Option<u64>
        requires under { AreUnder (Q.equivalent query.now) hash self.now.lists }
        ensures { MatchOption result
            (HasNoItem (Q.equivalent query.now) (state_of P.ticket_of self.now))
            (ShowsReads P.Touch.may_count (Q.equivalent query.now)
            (state_of P.ticket_of self.now)) }
    {
        let item = self.peek(hash, query)?;
        Some(item.reads().saturating_add(item.touch().seen()))
    }
}
