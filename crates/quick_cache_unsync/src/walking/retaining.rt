//! Items that are shown to a predicate, so many a call.
ghost use Rattle.std.specs.Prelude.{◌≤◌};
ghost use Rattle.quick_cache_shard.specs.Predicates.{Answers, MayBeAskedOfEach};
ghost use Rattle.quick_cache_shard.specs.RetainsSome.{RetainsSome};
ghost use Rattle.quick_cache_shard.specs.Shard.{IsSoundShard, KeepsWork};
ghost use Rattle.quick_cache_shard.specs.WalksFrom.{number_or_zero};

use crate::cache::Cache;
use quick_cache_model::Token;
use std::alloc::Allocator;
use std::hash::{BuildHasher, Hash};

impl<K: Eq + Hash + Drop, V: Drop, We, B: BuildHasher, L, A: Allocator> Cache<K, V, We, B, L, A> {
    /// Shows the predicate so many items at most, those of greater token than this one, by ascending
    /// token, and drops those that it does not keep. It tells the token from which the next call goes
    /// on, none where no item is left behind, and how many it dropped. The rings keep the order of the
    /// rest; placeholders, ghosts and counts stay. An item that stays keeps its token. No hook is
    /// called, and it takes no memory.
    pub fn retain_some<F: Fn(&K, &V) -> bool>(
        &mut self,
        after: Option<Token>,
        at_most: usize,
        keep: F,
    ) -> (Option<Token>, usize)
        requires callable { MayBeAskedOfEach F.Fn keep self.old.state }
        // Whatever the predicate answers, each item that it was asked of goes or stays by that.
        ensures retains { RetainsSome (Answers F.Fn keep) (number_or_zero after) self.old at_most
            result self.new }
        ensures room { self.old.room ≤ self.new.room }
        ensures same { KeepsWork self.old self.new }
        ensures sound { IsSoundShard K.eq self.new }
    {
        self.shard.retain_some(after, at_most, keep)
    }
}
