//! Takes the items out that a predicate wants, one after another.
ghost use Rattle.std.specs.Prelude.{◌≡◌, Some, codes};
ghost use Rattle.quick_cache_shard.specs.Predicates.{Answers, MayBeAskedOfEach};
ghost use Rattle.quick_cache_shard.specs.Stays.{IdlesWithin};
ghost use Rattle.quick_cache_shard.specs.TakesWanted.{TakesNextWanted};
ghost use Rattle.quick_cache_shard.specs.WalksFrom.{number_or_zero};
ghost use Rattle.quick_cache_unsync.specs.Extracting.{CanExtract, asks, behind, takes_from};

use crate::cache::Cache;
use quick_cache_model::Token;
use std::alloc::{Allocator, Global};
use std::fmt::{Debug, Formatter, Write};
use std::hash::{BuildHasher, Hash};

/// Takes out of a cache what a predicate wants, each item as its pair, by ascending token. Dropped or
/// leaked, it leaves what it did not give.
#[derive(Drop)]
pub struct ExtractIf<'a, K: Eq + Hash, V, We, B: BuildHasher, L, F, A: Allocator = Global> {
    cache: &'a mut Cache<K, V, We, B, L, A>,
    // The token of the last item that was taken.
    at: Option<Token>,
    wanted: F,
}

impl<
    'a,
    K: Eq + Hash + Drop,
    V: Drop,
    We,
    B: BuildHasher,
    L,
    F: Fn(&K, &V) -> bool,
    A: Allocator,
> Iterator for ExtractIf<'a, K, V, We, B, L, F, A> {
    ghost use Rattle.quick_cache_unsync.specs.Extracting.{CanExtract, Extracts, tokens_ahead};

    type Item = (K, V);

    ghost can_next = { CanExtract F.Fn };

    ghost next_gives = { Extracts F.Fn K.eq };

    ghost remaining = { tokens_ahead };

    fn next(&mut self) -> Option<(K, V)> {
        let (token, key, value) = self.cache.take_next_if(self.at, &self.wanted)?;
        // Read for the proof: the number is within its type.
        let _number = token.get();
        self.at = Some(token);
        Some((key, value))
    }
}

impl<'a, K: Eq + Hash, V, We, B: BuildHasher, L, F, A: Allocator> Debug
    for ExtractIf<'a, K, V, We, B, L, F, A> {
    ghost debug_output = { λ _. Some (codes "ExtractIf { .. }") };

    fn fmt<W: Write>(&self, f: &mut Formatter<W>) -> std::fmt::Result {
        f.write_str("ExtractIf { .. }")
    }
}

impl<K: Eq + Hash + Drop, V: Drop, We, B: BuildHasher, L, A: Allocator> Cache<K, V, We, B, L, A> {
    /// Shows the predicate the items of greater token than this one, by ascending token, until it
    /// wants one, and takes that out: its token, from which the next call goes on, and its pair. Where
    /// it wants none nothing changes. The rings keep the order of the rest; placeholders, ghosts and
    /// counts stay, and an item that stays keeps its token. No hook is called, and it takes no memory.
    pub fn take_next_if<F: Fn(&K, &V) -> bool>(
        &mut self,
        after: Option<Token>,
        wanted: &F,
    ) -> Option<(Token, K, V)>
        requires callable { MayBeAskedOfEach F.Fn wanted.now self.old.state }
        ensures takes { TakesNextWanted (Answers F.Fn wanted.now) (number_or_zero after) self.old
            result self.new }
        ensures stays { IdlesWithin K.eq 0 self.old self.new }
    {
        self.shard.take_next_if(after, wanted)
    }

    /// Takes out the items that the predicate wants, one a step, as `take_next_if` does. What was not
    /// given stays.
    pub fn extract_if<F: Fn(&K, &V) -> bool>(
        &mut self,
        wanted: F,
    ) -> ExtractIf<'_, K, V, We, B, L, F, A>
        requires callable { MayBeAskedOfEach F.Fn wanted self.old.state }
        ensures begins { (takes_from result).now ≡ self.old }
        ensures same_reference { (takes_from result).ghost_name ≡ self.entry.ghost_name }
        ensures first { behind result ≡ 0 }
        ensures asks { asks result ≡ wanted }
        ensures can { CanExtract F.Fn result }
    {
        ExtractIf {
            cache: self,
            at: None,
            wanted,
        }
    }
}
