//! Takes all items out of the cache, one after another.
ghost use Rattle.std.specs.Prelude.{◌≡◌, length, MatchOption, IfSome, Some, codes};
ghost use Rattle.std.specs.Iterator.{at_most, UpTo};
ghost use Rattle.std.specs.Iterator.SizeHint.{IsWithinCount};
ghost use Rattle.quick_cache_shard.specs.Tokens.{TakesItem};
ghost use Rattle.quick_cache_shard.specs.Stays.{IdlesWithin};
ghost use Rattle.quick_cache_unsync.specs.CacheDrain.{held, drain_rest, DrainsInAll};

use crate::cache::Cache;
use quick_cache_shard::Token;
use std::alloc::{Allocator, Global};
use std::fmt::{Debug, Formatter, Write};
use std::hash::{BuildHasher, Hash};
use std::iter::FusedIterator;

/// Takes the items out of a cache, each once as its pair, in no order that is told. Once it is
/// dropped the cache is empty, whether it gave all of them or not.
pub struct Drain<'a, K: Eq + Hash, V, We, B: BuildHasher, L, A: Allocator = Global> {
    cache: &'a mut Cache<K, V, We, B, L, A>,
    // The token of the last item that was taken.
    at: Option<Token>,
}

impl<'a, K: Eq + Hash + Drop, V: Drop, We, B: BuildHasher, L, A: Allocator> Drop
    for Drain<'a, K, V, We, B, L, A> {
    ghost use Rattle.quick_cache_unsync.specs.CacheDrain.{held, emptied};

    fn drop(self)
        ensures { self.exit.0.now ≡ emptied (held self.entry).now }
    {
        let Drain { cache, at: _ } = self;
        cache.clear();
    }
}

impl<'a, K: Eq + Hash + Drop, V: Drop, We, B: BuildHasher, L, A: Allocator> Iterator
    for Drain<'a, K, V, We, B, L, A> {
    ghost use Rattle.std.specs.Iterator.{item_count};
    ghost use Rattle.quick_cache_unsync.specs.CacheDrain.{held, drain_rest, DrainSteps};

    type Item = (K, V);

    ghost next_gives = { DrainSteps held };

    ghost remaining = { item_count (drain_rest held) };

    fn next(&mut self) -> Option<(K, V)> {
        let (token, pair) = self.cache.take_next(self.at)?;
        self.at = Some(token);
        Some(pair)
    }

    fn size_hint(&self) -> (usize, Option<usize>)
        ensures lower { IsWithinCount result.0 (at_most (length (drain_rest held self.now))) }
        ensures upper { IfSome result.1 (UpTo (at_most (length (drain_rest held self.now)))) }
        // It is exact.
        ensures exact { result
            ≡ (length (drain_rest held self.now), Some (length (drain_rest held self.now))) }
    {
        let left = self.cache.len();
        (left, Some(left))
    }
}

impl<'a, K: Eq + Hash + Drop, V: Drop, We, B: BuildHasher, L, A: Allocator> ExactSizeIterator
    for Drain<'a, K, V, We, B, L, A> {
    fn len(&self) -> usize {
        self.cache.len()
    }
}

impl<'a, K: Eq + Hash + Drop, V: Drop, We, B: BuildHasher, L, A: Allocator> FusedIterator
    for Drain<'a, K, V, We, B, L, A> {}

impl<'a, K: Eq + Hash, V, We, B: BuildHasher, L, A: Allocator> Debug
    for Drain<'a, K, V, We, B, L, A> {
    ghost debug_output = { λ _. Some (codes "Drain { .. }") };

    fn fmt<W: Write>(&self, f: &mut Formatter<W>) -> std::fmt::Result {
        f.write_str("Drain { .. }")
    }
}

impl<K: Eq + Hash, V, We, B: BuildHasher, L, A: Allocator> Cache<K, V, We, B, L, A> {
    ghost use Rattle.quick_cache_model.specs.CacheState.{item_count};

    // Takes out the item of the least token above this one, or of the least token of all where no
    // item stands above it.
    fn take_next(&mut self, after: Option<Token>) -> Option<(Token, (K, V))>
        ensures takes { MatchOption result
            ((item_count self.old.state ≡ 0) × (self.new ≡ self.old))
            (λ taken. TakesItem self.old.state taken.1 self.new.state) }
        ensures stays { IdlesWithin K.eq 0 self.old self.new }
    {
        self.shard.take_next(after)
    }

    /// Takes all items out, each once as its pair. Their order is open. The cache is empty once the
    /// `Drain` is dropped, whether it gave all items or not: items, placeholders and ghosts are
    /// gone; the counts, the sizes and the memory stay. No hook is called, and it takes no memory.
    ///
    /// One that is leaked leaves in the cache what it did not give.
    pub fn drain(&mut self) -> Drain<'_, K, V, We, B, L, A>
    where
        K: Drop,
        V: Drop,
        ensures begins { (held result).now ≡ self.old }
        ensures same_reference { (held result).ghost_name ≡ self.entry.ghost_name }
        ensures gives { DrainsInAll held result }
    {
        Drain {
            cache: self,
            at: None,
        }
    }
}
