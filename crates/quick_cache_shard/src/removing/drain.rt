//! Takes all items out of a shard, one after another.
ghost use Rattle.std.specs.Prelude.{◌≡◌, length, MatchOption, IfSome, Some};
ghost use Rattle.std.specs.Int.NonZero.{non_zero_u32_get as number};
ghost use Rattle.std.specs.Iterator.{at_most, UpTo};
ghost use Rattle.std.specs.Iterator.SizeHint.{IsWithinCount};
ghost use Rattle.quick_cache_policy.specs.Tokens.{TakesItem};
ghost use Rattle.quick_cache_shard.specs.Shard.{LeavesPlace};
ghost use Rattle.quick_cache_shard.specs.ShardDrain.{held, drain_rest, DrainsInAll};
ghost use Rattle.quick_cache_shard.specs.Stays.{IdlesWithin};

use crate::shard::CacheShard;
use quick_cache_model::Token;
use quick_cache_policy::SharedPlaceholder;
use std::alloc::{Allocator, Global};
use std::hash::{BuildHasher, Hash};
use std::iter::FusedIterator;

/// Takes the items out of a shard, each once as its pair, and clears the shard once dropped.
pub struct Drain<
    'a,
    K: Eq + Hash,
    V,
    We,
    B: BuildHasher,
    L,
    P: SharedPlaceholder<K>,
    A: Allocator = Global,
> {
    shard: &'a mut CacheShard<K, V, We, B, L, P, A>,
    // The token of the last item that was taken.
    at: Option<Token>,
}

impl<
    'a,
    K: Eq + Hash + Drop,
    V: Drop,
    We,
    B: BuildHasher,
    L,
    P: SharedPlaceholder<K>,
    A: Allocator,
> Drop for Drain<'a, K, V, We, B, L, P, A> {
    ghost use Rattle.quick_cache_shard.specs.ShardDrain.{held, emptied};

    fn drop(self)
        ensures { self.exit.0.now ≡ emptied (held self.entry).now }
    {
        let Drain { shard, at: _ } = self;
        shard.clear();
    }
}

impl<
    'a,
    K: Eq + Hash + Drop,
    V: Drop,
    We,
    B: BuildHasher,
    L,
    P: SharedPlaceholder<K>,
    A: Allocator,
> Iterator for Drain<'a, K, V, We, B, L, P, A> {
    ghost use Rattle.std.specs.Iterator.{item_count};
    ghost use Rattle.quick_cache_shard.specs.ShardDrain.{held, drain_rest, DrainSteps};

    type Item = (K, V);

    ghost next_gives = { DrainSteps held };

    ghost remaining = { item_count (drain_rest held) };

    fn next(&mut self) -> Option<(K, V)> {
        let (token, pair) = self.shard.take_next(self.at)?;
        self.at = Some(token);
        Some(pair)
    }

    fn size_hint(&self) -> (usize, Option<usize>)
        ensures lower { IsWithinCount result.0 (at_most (length (drain_rest held self.now))) }
        ensures upper { IfSome result.1 (UpTo (at_most (length (drain_rest held self.now)))) }
        // It is exact.
        ensures exact { result
            ≡ (length (drain_rest held self.now), Some (length (drain_rest held self.now))) }
    {
        let left = self.shard.len();
        (left, Some(left))
    }
}

impl<
    'a,
    K: Eq + Hash + Drop,
    V: Drop,
    We,
    B: BuildHasher,
    L,
    P: SharedPlaceholder<K>,
    A: Allocator,
> ExactSizeIterator for Drain<'a, K, V, We, B, L, P, A> {
    fn len(&self) -> usize {
        self.shard.len()
    }
}

impl<
    'a,
    K: Eq + Hash + Drop,
    V: Drop,
    We,
    B: BuildHasher,
    L,
    P: SharedPlaceholder<K>,
    A: Allocator,
> FusedIterator for Drain<'a, K, V, We, B, L, P, A> {}

impl<K: Eq + Hash, V, We, B: BuildHasher, L, P: SharedPlaceholder<K>, A: Allocator> CacheShard<
    K,
    V,
    We,
    B,
    L,
    P,
    A,
> {
    ghost use Rattle.quick_cache_model.specs.CacheState.{item_count};

    /// Takes out the item of the least token above this one, or of the least token of all where no
    /// item stands above it, and gives its token and its pair. No hook is called, and no memory is
    /// asked for.
    pub fn take_next(&mut self, after: Option<Token>) -> Option<(Token, (K, V))>
        ensures takes { MatchOption result
            ((item_count self.old.state ≡ 0) × (self.new ≡ self.old))
            (λ taken. TakesItem self.old.state taken.1 self.new.state) }
        ensures leaves { IfSome result
            (λ taken. LeavesPlace self.old (number taken.0) taken.1.0 self.new) }
        ensures stays { IdlesWithin K.eq 0 self.old self.new }
    {
        self.contents.lists.facts();
        let taken = self.contents.take_next(after);
        self.facts();
        taken
    }

    /// Takes all items out, each once as its pair and in no order that is told, and clears the
    /// shard, also where the `Drain` is dropped before it gave them all. The counts, the sizes and
    /// the memory stay. No hook is called, and no memory is asked for.
    pub fn drain(&mut self) -> Drain<'_, K, V, We, B, L, P, A>
    where
        K: Drop,
        V: Drop,
        ensures begins { (held result).now ≡ self.old }
        ensures same_reference { (held result).ghost_name ≡ self.entry.ghost_name }
        ensures gives { DrainsInAll held result }
    {
        Drain {
            shard: self,
            at: None,
        }
    }
}
