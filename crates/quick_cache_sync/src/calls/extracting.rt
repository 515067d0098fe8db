//! Takes the items out of the shared cache that a predicate wants, one after another.
ghost use Rattle.std.specs.Prelude.{◌≡◌, Some, codes};
ghost use Rattle.quick_cache_locked.specs.Asked.{MayBeAskedOfFitting};
ghost use Rattle.quick_cache_sync.specs.Walks.{beginning};

use crate::cache::Cache;
use quick_cache_model::{Lifecycle, Token};
use std::alloc::{Allocator, Global};
use std::fmt::{Debug, Formatter, Write};
use std::hash::{BuildHasher, Hash};
use std::marker::Model;
use std::sync::Wait;

/// Takes out what a predicate wants, each item as its pair, shard after shard. Each step takes the
/// write lock of one shard at a time, under which the predicate runs, and calls no hook. Counts,
/// sizes, placeholders and ghosts stay. Dropped, it takes out no more.
#[derive(Drop)]
pub struct ExtractIf<
    'a,
    K: Eq + Hash + Drop,
    V: Drop,
    We,
    B: BuildHasher,
    L: Lifecycle<K, V>,
    R: Wait,
    F,
    A: Allocator = Global,
> {
    cache: &'a Cache<K, V, We, B, L, A>,
    rt: &'a R,
    // The shard that it is in, and the token there behind which it goes on.
    shard: usize,
    after: Option<Token>,
    wanted: F,
}

impl<
    'a,
    K: Eq + Hash + Drop,
    V: Drop,
    We,
    B: BuildHasher,
    L: Lifecycle<K, V>,
    R: Wait,
    F,
    A: Allocator,
> Model for ExtractIf<'a, K, V, We, B, L, R, F, A> {
    ghost use Rattle.quick_cache_sync.specs.Walks.{WantingWalk};

    ghost Value = { WantingWalk F };

    ghost view = { λ walk. record {
      shards = walk.cache.now.shards;
      at = (walk.shard, walk.after);
      wanted = walk.wanted;
    } };
}

impl<
    'a,
    K: Eq + Hash + Drop,
    V: Drop,
    We,
    B: BuildHasher,
    L: Lifecycle<K, V>,
    R: Wait,
    F: Fn(&K, &V) -> bool,
    A: Allocator,
> Iterator for ExtractIf<'a, K, V, We, B, L, R, F, A> {
    ghost use Rattle.std.specs.Prelude.{◌≡◌, ◌≤◌, IfNone};
    ghost use Rattle.quick_cache_shard.specs.Predicates.{Answers};
    ghost use Rattle.quick_cache_sync.specs.Walks.{TakenFits, TakesWantedPair, WantsNoneUpTo, tokens_ahead};

    type Item = (K, V);

    ghost can_next = { λ walk. MayBeAskedOfFitting L.fits F.Fn walk.wanted };

    // Whatever other threads do, a pair that is taken is that of the next item which was wanted, and
    // fits. In each shard that it passed no more was wanted, and it ends only behind the last one.
    ghost next_gives = { λ old answer new.
        TakesWantedPair L.Lifecycle K.eq We B (Answers F.Fn old.wanted) old.at answer new.at
        × TakenFits L.Lifecycle answer
        × WantsNoneUpTo L.Lifecycle K.eq We B (Answers F.Fn old.wanted) old.at new.at.0
        × IfNone answer (old.shards ≤ new.at.0)
        × (new.shards ≡ old.shards)
        × (new.wanted ≡ old.wanted) };

    ghost remaining = { λ walk. tokens_ahead walk.shards walk.at };

    fn next(&mut self) -> Option<(K, V)> {
        let cache = self.cache;
        for index in self.shard..cache.shards.len() {
            let step = cache.shards[index]
                .write(self.rt)
                .take_next_if(self.after, &self.wanted);
            match step {
                Some((token, key, value)) => {
                    // Read for the proof: the number is within its type.
                    let _number = token.get();
                    self.shard = index;
                    self.after = Some(token);
                    return Some((key, value));
                }
                None => {
                    self.shard = index + 1;
                    self.after = None;
                }
            }
        }
        None
    }
}

impl<
    'a,
    K: Eq + Hash + Drop,
    V: Drop,
    We,
    B: BuildHasher,
    L: Lifecycle<K, V>,
    R: Wait,
    F,
    A: Allocator,
> Debug for ExtractIf<'a, K, V, We, B, L, R, F, A> {
    ghost debug_output = { λ _. Some (codes "ExtractIf { .. }") };

    fn fmt<W: Write>(&self, f: &mut Formatter<W>) -> std::fmt::Result {
        f.write_str("ExtractIf { .. }")
    }
}

impl<K: Eq + Hash + Drop, V: Drop, We, B: BuildHasher, L: Lifecycle<K, V>, A: Allocator> Cache<
    K,
    V,
    We,
    B,
    L,
    A,
> {
    /// Takes out the items that the predicate wants, one a step. It takes no lock itself.
    pub fn extract_if<'a, F: Fn(&K, &V) -> bool, R: Wait>(
        &'a self,
        rt: &'a R,
        wanted: F,
    ) -> ExtractIf<'a, K, V, We, B, L, R, F, A>
        // The pairs that the predicate sees fit.
        requires callable { MayBeAskedOfFitting L.fits F.Fn wanted }
        ensures begins { result.at ≡ beginning }
        ensures shards { result.shards ≡ self.now.shards }
        ensures asks { result.wanted ≡ wanted }
    {
        ExtractIf {
            cache: self,
            rt,
            shard: 0,
            after: None,
            wanted,
        }
    }
}
