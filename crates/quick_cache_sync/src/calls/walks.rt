//! Walks over the shared cache, one item a step, and no lock is held between the steps.
ghost use Rattle.std.specs.Prelude.{◌≡◌};
ghost use Rattle.quick_cache_sync.specs.Walks.{beginning};

use crate::cache::Cache;
use quick_cache_model::{Lifecycle, Refusal};
use quick_cache_shard::Token;
use std::alloc::{Allocator, Global};
use std::fmt::{Debug, Formatter, Write};
use std::hash::{BuildHasher, Hash};
use std::marker::Model;
use std::sync::Wait;

/// Shows the items, each as clones of its key and its value, shard after shard. Each step takes the
/// read lock of one shard at a time. An item whose clone is refused is an error, and the next step
/// tries it again. A key that stays in the cache all along is shown exactly once; one that comes or
/// goes meanwhile may be shown or not.
#[derive(Drop)]
pub struct Iter<
    'a,
    K: Eq + Hash + Drop,
    V: Drop,
    We,
    B: BuildHasher,
    L: Lifecycle<K, V>,
    R: Wait,
    A: Allocator = Global,
> {
    cache: &'a Cache<K, V, We, B, L, A>,
    rt: &'a R,
    // The shard that it is in, and the token there behind which it goes on.
    shard: usize,
    after: Option<Token>,
}

impl<
    'a,
    K: Eq + Hash + Drop,
    V: Drop,
    We,
    B: BuildHasher,
    L: Lifecycle<K, V>,
    R: Wait,
    A: Allocator,
> Model for Iter<'a, K, V, We, B, L, R, A> {
    ghost use Rattle.quick_cache_sync.specs.Walks.{Walk};

    ghost Value = { Walk };

    ghost view = { λ walk. record {
      shards = walk.cache.now.shards;
      at = (walk.shard, walk.after);
    } };
}

impl<
    'a,
    K: Eq + Hash + Clone + Drop,
    V: Clone,
    We,
    B: BuildHasher,
    L: Lifecycle<K, V>,
    R: Wait,
    A: Allocator,
> Iterator for Iter<'a, K, V, We, B, L, R, A> {
    ghost use Rattle.std.specs.Prelude.{◌≡◌};
    ghost use Rattle.quick_cache_sync.specs.Walks.{EndsOrRefuses, EndsUpTo, ShowsPair, ShownFits};

    type Item = Result<(K, V), Refusal>;

    // Whatever other threads do, a pair that is shown is that of the next place, and fits. Each shard
    // that it passed had no more, and it ends only behind the last one.
    ghost next_gives = { λ old answer new.
        ShowsPair L.Lifecycle K.eq We B K.is_clone V.is_clone old.at answer new.at
        × ShownFits L.Lifecycle K.eq K.is_clone V.is_clone answer
        × EndsUpTo L.Lifecycle K.eq We B old.at new.at.0
        × EndsOrRefuses old.shards answer new.at
        × (new.shards ≡ old.shards) };

    fn next(&mut self) -> Option<Result<(K, V), Refusal>> {
        let cache = self.cache;
        for index in self.shard..cache.shards.len() {
            let step = cache.shards[index].read(self.rt).show_next(self.after);
            match step {
                Ok(Some((token, key, value))) => {
                    self.shard = index;
                    self.after = Some(token);
                    return Some(Ok((key, value)));
                }
                Ok(None) => {
                    self.shard = index + 1;
                    self.after = None;
                }
                Err(refusal) => return Some(Err(refusal)),
            }
        }
        None
    }

    fn size_hint(&self) -> (usize, Option<usize>) {
        (0, None)
    }
}

impl<
    'a,
    K: Eq + Hash + Drop,
    V: Drop,
    We,
    B: BuildHasher,
    L: Lifecycle<K, V>,
    R: Wait,
    A: Allocator,
> Debug for Iter<'a, K, V, We, B, L, R, A> {
    ghost use Rattle.std.specs.Prelude.{Some, codes};

    ghost debug_output = { λ _. Some (codes "Iter { .. }") };

    fn fmt<W: Write>(&self, f: &mut Formatter<W>) -> std::fmt::Result {
        f.write_str("Iter { .. }")
    }
}

/// Takes the items out, each as its pair, shard after shard. Each step takes the write lock of one
/// shard at a time, and calls no hook. Counts, sizes, placeholders and ghosts stay. Dropped, it
/// takes out no more.
#[derive(Drop)]
pub struct Drain<
    'a,
    K: Eq + Hash + Drop,
    V: Drop,
    We,
    B: BuildHasher,
    L: Lifecycle<K, V>,
    R: Wait,
    A: Allocator = Global,
> {
    cache: &'a Cache<K, V, We, B, L, A>,
    rt: &'a R,
    // The shard that it is in, and the token there behind which it goes on.
    shard: usize,
    after: Option<Token>,
}

impl<
    'a,
    K: Eq + Hash + Drop,
    V: Drop,
    We,
    B: BuildHasher,
    L: Lifecycle<K, V>,
    R: Wait,
    A: Allocator,
> Model for Drain<'a, K, V, We, B, L, R, A> {
    ghost use Rattle.quick_cache_sync.specs.Walks.{Walk};

    ghost Value = { Walk };

    ghost view = { λ walk. record {
      shards = walk.cache.now.shards;
      at = (walk.shard, walk.after);
    } };
}

impl<
    'a,
    K: Eq + Hash + Drop,
    V: Drop,
    We,
    B: BuildHasher,
    L: Lifecycle<K, V>,
    R: Wait,
    A: Allocator,
> Iterator for Drain<'a, K, V, We, B, L, R, A> {
    ghost use Rattle.std.specs.Prelude.{◌≡◌, ◌≤◌, IfNone};
    ghost use Rattle.quick_cache_sync.specs.Walks.{EndsUpTo, TakesPair, TakenFits, tokens_ahead};

    type Item = (K, V);

    // Whatever other threads do, a pair that is taken is that of the next place, and fits. Each shard
    // that it passed had no more, and it ends only behind the last one.
    ghost next_gives = { λ old answer new.
        TakesPair L.Lifecycle K.eq We B old.at answer new.at
        × TakenFits L.Lifecycle answer
        × EndsUpTo L.Lifecycle K.eq We B old.at new.at.0
        × IfNone answer (old.shards ≤ new.at.0)
        × (new.shards ≡ old.shards) };

    ghost remaining = { λ drain. tokens_ahead drain.shards drain.at };

    fn next(&mut self) -> Option<(K, V)> {
        let cache = self.cache;
        for index in self.shard..cache.shards.len() {
            let step = cache.shards[index].write(self.rt).take_next(self.after);
            match step {
                Some((token, key, value)) => {
                    // Read for the proof: the number is within its type.
                    let _number = token.get();
                    self.shard = index;
                    self.after = Some(token);
                    return Some((key, value));
                }
                None => {
                    self.shard = index + 1;
                    self.after = None;
                }
            }
        }
        None
    }
}

impl<
    'a,
    K: Eq + Hash + Drop,
    V: Drop,
    We,
    B: BuildHasher,
    L: Lifecycle<K, V>,
    R: Wait,
    A: Allocator,
> Debug for Drain<'a, K, V, We, B, L, R, A> {
    ghost use Rattle.std.specs.Prelude.{Some, codes};

    ghost debug_output = { λ _. Some (codes "Drain { .. }") };

    fn fmt<W: Write>(&self, f: &mut Formatter<W>) -> std::fmt::Result {
        f.write_str("Drain { .. }")
    }
}

impl<K: Eq + Hash + Drop, V: Drop, We, B: BuildHasher, L: Lifecycle<K, V>, A: Allocator> Cache<
    K,
    V,
    We,
    B,
    L,
    A,
> {
    /// A walk over the items, which shows clones of them, one a step. It takes no lock itself.
    pub fn iter<'a, R: Wait>(&'a self, rt: &'a R) -> Iter<'a, K, V, We, B, L, R, A>
        ensures begins { result.at ≡ beginning }
        ensures shards { result.shards ≡ self.now.shards }
    {
        Iter {
            cache: self,
            rt,
            shard: 0,
            after: None,
        }
    }

    /// A walk that takes the items out, one a step. It takes no lock itself.
    pub fn drain<'a, R: Wait>(&'a self, rt: &'a R) -> Drain<'a, K, V, We, B, L, R, A>
        ensures begins { result.at ≡ beginning }
        ensures shards { result.shards ≡ self.now.shards }
    {
        Drain {
            cache: self,
            rt,
            shard: 0,
            after: None,
        }
    }
}
