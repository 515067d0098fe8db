//! Entries that are over are taken out one after another, for who wants them told.
ghost use Rattle.std.specs.Prelude.{◌≡◌, Some, codes, not};
ghost use Rattle.quick_cache_shard.specs.Stays.{IdlesWithin};
ghost use Rattle.quick_cache_shard.specs.TakesWanted.{TakesNextWanted};
ghost use Rattle.quick_cache_shard.specs.WalksFrom.{number_or_zero};
ghost use Rattle.quick_cache_expiring.specs.Entries.{KeepsRest};
ghost use Rattle.quick_cache_expiring.specs.Lives.{lives};
ghost use Rattle.quick_cache_expiring.specs.Over.{IsOverAt, behind, moment_of, takes_from};

use crate::alone::expiring::Expiring;
use crate::lasting::Lasting;
use quick_cache_unsync::Token;
use std::alloc::{Allocator, Global};
use std::fmt::{Debug, Formatter, Write};
use std::hash::{BuildHasher, Hash};

/// Takes what is over at a moment out of a cache, each entry as its pair, by ascending token. Dropped
/// or leaked, it leaves what it did not give.
#[derive(Drop)]
pub struct TakeOver<'a, K: Eq + Hash, V, We, B: BuildHasher, L, A: Allocator = Global> {
    entries: &'a mut Expiring<K, V, We, B, L, A>,
    // The token of the last entry that was taken.
    at: Option<Token>,
    moment: u64,
}

impl<'a, K: Eq + Hash + Drop, V: Drop, We, B: BuildHasher, L, A: Allocator> Iterator
    for TakeOver<'a, K, V, We, B, L, A> {
    ghost use Rattle.quick_cache_expiring.specs.Over.{TakesOver, tokens_ahead};

    type Item = (K, Lasting<V>);

    ghost next_gives = { TakesOver K.eq };

    ghost remaining = { tokens_ahead };

    fn next(&mut self) -> Option<(K, Lasting<V>)> {
        let (token, key, lasting) = self.entries.take_next_over(self.at, self.moment)?;
        // Read for the proof: the number is within its type.
        let _number = token.get();
        self.at = Some(token);
        Some((key, lasting))
    }
}

impl<'a, K: Eq + Hash, V, We, B: BuildHasher, L, A: Allocator> Debug
    for TakeOver<'a, K, V, We, B, L, A> {
    ghost debug_output = { λ _. Some (codes "TakeOver { .. }") };

    fn fmt<W: Write>(&self, f: &mut Formatter<W>) -> std::fmt::Result {
        f.write_str("TakeOver { .. }")
    }
}

impl<K: Eq + Hash + Drop, V: Drop, We, B: BuildHasher, L, A: Allocator> Expiring<
    K,
    V,
    We,
    B,
    L,
    A,
> {
    /// Takes out the next entry behind this token that is over, by ascending token: its token and its
    /// pair. What lives stays, in its order. No hook is called, and no memory taken.
    fn take_next_over(&mut self, after: Option<Token>, now: u64) -> Option<(Token, K, Lasting<V>)>
        ensures takes { TakesNextWanted (IsOverAt now) (number_or_zero after) self.old.cache result
            self.new.cache }
        ensures stays { IdlesWithin K.eq 0 self.old.cache self.new.cache }
        ensures rest { KeepsRest self.old self.new }
    {
        let is_over = |_key: &K, lasting: &Lasting<V>| -> bool
            ensures over { result ≡ not (lives lasting.now.until now) }
        { !lasting.lives(now) };
        self.cache.take_next_if(after, &is_over)
    }

    /// Takes out what is over at this moment, one entry a step, and gives it, for who wants it told,
    /// as by `tell_each_taken`. It looks at each entry once. What was not given stays. No hook is
    /// called, and no memory taken.
    pub fn take_over(&mut self, now: u64) -> TakeOver<'_, K, V, We, B, L, A>
        ensures begins { (takes_from result).now ≡ self.old }
        ensures same_reference { (takes_from result).ghost_name ≡ self.entry.ghost_name }
        ensures first { behind result ≡ 0 }
        ensures moment { moment_of result ≡ now }
    {
        TakeOver {
            entries: self,
            at: None,
            moment: now,
        }
    }
}
