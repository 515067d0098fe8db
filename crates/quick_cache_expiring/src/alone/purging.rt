//! Entries that are taken out because they are over.
ghost use Rattle.std.specs.Prelude.{◌≡◌, ◌-◌, ◌≤◌};
ghost use Rattle.quick_cache_model.specs.CacheState.{item_count};
ghost use Rattle.quick_cache_model.specs.Removal.{Retains};
ghost use Rattle.quick_cache_shard.specs.Shard.{KeepsWork, UpToOrder};
ghost use Rattle.quick_cache_expiring.specs.Entries.{KeepsRest};
ghost use Rattle.quick_cache_expiring.specs.Lives.{lives};
ghost use Rattle.quick_cache_expiring.specs.Purges.{PurgesSome};

use crate::alone::expiring::Expiring;
use crate::lasting::Lasting;
use std::alloc::Allocator;
use std::hash::{BuildHasher, Hash};

impl<K: Eq + Hash + Drop, V: Drop, We, B: BuildHasher, L, A: Allocator> Expiring<
    K,
    V,
    We,
    B,
    L,
    A,
> {
    /// Takes out all that is over at this moment, and tells how many entries that were. It looks at
    /// each entry. No hook is called, and no memory taken.
    pub fn purge(&mut self, now: u64) -> usize
        // What lives is kept, in its order, and what is over is gone.
        ensures purges { UpToOrder (Retains (λ _ lasting. lives lasting.until now)
            self.old.cache.state) self.new.cache.state }
        ensures counts { result
            ≡ item_count self.old.cache.state - item_count self.new.cache.state }
        ensures room { self.old.cache.room ≤ self.new.cache.room }
        ensures same { KeepsWork self.old.cache self.new.cache }
        ensures rest { KeepsRest self.old self.new }
    {
        let before = self.cache.len();
        self.cache.retain(
            |_key: &K, lasting: &Lasting<V>| -> bool
                ensures lives { result ≡ lives lasting.now.until now }
            { lasting.lives(now) },
        );
        before.saturating_sub(self.cache.len())
    }

    /// Takes out what is over at this moment of some entries, so many at most, and tells how many it
    /// took out. It looks at those behind where the last call stopped; where none is left behind, the
    /// next call begins anew. No hook is called, and no memory taken.
    pub fn purge_some(&mut self, now: u64, at_most: usize) -> usize
        // What lives is kept, in its order, and what was passed and is over is gone.
        ensures purges { PurgesSome now at_most self.old result self.new }
        ensures room { self.old.cache.room ≤ self.new.cache.room }
        ensures same { KeepsWork self.old.cache self.new.cache }
        ensures expired { self.new.expired ≡ self.old.expired }
    {
        let serves = |_key: &K, lasting: &Lasting<V>| -> bool
            ensures lives { result ≡ lives lasting.now.until now }
        { lasting.lives(now) };
        let (stopped, gone) = self.cache.retain_some(self.from, at_most, serves);
        self.from = stopped;
        gone
    }
}
