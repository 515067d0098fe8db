//! Removals from a shard behind its lock.
ghost use Rattle.std.specs.Prelude.{[], ◌≡◌, ◌-◌, IfSome};
ghost use Rattle.std.specs.Fn.{FnOnceReturnsAt};
ghost use Rattle.quick_cache_model.specs.CacheState.{item_count};
ghost use Rattle.quick_cache_model.specs.Removal.{Removes, cleared};
ghost use Rattle.quick_cache_shard.specs.Predicates.{Answers, RemovesAsked, RetainsAsked};
ghost use Rattle.quick_cache_shard.specs.RetainsSome.{RetainsSome};
ghost use Rattle.quick_cache_shard.specs.Shard.{LosesOnly, UpToOrder, KeepsWork};
ghost use Rattle.quick_cache_shard.specs.WalksFrom.{number_or_zero};
ghost use Rattle.quick_cache_locked.specs.Asked.{MayBeAskedOfFitting, MayBeAskedOfFittingUnder};
ghost use Rattle.quick_cache_locked.specs.Fitting.{FitsQuery};
ghost use Rattle.quick_cache_locked.specs.Locked.{IsKept};

use crate::locked::LockedShard;
use quick_cache_model::{Equivalent, Lifecycle, Token};
use quick_cache_shard::Keyed;
use std::alloc::Allocator;
use std::hash::{BuildHasher, Hash};

impl<
    K: Eq + Hash + Drop,
    V: Drop,
    We,
    B: BuildHasher,
    L: Lifecycle<K, V>,
    A: Allocator,
> LockedShard<K, V, We, B, L, A> {
    /// Takes the item under the query's key out, or a ghost of its hash. The value that it gives
    /// fits a key that the query stands for.
    pub fn remove<Q: Equivalent<K>>(&mut self, query: &Q) -> Option<(K, V)>
        ensures removes { UpToOrder (Removes (Q.equivalent query.now) self.old.state
            (⟦<Self as Keyed>⟧.hash self.old.builder (Q.hash_input query.now)) result)
            self.new.state }
        ensures fits { IfSome result (λ pair. FitsQuery L.fits (Q.equivalent query.now) pair.1) }
        ensures places { LosesOnly self.old.places self.new.places }
        ensures same { KeepsWork self.old self.new }
        ensures kept { IsKept L.Lifecycle K.eq self.old }
    {
        self.facts();
        let hash = self.shard.hash(query);
        self.shard.remove(hash, query)
    }

    /// Takes the item under the query's key out where its value is wanted. What it gives fits as
    /// what `remove` gives, and so does the value that the predicate sees.
    pub fn remove_if<Q: Equivalent<K>, F: FnOnce(&V) -> bool>(
        &mut self,
        query: &Q,
        wanted: F,
    ) -> Option<(K, V)>
        requires callable { MayBeAskedOfFittingUnder L.fits (Q.equivalent query.now) F.FnOnce wanted }
        ensures asks { UpToOrder (RemovesAsked (Q.equivalent query.now) self.old.state
            (FnOnceReturnsAt F.FnOnce wanted) result) self.new.state }
        ensures fits { IfSome result (λ pair. FitsQuery L.fits (Q.equivalent query.now) pair.1) }
        ensures places { LosesOnly self.old.places self.new.places }
        ensures same { KeepsWork self.old self.new }
        ensures kept { IsKept L.Lifecycle K.eq self.old }
    {
        self.facts();
        let hash = self.shard.hash(query);
        self.shard.remove_if(hash, query, wanted)
    }

    /// Drops the items that the predicate does not keep, and tells how many. The pairs that it sees
    /// fit.
    pub fn retain<F: Fn(&K, &V) -> bool>(&mut self, keep: F) -> usize
        requires callable { MayBeAskedOfFitting L.fits F.Fn keep }
        ensures asks { UpToOrder (RetainsAsked (Answers F.Fn keep) self.old.state) self.new.state }
        ensures counts { result ≡ item_count self.old.state - item_count self.new.state }
        ensures places { LosesOnly self.old.places self.new.places }
        ensures same { KeepsWork self.old self.new }
        ensures kept { IsKept L.Lifecycle K.eq self.old }
    {
        self.facts();
        let before = self.shard.len();
        self.shard.retain(keep);
        before.saturating_sub(self.shard.len())
    }

    /// Shows the predicate so many items at most, those of greater token than this one, and drops
    /// those that it does not keep. It tells the token from which the next call goes on, none where no
    /// item is left behind, and how many it dropped. The pairs that it sees fit.
    pub fn retain_some<F: Fn(&K, &V) -> bool>(
        &mut self,
        after: Option<Token>,
        at_most: usize,
        keep: F,
    ) -> (Option<Token>, usize)
        requires callable { MayBeAskedOfFitting L.fits F.Fn keep }
        ensures retains { RetainsSome (Answers F.Fn keep) (number_or_zero after) self.old at_most
            result self.new }
        ensures same { KeepsWork self.old self.new }
        ensures kept { IsKept L.Lifecycle K.eq self.old }
    {
        self.facts();
        self.shard.retain_some(after, at_most, keep)
    }

    /// Drops all items, and forgets those that left.
    pub fn clear(&mut self)
        ensures clears { self.new.state ≡ cleared self.old.state }
        ensures places { self.new.places ≡ [] }
        ensures same { KeepsWork self.old self.new }
        ensures kept { IsKept L.Lifecycle K.eq self.old }
    {
        self.facts();
        self.shard.clear();
    }
}
