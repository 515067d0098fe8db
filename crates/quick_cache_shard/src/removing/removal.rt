//! Removals: of one item, by a predicate of the caller, and of all that there is.
ghost use Rattle.std.specs.Prelude.{◌≡◌, Bool};
ghost use Rattle.std.specs.Fn.{FnOnceReturnsAt};
ghost use Rattle.quick_cache_model.specs.Removal.{Removes, RemovesIf, Retains};
ghost use Rattle.quick_cache_policy.specs.Predicates.{Answers, IsAnsweredAs, IsTestedAs, MayBeAskedUnder, MayBeAskedOfEach, RemovesAsked};
ghost use Rattle.quick_cache_policy.specs.Predicates.{RetainsAsked};
ghost use Rattle.quick_cache_shard.specs.Shard.{LosesOnly, UpToOrder, IsSoundShard};
ghost use Rattle.quick_cache_shard.specs.ShardDrain.{emptied};
ghost use Rattle.quick_cache_shard.specs.Stays.{IdlesWithin};

use crate::shard::CacheShard;
use crate::words::Keyed;
use quick_cache_model::Equivalent;
use quick_cache_policy::SharedPlaceholder;
use std::alloc::Allocator;
use std::hash::{BuildHasher, Hash};

impl<K: Eq + Hash, V, We, B: BuildHasher, L, P: SharedPlaceholder<K>, A: Allocator> CacheShard<
    K,
    V,
    We,
    B,
    L,
    P,
    A,
> {
    /// Takes the item under the query out where its value is wanted, and gives its pair. The query
    /// is handed in with its hash. A placeholder and a ghost stay. No hook is called, and no memory
    /// is asked for.
    pub fn remove_if<Q: Equivalent<K>, F: FnOnce(&V) -> bool>(
        &mut self,
        hash: u64,
        query: &Q,
        wanted: F,
    ) -> Option<(K, V)>
        requires hash_is { hash ≡ ⟦<Self as Keyed>⟧.hash self.old.builder (Q.hash_input query.now) }
        requires callable { MayBeAskedUnder F.FnOnce wanted (Q.equivalent query.now)
            self.old.state }
        // Where the predicate answers as a pure test does, it is the removal by that test.
        ensures removes { (passes : V → Bool) → IsTestedAs F.FnOnce wanted passes
            → UpToOrder (RemovesIf (Q.equivalent query.now) self.old.state passes result)
            self.new.state }
        // Whatever it answers, the item goes or stays by that.
        ensures asks { UpToOrder (RemovesAsked (Q.equivalent query.now) self.old.state
            (FnOnceReturnsAt F.FnOnce wanted) result) self.new.state }
        ensures places { LosesOnly self.old.places self.new.places }
        ensures stays { IdlesWithin K.eq 0 self.old self.new }
    {
        let taken = self.contents.remove_if(hash, query, wanted);
        self.facts();
        taken
    }
}

impl<
    K: Eq + Hash + Drop,
    V: Drop,
    We,
    B: BuildHasher,
    L,
    P: SharedPlaceholder<K>,
    A: Allocator,
> CacheShard<K, V, We, B, L, P, A> {
    /// Takes the item under the query out and gives its pair, or takes out a ghost of its hash. No
    /// hook is called, and no memory is asked for.
    pub fn remove<Q: Equivalent<K>>(&mut self, hash: u64, query: &Q) -> Option<(K, V)>
        requires hash_is { hash ≡ ⟦<Self as Keyed>⟧.hash self.old.builder (Q.hash_input query.now) }
        ensures removes { UpToOrder (Removes (Q.equivalent query.now) self.old.state hash result)
            self.new.state }
        ensures places { LosesOnly self.old.places self.new.places }
        ensures stays { IdlesWithin K.eq 0 self.old self.new }
    {
        let taken = self.contents.remove(hash, query);
        self.facts();
        taken
    }

    /// Shows each item to the predicate and drops those that it does not keep. The rings keep the
    /// order of the rest; placeholders and ghosts stay. No hook is called, and no memory is asked
    /// for.
    pub fn retain<F: Fn(&K, &V) -> bool>(&mut self, keep: F)
        requires callable { MayBeAskedOfEach F.Fn keep self.old.state }
        // Where the predicate answers as a pure test does, it is the retain by that test.
        ensures retains { (keeps : K → V → Bool) → IsAnsweredAs F.Fn keep keeps
            → UpToOrder (Retains keeps self.old.state) self.new.state }
        // Whatever it answers, each item goes or stays by that.
        ensures asks { UpToOrder (RetainsAsked (Answers F.Fn keep) self.old.state) self.new.state }
        ensures places { LosesOnly self.old.places self.new.places }
        ensures stays { IdlesWithin K.eq 0 self.old self.new }
    {
        self.contents.retain(keep);
        self.facts();
    }

    /// Drops all items, placeholders and ghosts. The counts, the sizes and the memory stay. No hook
    /// is called.
    pub fn clear(&mut self)
        ensures clears { self.new ≡ emptied self.old }
        ensures sound { IsSoundShard K.eq self.new }
    {
        self.contents.clear();
        self.facts();
    }
}
