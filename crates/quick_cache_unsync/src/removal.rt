//! Removals: of one item, by a predicate, and of all that there is.
ghost use Rattle.std.specs.Prelude.{◌≡◌, ◌≤◌, Bool};
ghost use Rattle.std.specs.Fn.{FnOnceReturnsAt};
ghost use Rattle.quick_cache_model.specs.Hashing.{hash_of};
ghost use Rattle.quick_cache_model.specs.Removal.{Removes, RemovesIf, Retains};
ghost use Rattle.quick_cache_shard.specs.Predicates.{Answers, IsAnsweredAs, IsTestedAs, MayBeAskedUnder, MayBeAskedOfEach, RemovesAsked};
ghost use Rattle.quick_cache_shard.specs.Predicates.{RetainsAsked};
ghost use Rattle.quick_cache_shard.specs.Shard.{IsSoundShard, UpToOrder, KeepsWork};
ghost use Rattle.quick_cache_shard.specs.ShardDrain.{emptied};

use crate::cache::Cache;
use quick_cache_model::Equivalent;
use std::alloc::Allocator;
use std::hash::{BuildHasher, Hash};

impl<K: Eq + Hash, V, We, B: BuildHasher, L, A: Allocator> Cache<K, V, We, B, L, A> {
    /// Takes the item under the query's key out where its value is wanted, and gives its pair. Its
    /// ring keeps the order of the rest, and a ghost stays. The counts stay, no hook is called, and
    /// it takes no memory.
    pub fn remove_if<Q: Equivalent<K>, F: FnOnce(&V) -> bool>(
        &mut self,
        query: &Q,
        wanted: F,
    ) -> Option<(K, V)>
        requires callable { MayBeAskedUnder F.FnOnce wanted (Q.equivalent query.now)
            self.old.state }
        // Where the predicate answers as a pure test does, it is the removal by that test.
        ensures removes { (passes : V → Bool) → IsTestedAs F.FnOnce wanted passes
            → UpToOrder (RemovesIf (Q.equivalent query.now) self.old.state passes result)
            self.new.state }
        // Whatever it answers, the item goes or stays by that.
        ensures asks { UpToOrder (RemovesAsked (Q.equivalent query.now) self.old.state
            (FnOnceReturnsAt F.FnOnce wanted) result) self.new.state }
        ensures room { self.old.room ≤ self.new.room }
        ensures same { KeepsWork self.old self.new }
        ensures sound { IsSoundShard K.eq self.new }
    {
        let hash = self.shard.hash(query);
        self.shard.remove_if(hash, query, wanted)
    }
}

impl<K: Eq + Hash + Drop, V: Drop, We, B: BuildHasher, L, A: Allocator> Cache<K, V, We, B, L, A> {
    /// Takes the item under the query's key out, or a ghost of its hash. No hook is called, and no
    /// memory taken.
    pub fn remove<Q: Equivalent<K>>(&mut self, query: &Q) -> Option<(K, V)>
        ensures removes { let hash = hash_of B.BuildHasher B.Hasher.Hasher self.old.builder
            (Q.hash_input query.now) in
            UpToOrder (Removes (Q.equivalent query.now) self.old.state hash result) self.new.state }
        ensures room { self.old.room ≤ self.new.room }
        ensures same { KeepsWork self.old self.new }
    {
        let hash = self.shard.hash(query);
        self.shard.remove(hash, query)
    }

    /// Shows each item to the predicate and drops those that it does not keep. The rings keep the
    /// order of the rest; placeholders and ghosts stay, and so do the counts. No hook is called,
    /// and it takes no memory.
    pub fn retain<F: Fn(&K, &V) -> bool>(&mut self, keep: F)
        requires callable { MayBeAskedOfEach F.Fn keep self.old.state }
        // Where the predicate answers as a pure test does, it is the retain by that test.
        ensures retains { (keeps : K → V → Bool) → IsAnsweredAs F.Fn keep keeps
            → UpToOrder (Retains keeps self.old.state) self.new.state }
        // Whatever it answers, each item goes or stays by that.
        ensures asks { UpToOrder (RetainsAsked (Answers F.Fn keep) self.old.state) self.new.state }
        ensures room { self.old.room ≤ self.new.room }
        ensures same { KeepsWork self.old self.new }
        ensures sound { IsSoundShard K.eq self.new }
    {
        self.shard.retain(keep);
    }

    /// Drops all items, and forgets those that left. The counts, the sizes and the memory stay. No
    /// hook is called.
    pub fn clear(&mut self)
        ensures clears { self.new ≡ emptied self.old }
        ensures sound { IsSoundShard K.eq self.new }
    {
        self.shard.clear();
    }
}
