//! Entries that are written with an end, renewed, and removed.
ghost use Rattle.std.specs.Prelude.{◌≡◌, ◌+◌, ◌≤◌, IfErr};
ghost use Rattle.quick_cache_model.specs.Hashing.{hash_of};
ghost use Rattle.quick_cache_model.specs.Removal.{Removes};
ghost use Rattle.quick_cache_shard.specs.Alone.{IsDoneAlone};
ghost use Rattle.quick_cache_shard.specs.Shard.{KeepsTerms, KeepsWork, UpToOrder, WorksAsWrite};
ghost use Rattle.quick_cache_shard.specs.Inserts.{with_pair};
ghost use Rattle.quick_cache_shard.specs.SetsCapacity.{Rescales};
ghost use Rattle.quick_cache_shard.specs.ShardDrain.{emptied};
ghost use Rattle.quick_cache_shard.specs.Steps.{InsertsBy, SetsCapacityBy, rules_in};
ghost use Rattle.quick_cache_unsync.specs.Touches.{no_touches};
ghost use Rattle.quick_cache_expiring.specs.Lives.{end_of, lives};
ghost use Rattle.quick_cache_expiring.specs.Entries.{KeepsRest, Touches};
ghost use Rattle.quick_cache_expiring.specs.Lastings.{lasting_of};

use crate::alone::expiring::Expiring;
use crate::by_value::ByValue;
use crate::lasting::{Lasting, end_of};
use quick_cache_model::{Equivalent, Lifecycle, Refusal, Weighter};
use quick_cache_shard::Ruled;
use quick_cache_unsync::Cache;
use std::alloc::Allocator;
use std::hash::{BuildHasher, Hash};

impl<
    K: Eq + Hash + Drop,
    V: Drop,
    We: Weighter<K, V>,
    B: BuildHasher,
    L: Lifecycle<K, Lasting<V>>,
    A: Allocator,
> Expiring<K, V, We, B, L, A> {
    /// Inserts a pair that serves from this moment on, for so long, and hands what leaves to the
    /// lifecycle. One whose end would pass the greatest number is never over.
    ///
    /// # Errors
    ///
    /// The pair with its end and why: `SlotsFull` or `Memory`, only where nothing stood under its
    /// key. Nothing changed then, and no hook was called.
    pub fn insert(
        &mut self,
        key: K,
        value: V,
        now: u64,
        life: u64,
    ) -> Result<(), (K, Lasting<V>, Refusal)>
    where
        L::RequestState: Drop,
        // It is the insert of the value with its end.
        ensures inserts { IsDoneAlone L.RequestState.is_default
            (InsertsBy ⟦<Cache<K, Lasting<V>, ByValue<We>, B, L, A> as Ruled>⟧.goes no_touches
            self.old.cache K.eq key (lasting_of value (end_of now life)) result self.new.cache) }
        // It takes room for one entry at most, and asks for memory only where there is no room.
        ensures room { self.old.cache.room ≤ self.new.cache.room + 1 }
        ensures asks { IfErr result (λ back. back.2 ≡ Refusal.Memory → self.old.cache.room ≡ 0) }
        ensures work { WorksAsWrite self.old.cache self.new.cache }
        ensures same { KeepsTerms self.old.cache self.new.cache }
        ensures rest { KeepsRest self.old self.new }
    {
        let until = end_of(now, life);
        self.cache.insert(key, Lasting { value, until })
    }

    /// Inserts a pair as `insert` does, for who does not want a refused pair back: it is dropped.
    ///
    /// # Errors
    ///
    /// Why, as `insert` has it.
    pub fn put(&mut self, key: K, value: V, now: u64, life: u64) -> Result<(), Refusal>
    where
        L::RequestState: Drop,
        // It is the insert of the pair, with the same room and work.
        ensures puts { IsDoneAlone L.RequestState.is_default
            (InsertsBy ⟦<Cache<K, Lasting<V>, ByValue<We>, B, L, A> as Ruled>⟧.goes no_touches
            self.old.cache K.eq key (lasting_of value (end_of now life))
            (with_pair key (lasting_of value (end_of now life)) result) self.new.cache) }
        ensures room { self.old.cache.room ≤ self.new.cache.room + 1 }
        ensures asks { IfErr result (λ refusal. refusal ≡ Refusal.Memory
            → self.old.cache.room ≡ 0) }
        ensures work { WorksAsWrite self.old.cache self.new.cache }
        ensures same { KeepsTerms self.old.cache self.new.cache }
        ensures rest { KeepsRest self.old self.new }
    {
        let until = end_of(now, life);
        self.cache.put(key, Lasting { value, until })
    }

    /// Sets the weight that the cache may hold, and hands what leaves to the lifecycle, with a
    /// request state of its own. What is over counts like any other. It takes no memory.
    pub fn set_capacity(&mut self, capacity: u64)
    where
        L::RequestState: Drop,
        ensures sets { IsDoneAlone L.RequestState.is_default
            (SetsCapacityBy ⟦<Cache<K, Lasting<V>, ByValue<We>, B, L, A> as Ruled>⟧.goes no_touches
            self.old.cache capacity self.new.cache) }
        ensures sizes { Rescales capacity self.old.cache.state self.new.cache.state }
        ensures room { self.old.cache.room ≤ self.new.cache.room }
        ensures work { WorksAsWrite self.old.cache self.new.cache }
        ensures same { KeepsTerms self.old.cache self.new.cache }
        ensures rest { KeepsRest self.old self.new }
    {
        self.cache.set_capacity(capacity);
    }

    /// Gives the entry under the query's key a new end, where it serves at this moment: it is then
    /// as if it had been stored now, for so long. It is a look, as `get` is: the entry is marked
    /// and read, and one that is over is taken out. It tells whether an entry was renewed.
    pub fn touch<Q: Equivalent<K>>(&mut self, query: &Q, now: u64, life: u64) -> bool
        ensures touches { Touches
            (rules_in ⟦<Cache<K, Lasting<V>, ByValue<We>, B, L, A> as Ruled>⟧.goes no_touches
            self.old.cache) (Q.equivalent query.now) now (end_of now life) self.old result
            self.new }
    {
        let until = end_of(now, life);
        let serves = |lasting: &Lasting<V>| -> bool
            ensures serves { result ≡ lives lasting.now.until now }
        { lasting.lives(now) };
        let miss = match self.cache.get_mut_or_drop(query, serves) {
            Ok(mut lasting) => {
                lasting.until = until;
                drop(lasting);
                return true;
            }
            Err(miss) => miss,
        };
        self.count_over(miss);
        false
    }
}

impl<K: Eq + Hash + Drop, V: Drop, We, B: BuildHasher, L, A: Allocator> Expiring<
    K,
    V,
    We,
    B,
    L,
    A,
> {
    /// Takes the entry under the query's key out, be it over or not, or a ghost of its hash. No hook
    /// is called, and no memory taken.
    pub fn remove<Q: Equivalent<K>>(&mut self, query: &Q) -> Option<(K, Lasting<V>)>
        ensures removes { let hash = hash_of B.BuildHasher B.Hasher.Hasher self.old.cache.builder
            (Q.hash_input query.now) in
            UpToOrder (Removes (Q.equivalent query.now) self.old.cache.state hash result)
            self.new.cache.state }
        ensures room { self.old.cache.room ≤ self.new.cache.room }
        ensures same { KeepsWork self.old.cache self.new.cache }
        ensures rest { KeepsRest self.old self.new }
    {
        self.cache.remove(query)
    }

    /// Drops all entries, and forgets those that left. The counts, the sizes and the memory stay. No
    /// hook is called.
    pub fn clear(&mut self)
        ensures clears { self.new.cache ≡ emptied self.old.cache }
        ensures rest { KeepsRest self.old self.new }
    {
        self.cache.clear();
    }
}
