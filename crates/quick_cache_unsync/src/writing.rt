//! Pairs that are written: inserts, and replaces.
ghost use Rattle.std.specs.Prelude.{◌≡◌, ◌+◌, ◌≤◌, IfErr};
ghost use Rattle.quick_cache_shard.specs.Shard.{KeepsTerms, WorksAsWrite};
ghost use Rattle.quick_cache_shard.specs.Alone.{IsDoneAlone};
ghost use Rattle.quick_cache_unsync.specs.Touches.{no_touches};
ghost use Rattle.quick_cache_shard.specs.Steps.{InsertsBy, ReplacesBy};
ghost use Rattle.quick_cache_shard.specs.Inserts.{with_pair};

use crate::cache::Cache;
use quick_cache_model::{Lifecycle, Refusal, Weighter};
use quick_cache_shard::Ruled;
use std::alloc::Allocator;
use std::hash::{BuildHasher, Hash};

impl<
    K: Eq + Hash + Drop,
    V: Drop,
    We: Weighter<K, V>,
    B: BuildHasher,
    L: Lifecycle<K, V>,
    A: Allocator,
> Cache<K, V, We, B, L, A> {
    /// Inserts a pair, and hands what leaves to the lifecycle, with a request state of its own.
    ///
    /// # Errors
    ///
    /// As `insert_with_lifecycle`.
    #[inline(always)]
    pub fn insert(&mut self, key: K, value: V) -> Result<(), (K, V, Refusal)>
    where
        L::RequestState: Drop,
        // Where pinning is steady, the write is a step of its definition.
        ensures inserts { IsDoneAlone L.RequestState.is_default
            (InsertsBy ⟦<Self as Ruled>⟧.goes no_touches self.old K.eq key value result self.new) }
        // It takes room for one entry at most, and asks for memory only where there is no room.
        ensures room { self.old.room ≤ self.new.room + 1 }
        ensures asks { IfErr result (λ back. back.2 ≡ Refusal.Memory → self.old.room ≡ 0) }
        // How much work it takes, whatever is pinned.
        ensures work { WorksAsWrite self.old self.new }
        ensures same { KeepsTerms self.old self.new }
    {
        let mut state = L::RequestState::default();
        self.insert_with_lifecycle(key, value, &mut state)
    }

    /// Inserts a pair as `insert` does, for who does not want a refused pair back: it is dropped.
    ///
    /// # Errors
    ///
    /// Why it was refused: `SlotsFull` or `Memory`, only where nothing stood under its key. Nothing
    /// changed then, and no hook was called.
    #[inline]
    pub fn put(&mut self, key: K, value: V) -> Result<(), Refusal>
    where
        L::RequestState: Drop,
        // It is the insert of the pair, with the same room and work.
        ensures puts { IsDoneAlone L.RequestState.is_default
            (InsertsBy ⟦<Self as Ruled>⟧.goes no_touches self.old K.eq key value
            (with_pair key value result) self.new) }
        ensures room { self.old.room ≤ self.new.room + 1 }
        ensures asks { IfErr result (λ refusal. refusal ≡ Refusal.Memory → self.old.room ≡ 0) }
        ensures work { WorksAsWrite self.old self.new }
        ensures same { KeepsTerms self.old self.new }
    {
        match self.insert(key, value) {
            Ok(()) => Ok(()),
            Err((_key, _value, refusal)) => Err(refusal),
        }
    }

    /// Inserts a pair, and hands what leaves to the lifecycle, with this request state. A pair that
    /// is heavier than the hot target is turned away and told to the cold hook, and the answer is
    /// `Ok`.
    ///
    /// # Errors
    ///
    /// The pair and why: `SlotsFull` or `Memory`, only where nothing stood under its key. Nothing
    /// changed then, and no hook was called.
    #[inline(always)]
    pub fn insert_with_lifecycle(
        &mut self,
        key: K,
        value: V,
        state: &mut L::RequestState,
    ) -> Result<(), (K, V, Refusal)>
        // Where pinning is steady, the write is a step of its definition.
        ensures inserts { InsertsBy ⟦<Self as Ruled>⟧.goes no_touches self.old K.eq key value result
            self.new state.old state.new }
        // It takes room for one entry at most, and asks for memory only where there is no room.
        ensures room { self.old.room ≤ self.new.room + 1 }
        ensures asks { IfErr result (λ back. back.2 ≡ Refusal.Memory → self.old.room ≡ 0) }
        // How much work it takes, whatever is pinned.
        ensures work { WorksAsWrite self.old self.new }
        ensures same { KeepsTerms self.old self.new }
    {
        let hash = self.shard.hash(&key);
        self.shard.insert_pair(state, hash, key, value)
    }

    /// Replaces the item under the key by the pair, and hands what leaves to the lifecycle, with a
    /// request state of its own.
    ///
    /// # Errors
    ///
    /// As `replace_with_lifecycle`.
    pub fn replace(&mut self, key: K, value: V, soft: bool) -> Result<(), (K, V)>
    where
        L::RequestState: Drop,
        // Where pinning is steady, the write is a step of its definition. It is never refused.
        ensures replaces { IsDoneAlone L.RequestState.is_default
            (ReplacesBy ⟦<Self as Ruled>⟧.goes no_touches self.old K.eq soft key value result
            self.new) }
        // It takes no room.
        ensures room { self.old.room ≤ self.new.room }
        // How much work it takes, whatever is pinned.
        ensures work { WorksAsWrite self.old self.new }
        ensures same { KeepsTerms self.old self.new }
    {
        let mut state = L::RequestState::default();
        self.replace_with_lifecycle(key, value, soft, &mut state)
    }

    /// Replaces the item under the key by the pair, and hands what leaves to the lifecycle, with
    /// this request state. The pair takes the item's place, and its mark rises by one, unless the
    /// replace is soft. It takes no memory.
    ///
    /// # Errors
    ///
    /// The pair where it was not admitted, as the admission check left it: no item stood under its
    /// key, or it is too heavy, and then the item under its key has left.
    pub fn replace_with_lifecycle(
        &mut self,
        key: K,
        value: V,
        soft: bool,
        state: &mut L::RequestState,
    ) -> Result<(), (K, V)>
        // Where pinning is steady, the write is a step of its definition. It is never refused.
        ensures replaces { ReplacesBy ⟦<Self as Ruled>⟧.goes no_touches self.old K.eq soft
            key value result self.new state.old state.new }
        // It takes no room.
        ensures room { self.old.room ≤ self.new.room }
        // How much work it takes, whatever is pinned.
        ensures work { WorksAsWrite self.old self.new }
        ensures same { KeepsTerms self.old self.new }
    {
        let hash = self.shard.hash(&key);
        self.shard.replace_pair(state, hash, key, value, soft)
    }
}
