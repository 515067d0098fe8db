//! The right to fill a placeholder. As it goes unused, the placeholder is given up.
ghost use Rattle.std.specs.Prelude.{◌≤◌, ◌+◌};
ghost use Rattle.quick_cache_model.specs.Placeholders.{GivesUpPlaceholder};
ghost use Rattle.quick_cache_shard.specs.Shard.{UpToOrder, IsSoundShard, KeepsTerms, KeepsWork, WorksAsWrite};
ghost use Rattle.quick_cache_shard.specs.Alone.{IsDoneAlone};
ghost use Rattle.quick_cache_unsync.specs.Touches.{no_touches};
ghost use Rattle.quick_cache_unsync.specs.Steps.{FillsIfThereBy};

use crate::cache::Cache;
use quick_cache_model::{Lifecycle, Weighter};
use quick_cache_shard::{Placeholder, Ruled};
use std::alloc::{Allocator, Global};
use std::hash::{BuildHasher, Hash};

/// The right to fill the placeholder of a key that is loaded. Dropped, it gives the placeholder up:
/// the key is then as absent as before, but for a ghost of it, which has gone. One that is leaked
/// leaves the placeholder, which the next guard of the key meets.
pub struct Guard<
    'a,
    K: Eq + Hash + Drop,
    V: Drop,
    We: Weighter<K, V>,
    B: BuildHasher,
    L: Lifecycle<K, V>,
    A: Allocator = Global,
> {
    pub(crate) cache: &'a mut Cache<K, V, We, B, L, A>,
    // The placeholder by its parts: no answer holds a token beside a reference.
    pub(crate) hash: u64,
    pub(crate) slot: u32,
    pub(crate) ticket: u64,
}

impl<
    K: Eq + Hash + Drop,
    V: Drop,
    We: Weighter<K, V>,
    B: BuildHasher,
    L: Lifecycle<K, V>,
    A: Allocator,
> Drop for Guard<'_, K, V, We, B, L, A> {
    fn drop(self)
        ensures gives_up { UpToOrder
            (GivesUpPlaceholder self.entry.ticket self.entry.cache.now.state)
            self.exit.0.now.state }
        ensures room { self.entry.cache.now.room ≤ self.exit.0.now.room }
        ensures same { KeepsWork self.entry.cache.now self.exit.0.now }
        ensures sound { IsSoundShard K.eq self.exit.0.now }
    {
        let Guard {
            cache,
            hash,
            slot,
            ticket,
        } = self;
        let placeholder = Placeholder::of_parts(hash, slot, ticket);
        cache.give_up(&placeholder);
    }
}

impl<
    K: Eq + Hash + Drop,
    V: Drop,
    We: Weighter<K, V>,
    B: BuildHasher,
    L: Lifecycle<K, V>,
    A: Allocator,
> Guard<'_, K, V, We, B, L, A> {
    /// Fills the placeholder with the value, with a request state of the call's own. The value
    /// passes the admission check, and one that is too heavy is told to the cold hook; `peek` tells
    /// whether it is resident. It takes no memory.
    pub fn insert(self, value: V)
    where
        L::RequestState: Drop,
        // Where pinning is steady, the fill is a step of its definition.
        ensures fills { IsDoneAlone L.RequestState.is_default
            (FillsIfThereBy ⟦<Cache<K, V, We, B, L, A> as Ruled>⟧.goes no_touches
            self.entry.cache.now self.entry.ticket value self.exit.0.now) }
        // It takes no room.
        ensures room { self.entry.cache.now.room ≤ self.exit.0.now.room }
        // How much work it takes, whatever is pinned.
        ensures work { WorksAsWrite self.entry.cache.now self.exit.0.now }
        ensures same { KeepsTerms self.entry.cache.now self.exit.0.now }
        ensures sound { IsSoundShard K.eq self.exit.0.now }
    {
        let mut state = L::RequestState::default();
        let Guard {
            cache,
            hash,
            slot,
            ticket,
        } = self;
        let placeholder = Placeholder::of_parts(hash, slot, ticket);
        cache.fill_if_there(&mut state, &placeholder, value);
    }

    /// Fills the placeholder with the value, as `insert` does, and hands what leaves to the
    /// lifecycle with this request state.
    pub fn insert_with_lifecycle(self, value: V, state: &mut L::RequestState)
        // Where pinning is steady, the fill is a step of its definition.
        ensures fills { FillsIfThereBy ⟦<Cache<K, V, We, B, L, A> as Ruled>⟧.goes no_touches
            self.entry.cache.now self.entry.ticket value self.exit.0.now state.old state.new }
        // It takes no room.
        ensures room { self.entry.cache.now.room ≤ self.exit.0.now.room }
        // How much work it takes, whatever is pinned.
        ensures work { WorksAsWrite self.entry.cache.now self.exit.0.now }
        ensures same { KeepsTerms self.entry.cache.now self.exit.0.now }
        ensures sound { IsSoundShard K.eq self.exit.0.now }
    {
        let Guard {
            cache,
            hash,
            slot,
            ticket,
        } = self;
        let placeholder = Placeholder::of_parts(hash, slot, ticket);
        cache.fill_if_there(state, &placeholder, value);
    }
}
