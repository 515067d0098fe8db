//! The items of a shard behind its lock as they are saved, and pairs that come back.
ghost use Rattle.std.specs.Prelude.{◌≡◌, map, IfErr, OnOk};
ghost use Rattle.std.specs.List.{AppendsClones};
ghost use Rattle.quick_cache_shard.specs.Shard.{KeepsPlaces, KeepsTerms};
ghost use Rattle.quick_cache_shard.specs.Steps.{RestoresBy};
ghost use Rattle.quick_cache_locked.specs.Hottest.{IsHeatedClone};
ghost use Rattle.quick_cache_locked.specs.Locked.{IsKept};
ghost use Rattle.quick_cache_locked.specs.Saving.{AppendsSaved, heated_saved};
ghost use Rattle.quick_cache_locked.specs.Touches.{any_touches};

use crate::heated::Heated;
use crate::locked::LockedShard;
use quick_cache_model::{Lifecycle, Queue, Refusal, Weighter};
use quick_cache_shard::{Ruled, SavedIter, SharedPlaceholder};
use std::alloc::Allocator;
use std::hash::{BuildHasher, Hash};

impl<
    K: Eq + Hash + Clone,
    V: Clone,
    We,
    B: BuildHasher,
    L: Lifecycle<K, V>,
    A: Allocator,
> LockedShard<K, V, We, B, L, A> {
    /// Adds clones of all its items to the list, as they are saved. It is no use of the items.
    pub fn show_saved<O: Allocator>(&self, list: &mut Vec<Heated<K, V>, O>) -> Result<(), Refusal>
        ensures shows { OnOk result (AppendsSaved K.is_clone V.is_clone self.now.state
            list.old.items list.new.items) }
        ensures refused { IfErr result (λ refusal. refusal ≡ Refusal.Memory) }
        ensures kept { IsKept L.Lifecycle K.eq self.now }
    {
        self.facts();
        add_saved(self.shard.saved(), list)
    }
}

impl<
    K: Eq + Hash + Drop,
    V: Drop,
    We: Weighter<K, V>,
    B: BuildHasher,
    L: Lifecycle<K, V>,
    A: Allocator,
> LockedShard<K, V, We, B, L, A> {
    /// Puts a pair whose value fits its key last in that ring, with that mark or the greatest there
    /// is, or among what weighs nothing. Nothing leaves for it, and no hook is called.
    pub fn restore(
        &mut self,
        key: K,
        value: V,
        queue: Queue,
        mark: u8,
    ) -> Result<(), (K, V, Option<Refusal>)>
        requires fits { L.fits key value }
        ensures restores { RestoresBy ⟦<Self as Ruled>⟧.goes any_touches self.old K.eq
            key value queue mark result self.new }
        ensures places { KeepsPlaces K.eq self.old.places self.new.places }
        ensures same { KeepsTerms self.old self.new }
        ensures kept { IsKept L.Lifecycle K.eq self.old }
    {
        self.facts();
        let hash = self.shard.hash(&key);
        self.shard.restore(hash, key, value, queue, mark)
    }
}

/// Adds clones of what is saved to the list, in its order.
fn add_saved<K: Eq + Hash + Clone, V: Clone, P: SharedPlaceholder<K>, A: Allocator, O: Allocator>(
    mut saved: SavedIter<'_, K, V, P, A>,
    list: &mut Vec<Heated<K, V>, O>,
) -> Result<(), Refusal>
    ensures adds { OnOk result (AppendsClones (IsHeatedClone K.is_clone V.is_clone)
        list.old.items list.new.items (map heated_saved saved.entry)) }
    ensures refused { IfErr result (λ refusal. refusal ≡ Refusal.Memory) }
{
    while let Some((key, value, queue, mark)) = saved.next() {
        let Ok(key) = key.clone() else {
            return Err(Refusal::Memory);
        };
        let Ok(value) = value.clone() else {
            return Err(Refusal::Memory);
        };
        let clone = Heated {
            queue,
            mark,
            key,
            value,
        };
        if list.push(clone).is_err() {
            return Err(Refusal::Memory);
        }
    }
    Ok(())
}
