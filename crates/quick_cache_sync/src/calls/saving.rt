//! The items of all shards as they are saved, and pairs that come back to where they stood.
ghost use Rattle.std.specs.Prelude.{◌≡◌, IfOk, IfErr};
ghost use Rattle.std.specs.List.{AllByRecursion};
ghost use Rattle.quick_cache_shard.specs.Copies.{ClonesAreEqual};
ghost use Rattle.quick_cache_locked.specs.Fitting.{ClonesFit};
ghost use Rattle.quick_cache_locked.specs.Locked.{FromSome};
ghost use Rattle.quick_cache_locked.specs.Saving.{ShowsSaved};
ghost use Rattle.quick_cache_sync.specs.Answers.{RestoresSoBy};
ghost use Rattle.quick_cache_sync.specs.InTurn.{FitsHeated, ShowInTurn};

use crate::cache::Cache;
use quick_cache_locked::Heated;
use quick_cache_model::{Lifecycle, Queue, Refusal, Weighter};
use quick_cache_shard::Ruled;
use std::alloc::Allocator;
use std::hash::{BuildHasher, Hash};
use std::sync::Wait;

impl<
    K: Eq + Hash + Clone + Drop,
    V: Clone,
    We,
    B: BuildHasher,
    L: Lifecycle<K, V>,
    A: Allocator,
> Cache<K, V, We, B, L, A> {
    /// All items as they are saved, each as clones of its key and its value, with its ring and its
    /// mark: shard after shard those of the hot ring, the next to be visited first, those of the cold
    /// ring in the same way, and what weighs nothing. Marks don't have the touches that `get` left
    /// since. It is no use of the items. It takes the read lock of each shard in turn, and clones its
    /// items under it; it allocates the list.
    ///
    /// # Errors
    ///
    /// `Memory` where the list or a clone was refused.
    pub fn saved<O: Allocator, R: Wait>(
        &self,
        rt: &R,
        alloc: O,
    ) -> Result<Vec<Heated<K, V>, O>, Refusal>
        ensures shows { IfOk result (λ list. ShowInTurn L.Lifecycle K.eq We B
            (ShowsSaved K.is_clone V.is_clone) self.now.shards list.items) }
        // Where clones are as their keys and values are, each pair fits.
        ensures fits { ClonesAreEqual K.eq K.is_clone → ClonesFit L.fits V.is_clone
            → IfOk result (λ list. AllByRecursion (FitsHeated L.Lifecycle) list.items) }
        ensures refused { IfErr result (λ refusal. refusal ≡ Refusal.Memory) }
    {
        let mut list = Vec::new(alloc);
        for index in 0..self.shards.len() {
            self.shards[index].read(rt).show_saved(&mut list)?;
        }
        Ok(list)
    }
}

impl<
    K: Eq + Hash + Drop,
    V: Drop,
    We: Weighter<K, V>,
    B: BuildHasher,
    L: Lifecycle<K, V>,
    A: Allocator,
> Cache<K, V, We, B, L, A> {
    /// Puts a pair last in that ring of its shard, with that mark or the greatest there is, or among
    /// what weighs nothing. Nothing leaves for it, whatever it weighs: the shard may weigh more than
    /// its capacity until the next write to it makes room. No hook is called. It takes the write lock
    /// of the key's shard.
    ///
    /// # Errors
    ///
    /// The pair, and nothing has changed. There is no refusal where something is known of its key;
    /// else it is `SlotsFull` or `Memory`.
    pub fn restore<R: Wait>(
        &self,
        rt: &R,
        key: K,
        value: V,
        queue: Queue,
        mark: u8,
    ) -> Result<(), (K, V, Option<Refusal>)>
        requires fits { L.fits key value }
        ensures answers { FromSome L.Lifecycle K.eq (λ shard.
            RestoresSoBy ⟦<Self as Ruled>⟧.goes K.eq shard key value queue mark result) }
    {
        self.shard_of(&key)
            .write(rt)
            .restore(key, value, queue, mark)
    }
}
