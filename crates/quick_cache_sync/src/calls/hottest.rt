//! The hottest items of all shards.
ghost use Rattle.std.specs.Prelude.{◌≡◌, IfOk, IfErr};
ghost use Rattle.std.specs.List.{AllByRecursion};
ghost use Rattle.quick_cache_shard.specs.Copies.{ClonesAreEqual};
ghost use Rattle.quick_cache_locked.specs.Fitting.{ClonesFit};
ghost use Rattle.quick_cache_sync.specs.Hottest.{ShowsHottest};
ghost use Rattle.quick_cache_sync.specs.InTurn.{FitsHeated};

use crate::cache::Cache;
use quick_cache_locked::Heated;
use quick_cache_model::{Lifecycle, Refusal};
use std::alloc::Allocator;
use std::hash::{BuildHasher, Hash};
use std::sync::Wait;

impl<
    K: Eq + Hash + Clone + Drop,
    V: Clone,
    We,
    B: BuildHasher,
    L: Lifecycle<K, V>,
    A: Allocator,
> Cache<K, V, We, B, L, A> {
    /// So many of the hottest items, or all that stand in a ring, each as clones of its key and its
    /// value: those of hot rings before those of cold ones, then by falling marks, and of equal heat
    /// in any order. Marks don't have the touches that `get` left since. It is no use of the items.
    /// It takes the read lock of each shard in turn, and clones so many of each shard's under it; it
    /// allocates a list of these, and one of references for each shard.
    ///
    /// # Errors
    ///
    /// `Memory` where a list or a clone was refused.
    pub fn hottest<O: Allocator + Clone, R: Wait>(
        &self,
        rt: &R,
        alloc: O,
        count: usize,
    ) -> Result<Vec<Heated<K, V>, O>, Refusal>
        ensures shows { IfOk result (λ list. ShowsHottest L.Lifecycle K.eq K.is_clone V.is_clone We B
            count self.now.shards list.items) }
        // Where clones are as their keys and values are, each pair fits.
        ensures fits { ClonesAreEqual K.eq K.is_clone → ClonesFit L.fits V.is_clone
            → IfOk result (λ list. AllByRecursion (FitsHeated L.Lifecycle) list.items) }
        ensures refused { IfErr result (λ refusal. refusal ≡ Refusal.Memory) }
    {
        let mut list = Vec::new(alloc);
        for index in 0..self.shards.len() {
            self.shards[index].read(rt).show_hottest(count, &mut list)?;
        }
        list.sort_unstable_by_key(|item| item.coolness());
        list.truncate(count);
        Ok(list)
    }
}
