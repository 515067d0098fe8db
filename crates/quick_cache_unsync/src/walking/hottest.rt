//! The hottest items of a cache, by rings and marks.
ghost use Rattle.std.specs.Prelude.{◌≡◌, ◌≤◌, ◌++◌, vec_len, take, map, IfOk, IfErr, OnOk};
ghost use Rattle.quick_cache_shard.specs.Shard.{shown};
ghost use Rattle.quick_cache_unsync.specs.Hottest.{by_heat, by_mark, pairs_shown, ring_of, with_mark};

use crate::cache::Cache;
use quick_cache_model::{Queue, Refusal};
use quick_cache_shard::{Placeholder, RingIter};
use std::alloc::Allocator;
use std::hash::{BuildHasher, Hash};

impl<K: Eq + Hash, V, We, B: BuildHasher, L, A: Allocator> Cache<K, V, We, B, L, A> {
    /// So many of the hottest items, or all that stand in a ring: those of the hot ring before those
    /// of the cold one, in a ring those of higher marks first, and of equal marks the next to be
    /// visited first. What weighs nothing stands in no ring. It is no use of the items, and it
    /// allocates the list alone.
    ///
    /// # Errors
    ///
    /// `Memory` where the list finds none.
    pub fn hottest<O: Allocator>(&self, alloc: O, count: usize) -> Result<Vec<(&K, &V), O>, Refusal>
        ensures shows { IfOk result (λ list.
            pairs_shown list.items ≡ take count (by_heat self.now.state)) }
        ensures refused { IfErr result (λ refusal. refusal ≡ Refusal.Memory) }
    {
        let mut list = Vec::new(alloc);
        self.add_ring(&mut list, count, Queue::Hot)?;
        self.add_ring(&mut list, count, Queue::Cold)?;
        Ok(list)
    }

    // Adds the items of a ring, those of higher marks first, until there are so many.
    fn add_ring<'a, O: Allocator>(
        &'a self,
        list: &mut Vec<(&'a K, &'a V), O>,
        count: usize,
        queue: Queue,
    ) -> Result<(), Refusal>
        requires within { vec_len list.old ≤ count }
        ensures adds { OnOk result (pairs_shown list.new.items ≡ take count
            (pairs_shown list.old.items ++ by_mark (map shown (ring_of self.now.state queue)))) }
        ensures within { OnOk result (vec_len list.new ≤ count) }
        ensures refused { IfErr result (λ refusal. refusal ≡ Refusal.Memory) }
    {
        add_marked(list, count, 3, self.ring(queue))?;
        add_marked(list, count, 2, self.ring(queue))?;
        add_marked(list, count, 1, self.ring(queue))?;
        add_marked(list, count, 0, self.ring(queue))?;
        Ok(())
    }

    // The items of a ring with their marks, the next to be visited first.
    fn ring(&self, queue: Queue) -> RingIter<'_, K, V, Placeholder, A>
        ensures { result ≡ map shown (ring_of self.now.state queue) }
    {
        match queue {
            Queue::Hot => self.shard.iter_hot(),
            Queue::Cold => self.shard.iter_cold(),
        }
    }
}

/// Adds the items of a ring that have this mark, in its order, until there are so many.
fn add_marked<'a, K: Eq + Hash, V, A: Allocator, O: Allocator>(
    list: &mut Vec<(&'a K, &'a V), O>,
    count: usize,
    mark: u8,
    ring: RingIter<'a, K, V, Placeholder, A>,
) -> Result<(), Refusal>
    requires within { vec_len list.old ≤ count }
    ensures adds { OnOk result (pairs_shown list.new.items
        ≡ take count (pairs_shown list.old.items ++ with_mark mark ring.entry)) }
    ensures within { OnOk result (vec_len list.new ≤ count) }
    ensures refused { IfErr result (λ refusal. refusal ≡ Refusal.Memory) }
{
    for (key, value, found) in ring {
        if found == mark {
            if list.len() == count {
                return Ok(());
            }
            if list.push((key, value)).is_err() {
                return Err(Refusal::Memory);
            }
        }
    }
    Ok(())
}
