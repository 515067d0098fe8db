//! The hottest items of a shard behind its lock, by rings and marks.
ghost use Rattle.std.specs.Prelude.{◌≡◌, ◌≤◌, ◌++◌, ℕ, vec_len, take, map, IfOk, IfErr, OnOk};
ghost use Rattle.std.specs.List.{AppendsClones};
ghost use Rattle.quick_cache_shard.specs.Shard.{shown};
ghost use Rattle.quick_cache_locked.specs.Hottest.{IsHeatedClone, by_heat, by_mark, pairs_read, ring_of, with_mark};
ghost use Rattle.quick_cache_locked.specs.Locked.{IsKept};

use crate::heated::Heated;
use crate::locked::LockedShard;
use quick_cache_loading::sharing::SharedPlaceholder;
use quick_cache_model::{Lifecycle, Queue, Refusal};
use quick_cache_shard::{RingIter, SharedPlaceholder as AnyPlaceholder};
use std::alloc::Allocator;
use std::hash::{BuildHasher, Hash};

impl<
    K: Eq + Hash + Clone,
    V: Clone,
    We,
    B: BuildHasher,
    L: Lifecycle<K, V>,
    A: Allocator,
> LockedShard<K, V, We, B, L, A> {
    /// Adds clones of so many of its hottest items to the list, or of all that stand in a ring. It
    /// is no use of the items.
    pub fn show_hottest<O: Allocator + Clone>(
        &self,
        count: usize,
        list: &mut Vec<Heated<K, V>, O>,
    ) -> Result<(), Refusal>
        ensures shows { OnOk result (AppendsClones (IsHeatedClone K.is_clone V.is_clone)
            list.old.items list.new.items (take count (by_heat self.now.state))) }
        ensures refused { IfErr result (λ refusal. refusal ≡ Refusal.Memory) }
        ensures kept { IsKept L.Lifecycle K.eq self.now }
    {
        self.facts();
        let own: Result<_, _> = list.allocator().clone();
        let Ok(own) = own else {
            return Err(Refusal::Memory);
        };
        let shown = self.hottest(own, count)?;
        add_clones(&shown, list)
    }
}

impl<
    K: Eq + Hash + Drop,
    V: Drop,
    We,
    B: BuildHasher,
    L: Lifecycle<K, V>,
    A: Allocator,
> LockedShard<K, V, We, B, L, A> {
    // So many of the hottest items, or all that stand in a ring.
    fn hottest<O: Allocator>(
        &self,
        alloc: O,
        count: usize,
    ) -> Result<Vec<Heated<&K, &V>, O>, Refusal>
        ensures shows { IfOk result (λ list.
            pairs_read list.items ≡ take count (by_heat self.now.state)) }
        ensures refused { IfErr result (λ refusal. refusal ≡ Refusal.Memory) }
    {
        let mut list = Vec::new(alloc);
        self.add_ring(&mut list, count, Queue::Hot)?;
        self.add_ring(&mut list, count, Queue::Cold)?;
        Ok(list)
    }

    // Adds the items of a ring, those of higher marks first, until there are so many.
    fn add_ring<'a, O: Allocator>(
        &'a self,
        list: &mut Vec<Heated<&'a K, &'a V>, O>,
        count: usize,
        queue: Queue,
    ) -> Result<(), Refusal>
        requires within { vec_len list.old ≤ count }
        ensures adds { OnOk result (pairs_read list.new.items ≡ take count
            (pairs_read list.old.items ++ by_mark queue (map shown (ring_of self.now.state queue)))) }
        ensures within { OnOk result (vec_len list.new ≤ count) }
        ensures refused { IfErr result (λ refusal. refusal ≡ Refusal.Memory) }
    {
        add_marked(list, count, queue, 3, self.ring(queue))?;
        add_marked(list, count, queue, 2, self.ring(queue))?;
        add_marked(list, count, queue, 1, self.ring(queue))?;
        add_marked(list, count, queue, 0, self.ring(queue))?;
        Ok(())
    }

    // The items of a ring with their marks, the next to be visited first.
    fn ring(&self, queue: Queue) -> RingIter<'_, K, V, SharedPlaceholder<K, V, L, A>, A>
        ensures { result ≡ map shown (ring_of self.now.state queue) }
    {
        match queue {
            Queue::Hot => self.shard.iter_hot(),
            Queue::Cold => self.shard.iter_cold(),
        }
    }
}

/// Adds the items of a ring that have this mark, in its order, until there are so many.
fn add_marked<'a, K: Eq + Hash, V, P: AnyPlaceholder<K>, A: Allocator, O: Allocator>(
    list: &mut Vec<Heated<&'a K, &'a V>, O>,
    count: usize,
    queue: Queue,
    mark: u8,
    mut ring: RingIter<'a, K, V, P, A>,
) -> Result<(), Refusal>
    requires within { vec_len list.old ≤ count }
    ensures adds { OnOk result (pairs_read list.new.items
        ≡ take count (pairs_read list.old.items ++ with_mark queue mark ring.entry)) }
    ensures within { OnOk result (vec_len list.new ≤ count) }
    ensures refused { IfErr result (λ refusal. refusal ≡ Refusal.Memory) }
{
    while let Some((key, value, found)) = ring.next() {
        if found == mark {
            if list.len() == count {
                return Ok(());
            }
            let item = Heated {
                queue,
                mark,
                key,
                value,
            };
            if list.push(item).is_err() {
                return Err(Refusal::Memory);
            }
        }
    }
    Ok(())
}

/// Adds clones of what is shown to the list, in its order.
fn add_clones<K: Clone, V: Clone, O: Allocator>(
    shown: &[Heated<&K, &V>],
    list: &mut Vec<Heated<K, V>, O>,
) -> Result<(), Refusal>
    ensures adds { OnOk result (AppendsClones (IsHeatedClone K.is_clone V.is_clone)
        list.old.items list.new.items (pairs_read shown.now)) }
    ensures refused { IfErr result (λ refusal. refusal ≡ Refusal.Memory) }
{
    for item in shown {
        let Ok(key) = item.key.clone() else {
            return Err(Refusal::Memory);
        };
        let Ok(value) = item.value.clone() else {
            return Err(Refusal::Memory);
        };
        let clone = Heated {
            queue: item.queue,
            mark: item.mark,
            key,
            value,
        };
        if list.push(clone).is_err() {
            return Err(Refusal::Memory);
        }
    }
    Ok(())
}
