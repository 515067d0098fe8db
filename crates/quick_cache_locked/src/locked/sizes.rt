//! Room in a shard behind its lock.
ghost use Rattle.std.specs.Prelude.{◌≡◌, ◌-◌, ◌≤◌, ◌+◌, IfErr, OnOk, min, max};
ghost use Rattle.quick_cache_model.specs.Refusals.{slots_taken, slot_count};
ghost use Rattle.quick_cache_shard.specs.Room.{most_room};
ghost use Rattle.quick_cache_locked.specs.Locked.{IsKept};

use crate::locked::LockedShard;
use quick_cache_model::{Lifecycle, Refusal};
use std::alloc::Allocator;
use std::hash::{BuildHasher, Hash};

impl<
    K: Eq + Hash + Drop,
    V: Drop,
    We,
    B: BuildHasher,
    L: Lifecycle<K, V>,
    A: Allocator,
> LockedShard<K, V, We, B, L, A> {
    /// Makes room for so many more entries, and for the ghosts that as many inserts can leave.
    pub fn reserve(&mut self, additional: usize) -> Result<(), Refusal>
        ensures room { OnOk result (min additional (slot_count - slots_taken self.old.state)
            ≤ self.new.room) }
        ensures at_most { self.new.room ≤ max self.old.room (most_room
            (slots_taken self.old.state) (additional + min additional self.old.state.ghost_limit)) }
        ensures refused { IfErr result (λ refusal. refusal ≡ Refusal.Memory) }
        ensures same { self.new ≡ record self.old { room = self.new.room } }
        ensures kept { IsKept L.Lifecycle K.eq self.old }
    {
        self.facts();
        self.shard.reserve(additional)
    }
}
