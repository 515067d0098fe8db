//! The numbers of a cache, which it asks of one shard after the other, and its sizes.
ghost use Rattle.std.specs.Prelude.{◌≡◌, ℕ, ◌↔◌, IfErr, IsTrue};
ghost use Rattle.quick_cache_model.specs.Sizes.{shard_part};
ghost use Rattle.quick_cache_shard.specs.Shard.{Shard};
ghost use Rattle.quick_cache_locked.specs.Locked.{FromSome};
ghost use Rattle.quick_cache_shard.specs.Steps.{SetsCapacityBy};
ghost use Rattle.quick_cache_locked.specs.Counts.{Shows};
ghost use Rattle.quick_cache_locked.specs.Touches.{any_touches};
ghost use Rattle.quick_cache_sync.specs.InTurn.{SetInTurn};
ghost use Rattle.quick_cache_sync.specs.Sums.{AddsUp};

use crate::cache::Cache;
use quick_cache_locked::Count;
use quick_cache_model::{Lifecycle, MemoryUsed, Refusal, Weighter};
use quick_cache_options::sizes::{shard_items, shard_weight};
use quick_cache_shard::Ruled;
use quick_cache_stats::Stats;
use std::alloc::Allocator;
use std::hash::{BuildHasher, Hash};
use std::sync::Wait;

impl<K: Eq + Hash + Drop, V: Drop, We, B: BuildHasher, L: Lifecycle<K, V>, A: Allocator> Cache<
    K,
    V,
    We,
    B,
    L,
    A,
> {
    /// How many items there are, those of weight 0 too, up to the greatest `usize`. It takes the
    /// read lock of each shard in turn.
    pub fn len<R: Wait>(&self, rt: &R) -> usize
        ensures answers { AddsUp L.Lifecycle K.eq (λ (shard : Shard K V We B L) shown.
            Shows Count.Items shard.state shown) self.now.shards result }
    {
        self.added_up(rt, Count::Items) as usize
    }

    /// Whether no shard has an item. It takes the read lock of each shard in turn.
    pub fn is_empty<R: Wait>(&self, rt: &R) -> bool
        ensures answers { (items : ℕ) × AddsUp L.Lifecycle K.eq (λ (shard : Shard K V We B L) shown.
            Shows Count.Items shard.state shown) self.now.shards items
            × (IsTrue result ↔ (items ≡ 0)) }
    {
        self.len(rt) == 0
    }

    /// What all items weigh, up to the greatest `u64`. It takes the read lock of each shard in turn.
    pub fn weight<R: Wait>(&self, rt: &R) -> u64
        ensures answers { AddsUp L.Lifecycle K.eq (λ (shard : Shard K V We B L) shown.
            Shows Count.Weight shard.state shown) self.now.shards result }
    {
        self.added_up(rt, Count::Weight)
    }

    /// The weight that the cache may hold, up to the greatest `u64`: that of all shards. It takes
    /// the read lock of each shard in turn.
    pub fn capacity<R: Wait>(&self, rt: &R) -> u64
        ensures answers { AddsUp L.Lifecycle K.eq (λ (shard : Shard K V We B L) shown.
            Shows Count.Capacity shard.state shown) self.now.shards result }
    {
        self.added_up(rt, Count::Capacity)
    }

    /// The weight that a shard may hold, read off the first. It takes the read lock of that shard.
    pub fn shard_capacity<R: Wait>(&self, rt: &R) -> u64
        ensures answers { FromSome L.Lifecycle K.eq (λ (shard : Shard K V We B L).
            result ≡ shard.state.capacity) }
    {
        self.shards[0].read(rt).count(Count::Capacity)
    }

    /// How many look-ups found an item, up to the greatest `u64`. It takes the read lock of each
    /// shard in turn, and looks at each slot: a look-up leaves its hit at the item.
    pub fn hits<R: Wait>(&self, rt: &R) -> u64
        ensures answers { AddsUp L.Lifecycle K.eq (λ (shard : Shard K V We B L) shown.
            Shows Count.Hits shard.state shown) self.now.shards result }
    {
        self.added_up(rt, Count::Hits)
    }

    /// How many look-ups found none, up to the greatest `u64`. It takes the read lock of each shard
    /// in turn.
    pub fn misses<R: Wait>(&self, rt: &R) -> u64
        ensures answers { AddsUp L.Lifecycle K.eq (λ (shard : Shard K V We B L) shown.
            Shows Count.Misses shard.state shown) self.now.shards result }
    {
        self.added_up(rt, Count::Misses)
    }

    /// What the cache holds and what its looks found, in one record: each number as its own call
    /// tells it, one after the other, so calls by other threads may come between them. It takes the
    /// read lock of each shard in turn, once for each number.
    pub fn stats<R: Wait>(&self, rt: &R) -> Stats
        ensures entries { AddsUp L.Lifecycle K.eq (λ (shard : Shard K V We B L) shown.
            Shows Count.Items shard.state shown) self.now.shards result.entries }
        ensures weight { AddsUp L.Lifecycle K.eq (λ (shard : Shard K V We B L) shown.
            Shows Count.Weight shard.state shown) self.now.shards result.weight }
        ensures capacity { AddsUp L.Lifecycle K.eq (λ (shard : Shard K V We B L) shown.
            Shows Count.Capacity shard.state shown) self.now.shards result.capacity }
        ensures hits { AddsUp L.Lifecycle K.eq (λ (shard : Shard K V We B L) shown.
            Shows Count.Hits shard.state shown) self.now.shards result.hits }
        ensures misses { AddsUp L.Lifecycle K.eq (λ (shard : Shard K V We B L) shown.
            Shows Count.Misses shard.state shown) self.now.shards result.misses }
        ensures others { (result.expired ≡ 0) × (result.loads ≡ 0) × (result.failed_loads ≡ 0) }
    {
        Stats {
            entries: self.len(rt) as u64,
            weight: self.weight(rt),
            capacity: self.capacity(rt),
            hits: self.hits(rt),
            misses: self.misses(rt),
            expired: 0,
            loads: 0,
            failed_loads: 0,
        }
    }

    /// How many bytes the entries and the indexes that find them take. What the keys and the values
    /// own comes apart, and so does the list of the shards. It takes the read lock of each shard in
    /// turn.
    pub fn memory_used<R: Wait>(&self, rt: &R) -> MemoryUsed {
        let mut used = MemoryUsed { entries: 0, map: 0 };
        for shard in &self.shards {
            let more = shard.read(rt).memory_used();
            used.entries = used.entries.saturating_add(more.entries);
            used.map = used.map.saturating_add(more.map);
        }
        used
    }

    /// Sets the weight that the cache may hold: each shard gets its part, rounded up, and evicts
    /// what is too much, with a request state of its own. It takes the write lock of each shard in
    /// turn, drops the request state once that is released, and takes no memory.
    pub fn set_capacity<R: Wait>(&self, rt: &R, capacity: u64)
    where
        We: Weighter<K, V>,
        L::RequestState: Drop,
    {
        let part = shard_weight(capacity, self.num_shards());
        for shard in &self.shards {
            let mut state = L::RequestState::default();
            shard.write(rt).set_capacity(part, &mut state);
        }
    }

    /// As `set_capacity`, with this request state, which goes from shard to shard: what leaves is
    /// told to it, and stays with the caller. Its hooks run under the write lock of the shard.
    pub fn set_capacity_with_lifecycle<R: Wait>(
        &self,
        rt: &R,
        capacity: u64,
        state: &mut L::RequestState,
    )
    where
        We: Weighter<K, V>,
        ensures sets { SetInTurn L.Lifecycle K.eq (λ (old new : Shard K V We B L). SetsCapacityBy
            ⟦<Self as Ruled>⟧.goes any_touches old (shard_part capacity self.now.shards) new)
            self.now.shards state.old state.new }
    {
        let part = shard_weight(capacity, self.num_shards());
        for index in 0..self.shards.len() {
            self.shards[index].write(rt).set_capacity(part, state);
        }
    }

    /// Makes room for so many more entries, of which each shard gets its part, rounded up, and for
    /// the ghosts that as many inserts can leave. It takes the write lock of each shard in turn.
    ///
    /// # Errors
    ///
    /// `Memory` where there is not enough. Room that was already made may stay.
    pub fn reserve<R: Wait>(&self, rt: &R, additional: usize) -> Result<(), Refusal>
        ensures refused { IfErr result (λ refusal. refusal ≡ Refusal.Memory) }
    {
        let part = shard_items(additional, self.num_shards());
        for shard in &self.shards {
            shard.write(rt).reserve(part)?;
        }
        Ok(())
    }

    /// Asks each shard for a number, one after the other, and adds them up.
    fn added_up<R: Wait>(&self, rt: &R, count: Count) -> u64
        ensures { AddsUp L.Lifecycle K.eq (λ (shard : Shard K V We B L) shown.
            Shows count shard.state shown) self.now.shards result }
    {
        let mut total: u64 = 0;
        for index in 0..self.shards.len() {
            total = total.saturating_add(self.shards[index].read(rt).count(count));
        }
        total
    }
}
