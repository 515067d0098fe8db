//! The items of a cache as they can be saved, and pairs that come back to where they stood.
ghost use Rattle.std.specs.Prelude.{◌≡◌, ◌+◌, ◌≤◌, IfOk, IfErr, OnOk, Ok, Err, Some};
ghost use Rattle.std.specs.Iterator.{IsFinite};
ghost use Rattle.quick_cache_shard.specs.Saved.{SavesAll};
ghost use Rattle.quick_cache_shard.specs.Shard.{KeepsTerms, KeepsWork, made_with};
ghost use Rattle.quick_cache_shard.specs.Steps.{RestoresBy};
ghost use Rattle.quick_cache_unsync.specs.Saving.{ComesBack, empty_by, RestoresInTurn, StopsInTurn};
ghost use Rattle.quick_cache_unsync.specs.Touches.{no_touches};

use crate::cache::Cache;
use quick_cache_model::{Lifecycle, Queue, Refusal, Weighter};
use quick_cache_options::options::Options;
use quick_cache_shard::{Placeholder, Ruled, SavedIter};
use std::alloc::Allocator;
use std::hash::{BuildHasher, Hash};

impl<K: Eq + Hash, V, We, B: BuildHasher, L, A: Allocator> Cache<K, V, We, B, L, A> {
    /// All items as they are saved, each as its key, its value, its ring and its mark: those of the
    /// hot ring, the next to be visited first, those of the cold ring in the same way, and then what
    /// weighs nothing, in any order. It is no use of the items, and it allocates nothing.
    pub fn saved(&self) -> SavedIter<'_, K, V, Placeholder, A>
        ensures { SavesAll self.now.state result }
    {
        self.shard.saved()
    }
}

impl<
    K: Eq + Hash + Drop,
    V: Drop,
    We: Weighter<K, V>,
    B: BuildHasher,
    L: Lifecycle<K, V>,
    A: Allocator,
> Cache<K, V, We, B, L, A> {
    /// Makes a cache as `with_options` does, and puts these pairs back into it, one after another,
    /// each as `restore` does: of two pairs of one key the first comes back, and the other is
    /// dropped. What `saved` gave stands so again, ring by ring. Counts begin anew, and there are no
    /// ghosts.
    ///
    /// # Errors
    ///
    /// `Memory` where the allocator could not be cloned, else why the first pair that was refused
    /// was, which is dropped with all others.
    pub fn restored<I: Iterator<Item = (K, V, Queue, u8)> + Drop>(
        alloc: A,
        options: Options,
        weigher: We,
        builder: B,
        lifecycle: L,
        pairs: I,
    ) -> Result<Self, Refusal>
    where
        A: Clone,
        We: Drop,
        B: Drop,
        L: Drop,
        requires can { I.can_next pairs }
        requires ends { IsFinite (I.remaining pairs) }
        ensures restores { IfOk result (λ cache. RestoresInTurn ⟦<Self as Ruled>⟧.goes K.eq
            I.next_gives pairs (made_with (empty_by options) weigher builder lifecycle)
            (Ok tt) cache) }
        ensures stops { IfErr result (λ refusal. A.is_infallible alloc
            → StopsInTurn ⟦<Self as Ruled>⟧.goes K.eq I.next_gives pairs
            (made_with (empty_by options) weigher builder lifecycle) refusal) }
    {
        let mut cache = Cache::with_options(alloc, options, weigher, builder, lifecycle)?;
        if let Err(refusal) = cache.restore_all(pairs) {
            return Err(refusal);
        }
        Ok(cache)
    }

    /// Puts the pairs that the iterator gives back, one after another, each as `restore` does. A
    /// pair of whose key something is known is dropped.
    ///
    /// # Errors
    ///
    /// Why the first pair that was refused was. What came before it is in the cache.
    pub fn restore_all<I: Iterator<Item = (K, V, Queue, u8)> + Drop>(
        &mut self,
        mut pairs: I,
    ) -> Result<(), Refusal>
        requires can { I.can_next pairs }
        requires ends { IsFinite (I.remaining pairs) }
        // Each pair comes back or is left out, until one is refused or none is left.
        ensures restores { RestoresInTurn ⟦<Self as Ruled>⟧.goes K.eq I.next_gives pairs
            self.old result self.new }
        ensures same { KeepsWork self.old self.new }
    {
        while let Some((key, value, queue, mark)) = pairs.next() {
            if let Err(refusal) = self.restore_or_drop(key, value, queue, mark) {
                return Err(refusal);
            }
        }
        Ok(())
    }

    // Puts a pair back, and drops it where something is known of its key.
    fn restore_or_drop(&mut self, key: K, value: V, queue: Queue, mark: u8) -> Result<(), Refusal>
        ensures comes { OnOk result (ComesBack ⟦<Self as Ruled>⟧.goes K.eq self.old
            (key, value, queue, mark) self.new) }
        ensures refuses { IfErr result (λ refusal. RestoresBy ⟦<Self as Ruled>⟧.goes no_touches
            self.old K.eq key value queue mark (Err (key, value, Some refusal)) self.new) }
        ensures same { KeepsWork self.old self.new }
    {
        match self.restore(key, value, queue, mark) {
            Ok(()) => Ok(()),
            Err((_, _, None)) => Ok(()),
            Err((_, _, Some(refusal))) => Err(refusal),
        }
    }

    /// Puts a pair last in that ring, with that mark or the greatest there is, or among what weighs
    /// nothing. Nothing leaves for it, whatever it weighs: the cache may weigh more than its
    /// capacity until the next write makes room. No hook is called, and its reads begin anew.
    ///
    /// # Errors
    ///
    /// The pair, and nothing has changed. There is no refusal where something is known of its key;
    /// else it is `SlotsFull` or `Memory`.
    pub fn restore(
        &mut self,
        key: K,
        value: V,
        queue: Queue,
        mark: u8,
    ) -> Result<(), (K, V, Option<Refusal>)>
        ensures restores { RestoresBy ⟦<Self as Ruled>⟧.goes no_touches self.old K.eq
            key value queue mark result self.new }
        // It takes room for one entry at most, and asks for memory only where there is no room.
        ensures asks { IfErr result (λ back. back.2 ≡ Some Refusal.Memory → self.old.room ≡ 0) }
        ensures room { self.old.room ≤ self.new.room + 1 }
        ensures work { KeepsWork self.old self.new }
        ensures same { KeepsTerms self.old self.new }
    {
        let hash = self.shard.hash(&key);
        self.shard.restore(hash, key, value, queue, mark)
    }
}
