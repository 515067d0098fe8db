//! Pairs of an iterator are written, one after another.
ghost use Rattle.std.specs.Prelude.{IfErr};
ghost use Rattle.std.specs.Iterator.{IsFinite};
ghost use Rattle.quick_cache_locked.specs.Locked.{FromSome};
ghost use Rattle.quick_cache_sync.specs.Answers.{InsertsAloneBy};
ghost use Rattle.quick_cache_sync.specs.Fills.{FillsSo, GivesFitting};

use crate::cache::Cache;
use quick_cache_model::{Lifecycle, Refusal, Weighter};
use quick_cache_shard::Ruled;
use std::alloc::Allocator;
use std::hash::{BuildHasher, Hash};
use std::sync::Wait;

impl<
    K: Eq + Hash + Drop,
    V: Drop,
    We: Weighter<K, V>,
    B: BuildHasher,
    L: Lifecycle<K, V>,
    A: Allocator,
> Cache<K, V, We, B, L, A> {
    /// Inserts the pairs that the iterator gives, one after another, each as `insert` does. It takes
    /// the write lock of the shard of each key, and holds none between two pairs.
    ///
    /// # Errors
    ///
    /// The first pair that was refused, why it was, and the iterator, which still has the rest.
    /// What came before it was inserted.
    pub fn fill<I: Iterator<Item = (K, V)> + Drop, R: Wait>(
        &self,
        rt: &R,
        mut pairs: I,
    ) -> Result<(), (K, V, Refusal, I)>
    where
        L::RequestState: Drop,
        requires can { I.can_next pairs }
        requires ends { IsFinite (I.remaining pairs) }
        requires fits { GivesFitting I.next_gives L.fits pairs }
        // Each pair is an insert of its own in some shard, until one is refused or none is left.
        ensures fills { FillsSo I.next_gives (λ key value answer. FromSome L.Lifecycle K.eq
            (λ shard. InsertsAloneBy ⟦<Self as Ruled>⟧.goes K.eq shard
            L.RequestState.is_default key value answer)) pairs result }
        ensures fits { IfErr result (λ back. L.fits back.0 back.1) }
    {
        while let Some((key, value)) = pairs.next() {
            if let Err((key, value, refusal)) = self.insert(rt, key, value) {
                return Err((key, value, refusal, pairs));
            }
        }
        Ok(())
    }
}
