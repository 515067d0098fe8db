//! Many pairs at once: those of an iterator are written.
ghost use Rattle.std.specs.Prelude.{◌≡◌, IfErr};
ghost use Rattle.std.specs.Iterator.{IsFinite};
ghost use Rattle.quick_cache_shard.specs.Shard.{KeepsTerms, IsSoundShard};
ghost use Rattle.quick_cache_unsync.specs.Many.{InsertsInTurn};
ghost use Rattle.quick_cache_unsync.specs.Touches.{no_touches};

use crate::cache::Cache;
use quick_cache_model::{Lifecycle, Refusal, Weighter};
use quick_cache_shard::Ruled;
use std::alloc::Allocator;
use std::hash::{BuildHasher, Hash};

impl<
    K: Eq + Hash + Drop,
    V: Drop,
    We: Weighter<K, V>,
    B: BuildHasher,
    L: Lifecycle<K, V>,
    A: Allocator,
> Cache<K, V, We, B, L, A> {
    /// Inserts the pairs that the iterator gives, one after another, each as `insert` does.
    ///
    /// # Errors
    ///
    /// The first pair that was refused, why it was, and the iterator, which still has the rest.
    /// What came before it is in the cache, as far as it stayed.
    pub fn fill<I: Iterator<Item = (K, V)> + Drop>(
        &mut self,
        mut pairs: I,
    ) -> Result<(), (K, V, Refusal, I)>
    where
        L::RequestState: Drop,
        requires can { I.can_next pairs }
        requires ends { IsFinite (I.remaining pairs) }
        // Each pair is an insert of its own, until one is refused or none is left.
        ensures fills { InsertsInTurn ⟦<Self as Ruled>⟧.goes L.RequestState.is_default K.eq
            I.next_gives pairs self.old result self.new }
        ensures same { KeepsTerms self.old self.new }
    {
        while let Some((key, value)) = pairs.next() {
            if let Err((key, value, refusal)) = self.insert(key, value) {
                return Err((key, value, refusal, pairs));
            }
        }
        Ok(())
    }
}
