//! Entries that are taken out because they are over.
ghost use Rattle.std.specs.Prelude.{◌≡◌};
ghost use Rattle.quick_cache_shard.specs.Shard.{Shard};
ghost use Rattle.quick_cache_locked.specs.Locked.{FromSome};
ghost use Rattle.quick_cache_sync.specs.Sums.{AddsUp};
ghost use Rattle.quick_cache_expiring.specs.Lives.{lives};
ghost use Rattle.quick_cache_expiring.specs.declared.lasting.Lasting.{Lasting};
ghost use Rattle.quick_cache_expiring.specs.declared.by_value.ByValue.{ByValue};
ghost use Rattle.quick_cache_expiring_sync.specs.Purges.{PurgesAll, PurgesSome};

use crate::shared::SharedExpiring;
use quick_cache_expiring::Lasting;
use quick_cache_model::{Lifecycle, Token};
use std::alloc::Allocator;
use std::hash::{BuildHasher, Hash};
use std::sync::Wait;
use std::sync::atomic::Ordering;

impl<
    K: Eq + Hash + Drop,
    V: Drop,
    We,
    B: BuildHasher,
    L: Lifecycle<K, Lasting<V>>,
    A: Allocator,
> SharedExpiring<K, V, We, B, L, A> {
    /// Takes out all that is over at this moment, one shard after the other, and tells how many
    /// entries that were. No hook is called. It takes the write lock of each shard in turn, under
    /// which it looks at each entry there, and no memory.
    pub fn purge<R: Wait>(&self, rt: &R, now: u64) -> usize
        // Of each shard what lives is kept, in its order, and what is over is gone, and counted.
        ensures answers { AddsUp L.Lifecycle K.eq
            (λ (shard : Shard K (Lasting V) (ByValue We) B L) gone.
            PurgesAll now shard.state gone) self.now.shards result }
    {
        self.cache.retain(
            rt,
            |_key: &K, lasting: &Lasting<V>| -> bool
                ensures lives { result ≡ lives lasting.now.until now }
            { lasting.lives(now) },
        )
    }

    /// Takes out what is over at this moment of some entries of one shard, so many at most, and tells
    /// how many it took out. It looks at those behind where a call stopped before; where none is left
    /// behind, the next call begins with the next shard, and behind the last one anew. Calls of
    /// several threads at once may look at the same entries. No hook is called. It takes the write
    /// lock of that shard, and no memory.
    pub fn purge_some<R: Wait>(&self, rt: &R, now: u64, at_most: usize) -> usize
        // What lives is kept, in its order, and what was passed and is over is gone, and counted.
        ensures answers { FromSome L.Lifecycle K.eq
            (λ (shard : Shard K (Lasting V) (ByValue We) B L).
            PurgesSome now at_most shard result) }
    {
        let shard = self.next_shard.load(Ordering::SeqCst) % self.cache.num_shards();
        let after = Token::new(self.next_token.load(Ordering::SeqCst));
        let (stopped, gone) = self.cache.retain_some(
            rt,
            shard,
            after,
            at_most,
            |_key: &K, lasting: &Lasting<V>| -> bool
                ensures lives { result ≡ lives lasting.now.until now }
            { lasting.lives(now) },
        );
        match stopped {
            Some(token) => self.next_token.store(token.get(), Ordering::SeqCst),
            None => {
                self.next_token.store(0, Ordering::SeqCst);
                self.next_shard
                    .store(shard.saturating_add(1), Ordering::SeqCst);
            }
        }
        gone
    }
}
