//! Items that are shown to a predicate, and dropped where it does not keep them.
ghost use Rattle.std.specs.Prelude.{◌<◌};
ghost use Rattle.quick_cache_shard.specs.Predicates.{Answers};
ghost use Rattle.quick_cache_shard.specs.Shard.{Shard};
ghost use Rattle.quick_cache_shard.specs.WalksFrom.{number_or_zero};
ghost use Rattle.quick_cache_locked.specs.Asked.{MayBeAskedOfFitting};
ghost use Rattle.quick_cache_locked.specs.Locked.{FromSome};
ghost use Rattle.quick_cache_sync.specs.Answers.{RetainsAskedSo, RetainsSomeSo};
ghost use Rattle.quick_cache_sync.specs.Sums.{AddsUp};

use crate::cache::Cache;
use quick_cache_model::{Lifecycle, Token};
use std::alloc::Allocator;
use std::hash::{BuildHasher, Hash};
use std::sync::Wait;

impl<K: Eq + Hash + Drop, V: Drop, We, B: BuildHasher, L: Lifecycle<K, V>, A: Allocator> Cache<
    K,
    V,
    We,
    B,
    L,
    A,
> {
    /// Shows each item to the predicate and drops those that it does not keep, one shard after the
    /// other, and tells how many it dropped. Ghosts stay, and so do the counts. No hook is called. It
    /// takes the write lock of each shard in turn, under which the predicate runs, and no memory.
    pub fn retain<F: Fn(&K, &V) -> bool, R: Wait>(&self, rt: &R, keep: F) -> usize
        // The pairs that the predicate sees fit.
        requires callable { MayBeAskedOfFitting L.fits F.Fn keep }
        // Whatever the predicate answers, each item goes or stays by that, and the answer is how many
        // are gone.
        ensures answers { AddsUp L.Lifecycle K.eq (λ (shard : Shard K V We B L) gone.
            RetainsAskedSo (Answers F.Fn keep) shard.state gone) self.now.shards result }
    {
        let mut total: u64 = 0;
        for index in 0..self.shards.len() {
            let gone = self.shards[index].write(rt).retain(&keep);
            total = total.saturating_add(gone as u64);
        }
        total as usize
    }

    /// Shows the predicate so many items of one shard at most, those of greater token than this one,
    /// and drops those that it does not keep. It tells the token from which the next call goes on,
    /// none where no item is left behind, and how many it dropped. An item that stays keeps its token.
    /// No hook is called. It takes the write lock of that shard, under which the predicate runs, and
    /// no memory.
    pub fn retain_some<F: Fn(&K, &V) -> bool, R: Wait>(
        &self,
        rt: &R,
        shard: usize,
        after: Option<Token>,
        at_most: usize,
        keep: F,
    ) -> (Option<Token>, usize)
        requires shard { shard < self.now.shards }
        // The pairs that the predicate sees fit.
        requires callable { MayBeAskedOfFitting L.fits F.Fn keep }
        ensures answers { FromSome L.Lifecycle K.eq (λ (shard : Shard K V We B L).
            RetainsSomeSo (Answers F.Fn keep) (number_or_zero after) shard at_most result) }
    {
        self.shards[shard]
            .write(rt)
            .retain_some(after, at_most, keep)
    }
}
