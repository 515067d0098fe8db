//! Looks under the lock to read, by a query: what is stored, where it serves.
ghost use Rattle.std.specs.Prelude.{◌↔◌, IsTrue, IfOk, IfSome, IsOk};
ghost use Rattle.quick_cache_shard.specs.Shard.{Shard};
ghost use Rattle.quick_cache_locked.specs.Locked.{FromSome};
ghost use Rattle.quick_cache_expiring.specs.Moments.{Serves};
ghost use Rattle.quick_cache_expiring.specs.declared.by_value.ByValue.{ByValue};
ghost use Rattle.read_through.specs.Answers.{AnswersFor, GivesClones};
ghost use Rattle.read_through.specs.Serving.{ServesYoung, ShowsServing};

use crate::fresh::Fresh;
use crate::given::Source;
use crate::lives::Lives;
use crate::reading::ReadThrough;
use quick_cache_expiring::Loaded;
use quick_cache_model::{Equivalent, Lifecycle, Refusal};
use std::alloc::Allocator;
use std::hash::{BuildHasher, Hash};
use std::sync::Wait;
use std::sync::atomic::Ordering;

impl<
    K: Eq + Hash + Drop,
    V: Clone + Drop,
    F,
    S: Source<K, V>,
    A: Allocator,
    Li,
    We,
    B: BuildHasher,
> ReadThrough<K, V, F, S, A, Li, We, B> {
    /// A clone of the value that is stored under the query's key, where it serves at this moment. No
    /// loader is called, it is no use of the entry, and nothing changes or is counted. It takes the
    /// read lock of the key's shard, under which it asks for the life.
    ///
    /// # Errors
    ///
    /// `Memory` where the clone failed of a value that serves.
    pub fn peek<Q: Equivalent<K>, R: Wait>(
        &self,
        rt: &R,
        query: &Q,
        now: u64,
    ) -> Result<Option<V>, Refusal>
    where
        Li: Lives<Q, V>,
        requires clones { GivesClones S.gives V.is_clone }
        // Whatever other threads do, the value is the source's for a key that the query stands for, and
        // fresh by the life that the query has.
        ensures fresh { IfOk result (λ found. IfSome found (AnswersFor S.gives K.eq
            (Q.equivalent query.now) (Li.life_of self.now.lives query.now) now)) }
        ensures shows { FromSome ⟦<Fresh<S> as Lifecycle<K, Loaded<V>>>⟧ K.eq
            (λ (shard : Shard K (Loaded V) (ByValue We) B (Fresh S)).
            ShowsServing (Q.equivalent query.now) V.is_clone
            (Li.life_of self.now.lives query.now) now shard.state result) }
        ensures succeeds { ((value : V) → V.is_infallible value) → IsOk result }
    {
        let lives = &self.lives;
        let serves = |loaded: &Loaded<V>| -> bool
            ensures serves { IsTrue result ↔ Serves (Li.life_of lives.entry.now query.entry.now
                loaded.now.value loaded.now.moment) loaded.now.moment now }
        { loaded.serves(lives.life(query, &loaded.value, loaded.moment), now) };
        match self.cache.peek_if(rt, query, serves) {
            Ok(Ok(found)) => Ok(Some(found.value)),
            Ok(Err(_)) => Ok(None),
            Err(refusal) => Err(refusal),
        }
    }

    /// The value that is stored under the query's key, where it serves and its loader was asked no
    /// longer ago than `refresh_after`. It takes the read lock of the key's shard alone.
    #[inline(always)]
    pub(crate) fn served<Q: Equivalent<K>, R: Wait>(
        &self,
        rt: &R,
        query: &Q,
        now: u64,
        refresh_after: u64,
    ) -> Option<V>
    where
        Li: Lives<Q, V>,
        requires clones { GivesClones S.gives V.is_clone }
        ensures fresh { IfSome result (AnswersFor S.gives K.eq (Q.equivalent query.now)
            (Li.life_of self.now.lives query.now) now) }
        // It stood under the query, and its loader was asked no longer ago than that.
        ensures young { IfSome result (ServesYoung We B ⟦<Fresh<S> as Lifecycle<K, Loaded<V>>>⟧
            K.eq V.is_clone (Q.equivalent query.now) (Li.life_of self.now.lives query.now)
            refresh_after now) }
    {
        let Ok(Some(found)) = self.cache.find(rt, query) else {
            return None;
        };
        let life = self.lives.life(query, &found.value, found.moment);
        if !found.is_young(life, refresh_after, now) {
            // The look that follows counts it.
            self.not_hits.fetch_add(1, Ordering::SeqCst);
            return None;
        }
        Some(found.value)
    }
}
