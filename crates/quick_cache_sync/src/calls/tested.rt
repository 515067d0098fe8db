//! Looks of a cache with a test of the caller's: a value that fails it is a miss. Whatever other
//! threads do, what is given passed the test and fits, and what is taken out failed it in that step.
ghost use Rattle.std.specs.Prelude.{IfErr, IfOk, IfSome, IsOk};
ghost use Rattle.std.specs.Fn.{FnOnceReturnsAt};
ghost use Rattle.quick_cache_shard.specs.Shard.{Shard};
ghost use Rattle.quick_cache_shard.specs.Steps.{rules_in};
ghost use Rattle.quick_cache_locked.specs.Asked.{MayBeAskedOfFittingUnder};
ghost use Rattle.quick_cache_locked.specs.Changes.{LeavesFitting, LeavesOf, MayChange, TellsOf};
ghost use Rattle.quick_cache_locked.specs.Fitting.{FitsQuery};
ghost use Rattle.quick_cache_locked.specs.Locked.{FromSome};
ghost use Rattle.quick_cache_locked.specs.Peeks.{PassesFitting, PeeksIf};
ghost use Rattle.quick_cache_locked.specs.Touches.{any_touches};
ghost use Rattle.quick_cache_sync.specs.Answers.{ChangesOrTakesSo};

use crate::cache::Cache;
use quick_cache_locked::Miss;
use quick_cache_model::{Equivalent, Lifecycle, Refusal, Weighter};
use quick_cache_shard::Ruled;
use std::alloc::Allocator;
use std::hash::{BuildHasher, Hash};
use std::sync::Wait;

impl<K: Eq + Hash + Drop, V: Clone, We, B: BuildHasher, L: Lifecycle<K, V>, A: Allocator> Cache<
    K,
    V,
    We,
    B,
    L,
    A,
> {
    /// Looks the query's key up as `get` does, where its value passes the test, which is shown it
    /// once. One that fails stays and is not cloned, and a miss is counted, as where nothing stands.
    /// It takes the read lock of the key's shard, under which the test runs.
    ///
    /// # Errors
    ///
    /// `Memory` where the clone failed of a value that passed. Nothing was counted then.
    #[inline(always)]
    pub fn get_if<Q: Equivalent<K>, F: FnOnce(&V) -> bool, R: Wait>(
        &self,
        rt: &R,
        query: &Q,
        test: F,
    ) -> Result<Result<V, Miss>, Refusal>
        // The value that the test sees fits a key that the query stands for.
        requires callable { MayBeAskedOfFittingUnder L.fits (Q.equivalent query.now) F.FnOnce test }
        ensures answers { FromSome L.Lifecycle K.eq (λ (shard : Shard K V We B L).
            PeeksIf (Q.equivalent query.now) V.is_clone (FnOnceReturnsAt F.FnOnce test) shard.state
            result) }
        ensures fits { PassesFitting L.fits (Q.equivalent query.now) V.is_clone result }
        ensures succeeds { ((value : V) → V.is_infallible value) → IsOk result }
    {
        self.reading(rt, query).get_if(query, test)
    }

    /// As `get_if`, but where no value is given no miss is counted: it is for who then goes on to a
    /// call that counts it.
    ///
    /// # Errors
    ///
    /// As `get_if`.
    #[inline(always)]
    pub fn find_if<Q: Equivalent<K>, F: FnOnce(&V) -> bool, R: Wait>(
        &self,
        rt: &R,
        query: &Q,
        test: F,
    ) -> Result<Result<V, Miss>, Refusal>
        requires callable { MayBeAskedOfFittingUnder L.fits (Q.equivalent query.now) F.FnOnce test }
        ensures answers { FromSome L.Lifecycle K.eq (λ (shard : Shard K V We B L).
            PeeksIf (Q.equivalent query.now) V.is_clone (FnOnceReturnsAt F.FnOnce test) shard.state
            result) }
        ensures fits { PassesFitting L.fits (Q.equivalent query.now) V.is_clone result }
        ensures succeeds { ((value : V) → V.is_infallible value) → IsOk result }
    {
        self.reading(rt, query).find_if(query, test)
    }

    /// As `get_if`, and it is no use of the item: nothing changes, and nothing is counted.
    ///
    /// # Errors
    ///
    /// As `get_if`.
    pub fn peek_if<Q: Equivalent<K>, F: FnOnce(&V) -> bool, R: Wait>(
        &self,
        rt: &R,
        query: &Q,
        test: F,
    ) -> Result<Result<V, Miss>, Refusal>
        requires callable { MayBeAskedOfFittingUnder L.fits (Q.equivalent query.now) F.FnOnce test }
        ensures answers { FromSome L.Lifecycle K.eq (λ (shard : Shard K V We B L).
            PeeksIf (Q.equivalent query.now) V.is_clone (FnOnceReturnsAt F.FnOnce test) shard.state
            result) }
        ensures fits { PassesFitting L.fits (Q.equivalent query.now) V.is_clone result }
        ensures succeeds { ((value : V) → V.is_infallible value) → IsOk result }
    {
        self.reading(rt, query).peek_if(query, test)
    }
}

impl<
    K: Eq + Hash + Drop,
    V: Drop,
    We: Weighter<K, V>,
    B: BuildHasher,
    L: Lifecycle<K, V>,
    A: Allocator,
> Cache<K, V, We, B, L, A> {
    /// Looks the query's key up where its value passes the test, which is shown it once, and shows
    /// it to the callback, which may write it, and whose answer is given. The item is marked and
    /// read, a hit is counted, and it is weighed anew; nothing is evicted. A pair whose value fails
    /// is taken out and given, and a miss is counted, as where nothing stands. No hook is called.
    /// It takes the write lock of the key's shard, under which both run, and no memory.
    pub fn change_or_take<
        Q: Equivalent<K>,
        P: FnOnce(&V) -> bool,
        T,
        F: FnOnce(&mut V) -> T,
        R: Wait,
    >(&self, rt: &R, query: &Q, test: P, change: F) -> Result<T, Option<(K, V)>>
        // What the test is shown fits, and what the callback is shown passed the test, too. What it
        // leaves fits.
        requires tests { MayBeAskedOfFittingUnder L.fits (Q.equivalent query.now) P.FnOnce test }
        requires callable { MayChange F.FnOnce change L.fits (Q.equivalent query.now)
            (FnOnceReturnsAt P.FnOnce test) }
        requires leaves { LeavesFitting (LeavesOf F.FnOnce change) (Q.equivalent query.now)
            (FnOnceReturnsAt P.FnOnce test) L.fits }
        ensures answers { FromSome L.Lifecycle K.eq (λ (shard : Shard K V We B L).
            ChangesOrTakesSo (LeavesOf F.FnOnce change) (Q.equivalent query.now)
            (FnOnceReturnsAt P.FnOnce test) (rules_in ⟦<Self as Ruled>⟧.goes any_touches shard)
            shard.state result) }
        ensures told { IfOk result (TellsOf (LeavesOf F.FnOnce change) (Q.equivalent query.now)
            (FnOnceReturnsAt P.FnOnce test) L.fits) }
        ensures fits { IfErr result
            (λ taken. IfSome taken (λ pair. FitsQuery L.fits (Q.equivalent query.now) pair.1)) }
    {
        self.shard_of(query)
            .write(rt)
            .change_or_take(query, test, change)
    }
}
