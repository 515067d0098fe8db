//! Looks of a shard behind its lock with a test of the caller's: a value that fails it is a miss.
ghost use Rattle.std.specs.Prelude.{IfErr, IfOk, IfSome, IsOk};
ghost use Rattle.std.specs.Fn.{FnOnceReturnsAt};
ghost use Rattle.quick_cache_shard.specs.Shard.{LosesOnly, KeepsWork};
ghost use Rattle.quick_cache_shard.specs.Steps.{rules_in};
ghost use Rattle.quick_cache_locked.specs.Asked.{MayBeAskedOfFittingUnder};
ghost use Rattle.quick_cache_locked.specs.Changes.{ChangesOrTakes, LeavesFitting, LeavesOf, MayChange, TellsOf};
ghost use Rattle.quick_cache_locked.specs.Fitting.{FitsQuery};
ghost use Rattle.quick_cache_locked.specs.Locked.{IsKept};
ghost use Rattle.quick_cache_locked.specs.Peeks.{PassesFitting, PeeksIf};
ghost use Rattle.quick_cache_locked.specs.Touches.{any_touches};

use crate::locked::LockedShard;
use quick_cache_model::{Equivalent, Lifecycle, Refusal, Weighter};
use quick_cache_shard::{Miss, Ruled};
use std::alloc::Allocator;
use std::hash::{BuildHasher, Hash};

impl<
    K: Eq + Hash + Drop,
    V: Clone,
    We,
    B: BuildHasher,
    L: Lifecycle<K, V>,
    A: Allocator,
> LockedShard<K, V, We, B, L, A> {
    /// As `get`, where the value passes the test, which is shown it once. One that fails stays and
    /// is not cloned, and a miss is counted, as where nothing is found.
    #[inline(always)]
    pub fn get_if<Q: Equivalent<K>, F: FnOnce(&V) -> bool>(
        &self,
        query: &Q,
        test: F,
    ) -> Result<Result<V, Miss>, Refusal>
        requires callable { MayBeAskedOfFittingUnder L.fits (Q.equivalent query.now) F.FnOnce test }
        ensures gets { PeeksIf (Q.equivalent query.now) V.is_clone (FnOnceReturnsAt F.FnOnce test)
            self.now.state result }
        ensures fits { PassesFitting L.fits (Q.equivalent query.now) V.is_clone result }
        ensures succeeds { ((value : V) → V.is_infallible value) → IsOk result }
        ensures kept { IsKept L.Lifecycle K.eq self.now }
    {
        self.facts();
        let hash = self.shard.hash(query);
        self.shard.get_clone_if(hash, query, test)
    }

    /// As `get_if`, but where no value is given no miss is counted: it is for a call that goes on
    /// to one that counts it.
    #[inline(always)]
    pub fn find_if<Q: Equivalent<K>, F: FnOnce(&V) -> bool>(
        &self,
        query: &Q,
        test: F,
    ) -> Result<Result<V, Miss>, Refusal>
        requires callable { MayBeAskedOfFittingUnder L.fits (Q.equivalent query.now) F.FnOnce test }
        ensures finds { PeeksIf (Q.equivalent query.now) V.is_clone (FnOnceReturnsAt F.FnOnce test)
            self.now.state result }
        ensures fits { PassesFitting L.fits (Q.equivalent query.now) V.is_clone result }
        ensures succeeds { ((value : V) → V.is_infallible value) → IsOk result }
        ensures kept { IsKept L.Lifecycle K.eq self.now }
    {
        self.facts();
        let hash = self.shard.hash(query);
        self.shard.find_clone_if(hash, query, test)
    }

    /// As `find_if`, and it is no use of the item: nothing is counted.
    pub fn peek_if<Q: Equivalent<K>, F: FnOnce(&V) -> bool>(
        &self,
        query: &Q,
        test: F,
    ) -> Result<Result<V, Miss>, Refusal>
        requires callable { MayBeAskedOfFittingUnder L.fits (Q.equivalent query.now) F.FnOnce test }
        ensures peeks { PeeksIf (Q.equivalent query.now) V.is_clone (FnOnceReturnsAt F.FnOnce test)
            self.now.state result }
        ensures fits { PassesFitting L.fits (Q.equivalent query.now) V.is_clone result }
        ensures succeeds { ((value : V) → V.is_infallible value) → IsOk result }
        ensures kept { IsKept L.Lifecycle K.eq self.now }
    {
        self.facts();
        let hash = self.shard.hash(query);
        let Some(value) = self.shard.peek(hash, query) else {
            return Ok(Err(Miss::Absent));
        };
        if !test(value) {
            return Ok(Err(Miss::Failed));
        }
        match value.clone() {
            Ok(copy) => Ok(Ok(copy)),
            Err(_) => Err(Refusal::Memory),
        }
    }
}

impl<
    K: Eq + Hash + Drop,
    V: Drop,
    We: Weighter<K, V>,
    B: BuildHasher,
    L: Lifecycle<K, V>,
    A: Allocator,
> LockedShard<K, V, We, B, L, A> {
    /// Looks the query's key up where its value passes the test, which is shown it once, and shows
    /// it to the callback, which may write it; then it is weighed anew, and nothing is evicted. A
    /// pair whose value fails is taken out and given, and a miss is counted. No hook is called, and
    /// no memory taken. What the test and the callback are shown fits, and so does what is given.
    pub fn change_or_take<Q: Equivalent<K>, P: FnOnce(&V) -> bool, T, F: FnOnce(&mut V) -> T>(
        &mut self,
        query: &Q,
        test: P,
        change: F,
    ) -> Result<T, Option<(K, V)>>
        requires tests { MayBeAskedOfFittingUnder L.fits (Q.equivalent query.now) P.FnOnce test }
        requires callable { MayChange F.FnOnce change L.fits (Q.equivalent query.now)
            (FnOnceReturnsAt P.FnOnce test) }
        requires leaves { LeavesFitting (LeavesOf F.FnOnce change) (Q.equivalent query.now)
            (FnOnceReturnsAt P.FnOnce test) L.fits }
        ensures changes { ChangesOrTakes (LeavesOf F.FnOnce change) (Q.equivalent query.now)
            (FnOnceReturnsAt P.FnOnce test) (rules_in ⟦<Self as Ruled>⟧.goes any_touches self.old)
            self.old.state result self.new.state }
        ensures told { IfOk result (TellsOf (LeavesOf F.FnOnce change) (Q.equivalent query.now)
            (FnOnceReturnsAt P.FnOnce test) L.fits) }
        ensures fits { IfErr result
            (λ taken. IfSome taken (λ pair. FitsQuery L.fits (Q.equivalent query.now) pair.1)) }
        ensures places { LosesOnly self.old.places self.new.places }
        ensures same { KeepsWork self.old self.new }
        ensures kept { IsKept L.Lifecycle K.eq self.old }
    {
        self.facts();
        let hash = self.shard.hash(query);
        match self.shard.look_up_or_take(hash, query, test) {
            Ok(token) => {
                let told = change(self.shard.value_mut(Some(token), hash, query));
                self.shard.reweigh(Some(token), hash, query);
                Ok(told)
            }
            Err(taken) => Err(taken),
        }
    }
}
