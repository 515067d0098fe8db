//! Entry calls on a shard behind its lock.
ghost use Rattle.std.specs.Prelude.{◌≡◌, IfErr, IsSomeAnd};
ghost use Rattle.quick_cache_loading.specs.Waiters.{IsLoadRefusal};
ghost use Rattle.quick_cache_guard.specs.Acts.{DoesAsChosen, IfAbsent, IfGone, IfKept, LeavesFit, LeavesHeld, MayTell, TakesOnce};
ghost use Rattle.quick_cache_shard.specs.Entering.{AnswersEntry};
ghost use Rattle.quick_cache_shard.specs.Shard.{LosesOnly, KeepsWork};
ghost use Rattle.quick_cache_locked.specs.Acting.{LeavesNow, MayActNow};
ghost use Rattle.quick_cache_locked.specs.Fitting.{FitsQuery};
ghost use Rattle.quick_cache_model.specs.Hashing.{StandsForGiven};
ghost use Rattle.quick_cache_locked.specs.Loads.{RefusesLoad};
ghost use Rattle.quick_cache_locked.specs.Locked.{IsKept};
ghost use Rattle.quick_cache_locked.specs.Touches.{any_touches};
ghost use Rattle.quick_cache_shard.specs.Steps.{rules_in};

use crate::locked::LockedShard;
use quick_cache_guard::entries::EntryShard;
use quick_cache_loading::sharing::SharedPlaceholder;
use quick_cache_model::{Lifecycle, Refusal, ToKey, Weighter};
use quick_cache_shard::{EntryAction, EntryOrPlaceholder, Keyed, Ruled};
use std::alloc::Allocator;
use std::hash::{BuildHasher, Hash};

impl<
    K: Eq + Hash + Drop,
    V: Drop,
    We: Weighter<K, V>,
    B: BuildHasher,
    L: Lifecycle<K, V>,
    A: Allocator + Clone,
> LockedShard<K, V, We, B, L, A> {
    /// Shows the item under the query to the callback, which may write its value and chooses what
    /// happens. Where there is none a placeholder is made or met. What the callback is shown fits, and
    /// so does what it leaves.
    pub fn act_on<Q: ToKey<K>, T, F: FnMut(&K, &mut V) -> EntryAction<T>>(
        &mut self,
        query: &Q,
        callback: &mut F,
    ) -> Result<EntryOrPlaceholder<K, V, SharedPlaceholder<K, V, L, A>, T>, Refusal>
        requires stands { StandsForGiven (Q.to_key_gives query.now) (Q.equivalent query.now) }
        requires callable { MayActNow F.FnMut L.fits (Q.equivalent query.now) callback.old }
        requires leaves { LeavesFit (LeavesNow F.FnMut callback.old) L.fits }
        ensures acts { AnswersEntry F.FnMut (rules_in ⟦<Self as Ruled>⟧.goes any_touches self.old)
            (Q.equivalent query.now) callback.old self.old.state (λ placeholder. placeholder.ticket)
            (Q.to_key_gives query.now) (⟦<Self as Keyed>⟧.hash self.old.builder
            (Q.hash_input query.now)) result callback.new self.new.state }
        ensures fits { IfGone result (λ value. FitsQuery L.fits (Q.equivalent query.now) value) }
        ensures tells { IfKept result (λ told. MayTell (LeavesNow F.FnMut callback.old) L.fits
            (Q.equivalent query.now) told) }
        ensures uncalled { IfAbsent result (callback.new ≡ callback.old) }
        ensures refused { IfErr result IsLoadRefusal }
        ensures refuses { IfErr result (RefusesLoad (Q.equivalent query.now) self.old.state) }
        ensures chosen { DoesAsChosen (LeavesNow F.FnMut callback.old) L.fits
            (Q.equivalent query.now) (callback.new ≡ callback.old) result }
        ensures places { LosesOnly self.old.places self.new.places }
        ensures same { KeepsWork self.old self.new }
        ensures kept { IsKept L.Lifecycle K.eq self.old }
    {
        self.facts();
        let hash = self.shard.hash(query);
        self.shard
            .entry_or_placeholder(&self.maker, hash, query, callback)
    }
}

impl<
    K: Eq + Hash + Drop,
    V: Clone,
    We: Weighter<K, V>,
    B: BuildHasher,
    L: Lifecycle<K, V>,
    A: Allocator + Clone,
> EntryShard<K, V, L, A> for LockedShard<K, V, We, B, L, A> {
    fn act_on<Q: ToKey<K>, T, F: FnOnce(&K, &mut V) -> EntryAction<T>>(
        &mut self,
        query: &Q,
        callback: &mut Option<F>,
    ) -> Result<EntryOrPlaceholder<K, V, SharedPlaceholder<K, V, L, A>, T>, Refusal> {
        let mut call = |key: &K, value: &mut V| -> EntryAction<T>
            requires callable { IsSomeAnd callback.now
                (λ once. TakesOnce F.FnOnce once key.now value.old) }
            ensures called { LeavesHeld F.FnOnce callback.entry.now
                key.now value.old result value.new }
        { call_held(callback, key, value) };
        self.act_on(query, &mut call)
    }
}

/// Calls the callback that is held, which is used up.
fn call_held<K, V, T, F: FnOnce(&K, &mut V) -> EntryAction<T>>(
    callback: &mut Option<F>,
    key: &K,
    value: &mut V,
) -> EntryAction<T>
    requires callable { IsSomeAnd callback.old
        (λ once. TakesOnce F.FnOnce once key.now value.old) }
    ensures called { LeavesHeld F.FnOnce callback.old key.now value.old result value.new }
{
    match callback.take() {
        Some(once) => once(key, value),
        None => unreachable!(),
    }
}
