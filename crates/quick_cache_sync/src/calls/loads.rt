//! Calls of a cache that load a value where none is there, and make others wait for it. Whatever
//! other threads do, what they give fits a key that the query stands for.
ghost use Rattle.std.specs.Prelude.{◌≡◌, ⊤, true, false, Some, None, Ok, Err, IfOk, IfErr};
ghost use Rattle.quick_cache_guard.specs.Answers.{HasCause, IfGuard, IfValue, IsGivenSo, IsLoadRefusal, IsRefusedSo, RefusesAsLoad};
ghost use Rattle.quick_cache_guard.specs.Answers.{WasTold, WasToldOnce, is_timeout};
ghost use Rattle.quick_cache_guard.specs.Acts.{LeavesFit, LeavesOnce, MayAct, MayTell};
ghost use Rattle.quick_cache_guard.specs.Entries.{AnswersAsChosen, HasEntryCause, IfGivenBack, IfGuarded, IfRetained, IsRefusedAsLoad, is_late};
ghost use Rattle.quick_cache_locked.specs.Fitting.{ClonesFit, FitsQuery};
ghost use Rattle.quick_cache_guard.specs.Loaders.{LoadsSo};
ghost use Rattle.quick_cache_locked.specs.Loads.{RefusesSo, ShowsClone};
ghost use Rattle.quick_cache_loading.specs.declared.waiting.waited.Wants.{Wants};
ghost use Rattle.quick_cache_shard.specs.Shard.{Shard};
ghost use Rattle.quick_cache_model.specs.Hashing.{StandsForGiven};

use crate::cache::Cache;
use quick_cache_guard::{EntryResult, Fetched, GuardResult, PlaceholderGuard, Turns};
use quick_cache_locked::LockedShard;
use quick_cache_model::{Lifecycle, Refusal, ToKey, Weighter};
use quick_cache_shard::EntryAction;
use std::alloc::Allocator;
use std::hash::{BuildHasher, Hash};
use std::sync::Wait;
use std::time::{Clock, Duration};

impl<
    K: Eq + Hash + Drop,
    V: Clone,
    We: Weighter<K, V>,
    B: BuildHasher,
    L: Lifecycle<K, V>,
    A: Allocator + Clone,
> Cache<K, V, We, B, L, A> {
    /// The value under the query's key, or the right to load it. Who finds the key being loaded
    /// waits, for so many turns of a millisecond as the limit has, rounded up. With a limit of zero
    /// nobody waits, and one of more turns than a `u64` holds is no limit.
    ///
    /// It looks under the read lock of the key's shard first. Where it finds nothing it takes the
    /// write lock, and lets it go before it waits. One hit or one miss is counted.
    pub fn get_value_or_guard<'a, Q: ToKey<K>, R: Wait + Clock>(
        &'a self,
        rt: &'a R,
        query: &Q,
        limit: Option<Duration>,
    ) -> GuardResult<V, PlaceholderGuard<'a, K, V, L, LockedShard<K, V, We, B, L, A>, R, A>>
        requires stands { StandsForGiven (Q.to_key_gives query.now) (Q.equivalent query.now) }
        ensures fits { ClonesFit L.fits V.is_clone
            → IfValue result (λ value. FitsQuery L.fits (Q.equivalent query.now) value) }
        // The guard is for a key that the query becomes.
        ensures key { IfGuard result (λ key. Q.to_key_gives query.now key) }
        // A value was found in some shard, or came to one who waits; a refusal is some shard's, or
        // that of a placeholder's state.
        ensures cause { HasCause (WasToldOnce V.is_clone (Q.equivalent query.now) Wants.Value)
            (λ value (shard : Shard K V We B L). ShowsClone L.Lifecycle K.eq V.is_clone
            (Q.equivalent query.now) value shard)
            (RefusesSo L.Lifecycle K.eq (Q.equivalent query.now)) (Some result) }
        // It is refused as a load is, and in time where there is no limit.
        ensures refused { RefusesAsLoad result }
        ensures timely { limit ≡ None → is_timeout result ≡ false }
    {
        PlaceholderGuard::get_value_or_guard(rt, self.shard_of(query), query, limit)
    }

    /// The value under the query's key, or the one that the loader gives, which is put in. Who finds
    /// the key being loaded waits, with no limit. The loader is called under no lock, once at most;
    /// what it gives is answered also where it could not be kept.
    ///
    /// # Errors
    ///
    /// Of the two, the outer one is why nothing was loaded, and the inner one is the loader's. The
    /// guard was handed on then, or the placeholder given up.
    pub fn get_or_insert_with<Q: ToKey<K>, R: Wait, E: Drop, F: FnOnce() -> Result<V, E>>(
        &self,
        rt: &R,
        query: &Q,
        loader: F,
    ) -> Result<Result<V, E>, Refusal>
    where
        L::RequestState: Drop,
        requires stands { StandsForGiven (Q.to_key_gives query.now) (Q.equivalent query.now) }
        requires loader { F.pre loader }
        // What it gives fits each key that the query becomes, and so do the clones of what fits.
        requires loads { (value : V) → F.post loader (Ok value)
            → (key : K) → Q.to_key_gives query.now key → L.fits key value }
        requires clones { ClonesFit L.fits V.is_clone }
        ensures fits { IfOk result (λ loaded. IfOk loaded
            (λ value. FitsQuery L.fits (Q.equivalent query.now) value)) }
        // A value was found in some shard, or came to one who waits, or the loader gave it; a refusal
        // is some shard's, or that of a placeholder's state.
        ensures cause { LoadsSo (WasTold V.is_clone (Q.equivalent query.now) Wants.Value false)
            (λ value (shard : Shard K V We B L). ShowsClone L.Lifecycle K.eq V.is_clone
            (Q.equivalent query.now) value shard) (RefusesSo L.Lifecycle K.eq (Q.equivalent query.now))
            (λ value. F.post loader (Ok value)) result }
        ensures error { IfOk result (λ loaded. IfErr loaded (λ error. F.post loader (Err error))) }
        ensures refused { IfErr result IsLoadRefusal }
    {
        PlaceholderGuard::get_or_insert_with(rt, self.shard_of(query), query, loader)
    }

    /// As `get_or_insert_with`, and tells whether this call's loader gave the value.
    pub fn get_or_insert_told<Q: ToKey<K>, R: Wait, E: Drop, F: FnOnce() -> Result<V, E>>(
        &self,
        rt: &R,
        query: &Q,
        loader: F,
    ) -> Result<Result<Fetched<V>, E>, Refusal>
    where
        L::RequestState: Drop,
        requires stands { StandsForGiven (Q.to_key_gives query.now) (Q.equivalent query.now) }
        requires loader { F.pre loader }
        // What it gives fits each key that the query becomes, and so do the clones of what fits.
        requires loads { (value : V) → F.post loader (Ok value)
            → (key : K) → Q.to_key_gives query.now key → L.fits key value }
        requires clones { ClonesFit L.fits V.is_clone }
        ensures fits { IfOk result (λ loaded. IfOk loaded
            (λ fetched. FitsQuery L.fits (Q.equivalent query.now) fetched.value)) }
        // Where it is told to be loaded, the loader gave it.
        ensures loaded { IfOk result (λ loaded. IfOk loaded
            (λ fetched. fetched.loaded ≡ true → F.post loader (Ok fetched.value))) }
        // Where it is not, it was found in some shard, or came to one who waits.
        ensures found { IfOk result (λ loaded. IfOk loaded
            (λ fetched. fetched.loaded ≡ false → IsGivenSo
            (WasTold V.is_clone (Q.equivalent query.now) Wants.Value false)
            (λ value (shard : Shard K V We B L). ShowsClone L.Lifecycle K.eq V.is_clone
            (Q.equivalent query.now) value shard) fetched.value)) }
        ensures error { IfOk result (λ loaded. IfErr loaded (λ error. F.post loader (Err error))) }
        // It is refused by some shard, or by a placeholder's state.
        ensures cause { IfErr result (IsRefusedSo
            (WasTold V.is_clone (Q.equivalent query.now) Wants.Value false)
            (λ refusal (shard : Shard K V We B L). RefusesSo L.Lifecycle K.eq
            (Q.equivalent query.now) refusal shard)) }
        ensures refused { IfErr result IsLoadRefusal }
    {
        PlaceholderGuard::get_or_insert_told(rt, self.shard_of(query), query, loader)
    }

    /// Shows the item under the query's key to the callback, under the write lock of the key's
    /// shard. The callback may write the value, and chooses what happens: the item stays, or goes,
    /// or gives its value and leaves a placeholder, of which this call gets the guard. It is called
    /// once at most. A callback that calls the same cache may wait forever.
    ///
    /// Where there is no item, this call gets the guard of a placeholder that it makes. Where
    /// another loads the key it waits, as `get_value_or_guard` does, and looks again once that load
    /// has ended; all its waits share the limit.
    pub fn entry<
        'a,
        Q: ToKey<K>,
        R: Wait + Clock,
        T: Drop,
        F: FnOnce(&K, &mut V) -> EntryAction<T>,
    >(
        &'a self,
        rt: &'a R,
        query: &Q,
        limit: Option<Duration>,
        callback: F,
    ) -> EntryResult<T, K, V, PlaceholderGuard<'a, K, V, L, LockedShard<K, V, We, B, L, A>, R, A>>
        requires stands { StandsForGiven (Q.to_key_gives query.now) (Q.equivalent query.now) }
        // The callback is callable at values that fit, and has to be at no others; what it leaves
        // fits.
        requires callable { MayAct F.FnOnce L.fits (Q.equivalent query.now) callback }
        requires leaves { LeavesFit (LeavesOnce F.FnOnce callback) L.fits }
        // What is told was told of a value that fits, too.
        ensures fits { IfGivenBack result (λ value. FitsQuery L.fits (Q.equivalent query.now) value) }
        ensures told { IfRetained result (λ told. MayTell (LeavesOnce F.FnOnce callback) L.fits
            (Q.equivalent query.now) told) }
        // A guard is for a key that the query becomes.
        ensures key { IfGuarded result (λ key. Q.to_key_gives query.now key) }
        // The answer is what the callback chose, by its one call, of an item that stood in the
        // shard then.
        ensures chosen { AnswersAsChosen (LeavesOnce F.FnOnce callback) L.fits
            (Q.equivalent query.now) ⊤ result }
        // A refusal is some shard's, or that of a placeholder's state.
        ensures cause { HasEntryCause (WasToldOnce V.is_clone (Q.equivalent query.now) Wants.End)
            (λ refusal (shard : Shard K V We B L). RefusesSo L.Lifecycle K.eq
            (Q.equivalent query.now) refusal shard) result }
        // It is refused as a load is, and in time where there is no limit.
        ensures refused { IsRefusedAsLoad result }
        ensures timely { limit ≡ None → is_late result ≡ false }
    {
        PlaceholderGuard::entry(
            rt,
            self.shard_of(query),
            query,
            &mut Turns::within(limit),
            callback,
        )
    }
}
