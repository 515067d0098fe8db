//! Calls of a cache for tasks, which wait without a thread.
ghost use Rattle.std.specs.Prelude.{◌≡◌, false, Some, Ok};
ghost use Rattle.quick_cache_locked.specs.Fitting.{ClonesFit};
ghost use Rattle.quick_cache_model.specs.Hashing.{StandsForGiven};

use crate::cache::Cache;
use futures::Future;
use quick_cache_guard::entry_tasks::EntryFuture;
use quick_cache_guard::tasks::{GetOrInsert, ValueOrGuard};
use quick_cache_locked::LockedShard;
use quick_cache_model::{Lifecycle, ToKey, Weighter};
use quick_cache_shard::EntryAction;
use std::alloc::Allocator;
use std::hash::{BuildHasher, Hash};
use std::sync::Wait;

impl<
    K: Eq + Hash + Drop,
    V: Clone,
    We: Weighter<K, V>,
    B: BuildHasher,
    L: Lifecycle<K, V>,
    A: Allocator + Clone,
> Cache<K, V, We, B, L, A> {
    /// A future that gives the value under the query's key, or the right to load it, as
    /// `get_value_or_guard` does with no limit. What it gives is said on `ValueOrGuard`; a guard does
    /// not borrow the query. The call takes no lock; a poll does.
    pub fn get_value_or_guard_async<'a, 'q, Q: ToKey<K>, R: Wait>(
        &'a self,
        rt: &'a R,
        query: &'q Q,
    ) -> ValueOrGuard<'a, 'q, Q, K, V, L, LockedShard<K, V, We, B, L, A>, R, A>
        requires stands { StandsForGiven (Q.to_key_gives query.now) (Q.equivalent query.now) }
        ensures query { result.query ≡ query.now }
        ensures begins { result.is_finished ≡ false }
    {
        ValueOrGuard::new(rt, self.shard_of(query), query)
    }

    /// A future that gives the value under the query's key, or the one that the loader's future
    /// gives, as `get_or_insert_with` does. What it gives is said on `GetOrInsert`. The call takes
    /// no lock; a poll does.
    pub fn get_or_insert_async<'a, Q: ToKey<K>, R: Wait, E: Drop, F: Future<Output = Result<V, E>>>(
        &'a self,
        rt: &'a R,
        query: &'a Q,
        loader: F,
    ) -> GetOrInsert<'a, Q, K, V, L, LockedShard<K, V, We, B, L, A>, R, F, E, A>
    where
        L::RequestState: Drop,
        requires stands { StandsForGiven (Q.to_key_gives query.now) (Q.equivalent query.now) }
        requires loader { F.can_poll loader }
        // What it gives fits each key that the query becomes, and so do the clones of what fits.
        requires loads { (value : V) → F.gives loader (Ok value) → (key : K)
            → Q.to_key_gives query.now key → L.fits key value }
        requires clones { ClonesFit L.fits V.is_clone }
        ensures query { result.query ≡ query.now }
        ensures loader { result.loader ≡ loader }
        ensures begins { result.is_finished ≡ false }
    {
        GetOrInsert::new(rt, self.shard_of(query), query, loader)
    }

    /// A future that acts on the entry of the query's key by the callback, as `entry` does with no
    /// limit. It owns the callback, which is called under the write lock of the key's shard, once at
    /// most. What it gives, and what a poll asks of the callback, is said on `EntryFuture`. The call
    /// takes no lock; a poll does.
    pub fn entry_async<
        'a,
        'q,
        Q: ToKey<K>,
        R: Wait,
        T: Drop,
        F: FnOnce(&K, &mut V) -> EntryAction<T>,
    >(
        &'a self,
        rt: &'a R,
        query: &'q Q,
        callback: F,
    ) -> EntryFuture<'a, 'q, Q, K, V, L, LockedShard<K, V, We, B, L, A>, R, T, F, A>
        requires stands { StandsForGiven (Q.to_key_gives query.now) (Q.equivalent query.now) }
        ensures query { result.query ≡ query.now }
        ensures callback { result.callback ≡ Some callback }
        ensures begins { result.is_finished ≡ false }
    {
        EntryFuture::new(rt, self.shard_of(query), query, callback)
    }
}
