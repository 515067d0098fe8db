//! Looks with a test of the caller's: a value that fails it is a miss.
//!
//! A call that lends drops what it takes out: beside a lent value no answer can hold a pair of any
//! types, or no caller would know what the cache ends as.
ghost use Rattle.std.specs.Prelude.{◌≡◌, IfErr, IfOk, Ok, Err};
ghost use Rattle.std.specs.Borrow.{sem, RestsIfErr};
ghost use Rattle.std.specs.Fn.{FnOnceReturnsAt};
ghost use Rattle.quick_cache_shard.specs.Predicates.{MayBeAskedUnder};
ghost use Rattle.quick_cache_shard.specs.Shard.{IsSoundShard};
ghost use Rattle.quick_cache_shard.specs.Tests.{FindsOrTakes, GetsOrDrops, LooksUpIf, ok_copied};

use crate::cache::Cache;
use crate::lent::reference::RefMut;
use quick_cache_model::{Equivalent, Lifecycle, Weighter};
use quick_cache_shard::{Miss, Token, Typed};
use std::alloc::Allocator;
use std::hash::{BuildHasher, Hash};

impl<K: Eq + Hash, V, We, B: BuildHasher, L, A: Allocator> Cache<K, V, We, B, L, A> {
    ghost use Rattle.quick_cache_shard.specs.Lent.{ends_so};

    /// Looks the query's key up as `get` does, where its value passes the test, which is shown it
    /// once. One that fails stays as it is, and a miss is counted. It takes no memory.
    #[inline(always)]
    pub fn get_if<Q: Equivalent<K>, F: FnOnce(&V) -> bool>(
        &mut self,
        query: &Q,
        test: F,
    ) -> Result<&V, Miss>
        requires callable { MayBeAskedUnder F.FnOnce test (Q.equivalent query.now) self.old.state }
        ensures* looks_up { sem 𝓛 (ends_so ⟦<Self as Typed>⟧.lender_row self.entry
            (λ new. LooksUpIf (Q.equivalent query.now) (FnOnceReturnsAt F.FnOnce test)
            self.old.state (ok_copied result) new.state
            × (new ≡ record self.old { state = new.state }))) }
    {
        let hash = self.shard.hash(query);
        self.shard.get_if(hash, query, test)
    }

    /// As `get_if`, where a pair whose value fails is taken out and dropped, and a miss is counted.
    /// No hook is called.
    #[inline(always)]
    pub fn get_or_drop<Q: Equivalent<K>, F: FnOnce(&V) -> bool>(
        &mut self,
        query: &Q,
        test: F,
    ) -> Result<&V, Miss>
    where
        K: Drop,
        V: Drop,
        requires callable { MayBeAskedUnder F.FnOnce test (Q.equivalent query.now) self.old.state }
        ensures* looks_up { sem 𝓛 (ends_so ⟦<Self as Typed>⟧.lender_row self.entry
            (GetsOrDrops (Q.equivalent query.now) (FnOnceReturnsAt F.FnOnce test) self.old
            (ok_copied result))) }
    {
        let hash = self.shard.hash(query);
        self.shard.get_or_drop(hash, query, test)
    }

    /// As `get_or_drop`, and gives the pair that is taken out, or else the token of the item, by
    /// which the shard shows it.
    #[inline(always)]
    pub fn look_up_or_take<Q: Equivalent<K>, F: FnOnce(&V) -> bool>(
        &mut self,
        query: &Q,
        test: F,
    ) -> Result<Token, Option<(K, V)>>
        requires callable { MayBeAskedUnder F.FnOnce test (Q.equivalent query.now) self.old.state }
        ensures looks_up { FindsOrTakes (Q.equivalent query.now) (FnOnceReturnsAt F.FnOnce test)
            self.old result self.new }
        ensures sound { IsSoundShard K.eq self.new }
    {
        let hash = self.shard.hash(query);
        self.shard.look_up_or_take(hash, query, test)
    }
}

impl<
    K: Eq + Hash + Drop,
    V: Drop,
    We: Weighter<K, V>,
    B: BuildHasher,
    L: Lifecycle<K, V>,
    A: Allocator,
> Cache<K, V, We, B, L, A> {
    ghost use Rattle.quick_cache_unsync.specs.LentValues.{lender, lent, query_of};

    /// As `get_or_drop`, and gives a reference to write, as `get_mut` does.
    pub fn get_mut_or_drop<'a, Q: Equivalent<K>, F: FnOnce(&V) -> bool>(
        &'a mut self,
        query: &'a Q,
        test: F,
    ) -> Result<RefMut<'a, Q, K, V, We, B, L, A>, Miss>
        requires callable { MayBeAskedUnder F.FnOnce test (Q.equivalent query.now) self.old.state }
        ensures* rests { sem 𝓛 (RestsIfErr ⟦<Self as Typed>⟧.lender_row self.entry lender result
            (λ new. IfErr result (λ miss. GetsOrDrops (Q.equivalent query.now)
            (FnOnceReturnsAt F.FnOnce test) self.old (Err miss) new))) }
        ensures lends { IfOk result (λ r. lender r ≡ self.entry.ghost_name) }
        ensures query { IfOk result (λ r. query_of r ≡ query.now) }
        ensures looks_up { IfOk result (λ r. (value : V) × GetsOrDrops (Q.equivalent query.now)
            (FnOnceReturnsAt F.FnOnce test) self.old (Ok value) (lent r)) }
        ensures sound { IfOk result (λ r. IsSoundShard K.eq (lent r)) }
    {
        let hash = self.shard.hash(query);
        match self.shard.look_up_or_take(hash, query, test) {
            Ok(token) => Ok(RefMut {
                cache: self,
                query,
                hash,
                slot: token.get(),
            }),
            Err(taken) => Err(Miss::of(taken)),
        }
    }
}
