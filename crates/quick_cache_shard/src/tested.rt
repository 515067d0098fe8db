//! Looks with a test of the caller's.
ghost use Rattle.std.specs.Prelude.{◌≡◌, ◌<◌, IfOk};
ghost use Rattle.std.specs.Borrow.{sem};
ghost use Rattle.std.specs.Fn.{FnOnceReturnsAt};
ghost use Rattle.quick_cache_policy.specs.Predicates.{MayBeAskedUnder};
ghost use Rattle.quick_cache_policy.specs.References.{count_under};
ghost use Rattle.quick_cache_shard.specs.Shard.{IsSoundShard};
ghost use Rattle.quick_cache_shard.specs.Tests.{FindsOrTakes, GetsOrDrops, LooksUpIf, ok_copied};

use crate::shard::CacheShard;
use crate::words::{Keyed, Typed};
use quick_cache_model::{Equivalent, Token};
use quick_cache_policy::{Miss, SharedPlaceholder};
use std::alloc::Allocator;
use std::hash::{BuildHasher, Hash};

impl<K: Eq + Hash, V, We, B: BuildHasher, L, P: SharedPlaceholder<K>, A: Allocator> CacheShard<
    K,
    V,
    We,
    B,
    L,
    P,
    A,
> {
    ghost use Rattle.quick_cache_shard.specs.Lent.{ends_so};

    /// The value under the query, which is handed in with its hash, looked up as by `get` where it
    /// passes the test. One that fails stays, and a miss is counted.
    #[inline(always)]
    pub fn get_if<Q: Equivalent<K>, F: FnOnce(&V) -> bool>(
        &mut self,
        hash: u64,
        query: &Q,
        test: F,
    ) -> Result<&V, Miss>
        requires hash_is { hash ≡ ⟦<Self as Keyed>⟧.hash self.old.builder (Q.hash_input query.now) }
        requires callable { MayBeAskedUnder F.FnOnce test (Q.equivalent query.now) self.old.state }
        ensures* looks_up { sem 𝓛 (ends_so ⟦<Self as Typed>⟧.lender_row self.entry
            (λ new. LooksUpIf (Q.equivalent query.now) (FnOnceReturnsAt F.FnOnce test)
            self.old.state (ok_copied result) new.state
            × (new ≡ record self.old { state = new.state }))) }
    {
        let token = self.contents.look_up_if(hash, query, test)?;
        self.contents.lists.facts();
        Ok(self.contents.lists.item(token).value())
    }

    /// As `get_if`, where a pair whose value fails is taken out and dropped. No hook is called.
    #[inline(always)]
    pub fn get_or_drop<Q: Equivalent<K>, F: FnOnce(&V) -> bool>(
        &mut self,
        hash: u64,
        query: &Q,
        test: F,
    ) -> Result<&V, Miss>
    where
        K: Drop,
        V: Drop,
        requires hash_is { hash ≡ ⟦<Self as Keyed>⟧.hash self.old.builder (Q.hash_input query.now) }
        requires callable { MayBeAskedUnder F.FnOnce test (Q.equivalent query.now) self.old.state }
        ensures* looks_up { sem 𝓛 (ends_so ⟦<Self as Typed>⟧.lender_row self.entry
            (GetsOrDrops (Q.equivalent query.now) (FnOnceReturnsAt F.FnOnce test) self.old
            (ok_copied result))) }
    {
        match self.contents.look_up_or_take(hash, query, test) {
            Ok(token) => {
                self.contents.lists.facts();
                Ok(self.contents.lists.item(token).value())
            }
            Err(taken) => Err(Miss::of(taken)),
        }
    }

    /// As `get_or_drop`, and gives the pair that is taken out, or else the token of the item.
    #[inline(always)]
    pub fn look_up_or_take<Q: Equivalent<K>, F: FnOnce(&V) -> bool>(
        &mut self,
        hash: u64,
        query: &Q,
        test: F,
    ) -> Result<Token, Option<(K, V)>>
        requires hash_is { hash ≡ ⟦<Self as Keyed>⟧.hash self.old.builder (Q.hash_input query.now) }
        requires callable { MayBeAskedUnder F.FnOnce test (Q.equivalent query.now) self.old.state }
        ensures looks_up { FindsOrTakes (Q.equivalent query.now) (FnOnceReturnsAt F.FnOnce test)
            self.old result self.new }
        ensures sound { IsSoundShard K.eq self.new }
        ensures there { IfOk result (λ _. 0 < count_under (Q.equivalent query.now) self.new.state) }
    {
        let found = self.contents.look_up_or_take(hash, query, test);
        self.facts();
        found
    }
}
