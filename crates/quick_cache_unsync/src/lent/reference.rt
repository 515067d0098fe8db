//! A reference to a value of the cache, to write. As it goes, the item is weighed anew.
ghost use Rattle.std.specs.Prelude.{◌≡◌, ◌<◌, IfSome, IfNone, None, true};
ghost use Rattle.std.specs.Borrow.{sem, Lends, RestsIfNone};
ghost use Rattle.quick_cache_model.specs.Finding.{HasNoItem};
ghost use Rattle.quick_cache_model.specs.Hashing.{hash_of};
ghost use Rattle.quick_cache_model.specs.Lookups.{LooksUp};
ghost use Rattle.quick_cache_shard.specs.References.{count_under, IsValueUnder, NotesLookUp};
ghost use Rattle.quick_cache_shard.specs.Shard.{UpToOrder, IsSoundShard, KeepsRoom};
ghost use Rattle.quick_cache_unsync.specs.Touches.{no_touches};
ghost use Rattle.quick_cache_shard.specs.Steps.{ReweighsBy};

use crate::cache::Cache;
use quick_cache_model::{Equivalent, Lifecycle, Weighter};
use quick_cache_shard::{Keyed, Ruled, Token, Typed};
use std::alloc::{Allocator, Global};
use std::hash::{BuildHasher, Hash};
use std::ops::{Deref, DerefMut};

/// A reference to the value under a query. When it is dropped, the item gets the weight of the
/// value that it then has, and nothing is evicted. One that is leaked leaves the item its old
/// weight.
pub struct RefMut<
    'a,
    Q: Equivalent<K>,
    K: Eq + Hash + Drop,
    V: Drop,
    We: Weighter<K, V>,
    B: BuildHasher,
    L: Lifecycle<K, V>,
    A: Allocator = Global,
> {
    pub(crate) cache: &'a mut Cache<K, V, We, B, L, A>,
    pub(crate) query: &'a Q,
    pub(crate) hash: u64,
    // The slot where the item is thought to stand: only what it costs to find it hangs on that.
    pub(crate) slot: u32,
    ghost there: { 0 < count_under (Q.equivalent query.now) cache.now.state },
    ghost hash_is: { hash
        ≡ hash_of B.BuildHasher B.Hasher.Hasher cache.now.builder (Q.hash_input query.now) },
}

impl<
    Q: Equivalent<K>,
    K: Eq + Hash + Drop,
    V: Drop,
    We: Weighter<K, V>,
    B: BuildHasher,
    L: Lifecycle<K, V>,
    A: Allocator,
> Drop for RefMut<'_, Q, K, V, We, B, L, A> {
    fn drop(self)
        ensures reweighs { ReweighsBy ⟦<Cache<K, V, We, B, L, A> as Ruled>⟧.goes no_touches
            self.entry.cache.now (Q.equivalent self.entry.query.now) self.exit.0.now }
        ensures same { KeepsRoom self.entry.cache.now self.exit.0.now }
    {
        let RefMut {
            cache,
            query,
            hash,
            slot,
        } = self;
        cache.shard.reweigh(Token::new(slot), hash, query);
    }
}

impl<
    Q: Equivalent<K>,
    K: Eq + Hash + Drop,
    V: Drop,
    We: Weighter<K, V>,
    B: BuildHasher,
    L: Lifecycle<K, V>,
    A: Allocator,
> Typed for RefMut<'_, Q, K, V, We, B, L, A> {
    ghost use Rattle.quick_cache_unsync.specs.LentValues.{refs_row};

    ghost lender_row = { refs_row Q.row K.row V.row We.row B.row L.row A.row B.Hasher.row
        L.RequestState.row Q.equivalent Q.hash_input Q.eq K.eq K.hash_input We.Weighter
        B.BuildHasher B.Hasher.Hasher L.Lifecycle L.RequestState.is_default A.Allocator };
}

impl<
    Q: Equivalent<K>,
    K: Eq + Hash + Drop,
    V: Drop,
    We: Weighter<K, V>,
    B: BuildHasher,
    L: Lifecycle<K, V>,
    A: Allocator,
> Deref for RefMut<'_, Q, K, V, We, B, L, A> {
    type Target = V;

    ghost deref_gives = { λ p x. IsValueUnder (Q.equivalent p.query.now) p.cache.now.state x };

    fn deref(&self) -> &V
        ensures { IsValueUnder (Q.equivalent self.now.query.now) self.now.cache.now.state
            result.now }
    {
        let cache = &*self.cache;
        cache
            .shard
            .value_under(Token::new(self.slot), self.hash, self.query)
    }
}

impl<
    Q: Equivalent<K>,
    K: Eq + Hash + Drop,
    V: Drop,
    We: Weighter<K, V>,
    B: BuildHasher,
    L: Lifecycle<K, V>,
    A: Allocator,
> DerefMut for RefMut<'_, Q, K, V, We, B, L, A> {
    ghost use Rattle.quick_cache_unsync.specs.LentValues.{with_value};

    ghost deref_mut_gives = { λ p x. IsValueUnder (Q.equivalent p.query.now) p.cache.now.state x };

    fn deref_mut(&mut self) -> &mut V
        ensures* writes_back { sem 𝓛 (Lends ⟦<Self as Typed>⟧.lender_row V.row self.entry result
            (with_value self.old)) }
        ensures value { IsValueUnder (Q.equivalent self.old.query.now) self.old.cache.now.state
            result.now }
    {
        let (thought, hash, query) = (Token::new(self.slot), self.hash, self.query);
        self.cache.value_mut(thought, hash, query)
    }
}

impl<K: Eq + Hash, V, We, B: BuildHasher, L, A: Allocator> Cache<K, V, We, B, L, A> {
    ghost use Rattle.quick_cache_shard.specs.Lent.{written_under};

    // The value of the item under the query, which is known to be there.
    fn value_mut<Q: Equivalent<K>>(
        &mut self,
        thought: Option<Token>,
        hash: u64,
        query: &Q,
    ) -> &mut V
        requires hash_is { hash ≡ ⟦<Self as Keyed>⟧.hash self.old.builder (Q.hash_input query.now) }
        requires there { 0 < count_under (Q.equivalent query.now) self.old.state }
        ensures* writes_back { sem 𝓛 (Lends ⟦<Self as Typed>⟧.lender_row V.row self.entry result
            (written_under (Q.equivalent query.now) self.old)) }
        ensures value { IsValueUnder (Q.equivalent query.now) self.old.state result.now }
    {
        self.shard.value_mut(thought, hash, query)
    }
}

impl<
    K: Eq + Hash + Drop,
    V: Drop,
    We: Weighter<K, V>,
    B: BuildHasher,
    L: Lifecycle<K, V>,
    A: Allocator,
> Cache<K, V, We, B, L, A> {
    ghost use Rattle.quick_cache_unsync.specs.LentValues.{lender, lent, query_of};

    /// A reference to the value under the query's key, to write, by a look-up: the item is marked
    /// and read, and a hit or a miss is counted. It takes no memory.
    ///
    /// Once the reference is dropped, the item has the weight of the value that was left. One that
    /// lost its weight leaves its ring, one that gained weight is put last in the ring of its
    /// queue, and nothing is evicted, so that the cache may then be heavier than its capacity.
    pub fn get_mut<'a, Q: Equivalent<K>>(
        &'a mut self,
        query: &'a Q,
    ) -> Option<RefMut<'a, Q, K, V, We, B, L, A>>
        ensures* rests { sem 𝓛 (RestsIfNone ⟦<Self as Typed>⟧.lender_row self.entry lender result
            (λ new. UpToOrder (LooksUp (Q.equivalent query.now) self.old.state
            (λ item. item.value) None) new.state
            × (new ≡ record self.old { state = new.state }))) }
        ensures lends { IfSome result (λ r. lender r ≡ self.entry.ghost_name) }
        ensures query { IfSome result (λ r. query_of r ≡ query.now) }
        ensures looks_up { IfSome result (λ r. NotesLookUp (Q.equivalent query.now)
            self.old.state true (lent r).state) }
        ensures same { IfSome result (λ r. lent r
            ≡ record self.old { state = (lent r).state }) }
        ensures sound { IfSome result (λ r. IsSoundShard K.eq (lent r)) }
    {
        let hash = self.shard.hash(query);
        let Some(token) = self.shard.look_up(hash, query) else {
            return None;
        };
        Some(RefMut {
            cache: self,
            query,
            hash,
            slot: token.get(),
        })
    }

    /// A reference to the value under the query's key, to write, which is no use of the item:
    /// nothing is counted or marked. It is weighed anew as with `get_mut`.
    pub fn peek_mut<'a, Q: Equivalent<K>>(
        &'a mut self,
        query: &'a Q,
    ) -> Option<RefMut<'a, Q, K, V, We, B, L, A>>
        ensures* rests { sem 𝓛 (RestsIfNone ⟦<Self as Typed>⟧.lender_row self.entry lender result
            (λ new. new ≡ self.old)) }
        ensures lends { IfSome result (λ r. lender r ≡ self.entry.ghost_name) }
        ensures query { IfSome result (λ r. query_of r ≡ query.now) }
        ensures same { IfSome result (λ r. lent r ≡ self.old) }
        ensures absent { IfNone result (HasNoItem (Q.equivalent query.now) self.old.state) }
        ensures sound { IsSoundShard K.eq self.old }
    {
        let hash = self.shard.hash(query);
        let Some(token) = self.shard.token_of(hash, query) else {
            return None;
        };
        Some(RefMut {
            cache: self,
            query,
            hash,
            slot: token.get(),
        })
    }
}
