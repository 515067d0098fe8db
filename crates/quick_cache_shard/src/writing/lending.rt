//! A reference to a value of a shard, to write. As it goes, the item is weighed anew.
ghost use Rattle.std.specs.Prelude.{◌≡◌, ◌<◌, IfSome, IfNone, None, true};
ghost use Rattle.std.specs.Borrow.{sem, RestsIfNone, Lends};
ghost use Rattle.quick_cache_model.specs.Finding.{HasNoItem};
ghost use Rattle.quick_cache_model.specs.Hashing.{hash_of};
ghost use Rattle.quick_cache_model.specs.Lookups.{LooksUp};
ghost use Rattle.quick_cache_policy.specs.References.{count_under, IsValueUnder, NotesLookUp};
ghost use Rattle.quick_cache_shard.specs.Shard.{LosesOnly, UpToOrder, IsSoundShard, KeepsRoom};
ghost use Rattle.quick_cache_shard.specs.Steps.{ReweighsBy};

use crate::shard::CacheShard;
use crate::words::{Keyed, Ruled, Typed};
use quick_cache_model::{Equivalent, Lifecycle, Token, Weighter};
use quick_cache_policy::SharedPlaceholder;
use std::alloc::{Allocator, Global};
use std::hash::{BuildHasher, Hash};
use std::ops::{Deref, DerefMut};

/// A reference to the value under a query. When it is dropped, the item gets the weight of the
/// value that it then has, and nothing is evicted. One that is leaked leaves the item its old
/// weight.
pub struct RefMut<
    'a,
    Q: Equivalent<K>,
    K: Eq + Hash + Drop,
    V: Drop,
    We: Weighter<K, V>,
    B: BuildHasher,
    L: Lifecycle<K, V>,
    P: SharedPlaceholder<K>,
    A: Allocator = Global,
> {
    shard: &'a mut CacheShard<K, V, We, B, L, P, A>,
    query: &'a Q,
    hash: u64,
    // The slot where the item is thought to stand: only what it costs to find it hangs on that.
    slot: u32,
    ghost there: { 0 < count_under (Q.equivalent query.now) shard.now.state },
    ghost hash_is: { hash
        ≡ hash_of B.BuildHasher B.Hasher.Hasher shard.now.builder (Q.hash_input query.now) },
}

impl<
    Q: Equivalent<K>,
    K: Eq + Hash + Drop,
    V: Drop,
    We: Weighter<K, V>,
    B: BuildHasher,
    L: Lifecycle<K, V>,
    P: SharedPlaceholder<K>,
    A: Allocator,
> Drop for RefMut<'_, Q, K, V, We, B, L, P, A> {
    fn drop(self)
        ensures reweighs { ReweighsBy ⟦<CacheShard<K, V, We, B, L, P, A> as Ruled>⟧.goes
            P.Touch.may_count self.entry.shard.now (Q.equivalent self.entry.query.now)
            self.exit.0.now }
        ensures places { LosesOnly self.entry.shard.now.places self.exit.0.now.places }
        ensures same { KeepsRoom self.entry.shard.now self.exit.0.now }
    {
        let RefMut {
            shard,
            query,
            hash,
            slot,
        } = self;
        shard.reweigh(Token::new(slot), hash, query);
    }
}

impl<
    Q: Equivalent<K>,
    K: Eq + Hash + Drop,
    V: Drop,
    We: Weighter<K, V>,
    B: BuildHasher,
    L: Lifecycle<K, V>,
    P: SharedPlaceholder<K>,
    A: Allocator,
> Typed for RefMut<'_, Q, K, V, We, B, L, P, A> {
    ghost use Rattle.quick_cache_shard.specs.LentValues.{refs_row};

    ghost lender_row = { refs_row Q.row K.row V.row We.row B.row L.row P.row A.row B.Hasher.row
        L.RequestState.row P.Touch.row P.Kept.row Q.equivalent Q.hash_input Q.eq K.eq K.hash_input
        We.Weighter B.BuildHasher B.Hasher.Hasher L.Lifecycle L.RequestState.is_default
        P.SharedPlaceholder P.Touch.is_default P.Touch.may_count P.Touch.none_counted
        A.Allocator };
}

impl<
    Q: Equivalent<K>,
    K: Eq + Hash + Drop,
    V: Drop,
    We: Weighter<K, V>,
    B: BuildHasher,
    L: Lifecycle<K, V>,
    P: SharedPlaceholder<K>,
    A: Allocator,
> Deref for RefMut<'_, Q, K, V, We, B, L, P, A> {
    type Target = V;

    ghost deref_gives = { λ p x. IsValueUnder (Q.equivalent p.query.now) p.shard.now.state x };

    fn deref(&self) -> &V
        ensures { IsValueUnder (Q.equivalent self.now.query.now) self.now.shard.now.state
            result.now }
    {
        self.shard
            .value_under(Token::new(self.slot), self.hash, self.query)
    }
}

impl<
    Q: Equivalent<K>,
    K: Eq + Hash + Drop,
    V: Drop,
    We: Weighter<K, V>,
    B: BuildHasher,
    L: Lifecycle<K, V>,
    P: SharedPlaceholder<K>,
    A: Allocator,
> DerefMut for RefMut<'_, Q, K, V, We, B, L, P, A> {
    ghost use Rattle.quick_cache_shard.specs.LentValues.{with_value};

    ghost deref_mut_gives = { λ p x. IsValueUnder (Q.equivalent p.query.now) p.shard.now.state x };

    fn deref_mut(&mut self) -> &mut V
        ensures* writes_back { sem 𝓛 (Lends ⟦<Self as Typed>⟧.lender_row V.row self.entry result
            (with_value self.old)) }
        ensures value { IsValueUnder (Q.equivalent self.old.query.now) self.old.shard.now.state
            result.now }
    {
        let (thought, hash, query) = (Token::new(self.slot), self.hash, self.query);
        self.shard.value_mut(thought, hash, query)
    }
}

impl<
    K: Eq + Hash + Drop,
    V: Drop,
    We: Weighter<K, V>,
    B: BuildHasher,
    L: Lifecycle<K, V>,
    P: SharedPlaceholder<K>,
    A: Allocator,
> CacheShard<K, V, We, B, L, P, A> {
    ghost use Rattle.quick_cache_shard.specs.LentValues.{lender, lent, query_of};

    /// A reference to the value under the query's key, to write, by a look-up: the item is marked
    /// and read, and a hit or a miss is counted. It takes no memory.
    ///
    /// Once the reference is dropped, the item has the weight of the value that was left. One that
    /// lost its weight leaves its ring, one that gained weight is put last in the ring of its
    /// queue, and nothing is evicted, so that the cache may then be heavier than its capacity.
    pub fn get_mut<'a, Q: Equivalent<K>>(
        &'a mut self,
        hash: u64,
        query: &'a Q,
    ) -> Option<RefMut<'a, Q, K, V, We, B, L, P, A>>
        requires hash_is { hash ≡ ⟦<Self as Keyed>⟧.hash self.old.builder (Q.hash_input query.now) }
        ensures* rests { sem 𝓛 (RestsIfNone ⟦<Self as Typed>⟧.lender_row self.entry lender result
            (λ new. UpToOrder (LooksUp (Q.equivalent query.now) self.old.state
            (λ item. item.value) None) new.state
            × (new ≡ record self.old { state = new.state }))) }
        ensures lends { IfSome result (λ r. lender r ≡ self.entry.ghost_name) }
        ensures query { IfSome result (λ r. query_of r ≡ query.now) }
        ensures looks_up { IfSome result (λ r. NotesLookUp (Q.equivalent query.now)
            self.old.state true (lent r).state) }
        ensures same { IfSome result (λ r. lent r
            ≡ record self.old { state = (lent r).state }) }
        ensures sound { IfSome result (λ r. IsSoundShard K.eq (lent r)) }
    {
        let Some(token) = self.look_up(hash, query) else {
            return None;
        };
        Some(RefMut {
            shard: self,
            query,
            hash,
            slot: token.get(),
        })
    }

    /// A reference to the value under the query's key, to write, which is no use of the item:
    /// nothing is counted or marked. It is weighed anew as with `get_mut`.
    pub fn peek_mut<'a, Q: Equivalent<K>>(
        &'a mut self,
        hash: u64,
        query: &'a Q,
    ) -> Option<RefMut<'a, Q, K, V, We, B, L, P, A>>
        requires hash_is { hash ≡ ⟦<Self as Keyed>⟧.hash self.old.builder (Q.hash_input query.now) }
        ensures* rests { sem 𝓛 (RestsIfNone ⟦<Self as Typed>⟧.lender_row self.entry lender result
            (λ new. new ≡ self.old)) }
        ensures lends { IfSome result (λ r. lender r ≡ self.entry.ghost_name) }
        ensures query { IfSome result (λ r. query_of r ≡ query.now) }
        ensures same { IfSome result (λ r. lent r ≡ self.old) }
        ensures absent { IfNone result (HasNoItem (Q.equivalent query.now) self.old.state) }
        ensures sound { IsSoundShard K.eq self.old }
    {
        let Some(token) = self.token_of(hash, query) else {
            return None;
        };
        Some(RefMut {
            shard: self,
            query,
            hash,
            slot: token.get(),
        })
    }

    /// Weighs the item under the query anew, which is known to be there, and is found as by
    /// `value_under`. One that lost its weight leaves its ring, which begins behind it; one that
    /// gained weight is put last in the ring of its queue; and any other keeps its place. Nothing
    /// is evicted, whatever the weight.
    pub fn reweigh<Q: Equivalent<K>>(&mut self, thought: Option<Token>, hash: u64, query: &Q)
        requires hash_is { hash ≡ ⟦<Self as Keyed>⟧.hash self.old.builder (Q.hash_input query.now) }
        requires there { 0 < count_under (Q.equivalent query.now) self.old.state }
        ensures reweighs { ReweighsBy ⟦<Self as Ruled>⟧.goes P.Touch.may_count self.old
            (Q.equivalent query.now) self.new }
        ensures places { LosesOnly self.old.places self.new.places }
        ensures there { 0 < count_under (Q.equivalent query.now) self.new.state }
        ensures same { KeepsRoom self.old self.new }
    {
        self.contents.reweigh(thought, hash, query, &self.terms);
    }
}
