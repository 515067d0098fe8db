//! A value that is written where it stands.
ghost use Rattle.std.specs.Prelude.{◌≡◌, ◌<◌, IfNone, IfSome, MatchOption, true, false};
ghost use Rattle.std.specs.Borrow.{sem, Lends};
ghost use Rattle.std.specs.Int.NonZero.{non_zero_u32_get as number};
ghost use Rattle.quick_cache_model.specs.Finding.{HasNoItem};
ghost use Rattle.quick_cache_policy.specs.References.{count_under, IsValueUnder, NotesLookUp};
ghost use Rattle.quick_cache_shard.specs.Shard.{IsSoundShard, HasTokenUnder};

use crate::shard::CacheShard;
use crate::words::{Keyed, Typed};
use quick_cache_model::{Equivalent, Token};
use quick_cache_policy::SharedPlaceholder;
use std::alloc::Allocator;
use std::hash::{BuildHasher, Hash};

impl<K: Eq + Hash, V, We, B: BuildHasher, L, P: SharedPlaceholder<K>, A: Allocator> CacheShard<
    K,
    V,
    We,
    B,
    L,
    P,
    A,
> {
    ghost use Rattle.quick_cache_shard.specs.Lent.{written_under};

    /// Counts a look-up as `get` does, and gives the token of the item, if one was found.
    #[inline]
    pub fn look_up<Q: Equivalent<K>>(&mut self, hash: u64, query: &Q) -> Option<Token>
        requires hash_is { hash ≡ ⟦<Self as Keyed>⟧.hash self.old.builder (Q.hash_input query.now) }
        ensures looks_up { MatchOption result
            (NotesLookUp (Q.equivalent query.now) self.old.state false self.new.state)
            (λ _. NotesLookUp (Q.equivalent query.now) self.old.state true self.new.state) }
        ensures there { IfSome result
            (λ _. 0 < count_under (Q.equivalent query.now) self.new.state) }
        ensures token { IfSome result
            (λ token. HasTokenUnder (Q.equivalent query.now) self.new (number token)) }
        ensures same { self.new ≡ record self.old { state = self.new.state } }
        ensures sound { IsSoundShard K.eq self.new }
    {
        let found = self.contents.look_up(hash, query);
        self.facts();
        found
    }

    /// The token of the item under the query, if there is one. Nothing changes.
    #[inline]
    pub fn token_of<Q: Equivalent<K>>(&self, hash: u64, query: &Q) -> Option<Token>
        requires hash_is { hash ≡ ⟦<Self as Keyed>⟧.hash self.now.builder (Q.hash_input query.now) }
        ensures there { IfSome result
            (λ _. 0 < count_under (Q.equivalent query.now) self.now.state) }
        ensures token { IfSome result
            (λ token. HasTokenUnder (Q.equivalent query.now) self.now (number token)) }
        ensures absent { IfNone result (HasNoItem (Q.equivalent query.now) self.now.state) }
        ensures sound { IsSoundShard K.eq self.now }
    {
        self.facts();
        self.contents.token_of(hash, query)
    }

    /// The value of the item under the query, which is known to be there. Where it stands at the
    /// token at which it is thought to, nothing is searched. Nothing changes.
    #[inline]
    pub fn value_under<Q: Equivalent<K>>(&self, thought: Option<Token>, hash: u64, query: &Q) -> &V
        requires hash_is { hash ≡ ⟦<Self as Keyed>⟧.hash self.now.builder (Q.hash_input query.now) }
        requires there { 0 < count_under (Q.equivalent query.now) self.now.state }
        ensures { IsValueUnder (Q.equivalent query.now) self.now.state result.now }
    {
        self.contents.lists.facts();
        let token = self.contents.token_under(thought, hash, query);
        self.contents.lists.item(token).value()
    }

    /// The value of the item under the query, which is known to be there, to write. It is found as
    /// by `value_under`, and keeps its place and its weight.
    #[inline]
    pub fn value_mut<Q: Equivalent<K>>(
        &mut self,
        thought: Option<Token>,
        hash: u64,
        query: &Q,
    ) -> &mut V
        requires hash_is { hash ≡ ⟦<Self as Keyed>⟧.hash self.old.builder (Q.hash_input query.now) }
        requires there { 0 < count_under (Q.equivalent query.now) self.old.state }
        ensures* writes_back { sem 𝓛 (Lends ⟦<Self as Typed>⟧.lender_row V.row self.entry result
            (written_under (Q.equivalent query.now) self.old)) }
        ensures value { IsValueUnder (Q.equivalent query.now) self.old.state result.now }
    {
        self.contents.lists.facts();
        let token = self.contents.token_under(thought, hash, query);
        self.contents.value_mut(token)
    }
}
