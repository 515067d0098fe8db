//! A reference to the value of a token, to write. As it goes, the item is weighed anew.
ghost use Rattle.std.specs.Prelude.{◌≡◌, ◌<◌, IfSome, IfNone};
ghost use Rattle.std.specs.Borrow.{sem, Lends, RestsIfNone};
ghost use Rattle.std.specs.Int.NonZero.{non_zero_u32_get as number};
ghost use Rattle.quick_cache_shard.specs.Shard.{IsFree, IsSoundShard, LosesOnly, KeepsRoom};
ghost use Rattle.quick_cache_shard.specs.TokenValues.{IsTaken, IsValueOf};
ghost use Rattle.quick_cache_shard.specs.Steps.{ReweighsTokenBy};

use crate::shard::CacheShard;
use crate::words::{Ruled, Typed};
use quick_cache_model::{Lifecycle, Token, Weighter};
use quick_cache_policy::SharedPlaceholder;
use std::alloc::{Allocator, Global};
use std::hash::{BuildHasher, Hash};
use std::ops::{Deref, DerefMut};

/// A reference to the value of the item of a token. When it is dropped, the item gets the weight of
/// the value that it then has, and nothing is evicted. One that is leaked leaves the item its old
/// weight.
pub struct TokenMut<
    'a,
    K: Eq + Hash + Drop,
    V: Drop,
    We: Weighter<K, V>,
    B: BuildHasher,
    L: Lifecycle<K, V>,
    P: SharedPlaceholder<K>,
    A: Allocator = Global,
> {
    shard: &'a mut CacheShard<K, V, We, B, L, P, A>,
    // The number of the token.
    slot: u32,
    ghost named: { 0 < slot },
    ghost there: { IsTaken shard.now slot },
}

// The token of a number.
fn token_of(slot: u32) -> Token
    requires { 0 < slot }
    ensures { number result ≡ slot }
{
    let Some(token) = Token::new(slot) else {
        unreachable!();
    };
    token
}

impl<
    K: Eq + Hash + Drop,
    V: Drop,
    We: Weighter<K, V>,
    B: BuildHasher,
    L: Lifecycle<K, V>,
    P: SharedPlaceholder<K>,
    A: Allocator,
> Drop for TokenMut<'_, K, V, We, B, L, P, A> {
    fn drop(self)
        ensures reweighs { ReweighsTokenBy ⟦<CacheShard<K, V, We, B, L, P, A> as Ruled>⟧.goes
            P.Touch.may_count self.entry.shard.now self.entry.slot self.exit.0.now }
        ensures places { LosesOnly self.entry.shard.now.places self.exit.0.now.places }
        ensures same { KeepsRoom self.entry.shard.now self.exit.0.now }
    {
        let TokenMut { shard, slot } = self;
        shard.reweigh_at(token_of(slot));
    }
}

impl<
    K: Eq + Hash + Drop,
    V: Drop,
    We: Weighter<K, V>,
    B: BuildHasher,
    L: Lifecycle<K, V>,
    P: SharedPlaceholder<K>,
    A: Allocator,
> Typed for TokenMut<'_, K, V, We, B, L, P, A> {
    ghost use Rattle.quick_cache_shard.specs.LentTokens.{refs_row};

    ghost lender_row = { refs_row K.row V.row We.row B.row L.row P.row A.row B.Hasher.row
        L.RequestState.row P.Touch.row P.Kept.row K.eq K.hash_input We.Weighter B.BuildHasher
        B.Hasher.Hasher L.Lifecycle L.RequestState.is_default P.SharedPlaceholder
        P.Touch.is_default P.Touch.may_count P.Touch.none_counted A.Allocator };
}

impl<
    K: Eq + Hash + Drop,
    V: Drop,
    We: Weighter<K, V>,
    B: BuildHasher,
    L: Lifecycle<K, V>,
    P: SharedPlaceholder<K>,
    A: Allocator,
> Deref for TokenMut<'_, K, V, We, B, L, P, A> {
    type Target = V;

    ghost deref_gives = { λ p x. IsValueOf p.shard.now p.slot x };

    fn deref(&self) -> &V
        ensures { IsValueOf self.now.shard.now self.now.slot result.now }
    {
        self.shard.value_at(token_of(self.slot))
    }
}

impl<
    K: Eq + Hash + Drop,
    V: Drop,
    We: Weighter<K, V>,
    B: BuildHasher,
    L: Lifecycle<K, V>,
    P: SharedPlaceholder<K>,
    A: Allocator,
> DerefMut for TokenMut<'_, K, V, We, B, L, P, A> {
    ghost use Rattle.quick_cache_shard.specs.LentTokens.{with_value};

    ghost deref_mut_gives = { λ p x. IsValueOf p.shard.now p.slot x };

    fn deref_mut(&mut self) -> &mut V
        ensures* writes_back { sem 𝓛 (Lends ⟦<Self as Typed>⟧.lender_row V.row self.entry result
            (with_value self.old)) }
        ensures value { IsValueOf self.old.shard.now self.old.slot result.now }
    {
        let token = token_of(self.slot);
        self.shard.value_at_mut(token)
    }
}

impl<
    K: Eq + Hash + Drop,
    V: Drop,
    We: Weighter<K, V>,
    B: BuildHasher,
    L: Lifecycle<K, V>,
    P: SharedPlaceholder<K>,
    A: Allocator,
> CacheShard<K, V, We, B, L, P, A> {
    ghost use Rattle.quick_cache_shard.specs.LentTokens.{lender, lent, slot_of};
    ghost use Rattle.quick_cache_shard.specs.TokenValues.{with_value_at};

    /// A reference to the value of the item that stands at the token, to write, if one does. It is
    /// no use of the item: nothing is counted or marked. Once it is dropped, the item has the weight
    /// of the value that was left, as with `get_mut`.
    pub fn peek_token_mut(&mut self, token: Token) -> Option<TokenMut<'_, K, V, We, B, L, P, A>>
        ensures* rests { sem 𝓛 (RestsIfNone ⟦<Self as Typed>⟧.lender_row self.entry lender result
            (λ new. new ≡ self.old)) }
        ensures lends { IfSome result (λ r. lender r ≡ self.entry.ghost_name) }
        ensures slot { IfSome result (λ r. slot_of r ≡ number token) }
        ensures same { IfSome result (λ r. lent r ≡ self.old) }
        ensures absent { IfNone result (IsFree self.old (number token)) }
        ensures sound { IsSoundShard K.eq self.old }
    {
        let Some(_) = self.peek_token(token) else {
            return None;
        };
        Some(TokenMut {
            shard: self,
            slot: token.get(),
        })
    }

    /// The value of the item of the token, which is known to be there.
    pub(crate) fn value_at(&self, token: Token) -> &V
        requires there { IsTaken self.now (number token) }
        ensures { IsValueOf self.now (number token) result.now }
    {
        let Some(value) = self.peek_token(token) else {
            unreachable!();
        };
        value
    }

    /// The same, to write. The item keeps its place and its weight.
    pub(crate) fn value_at_mut(&mut self, token: Token) -> &mut V
        requires there { IsTaken self.old (number token) }
        ensures* writes_back { sem 𝓛 (Lends ⟦<Self as Typed>⟧.lender_row V.row self.entry result
            (λ value. with_value_at K.eq (number token) value self.old)) }
        ensures value { IsValueOf self.old (number token) result.now }
    {
        self.contents.lists.facts();
        self.contents.value_mut(token)
    }

    /// Weighs the item of the token anew, which is known to be there, as `reweigh` does.
    pub(crate) fn reweigh_at(&mut self, token: Token)
        requires there { IsTaken self.old (number token) }
        ensures reweighs { ReweighsTokenBy ⟦<Self as Ruled>⟧.goes P.Touch.may_count self.old
            (number token) self.new }
        ensures there { IsTaken self.new (number token) }
        ensures places { LosesOnly self.old.places self.new.places }
        ensures same { KeepsRoom self.old self.new }
    {
        self.contents.reweigh_token(token, &self.terms);
    }
}
