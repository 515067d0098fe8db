//! Items by their tokens.
ghost use Rattle.std.specs.Prelude.{◌≡◌, IfSome, MatchOption};
ghost use Rattle.std.specs.Int.NonZero.{non_zero_u32_get as number};
ghost use Rattle.quick_cache_store.specs.Lists.{number_or_zero};
ghost use Rattle.quick_cache_policy.specs.Tokens.{TakesItem};
ghost use Rattle.quick_cache_shard.specs.PlaceWalks.{EndsAt, GivesOnce, IsNextPlace};
ghost use Rattle.quick_cache_shard.specs.Shard.{IsSoundShard, IsFree, StandsAt, LeavesPlace};
ghost use Rattle.quick_cache_shard.specs.Stays.{IdlesWithin};

use crate::shard::CacheShard;
use quick_cache_model::Token;
use quick_cache_policy::SharedPlaceholder;
use std::alloc::Allocator;
use std::hash::{BuildHasher, Hash};

impl<K: Eq + Hash, V, We, B: BuildHasher, L, P: SharedPlaceholder<K>, A: Allocator> CacheShard<
    K,
    V,
    We,
    B,
    L,
    P,
    A,
> {
    /// The value of the item that stands at the token, if one does. Nothing changes: it is no use
    /// of the item.
    pub fn peek_token(&self, token: Token) -> Option<&V>
        ensures shown { MatchOption result
            (IsFree self.now (number token))
            (λ value. (item : _) × StandsAt self.now (number token) item
            × (value.now ≡ item.value)) }
        ensures sound { IsSoundShard K.eq self.now }
    {
        self.facts();
        let item = self.contents.peek_token(token)?;
        Some(item.value())
    }

    /// Takes the item that stands at the token out and gives its pair, if one does. No hook is
    /// called, and no memory is asked for.
    pub fn remove_token(&mut self, token: Token) -> Option<(K, V)>
        ensures takes { MatchOption result
            (self.new.state ≡ self.old.state)
            (λ pair. TakesItem self.old.state pair self.new.state) }
        ensures leaves { MatchOption result
            (IsFree self.old (number token) × (self.new ≡ self.old))
            (λ pair. LeavesPlace self.old (number token) pair.0 self.new) }
        ensures stays { IdlesWithin K.eq 0 self.old self.new }
    {
        self.contents.lists.facts();
        let taken = self.contents.remove_token(token);
        self.facts();
        taken
    }

    /// Takes out the item of the least token above this one, or of the least token of all where none
    /// is given, and gives its token and its pair. So a walk takes out one item after another, and
    /// any steps may come between. No hook is called, and no memory is asked for.
    pub fn remove_next(&mut self, after: Option<Token>) -> Option<(Token, K, V)>
        ensures next { MatchOption result
            (EndsAt self.old.places (number_or_zero after) × (self.new ≡ self.old))
            (λ taken. IsNextPlace self.old.places (number_or_zero after)
            (number taken.0, taken.1)
            × LeavesPlace self.old (number taken.0) taken.1 self.new) }
        ensures takes { IfSome result
            (λ taken. TakesItem self.old.state (taken.1, taken.2) self.new.state) }
        ensures stays { IdlesWithin K.eq 0 self.old self.new }
    {
        self.contents.lists.facts();
        let taken = self.contents.remove_next(after);
        self.facts();
        taken
    }
}

/// Does nothing: what it promises is a law. A walk by tokens gives each key that stays exactly once,
/// whatever steps come between that move no item that stays.
pub fn gives_each_once<K: Eq>()
    ensures { (key : K) → GivesOnce K.eq key }
{}
