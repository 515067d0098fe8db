//! Items that a walk by tokens shows to a predicate, so many at a time, or up to one that is wanted.
ghost use Rattle.std.specs.Prelude.{MatchOption};
ghost use Rattle.std.specs.Int.NonZero.{non_zero_u32_get as number};
ghost use Rattle.quick_cache_policy.specs.Predicates.{Answers, MayBeAskedOfEach};
ghost use Rattle.quick_cache_shard.specs.RetainsSome.{RetainsSome};
ghost use Rattle.quick_cache_shard.specs.Stays.{IdlesWithin};
ghost use Rattle.quick_cache_shard.specs.TakesWanted.{IsFirstWanted, TakesNextWanted, WantsNone};
ghost use Rattle.quick_cache_shard.specs.WalksFrom.{number_or_zero};

use crate::shard::CacheShard;
use quick_cache_model::Token;
use quick_cache_policy::SharedPlaceholder;
use std::alloc::Allocator;
use std::hash::{BuildHasher, Hash};

impl<
    K: Eq + Hash + Drop,
    V: Drop,
    We,
    B: BuildHasher,
    L,
    P: SharedPlaceholder<K>,
    A: Allocator,
> CacheShard<K, V, We, B, L, P, A> {
    /// Shows the predicate the items of greater token than this one, by ascending token, so many at
    /// most, and drops those that it does not keep. It tells the token behind which it stopped, none
    /// where no item is left behind, and how many it dropped. The rings keep the order of the rest.
    /// No hook is called, and no memory is asked for.
    pub fn retain_some<F: Fn(&K, &V) -> bool>(
        &mut self,
        after: Option<Token>,
        at_most: usize,
        keep: F,
    ) -> (Option<Token>, usize)
        requires callable { MayBeAskedOfEach F.Fn keep self.old.state }
        ensures retains { RetainsSome (Answers F.Fn keep) (number_or_zero after) self.old at_most
            result self.new }
        ensures stays { IdlesWithin K.eq 0 self.old self.new }
    {
        self.facts();
        let before = self.len();
        let mut at = after;
        for _ in 0..at_most {
            let Some((token, key, value)) = self.iter_from(at).next() else {
                return (None, before.saturating_sub(self.len()));
            };
            at = Some(token);
            if keep(key, value) {
                continue;
            }
            let _ = self.remove_token(token);
        }
        (at, before.saturating_sub(self.len()))
    }

    /// Shows the predicate the items of greater token than this one, by ascending token, until it
    /// wants one, and takes that out: its token and its pair. Where it wants none nothing changes.
    /// The rings keep the order of the rest. No hook is called, and no memory is asked for.
    pub fn take_next_if<F: Fn(&K, &V) -> bool>(
        &mut self,
        after: Option<Token>,
        wanted: &F,
    ) -> Option<(Token, K, V)>
        requires callable { MayBeAskedOfEach F.Fn wanted.now self.old.state }
        ensures takes { TakesNextWanted (Answers F.Fn wanted.now) (number_or_zero after) self.old
            result self.new }
        ensures stays { IdlesWithin K.eq 0 self.old self.new }
    {
        self.facts();
        let token = self.first_wanted(after, wanted)?;
        let (key, value) = self.remove_token(token)?;
        Some((token, key, value))
    }

    /// The token of the first of those items that the predicate wants.
    fn first_wanted<F: Fn(&K, &V) -> bool>(&self, after: Option<Token>, wanted: &F) -> Option<Token>
        requires callable { MayBeAskedOfEach F.Fn wanted.now self.now.state }
        ensures finds { MatchOption result
            (WantsNone (Answers F.Fn wanted.now) (number_or_zero after) self.now)
            (λ token. (item : _) × IsFirstWanted (Answers F.Fn wanted.now) (number_or_zero after)
            self.now (number token) item) }
    {
        let mut walk = self.iter_from(after);
        while let Some((token, key, value)) = walk.next() {
            if wanted(key, value) {
                return Some(token);
            }
        }
        None
    }
}
