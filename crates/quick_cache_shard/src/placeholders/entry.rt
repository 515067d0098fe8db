//! A call that shows an item to a callback of the caller's, and does what that chooses.
ghost use Rattle.std.specs.Prelude.{◌≡◌};
ghost use Rattle.quick_cache_model.specs.Hashing.{StandsForGiven};
ghost use Rattle.quick_cache_policy.specs.Entering.{AnswersEntry, IsNewUnder, MayBeShownUnder};
ghost use Rattle.quick_cache_shard.specs.Shard.{LosesOnly};
ghost use Rattle.quick_cache_shard.specs.Stays.{IdlesWithin};
ghost use Rattle.quick_cache_shard.specs.Steps.{rules_in};

use crate::shard::CacheShard;
use crate::words::{Keyed, Ruled};
use quick_cache_model::{Lifecycle, Refusal, ToKey, Weighter};
use quick_cache_policy::{EntryAction, EntryOrPlaceholder, MakesPlaceholders, SharedPlaceholder};
use std::alloc::Allocator;
use std::hash::{BuildHasher, Hash};

impl<
    K: Eq + Hash + Drop,
    V: Drop,
    We: Weighter<K, V>,
    B: BuildHasher,
    L: Lifecycle<K, V>,
    P: SharedPlaceholder<K>,
    A: Allocator,
> CacheShard<K, V, We, B, L, P, A> {
    /// Shows the item under the query to the callback, which may write its value and chooses what
    /// happens. The query is handed in with its hash. The value is weighed anew, and nothing is
    /// evicted. A kept item was looked up, a removed one gives its pair, and one that is replaced
    /// gives its value and leaves a placeholder with its key and its queue, for which no miss is
    /// counted.
    ///
    /// Where there is no item the callback is not called: a placeholder that stands there is met,
    /// and else one is made, as by `get_or_placeholder`.
    ///
    /// # Errors
    ///
    /// Only where a placeholder would be made: `TicketsSpent`, `SlotsFull` where it would take a new
    /// slot, or `Memory`. An item that was to be replaced stays as the callback wrote it; else
    /// nothing has changed.
    pub fn entry_or_placeholder<
        Q: ToKey<K>,
        N: MakesPlaceholders<K, P>,
        T,
        F: FnMut(&K, &mut V) -> EntryAction<T>,
    >(
        &mut self,
        maker: &N,
        hash: u64,
        query: &Q,
        callback: &mut F,
    ) -> Result<EntryOrPlaceholder<K, V, P, T>, Refusal>
        requires hash_is { hash ≡ ⟦<Self as Keyed>⟧.hash self.old.builder (Q.hash_input query.now) }
        requires stands { StandsForGiven (Q.to_key_gives query.now) (Q.equivalent query.now) }
        // The callback is callable at the item under the query, and has to be nowhere else.
        requires callable { MayBeShownUnder F.FnMut callback.old (Q.equivalent query.now)
            self.old.state }
        ensures answers { AnswersEntry F.FnMut
            (rules_in ⟦<Self as Ruled>⟧.goes P.Touch.may_count self.old)
            (Q.equivalent query.now) callback.old self.old.state P.own_ticket
            (Q.to_key_gives query.now) hash result callback.new self.new.state }
        ensures hash { IsNewUnder P.hash_of hash result }
        ensures places { LosesOnly self.old.places self.new.places }
        ensures stays { IdlesWithin K.eq 1 self.old self.new }
    {
        let answer = self
            .contents
            .entry_or_placeholder(maker, hash, query, &self.terms, callback);
        self.facts();
        answer
    }
}
