//! Looks at entries that may be over.
ghost use Rattle.std.specs.Prelude.{◌≡◌, not, option_copied};
ghost use Rattle.std.specs.Borrow.{sem};
ghost use Rattle.quick_cache_model.specs.Lookups.{Sees};
ghost use Rattle.quick_cache_expiring.specs.Entries.{Expires, Finds, Gets, Shows, expired_after, is_failed};
ghost use Rattle.quick_cache_expiring.specs.Lives.{lives};

use crate::alone::expiring::Expiring;
use crate::lasting::Lasting;
use quick_cache_model::Equivalent;
use quick_cache_shard::{Miss, Token, Typed};
use std::alloc::Allocator;
use std::hash::{BuildHasher, Hash};

impl<K: Eq + Hash, V, We, B: BuildHasher, L, A: Allocator> Typed for Expiring<K, V, We, B, L, A> {
    ghost use Rattle.quick_cache_expiring.specs.Lent.{row_of};

    ghost lender_row = { row_of K.row V.row We.row B.row L.row A.row B.Hasher.row K.eq
        K.Hash.hash_input B.BuildHasher B.Hasher.Hasher A.Allocator };
}

impl<K: Eq + Hash, V, We, B: BuildHasher, L, A: Allocator> Expiring<K, V, We, B, L, A> {
    ghost use Rattle.quick_cache_shard.specs.Lent.{ends_so};

    /// Looks at the value under the query's key, where it serves at this moment. It is no use of
    /// the entry, and nothing changes.
    pub fn peek<Q: Equivalent<K>>(&self, query: &Q, now: u64) -> Option<&V>
        ensures shows { Shows (Q.equivalent query.now) now self.now.cache.state
            (option_copied result) }
    {
        let lasting = self.cache.peek(query)?;
        if lasting.lives(now) {
            Some(&lasting.value)
        } else {
            None
        }
    }

    /// The end of the entry under the query's key, be it over or not. Nothing changes.
    pub fn expires_at<Q: Equivalent<K>>(&self, query: &Q) -> Option<u64>
        ensures sees { Sees (Q.equivalent query.now) self.now.cache.state
            (λ item. item.value.until) result }
    {
        let lasting = self.cache.peek(query)?;
        Some(lasting.until)
    }

    /// Looks the query's key up, and gives its value where it serves at this moment: the entry is
    /// marked and read, and a hit is counted. An entry that is over is taken out, and counts as a
    /// miss and as expired. No hook is called, and no memory taken.
    #[inline(always)]
    pub fn get<Q: Equivalent<K>>(&mut self, query: &Q, now: u64) -> Option<&V>
    where
        K: Drop,
        V: Drop,
        ensures* gets { sem 𝓛 (ends_so ⟦<Self as Typed>⟧.lender_row self.entry
            (λ new. Gets (Q.equivalent query.now) now self.old (option_copied result) new)) }
    {
        let token = self.find(query, now)?;
        let lasting = self.cache.shard().peek_token(token)?;
        Some(&lasting.value)
    }

    /// Looks the query's key up, as `get` does, and gives the token of an entry that serves.
    #[inline(always)]
    fn find<Q: Equivalent<K>>(&mut self, query: &Q, now: u64) -> Option<Token>
    where
        K: Drop,
        V: Drop,
        ensures finds { Finds (Q.equivalent query.now) now self.old result self.new }
    {
        let serves = |lasting: &Lasting<V>| -> bool
            ensures serves { result ≡ lives lasting.now.until now }
        { lasting.lives(now) };
        match self.cache.look_up_or_take(query, serves) {
            Ok(token) => Some(token),
            Err(taken) => {
                self.count_over(Miss::of(taken));
                None
            }
        }
    }

    /// Counts a look that found what was over.
    pub(crate) fn count_over(&mut self, miss: Miss)
        ensures { self.new ≡ record self.old {
          expired = expired_after (is_failed miss) self.old.expired;
        } }
    {
        if miss == Miss::Failed {
            self.expired = self.expired.saturating_add(1);
        }
    }

    /// Takes the entry under the query's key out where it is over, counts that, and tells whether
    /// it was.
    pub(crate) fn expires<Q: Equivalent<K>>(&mut self, query: &Q, now: u64) -> bool
    where
        K: Drop,
        V: Drop,
        ensures expires { Expires (Q.equivalent query.now) now self.old result self.new }
    {
        let is_over = |lasting: &Lasting<V>| -> bool
            ensures over { result ≡ not (lives lasting.now.until now) }
        { !lasting.lives(now) };
        if self.cache.remove_if(query, is_over).is_some() {
            self.expired = self.expired.saturating_add(1);
            return true;
        }
        false
    }
}
