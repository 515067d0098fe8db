//! Looks with a test: what is found and fails it is a miss.
ghost use Rattle.std.specs.Prelude.{◌≡◌, ◌≤◌, MatchOption};
ghost use Rattle.std.specs.Fn.{FnOnceReturnsAt};
ghost use Rattle.quick_cache_model.specs.Finding.{HasNoItem};
ghost use Rattle.quick_cache_model.specs.Touches.{counted_up};
ghost use Rattle.quick_cache_policy.specs.Contents.{state_of};
ghost use Rattle.quick_cache_policy.specs.Finding.{AreUnder};
ghost use Rattle.quick_cache_policy.specs.Places.{places_of, LosesOnly};
ghost use Rattle.quick_cache_policy.specs.Predicates.{MayBeAskedUnder};
ghost use Rattle.quick_cache_policy.specs.Stays.{KeepsSound};
ghost use Rattle.quick_cache_policy.specs.Tests.{IsAsked, TestsToken, TestsOrTakes, UnlessTaken, miss_of};

use crate::contents::Contents;
use quick_cache_model::{Equivalent, SharedPlaceholder, Token};
use std::alloc::Allocator;
use std::hash::Hash;

/// Why a look with a test gives no value.
#[derive(Debug, Clone, Copy, PartialEq, Eq)]
pub enum Miss {
    /// A value stood there, and failed the test.
    Failed,
    /// Nothing stood there.
    Absent,
}

impl Miss {
    /// Why a look that took this out gives no value. What was taken out is dropped.
    #[inline]
    pub fn of<X: Drop>(taken: Option<X>) -> Miss
        ensures { result ≡ miss_of taken }
    {
        match taken {
            Some(_) => Miss::Failed,
            None => Miss::Absent,
        }
    }
}

impl<K: Eq + Hash, V, P: SharedPlaceholder<K>, A: Allocator> Contents<K, V, P, A> {
    /// The item under the query, and what the test says of its value, which is shown once. Nothing
    /// changes.
    #[inline(always)]
    pub(crate) fn test_item<Q: Equivalent<K>, F: FnOnce(&V) -> bool>(
        &self,
        hash: u64,
        query: &Q,
        test: F,
    ) -> Option<(Token, bool)>
        requires under { AreUnder (Q.equivalent query.now) hash self.now.lists }
        requires callable { MayBeAskedUnder F.FnOnce test (Q.equivalent query.now)
            (state_of P.ticket_of self.now) }
        ensures { MatchOption result
            (HasNoItem (Q.equivalent query.now) (state_of P.ticket_of self.now))
            (λ asked. IsAsked (Q.equivalent query.now) hash (FnOnceReturnsAt F.FnOnce test)
            self.now.lists asked.0 asked.1) }
    {
        self.lists.facts();
        let Some(token) = self.find_item(hash, query) else {
            return None;
        };
        Some((token, test(self.lists.item(token).value())))
    }

    /// Counts a look that gives nothing.
    #[inline]
    pub(crate) fn count_miss(&mut self)
        ensures { self.new ≡ record self.old { misses = counted_up 1 self.old.misses } }
    {
        self.misses = self.misses.saturating_add(1);
    }

    /// Takes note of a look with a test. An item whose value passes is marked and read, and a hit
    /// is counted. One that fails stays, and a miss is counted, as where nothing stands.
    #[inline(always)]
    pub fn look_up_if<Q: Equivalent<K>, F: FnOnce(&V) -> bool>(
        &mut self,
        hash: u64,
        query: &Q,
        test: F,
    ) -> Result<Token, Miss>
        requires under { AreUnder (Q.equivalent query.now) hash self.old.lists }
        requires callable { MayBeAskedUnder F.FnOnce test (Q.equivalent query.now)
            (state_of P.ticket_of self.old) }
        ensures tests { TestsToken P.ticket_of (Q.equivalent query.now)
            (FnOnceReturnsAt F.FnOnce test) self.old result self.new }
        ensures sound { KeepsSound P.ticket_of K.eq self.old self.new }
        // No item moves.
        ensures places { places_of self.new.lists ≡ places_of self.old.lists }
        ensures room { self.new.lists.room ≡ self.old.lists.room }
        ensures same { self.new ≡ record self.old {
          lists = self.new.lists;
          hits = self.new.hits;
          misses = self.new.misses;
        } }
    {
        self.lists.facts();
        let Some((token, passes)) = self.test_item(hash, query, test) else {
            self.count_miss();
            return Err(Miss::Absent);
        };
        if !passes {
            self.count_miss();
            return Err(Miss::Failed);
        }
        self.count_hit(token, hash, query);
        Ok(token)
    }

    /// As `look_up_if`, where an item that fails is taken out, and its pair given.
    #[inline(always)]
    pub fn look_up_or_take<Q: Equivalent<K>, F: FnOnce(&V) -> bool>(
        &mut self,
        hash: u64,
        query: &Q,
        test: F,
    ) -> Result<Token, Option<(K, V)>>
        requires under { AreUnder (Q.equivalent query.now) hash self.old.lists }
        requires callable { MayBeAskedUnder F.FnOnce test (Q.equivalent query.now)
            (state_of P.ticket_of self.old) }
        ensures tests { TestsOrTakes P.ticket_of (Q.equivalent query.now)
            (FnOnceReturnsAt F.FnOnce test) self.old result self.new }
        ensures sound { KeepsSound P.ticket_of K.eq self.old self.new }
        ensures places { LosesOnly (places_of self.old.lists) (places_of self.new.lists) }
        ensures room { self.old.lists.room ≤ self.new.lists.room }
        ensures stays { UnlessTaken result ((places_of self.new.lists ≡ places_of self.old.lists)
            × (self.new.lists.room ≡ self.old.lists.room)) }
        ensures same { self.new ≡ record self.old {
          lists = self.new.lists;
          hits = self.new.hits;
          misses = self.new.misses;
        } }
    {
        self.lists.facts();
        let Some((token, passes)) = self.test_item(hash, query, test) else {
            self.count_miss();
            return Err(None);
        };
        if !passes {
            let pair = self.take_item(token);
            self.count_miss();
            return Err(Some(pair));
        }
        self.count_hit(token, hash, query);
        Ok(token)
    }
}
