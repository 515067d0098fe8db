//! Placeholders that are made for keys, and met.
ghost use Rattle.std.specs.Prelude.{◌≡◌, ℕ, ◌+◌, ◌≤◌, min, true, IfOk, IfErr, IsOk};
ghost use Rattle.std.specs.Int.NonZero.{non_zero_u32_get as number};
ghost use Rattle.quick_cache_model.specs.Hashing.{StandsForGiven};
ghost use Rattle.quick_cache_store.specs.Lists.{Finds};
ghost use Rattle.quick_cache_model.specs.CacheState.{UpToOrder};
ghost use Rattle.quick_cache_model.specs.Placeholders.{MeetsPlaceholder};
ghost use Rattle.quick_cache_policy.specs.Contents.{IsSound, state_of};
ghost use Rattle.quick_cache_policy.specs.Finding.{AreUnder};
ghost use Rattle.quick_cache_policy.specs.Loading.{BeginsLoad, IsMadeUnder, Makes, LooksUpOrMakes};
ghost use Rattle.quick_cache_policy.specs.Places.{places_of};
ghost use Rattle.quick_cache_policy.specs.Stays.{KeepsSound};

use crate::contents::Contents;
use quick_cache_model::{MakesPlaceholders, Queue, Refusal, SharedPlaceholder, ToKey, Token};
use quick_cache_store::lists::{Awaited, Entry, Found, Order};
use std::alloc::Allocator;
use std::hash::Hash;

impl<K: Eq + Hash + Drop, V: Drop, P: SharedPlaceholder<K>, A: Allocator> Contents<K, V, P, A> {
    /// A key of the query's with what is kept of its placeholder, for the slot of that token, and
    /// the placeholder. Nothing changes.
    #[inline(always)]
    fn await_key<Q: ToKey<K>, M: MakesPlaceholders<K, P>>(
        &self,
        maker: &M,
        token: Token,
        hash: u64,
        query: &Q,
        queue: Queue,
    ) -> Result<(Awaited<K, P::Kept>, P), Refusal>
        ensures key { IfOk result (λ made. Q.to_key_gives query.now made.0.key) }
        ensures queue { IfOk result (λ made. made.0.queue ≡ queue) }
        ensures kept { IfOk result
            (λ made. P.ticket_of made.0.placeholder ≡ self.now.next_ticket) }
        ensures ticket { IfOk result (λ made. P.own_ticket made.1 ≡ self.now.next_ticket) }
        ensures idx { IfOk result (λ made. P.idx_of made.1 ≡ number token) }
        ensures hash { IfOk result (λ made. P.hash_of made.1 ≡ hash) }
        ensures succeeds { M.is_infallible maker.now → Q.to_key_is_infallible query.now
            → IsOk result }
        ensures refused { IfErr result (λ refusal. refusal ≡ Refusal.Memory) }
    {
        let key = query.to_key()?;
        let placeholder = maker.make(hash, token, self.next_ticket, query)?;
        let awaited = Awaited {
            key,
            queue,
            placeholder: placeholder.keep(),
        };
        Ok((awaited, placeholder))
    }

    /// Counts a placeholder that was made: the next ticket is one further on.
    fn count_made(&mut self)
        requires { self.old.next_ticket + 1 ≤ 18446744073709551615 }
        ensures { self.new ≡ record self.old {
          misses = min (self.old.misses + 1) 18446744073709551615;
          next_ticket = self.old.next_ticket + 1;
        } }
    {
        self.misses = self.misses.saturating_add(1);
        self.next_ticket += 1;
    }

    /// Makes a cold placeholder where nothing is found. Room and the key come first.
    #[inline(always)]
    pub(crate) fn make_on_nothing<Q: ToKey<K>, M: MakesPlaceholders<K, P>>(
        &mut self,
        maker: &M,
        hash: u64,
        query: &Q,
    ) -> Result<P, Refusal>
        requires under { AreUnder (Q.equivalent query.now) hash self.old.lists }
        requires stands { StandsForGiven (Q.to_key_gives query.now) (Q.equivalent query.now) }
        requires found { Finds (Q.equivalent query.now) hash self.old.lists Found.Nothing }
        ensures makes { Makes P.ticket_of P.own_ticket (Q.equivalent query.now)
            (Q.to_key_gives query.now) hash self.old result self.new }
        ensures hash { IfOk result (λ made. P.hash_of made ≡ hash) }
        ensures sound { (hashed : K → ℕ)
            → ((key : K) → Q.equivalent query.now key ≡ true → hashed key ≡ hash)
            → IsSound P.ticket_of K.eq hashed self.old
            → IsSound P.ticket_of K.eq hashed self.new }
        // No item moves.
        ensures places { places_of self.new.lists ≡ places_of self.old.lists }
        ensures room { self.old.lists.room ≤ self.new.lists.room + 1 }
        // Where key and placeholder are had without fail, it asks for memory only where there is no
        // room.
        ensures asks { M.is_infallible maker.now → Q.to_key_is_infallible query.now
            → IfErr result (λ refusal. refusal ≡ Refusal.Memory → self.old.lists.room ≡ 0) }
        ensures same { self.new ≡ record self.old {
          lists = self.new.lists;
          misses = self.new.misses;
          next_ticket = self.new.next_ticket;
        } }
    {
        if self.next_ticket == u64::MAX {
            return Err(Refusal::TicketsSpent);
        }
        self.lists.make_room()?;
        let token = self.lists.next_token();
        let (awaited, placeholder) = self.await_key(maker, token, hash, query, Queue::Cold)?;
        let _ = self.lists.put(hash, Entry::Loading(awaited));
        self.count_made();
        Ok(placeholder)
    }

    /// Makes a hot placeholder where a ghost is found, in its slot: the ghost goes once there is a
    /// key.
    pub(crate) fn make_on_ghost<Q: ToKey<K>, M: MakesPlaceholders<K, P>>(
        &mut self,
        maker: &M,
        token: Token,
        hash: u64,
        query: &Q,
    ) -> Result<P, Refusal>
        requires under { AreUnder (Q.equivalent query.now) hash self.old.lists }
        requires stands { StandsForGiven (Q.to_key_gives query.now) (Q.equivalent query.now) }
        requires found { Finds (Q.equivalent query.now) hash self.old.lists (Found.Ghost token) }
        ensures makes { Makes P.ticket_of P.own_ticket (Q.equivalent query.now)
            (Q.to_key_gives query.now) hash self.old result self.new }
        ensures hash { IfOk result (λ made. P.hash_of made ≡ hash) }
        ensures sound { (hashed : K → ℕ)
            → ((key : K) → Q.equivalent query.now key ≡ true → hashed key ≡ hash)
            → IsSound P.ticket_of K.eq hashed self.old
            → IsSound P.ticket_of K.eq hashed self.new }
        // No item moves.
        ensures places { places_of self.new.lists ≡ places_of self.old.lists }
        ensures room { self.old.lists.room ≤ self.new.lists.room }
        // Where key and placeholder are had without fail it is refused for tickets alone.
        ensures asks { M.is_infallible maker.now → Q.to_key_is_infallible query.now
            → IfErr result (λ refusal. refusal ≡ Refusal.TicketsSpent) }
        ensures same { self.new ≡ record self.old {
          lists = self.new.lists;
          misses = self.new.misses;
          next_ticket = self.new.next_ticket;
        } }
    {
        if self.next_ticket == u64::MAX {
            return Err(Refusal::TicketsSpent);
        }
        self.lists.facts();
        let (awaited, placeholder) = self.await_key(maker, token, hash, query, Queue::Hot)?;
        let _ = self
            .lists
            .replace(token, Order::Kept, Entry::Loading(awaited));
        self.count_made();
        Ok(placeholder)
    }

    /// The placeholder of a token, which is met: a hit is counted.
    pub(crate) fn meet_placeholder<Q: ToKey<K>>(&mut self, token: Token, hash: u64, query: &Q) -> P
        requires found { Finds (Q.equivalent query.now) hash self.old.lists (Found.Loading token) }
        ensures meets { UpToOrder
            (MeetsPlaceholder (Q.equivalent query.now) (state_of P.ticket_of self.old)
            (P.own_ticket result))
            (state_of P.ticket_of self.new) }
        ensures sound { KeepsSound P.ticket_of K.eq self.old self.new }
        ensures same { self.new ≡ record self.old { hits = self.new.hits } }
    {
        self.lists.facts();
        let placeholder = P::met(self.lists.awaited(token).placeholder(), hash, token);
        self.hits = self.hits.saturating_add(1);
        placeholder
    }

    /// Looks the query's key up as `look_up` does, and gives the token of its item. A placeholder
    /// that stands there is met, which counts a hit. Else one is made, which takes the next ticket
    /// and counts a miss: a hot one in the place of a ghost of the hash, or a cold one.
    ///
    /// The flag says that the placeholder is new. Only a new one takes memory: tickets are looked
    /// at first, then slots, and memory is asked for last, all before anything changes.
    #[inline(always)]
    pub fn get_or_placeholder<Q: ToKey<K>, M: MakesPlaceholders<K, P>>(
        &mut self,
        maker: &M,
        hash: u64,
        query: &Q,
    ) -> Result<Result<Token, (P, bool)>, Refusal>
        requires under { AreUnder (Q.equivalent query.now) hash self.old.lists }
        requires stands { StandsForGiven (Q.to_key_gives query.now) (Q.equivalent query.now) }
        ensures answers { LooksUpOrMakes P.ticket_of P.own_ticket (Q.equivalent query.now)
            (Q.to_key_gives query.now) hash self.old result self.new }
        ensures hash { IsMadeUnder P.hash_of hash result }
        ensures sound { (hashed : K → ℕ)
            → ((key : K) → Q.equivalent query.now key ≡ true → hashed key ≡ hash)
            → IsSound P.ticket_of K.eq hashed self.old
            → IsSound P.ticket_of K.eq hashed self.new }
        // No item moves.
        ensures places { places_of self.new.lists ≡ places_of self.old.lists }
        ensures room { self.old.lists.room ≤ self.new.lists.room + 1 }
        // Where key and placeholder are had without fail, it asks for memory only where there is no
        // room.
        ensures asks { M.is_infallible maker.now → Q.to_key_is_infallible query.now
            → IfErr result (λ refusal. refusal ≡ Refusal.Memory → self.old.lists.room ≡ 0) }
        ensures same { self.new ≡ record self.old {
          lists = self.new.lists;
          hits = self.new.hits;
          misses = self.new.misses;
          next_ticket = self.new.next_ticket;
        } }
    {
        match self.find_by_key(hash, query) {
            Found::Item(token) => {
                self.count_hit(token, hash, query);
                Ok(Ok(token))
            }
            Found::Loading(token) => Ok(Err((self.meet_placeholder(token, hash, query), false))),
            Found::Ghost(token) => Ok(Err((self.make_on_ghost(maker, token, hash, query)?, true))),
            Found::Nothing => Ok(Err((self.make_on_nothing(maker, hash, query)?, true))),
        }
    }

    /// Looks the query's key up as `get_or_placeholder` does, and gives a clone of the value that
    /// it finds. The clone is made first, so that a refused one counts nothing.
    #[inline(always)]
    pub fn copy_or_placeholder<Q: ToKey<K>, M: MakesPlaceholders<K, P>>(
        &mut self,
        maker: &M,
        hash: u64,
        query: &Q,
    ) -> Result<Result<V, P>, Refusal>
    where
        V: Clone,
        requires under { AreUnder (Q.equivalent query.now) hash self.old.lists }
        requires stands { StandsForGiven (Q.to_key_gives query.now) (Q.equivalent query.now) }
        ensures begins { BeginsLoad P.own_ticket (Q.equivalent query.now)
            (Q.to_key_gives query.now) hash V.is_clone (state_of P.ticket_of self.old) result
            (state_of P.ticket_of self.new) }
        ensures sound { (hashed : K → ℕ)
            → ((key : K) → Q.equivalent query.now key ≡ true → hashed key ≡ hash)
            → IsSound P.ticket_of K.eq hashed self.old
            → IsSound P.ticket_of K.eq hashed self.new }
        // No item moves.
        ensures places { places_of self.new.lists ≡ places_of self.old.lists }
        ensures room { self.old.lists.room ≤ self.new.lists.room + 1 }
        ensures same { self.new ≡ record self.old {
          lists = self.new.lists;
          hits = self.new.hits;
          misses = self.new.misses;
          next_ticket = self.new.next_ticket;
        } }
    {
        match self.find_by_key(hash, query) {
            Found::Item(token) => match self.copy_item(token, hash, query) {
                Ok(copy) => Ok(Ok(copy)),
                Err(refusal) => Err(refusal),
            },
            Found::Loading(token) => Ok(Err(self.meet_placeholder(token, hash, query))),
            Found::Ghost(token) => match self.make_on_ghost(maker, token, hash, query) {
                Ok(placeholder) => Ok(Err(placeholder)),
                Err(refusal) => Err(refusal),
            },
            Found::Nothing => match self.make_on_nothing(maker, hash, query) {
                Ok(placeholder) => Ok(Err(placeholder)),
                Err(refusal) => Err(refusal),
            },
        }
    }
}
