//! Placeholders: made or met by a look-up, filled, or given up.
ghost use Rattle.std.specs.Prelude.{◌≡◌, ℕ, Bool, true, IfErr, MatchOption};
ghost use Rattle.quick_cache_model.specs.Hashing.{StandsForGiven};
ghost use Rattle.quick_cache_model.specs.Placeholders.{GivesUpPlaceholder, HasNoTicket};
ghost use Rattle.quick_cache_policy.specs.Filling.{AwaitsKey};
ghost use Rattle.quick_cache_shard.specs.Loading.{BeginsLoad, FindsToken, HasNoneWanted, IsMadeUnder, LooksUpOrMakes, MeansByTicket};
ghost use Rattle.quick_cache_shard.specs.Shard.{LosesOnly, UpToOrder, IsSoundShard};
ghost use Rattle.quick_cache_shard.specs.Stays.{IdlesWithin};

use crate::shard::CacheShard;
use crate::words::Keyed;
use quick_cache_model::{Refusal, ToKey, Token};
use quick_cache_policy::{MakesPlaceholders, SharedPlaceholder};
use quick_cache_store::lists::Meaning;
use std::alloc::Allocator;
use std::hash::{BuildHasher, Hash};

impl<
    K: Eq + Hash + Drop,
    V: Drop,
    We,
    B: BuildHasher,
    L,
    P: SharedPlaceholder<K>,
    A: Allocator,
> CacheShard<K, V, We, B, L, P, A> {
    /// Looks the query's key up as `get` does, and gives the token of its item. A placeholder that
    /// stands there is met, which counts a hit. Else one is made, which takes the next ticket and
    /// counts a miss: a hot one in the place of a ghost of the hash, or a cold one.
    ///
    /// The flag says that the placeholder is new.
    ///
    /// # Errors
    ///
    /// Only where one would be made: `TicketsSpent`, `SlotsFull` where there is no ghost either, or
    /// `Memory`, of which the key, the placeholder and a slot may ask. Nothing has changed then.
    #[inline(always)]
    pub fn get_or_placeholder<Q: ToKey<K>, M: MakesPlaceholders<K, P>>(
        &mut self,
        maker: &M,
        hash: u64,
        query: &Q,
    ) -> Result<Result<Token, (P, bool)>, Refusal>
        requires hash_is { hash ≡ ⟦<Self as Keyed>⟧.hash self.old.builder (Q.hash_input query.now) }
        requires stands { StandsForGiven (Q.to_key_gives query.now) (Q.equivalent query.now) }
        ensures answers { LooksUpOrMakes P.own_ticket (Q.equivalent query.now)
            (Q.to_key_gives query.now) hash self.old.state result self.new.state }
        ensures hash { IsMadeUnder P.hash_of hash result }
        ensures token { FindsToken (Q.equivalent query.now) self.new result }
        ensures places { self.new.places ≡ self.old.places }
        // Where key and placeholder are had without fail, it asks for memory only where there is no
        // room.
        ensures asks { M.is_infallible maker.now → Q.to_key_is_infallible query.now
            → IfErr result (λ refusal. refusal ≡ Refusal.Memory → self.old.room ≡ 0) }
        ensures stays { IdlesWithin K.eq 1 self.old self.new }
    {
        let answer = self.contents.get_or_placeholder(maker, hash, query);
        self.facts();
        answer
    }

    /// Looks the query's key up as `get_or_placeholder` does, and gives a clone of the value that
    /// it finds, which is made first.
    ///
    /// # Errors
    ///
    /// As there, and `Memory` where the clone failed. Nothing has changed then.
    #[inline(always)]
    pub fn copy_or_placeholder<Q: ToKey<K>, M: MakesPlaceholders<K, P>>(
        &mut self,
        maker: &M,
        hash: u64,
        query: &Q,
    ) -> Result<Result<V, P>, Refusal>
    where
        V: Clone,
        requires hash_is { hash ≡ ⟦<Self as Keyed>⟧.hash self.old.builder (Q.hash_input query.now) }
        requires stands { StandsForGiven (Q.to_key_gives query.now) (Q.equivalent query.now) }
        ensures begins { BeginsLoad P.own_ticket (Q.equivalent query.now)
            (Q.to_key_gives query.now) hash V.is_clone self.old.state result self.new.state }
        ensures places { self.new.places ≡ self.old.places }
        ensures stays { IdlesWithin K.eq 1 self.old self.new }
    {
        let answer = self.contents.copy_or_placeholder(maker, hash, query);
        self.facts();
        answer
    }

    /// The key of the placeholder of that ticket, if it is there. It is looked for as by
    /// `replace_placeholder`, and nothing changes.
    pub fn loading_key(&self, placeholder: &P) -> Option<&K>
        ensures key { MatchOption result
            (HasNoTicket (P.own_ticket placeholder.now) self.now.state)
            (λ key. AwaitsKey (P.own_ticket placeholder.now) self.now.state key.now) }
        ensures sound { IsSoundShard K.eq self.now }
    {
        self.facts();
        self.contents.awaited_key(placeholder)
    }

    /// What is kept of a placeholder that is meant, if one is there: each is shown, up to the first
    /// that is. Where some key is being loaded, it looks at each slot.
    pub fn find_placeholder<M: Meaning<K, P::Kept>>(&self, meant: &M) -> Option<&P::Kept>
        // Where tickets tell what is meant, one of such a ticket comes, or none is there.
        ensures finds { (wanted : ℕ → Bool) → MeansByTicket P.ticket_of (M.means meant.now) wanted
            → MatchOption result (HasNoneWanted wanted self.now.state)
            (λ kept. wanted (P.ticket_of kept.now) ≡ true) }
    {
        let lists = &self.contents.lists;
        lists.facts();
        let Some(token) = lists.find_placeholder(Token::MIN, meant) else {
            return None;
        };
        let awaited = lists.awaited(token);
        Some(awaited.placeholder())
    }

    /// Takes the placeholder of that ticket out, if it is there, and calls no hook. It is looked
    /// for as by `replace_placeholder`.
    pub fn remove_placeholder(&mut self, placeholder: &P)
        ensures gives_up { UpToOrder
            (GivesUpPlaceholder (P.own_ticket placeholder.now) self.old.state) self.new.state }
        ensures places { LosesOnly self.old.places self.new.places }
        ensures stays { IdlesWithin K.eq 0 self.old self.new }
    {
        self.contents.remove_placeholder(placeholder);
        self.facts();
    }
}
