//! A call that shows an item to a callback of the caller's, and does what that chooses.
ghost use Rattle.std.specs.Prelude.{◌≡◌, ◌==◌, ◌+◌, ◌≤◌, IfOk};
ghost use Rattle.std.specs.Int.NonZero.{non_zero_u32_get as number};
ghost use Rattle.quick_cache_model.specs.Hashing.{StandsForGiven};
ghost use Rattle.quick_cache_store.specs.Lists.{FindsItem, HasItemToken};
ghost use Rattle.quick_cache_store.specs.Rings.{restarts};
ghost use Rattle.quick_cache_model.specs.Entries.{Retain as chosen_retain, Kept as came_kept};
ghost use Rattle.quick_cache_policy.specs.Contents.{IsSound, state_of};
ghost use Rattle.quick_cache_policy.specs.Entering.{ActsOnWritten, AnswersEntry, AnswersItem, IsHashed, IsNewUnder, MayBeShownUnder};
ghost use Rattle.quick_cache_policy.specs.Entering.{RemovesWritten, ReplacesItem, ShowsAt, TakesWeighed};
ghost use Rattle.quick_cache_policy.specs.Finding.{AreUnder};
ghost use Rattle.quick_cache_policy.specs.Places.{places_of, LosesOnly};
ghost use Rattle.quick_cache_policy.specs.Policies.{rules_by};
ghost use Rattle.quick_cache_policy.specs.Stays.{LosesEntries, KeepsSound};

use crate::contents::Contents;
use crate::policy::Policy;
use quick_cache_model::{
    EntryAction, EntryOrPlaceholder, Equivalent, MakesPlaceholders, Queue, Refusal,
    SharedPlaceholder, ToKey, Token,
};
use quick_cache_store::lists::{Awaited, Entry, Found, Order};
use std::alloc::Allocator;
use std::hash::Hash;

/// The order of a ring that an item leaves which weighs so much now.
fn order_behind(weight: u64) -> Order
    ensures { restarts result ≡ (weight == 0) }
{
    if weight == 0 {
        Order::Restarted
    } else {
        Order::Kept
    }
}

impl<K: Eq + Hash + Drop, V: Drop, P: SharedPlaceholder<K>, A: Allocator> Contents<K, V, P, A> {
    /// Shows the item of a token, whose value may be written where it stands. It keeps the weight
    /// that it had.
    fn show_item<Q: Equivalent<K>, R, F: FnMut(&K, &mut V) -> R>(
        &mut self,
        token: Token,
        hash: u64,
        _query: &Q,
        callback: &mut F,
    ) -> R
        requires found { FindsItem (Q.equivalent _query.now) hash self.old.lists (number token) }
        requires callable { MayBeShownUnder F.FnMut callback.old (Q.equivalent _query.now)
            (state_of P.ticket_of self.old) }
        ensures shows { ShowsAt F.FnMut (Q.equivalent _query.now) callback.old
            (state_of P.ticket_of self.old) result callback.new (state_of P.ticket_of self.new) }
        ensures found { FindsItem (Q.equivalent _query.now) hash self.new.lists (number token) }
        ensures sound { KeepsSound P.ticket_of K.eq self.old self.new }
        // No item moves.
        ensures places { places_of self.new.lists ≡ places_of self.old.lists }
        ensures room { self.new.lists.room ≡ self.old.lists.room }
        ensures same { self.new ≡ record self.old { lists = self.new.lists } }
    {
        self.lists.facts();
        self.lists.show(token, callback)
    }

    /// Takes the item of a token out, and gives its pair and its queue. Its ring keeps the order of
    /// the rest, or begins behind it where its value, weighed anew, weighs nothing.
    fn take_weighed<M: Policy<K, V>>(&mut self, token: Token, terms: &M) -> ((K, V), Queue)
        requires { HasItemToken self.old.lists (number token) }
        ensures { TakesWeighed (M.weight_of terms.now) self.old (number token) result self.new }
    {
        self.lists.facts();
        let item = self.lists.item(token);
        let queue = item.queue();
        let weight = terms.weigh(item.key(), item.value());
        let slot = self.lists.take(token, order_behind(weight));
        match slot.entry {
            Entry::Item(resident) => {
                self.keep_hits(&resident);
                (resident.into_pair(), queue)
            }
            Entry::Loading(_) => unreachable!(),
            Entry::Ghost => unreachable!(),
        }
    }

    /// Counts a use of the item of a token, which is weighed anew.
    fn keep_item<M: Policy<K, V>, Q: Equivalent<K>>(
        &mut self,
        token: Token,
        hash: u64,
        query: &Q,
        terms: &M,
    )
        requires found { FindsItem (Q.equivalent query.now) hash self.old.lists (number token) }
        requires sound { IsSound P.ticket_of K.eq (M.hashed terms.now) self.old }
        ensures acts { ActsOnWritten (rules_by M.Policy P.Touch.may_count terms.now)
            (Q.equivalent query.now) (state_of P.ticket_of self.old) chosen_retain came_kept
            (state_of P.ticket_of self.new) }
        ensures sound { IsSound P.ticket_of K.eq (M.hashed terms.now) self.new }
        ensures places { LosesOnly (places_of self.old.lists) (places_of self.new.lists) }
        ensures room { self.new.lists.room ≡ self.old.lists.room }
        ensures same { self.new ≡ record self.old {
          lists = self.new.lists;
          hits = self.new.hits;
        } }
    {
        self.count_hit(token, hash, query);
        self.weigh_item(token, hash, query, terms);
    }

    /// Puts a placeholder into the slot of an item, with its key and its queue, and gives the value.
    /// It takes the next ticket, and no miss is counted. Tickets are looked at first, and memory is
    /// asked for next; refused, the item stays and is weighed anew.
    fn replace_item<M: Policy<K, V>, Q: ToKey<K>, N: MakesPlaceholders<K, P>>(
        &mut self,
        maker: &N,
        token: Token,
        hash: u64,
        query: &Q,
        terms: &M,
    ) -> Result<(P, V), Refusal>
        requires found { FindsItem (Q.equivalent query.now) hash self.old.lists (number token) }
        requires sound { IsSound P.ticket_of K.eq (M.hashed terms.now) self.old }
        ensures replaces { ReplacesItem (rules_by M.Policy P.Touch.may_count terms.now)
            (Q.equivalent query.now) (state_of P.ticket_of self.old) P.own_ticket result
            (state_of P.ticket_of self.new) }
        ensures hash { IfOk result (λ given. P.hash_of given.0 ≡ hash) }
        ensures sound { IsSound P.ticket_of K.eq (M.hashed terms.now) self.new }
        ensures places { LosesOnly (places_of self.old.lists) (places_of self.new.lists) }
        ensures room { self.old.lists.room ≤ self.new.lists.room }
        ensures same { self.new ≡ record self.old {
          lists = self.new.lists;
          next_ticket = self.new.next_ticket;
        } }
    {
        self.lists.facts();
        if self.next_ticket == u64::MAX {
            self.weigh_item(token, hash, query, terms);
            return Err(Refusal::TicketsSpent);
        }
        let placeholder = match maker.make(hash, token, self.next_ticket, query) {
            Ok(placeholder) => placeholder,
            Err(refusal) => {
                self.weigh_item(token, hash, query, terms);
                return Err(refusal);
            }
        };
        let ((key, value), queue) = self.take_weighed(token, terms);
        let awaited = Awaited {
            key,
            queue,
            placeholder: placeholder.keep(),
        };
        let _ = self.lists.put(hash, Entry::Loading(awaited));
        self.next_ticket += 1;
        Ok((placeholder, value))
    }

    /// Takes the item of a token out, whose value is weighed anew first.
    fn remove_item<M: Policy<K, V>, Q: Equivalent<K>>(
        &mut self,
        token: Token,
        hash: u64,
        _query: &Q,
        terms: &M,
    ) -> (K, V)
        requires found { FindsItem (Q.equivalent _query.now) hash self.old.lists (number token) }
        requires sound { IsSound P.ticket_of K.eq (M.hashed terms.now) self.old }
        ensures removes { RemovesWritten (rules_by M.Policy P.Touch.may_count terms.now)
            (Q.equivalent _query.now) (state_of P.ticket_of self.old) result
            (state_of P.ticket_of self.new) }
        ensures stays { LosesEntries P.ticket_of K.eq (M.hashed terms.now) self.old self.new }
    {
        self.lists.facts();
        let (pair, _) = self.take_weighed(token, terms);
        pair
    }

    /// Shows the item of a token to the callback, and does what that chooses.
    fn act_on_item<
        M: Policy<K, V>,
        Q: ToKey<K>,
        N: MakesPlaceholders<K, P>,
        T,
        F: FnMut(&K, &mut V) -> EntryAction<T>,
    >(
        &mut self,
        maker: &N,
        token: Token,
        hash: u64,
        query: &Q,
        terms: &M,
        callback: &mut F,
    ) -> Result<EntryOrPlaceholder<K, V, P, T>, Refusal>
        requires found { FindsItem (Q.equivalent query.now) hash self.old.lists (number token) }
        requires sound { IsSound P.ticket_of K.eq (M.hashed terms.now) self.old }
        requires callable { MayBeShownUnder F.FnMut callback.old (Q.equivalent query.now)
            (state_of P.ticket_of self.old) }
        ensures answers { AnswersItem F.FnMut (rules_by M.Policy P.Touch.may_count terms.now)
            (Q.equivalent query.now) callback.old (state_of P.ticket_of self.old) P.own_ticket
            result callback.new (state_of P.ticket_of self.new) }
        ensures hash { IsNewUnder P.hash_of hash result }
        ensures sound { IsSound P.ticket_of K.eq (M.hashed terms.now) self.new }
        ensures places { LosesOnly (places_of self.old.lists) (places_of self.new.lists) }
        ensures room { self.old.lists.room ≤ self.new.lists.room }
        ensures same { self.new ≡ record self.old {
          lists = self.new.lists;
          hits = self.new.hits;
          next_ticket = self.new.next_ticket;
        } }
    {
        match self.show_item(token, hash, query, callback) {
            EntryAction::Retain(told) => {
                self.keep_item(token, hash, query, terms);
                Ok(EntryOrPlaceholder::Kept(told))
            }
            EntryAction::Remove => {
                let (key, value) = self.remove_item(token, hash, query, terms);
                Ok(EntryOrPlaceholder::Removed(key, value))
            }
            EntryAction::ReplaceWithGuard => match self.replace_item(
                maker, token, hash, query, terms,
            ) {
                Ok((placeholder, value)) => Ok(EntryOrPlaceholder::Replaced(placeholder, value)),
                Err(refusal) => Err(refusal),
            },
        }
    }

    /// Shows the item under the query to the callback, which may write its value and chooses what
    /// happens; the value is weighed anew, and nothing is evicted. A kept item was looked up, a
    /// removed one gives its pair, and one that is replaced gives its value and leaves a placeholder
    /// with its key and its queue, for which no miss is counted. Refused, for tickets or for memory,
    /// it stays as the callback wrote it.
    ///
    /// Where there is no item the callback is not called: a placeholder that stands there is met,
    /// and else one is made, as by `get_or_placeholder`.
    pub fn entry_or_placeholder<
        M: Policy<K, V>,
        Q: ToKey<K>,
        N: MakesPlaceholders<K, P>,
        T,
        F: FnMut(&K, &mut V) -> EntryAction<T>,
    >(
        &mut self,
        maker: &N,
        hash: u64,
        query: &Q,
        terms: &M,
        callback: &mut F,
    ) -> Result<EntryOrPlaceholder<K, V, P, T>, Refusal>
        requires under { AreUnder (Q.equivalent query.now) hash self.old.lists }
        requires hashed { IsHashed (Q.equivalent query.now) (M.hashed terms.now) hash }
        requires stands { StandsForGiven (Q.to_key_gives query.now) (Q.equivalent query.now) }
        requires sound { IsSound P.ticket_of K.eq (M.hashed terms.now) self.old }
        requires callable { MayBeShownUnder F.FnMut callback.old (Q.equivalent query.now)
            (state_of P.ticket_of self.old) }
        ensures answers { AnswersEntry F.FnMut (rules_by M.Policy P.Touch.may_count terms.now)
            (Q.equivalent query.now) callback.old (state_of P.ticket_of self.old) P.own_ticket
            (Q.to_key_gives query.now) hash result callback.new (state_of P.ticket_of self.new) }
        ensures hash { IsNewUnder P.hash_of hash result }
        ensures sound { IsSound P.ticket_of K.eq (M.hashed terms.now) self.new }
        ensures places { LosesOnly (places_of self.old.lists) (places_of self.new.lists) }
        ensures room { self.old.lists.room ≤ self.new.lists.room + 1 }
        ensures same { self.new ≡ record self.old {
          lists = self.new.lists;
          hits = self.new.hits;
          misses = self.new.misses;
          next_ticket = self.new.next_ticket;
        } }
    {
        match self.find_by_key(hash, query) {
            Found::Item(token) => self.act_on_item(maker, token, hash, query, terms, callback),
            Found::Loading(token) => Ok(EntryOrPlaceholder::ExistingPlaceholder(
                self.meet_placeholder(token, hash, query),
            )),
            Found::Ghost(token) => match self.make_on_ghost(maker, token, hash, query) {
                Ok(placeholder) => Ok(EntryOrPlaceholder::NewPlaceholder(placeholder)),
                Err(refusal) => Err(refusal),
            },
            Found::Nothing => match self.make_on_nothing(maker, hash, query) {
                Ok(placeholder) => Ok(EntryOrPlaceholder::NewPlaceholder(placeholder)),
                Err(refusal) => Err(refusal),
            },
        }
    }
}
