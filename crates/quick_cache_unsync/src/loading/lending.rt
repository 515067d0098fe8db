//! References to values that are there or that a loader makes, and guards of what is not there.
ghost use Rattle.std.specs.Prelude.{◌≡◌, ◌≤◌, ◌+◌, IfOk, IfErr, Ok, true};
ghost use Rattle.std.specs.Borrow.{sem, RestsIfErr};
ghost use Rattle.quick_cache_model.specs.Hashing.{StandsForGiven};
ghost use Rattle.quick_cache_shard.specs.Shard.{IsSoundShard, KeepsWork};
ghost use Rattle.quick_cache_unsync.specs.Loads.{answer_of};
ghost use Rattle.quick_cache_unsync.specs.Touches.{no_touches};
ghost use Rattle.quick_cache_unsync.specs.Steps.{LoadsWithin, TakesNone};

use crate::cache::Cache;
use crate::lent::reading::Ref;
use crate::lent::reference::RefMut;
use crate::loading::guard::Guard;
use crate::loading::not_loaded::NotLoaded;
use quick_cache_model::{Lifecycle, Refusal, ToKey, Weighter};
use quick_cache_shard::{Keyed, Ruled, Typed};
use std::alloc::Allocator;
use std::hash::{BuildHasher, Hash};

impl<
    K: Eq + Hash + Drop,
    V: Drop,
    We: Weighter<K, V>,
    B: BuildHasher,
    L: Lifecycle<K, V>,
    A: Allocator,
> Cache<K, V, We, B, L, A> {
    ghost use Rattle.quick_cache_unsync.specs.LentValues.{reader, read_from, asked_of, lender, lent, query_of};
    ghost use Rattle.quick_cache_unsync.specs.LentGuards.{LendsOrTakes, lender_of, lent_or_guarded};

    /// A reference to the value under the query's key, to read: the item is looked up as by `get`.
    /// Where no item stands under it, calls the loader and puts its value in, with a request state
    /// of the call's own.
    ///
    /// # Errors
    ///
    /// `NotKept` where the loaded value did not stay, `Failed` with the loader's error, which
    /// leaves no placeholder, and `Refused`, which comes before the loader is called, and only
    /// where no key is found: by `TicketsSpent`, `SlotsFull` or `Memory`. Nothing has changed then.
    #[inline]
    pub fn get_or_insert_with<'a, Q: ToKey<K>, E, F: FnOnce() -> Result<V, E>>(
        &'a mut self,
        query: &'a Q,
        loader: F,
    ) -> Result<Ref<'a, Q, K, V, We, B, L, A>, NotLoaded<E>>
    where
        L::RequestState: Drop,
        requires stands { StandsForGiven (Q.to_key_gives query.now) (Q.equivalent query.now) }
        requires loader { F.pre loader }
        // Where pinning is steady, a value fills the placeholder by a step of its definition.
        ensures* rests { sem 𝓛 (RestsIfErr ⟦<Self as Typed>⟧.lender_row self.entry reader result
            (λ new. IfErr result (λ error. LoadsWithin ⟦<Self as Ruled>⟧.goes no_touches self.old
            L.RequestState.is_default (Q.equivalent query.now) (Q.to_key_gives query.now)
            (⟦<Self as Keyed>⟧.hash self.old.builder (Q.hash_input query.now))
            (F.post loader) (answer_of error) new))) }
        ensures loads { IfOk result (λ r. LoadsWithin ⟦<Self as Ruled>⟧.goes no_touches self.old
            L.RequestState.is_default (Q.equivalent query.now) (Q.to_key_gives query.now)
            (⟦<Self as Keyed>⟧.hash self.old.builder (Q.hash_input query.now))
            (F.post loader) (Ok (Ok true)) (read_from r)) }
        // Where a key is had without fail, it asks for memory only where there is no room.
        ensures asks { Q.to_key_is_infallible query.now
            → IfErr result (λ error. error ≡ NotLoaded.Refused Refusal.Memory → self.old.room ≡ 0) }
        ensures lends { IfOk result (λ r. reader r ≡ self.entry.ghost_name) }
        ensures query { IfOk result (λ r. asked_of r ≡ query.now) }
        ensures sound { IfOk result (λ r. IsSoundShard K.eq (read_from r)) }
    {
        let hash = self.hash_of(query);
        let (slot, answer) = self.load_by(hash, query, loader);
        match answer {
            Ok(Ok(true)) => Ok(Ref {
                cache: self,
                query,
                hash,
                slot,
            }),
            Ok(Ok(false)) => Err(NotLoaded::NotKept),
            Ok(Err(error)) => Err(NotLoaded::Failed(error)),
            Err(refusal) => Err(NotLoaded::Refused(refusal)),
        }
    }

    /// A reference to the value under the query's key, to write: the item is looked up as by
    /// `get_mut`. Where no item stands under it, calls the loader and puts its value in, with a
    /// request state of the call's own. Once the reference is dropped, the item has the weight of
    /// the value that was left, as with `get_mut`.
    ///
    /// # Errors
    ///
    /// `NotKept` where the loaded value did not stay, `Failed` with the loader's error, which
    /// leaves no placeholder, and `Refused`, which comes before the loader is called, and only
    /// where no key is found: by `TicketsSpent`, `SlotsFull` or `Memory`. Nothing has changed then.
    pub fn get_mut_or_insert_with<'a, Q: ToKey<K>, E, F: FnOnce() -> Result<V, E>>(
        &'a mut self,
        query: &'a Q,
        loader: F,
    ) -> Result<RefMut<'a, Q, K, V, We, B, L, A>, NotLoaded<E>>
    where
        L::RequestState: Drop,
        requires stands { StandsForGiven (Q.to_key_gives query.now) (Q.equivalent query.now) }
        requires loader { F.pre loader }
        // Where pinning is steady, a value fills the placeholder by a step of its definition.
        ensures* rests { sem 𝓛 (RestsIfErr ⟦<Self as Typed>⟧.lender_row self.entry lender result
            (λ new. IfErr result (λ error. LoadsWithin ⟦<Self as Ruled>⟧.goes no_touches self.old
            L.RequestState.is_default (Q.equivalent query.now) (Q.to_key_gives query.now)
            (⟦<Self as Keyed>⟧.hash self.old.builder (Q.hash_input query.now))
            (F.post loader) (answer_of error) new))) }
        ensures loads { IfOk result (λ r. LoadsWithin ⟦<Self as Ruled>⟧.goes no_touches self.old
            L.RequestState.is_default (Q.equivalent query.now) (Q.to_key_gives query.now)
            (⟦<Self as Keyed>⟧.hash self.old.builder (Q.hash_input query.now))
            (F.post loader) (Ok (Ok true)) (lent r)) }
        // Where a key is had without fail, it asks for memory only where there is no room.
        ensures asks { Q.to_key_is_infallible query.now
            → IfErr result (λ error. error ≡ NotLoaded.Refused Refusal.Memory → self.old.room ≡ 0) }
        ensures lends { IfOk result (λ r. lender r ≡ self.entry.ghost_name) }
        ensures query { IfOk result (λ r. query_of r ≡ query.now) }
        ensures sound { IfOk result (λ r. IsSoundShard K.eq (lent r)) }
    {
        let hash = self.hash_of(query);
        let (slot, answer) = self.load_by(hash, query, loader);
        match answer {
            Ok(Ok(true)) => Ok(RefMut {
                cache: self,
                query,
                hash,
                slot,
            }),
            Ok(Ok(false)) => Err(NotLoaded::NotKept),
            Ok(Err(error)) => Err(NotLoaded::Failed(error)),
            Err(refusal) => Err(NotLoaded::Refused(refusal)),
        }
    }

    /// A reference to the value under the query's key, to read: the item is looked up as by
    /// `get`. Or, where no item stands under it, the right to fill a placeholder of the key: one
    /// that is made, which counts a miss, or the one that a leaked guard left, which counts a hit.
    ///
    /// # Errors
    ///
    /// Only where no key is found: `TicketsSpent`, `SlotsFull` or `Memory`. Nothing has changed.
    pub fn get_ref_or_guard<'a, Q: ToKey<K>>(
        &'a mut self,
        query: &'a Q,
    ) -> Result<Result<Ref<'a, Q, K, V, We, B, L, A>, Guard<'a, K, V, We, B, L, A>>, Refusal>
        requires stands { StandsForGiven (Q.to_key_gives query.now) (Q.equivalent query.now) }
        ensures* rests { sem 𝓛 (RestsIfErr ⟦<Self as Typed>⟧.lender_row self.entry
            (lender_of reader) result (λ new. IfErr result (λ refusal. TakesNone
            (Q.equivalent query.now) (Q.to_key_gives query.now)
            (⟦<Self as Keyed>⟧.hash self.old.builder (Q.hash_input query.now))
            self.old refusal new))) }
        ensures answers { IfOk result (λ given. LendsOrTakes read_from asked_of
            (Q.equivalent query.now) (Q.to_key_gives query.now)
            (⟦<Self as Keyed>⟧.hash self.old.builder (Q.hash_input query.now))
            query.now self.old.state given) }
        ensures lends { IfOk result (λ given. lender_of reader given ≡ self.entry.ghost_name) }
        // It takes room for one entry at most, and where a key is had without fail it asks for memory
        // only where there is no room.
        ensures room { IfOk result
            (λ given. self.old.room ≤ (lent_or_guarded read_from given).room + 1) }
        ensures asks { Q.to_key_is_infallible query.now
            → IfErr result (λ refusal. refusal ≡ Refusal.Memory → self.old.room ≡ 0) }
        ensures same { IfOk result (λ given. KeepsWork self.old (lent_or_guarded read_from given)) }
        ensures sound { IfOk result (λ given. IsSoundShard K.eq (lent_or_guarded read_from given)) }
    {
        let hash = self.hash_of(query);
        match self.begin_load(hash, query) {
            Ok(Ok(token)) => Ok(Ok(Ref {
                cache: self,
                query,
                hash,
                slot: token.get(),
            })),
            Ok(Err(placeholder)) => Ok(Err(Guard {
                cache: self,
                hash,
                slot: placeholder.idx.get(),
                ticket: placeholder.ticket,
            })),
            Err(refusal) => Err(refusal),
        }
    }

    /// A reference to the value under the query's key, to write: the item is looked up as by
    /// `get_mut`. Or, where no item stands under it, the right to fill a placeholder of the key:
    /// one that is made, which counts a miss, or the one that a leaked guard left, which counts a
    /// hit.
    ///
    /// # Errors
    ///
    /// Only where no key is found: `TicketsSpent`, `SlotsFull` or `Memory`. Nothing has changed.
    pub fn get_mut_or_guard<'a, Q: ToKey<K>>(
        &'a mut self,
        query: &'a Q,
    ) -> Result<Result<RefMut<'a, Q, K, V, We, B, L, A>, Guard<'a, K, V, We, B, L, A>>, Refusal>
        requires stands { StandsForGiven (Q.to_key_gives query.now) (Q.equivalent query.now) }
        ensures* rests { sem 𝓛 (RestsIfErr ⟦<Self as Typed>⟧.lender_row self.entry
            (lender_of lender) result (λ new. IfErr result (λ refusal. TakesNone
            (Q.equivalent query.now) (Q.to_key_gives query.now)
            (⟦<Self as Keyed>⟧.hash self.old.builder (Q.hash_input query.now))
            self.old refusal new))) }
        ensures answers { IfOk result (λ given. LendsOrTakes lent query_of
            (Q.equivalent query.now) (Q.to_key_gives query.now)
            (⟦<Self as Keyed>⟧.hash self.old.builder (Q.hash_input query.now))
            query.now self.old.state given) }
        ensures lends { IfOk result (λ given. lender_of lender given ≡ self.entry.ghost_name) }
        // It takes room for one entry at most, and where a key is had without fail it asks for memory
        // only where there is no room.
        ensures room { IfOk result
            (λ given. self.old.room ≤ (lent_or_guarded lent given).room + 1) }
        ensures asks { Q.to_key_is_infallible query.now
            → IfErr result (λ refusal. refusal ≡ Refusal.Memory → self.old.room ≡ 0) }
        ensures same { IfOk result (λ given. KeepsWork self.old (lent_or_guarded lent given)) }
        ensures sound { IfOk result (λ given. IsSoundShard K.eq (lent_or_guarded lent given)) }
    {
        let hash = self.hash_of(query);
        match self.begin_load(hash, query) {
            Ok(Ok(token)) => Ok(Ok(RefMut {
                cache: self,
                query,
                hash,
                slot: token.get(),
            })),
            Ok(Err(placeholder)) => Ok(Err(Guard {
                cache: self,
                hash,
                slot: placeholder.idx.get(),
                ticket: placeholder.ticket,
            })),
            Err(refusal) => Err(refusal),
        }
    }
}
