//! Entry calls, and values that are loaded where nothing stands.
ghost use Rattle.std.specs.Prelude.{◌≡◌, Ok, Err, Option, IsErr, IfOk, IfErr};
ghost use mathlib.Core.List.{IsPrefix};
ghost use Rattle.quick_cache_history.specs.declared.choice.Choice.{Choice};
ghost use Rattle.quick_cache_history.specs.Loads.{Enters, Gives, KeepsOrInserts, MayShow};
ghost use Rattle.quick_cache_history.specs.Rows.{shard_of};

use crate::choice::{Choice, Entered};
use crate::law::Naming;
use crate::recorded::Recorded;
use crate::seat::Seat;
use quick_cache_model::{Lifecycle, Refusal, Weighter};
use quick_cache_shard::Ruled;
use std::alloc::Allocator;
use std::hash::{BuildHasher, Hash};
use std::sync::Wait;

impl<
    K: Eq + Hash + Drop,
    V: Clone,
    We: Weighter<K, V>,
    B: BuildHasher,
    L: Lifecycle<K, V>,
    J: Naming,
    A: Allocator,
> Recorded<K, V, We, B, L, J, A> {
    /// Shows the callback a clone of the value under the key, or that there is none, and does as it
    /// chooses: what stands there stays, or goes, as by `remove`, or the value that it gives is put in,
    /// as by `insert`, with a request state of this call. It takes the write lock of the key's shard
    /// once, under which the clone is made, and the callback is called, once: no other call of the
    /// shard comes between. So what two callers put in where nothing stands comes to one value, and
    /// each caller of the shard waits for a callback that is slow; one that calls the same cache may
    /// wait forever. To be shown is no use of the item, and nothing is counted.
    ///
    /// # Errors
    ///
    /// `Memory` where the clone failed, and then the callback was not called; or why the pair was
    /// refused, as an `insert` of it is, and then it is dropped. No call was made then.
    pub fn entry<R: Wait, T: Drop, F: FnOnce(Option<V>) -> Choice<V, T>>(
        &self,
        rt: &R,
        seat: &mut Seat<K, V, J>,
        key: K,
        choose: F,
    ) -> Result<Entered<K, V, T>, Refusal>
    where
        L::RequestState: Drop,
        // What it is shown fits an equal key, where clones fit.
        requires callable { (found : Option V) → MayShow L.fits (K.eq key) V.is_clone found
            → F.pre choose found }
        // What it puts in fits the key.
        requires fits { (found : Option V) (value : V) → MayShow L.fits (K.eq key) V.is_clone found
            → F.post choose found (Choice.Insert value) → L.fits key value }
        // The key's shard showed what the callback chose by, and then made the call, if one was chosen.
        ensures enters { IfOk result (Enters ⟦<Self as Ruled>⟧.goes L.RequestState.is_default K.eq
            V.is_clone (shard_of B.BuildHasher B.Hasher.Hasher self.now (K.hash_input key)) key
            (λ found chosen. F.post choose found chosen) seat.old seat.new) }
        ensures longer { IsErr result → IsPrefix seat.old.seen seat.new.seen }
        ensures refused { IsErr result → seat.new ≡ record seat.old { seen = seat.new.seen } }
    {
        let mut state = L::RequestState::default();
        let place = self.place_of(rt, &key);
        place
            .lock
            .write(rt)
            .entry(rt, &place.head, seat, key, choose, &mut state)
    }

    /// The value under the key, or the one that the loader gives, which is inserted where nothing
    /// stands there by then: what another caller has put in meanwhile stays, and is given. The loader
    /// is called under no lock, once at most, and nobody waits for it, so that callers of one key may
    /// each call theirs. It looks under the read lock of the key's shard, which counts a hit or a
    /// miss, and inserts under its write lock, with a request state of its own.
    ///
    /// # Errors
    ///
    /// Of the two, the outer one is `Memory` where a clone failed, or why the pair was refused, as an
    /// `insert` of it is; and the inner one is the loader's. No call was made then.
    pub fn get_or_insert_with<R: Wait, E: Drop, F: FnOnce() -> Result<V, E>>(
        &self,
        rt: &R,
        seat: &mut Seat<K, V, J>,
        key: K,
        loader: F,
    ) -> Result<Result<V, E>, Refusal>
    where
        L::RequestState: Drop,
        requires loader { F.pre loader }
        // What the loader gives fits the key.
        requires loads { (value : V) → F.post loader (Ok value) → L.fits key value }
        // The key's shard shows what is given, or has inserted what the loader gave.
        ensures gives { IfOk result (λ loaded. IfOk loaded (λ value. Gives ⟦<Self as Ruled>⟧.goes
            L.RequestState.is_default K.eq V.is_clone (shard_of B.BuildHasher B.Hasher.Hasher
            self.now (K.hash_input key)) key (λ own. F.post loader (Ok own)) value seat.old
            seat.new)) }
        ensures error { IfOk result (λ loaded. IfErr loaded (λ error. F.post loader (Err error)
            × IsPrefix seat.old.seen seat.new.seen
            × (seat.new ≡ record seat.old { seen = seat.new.seen }))) }
        ensures longer { IsErr result → IsPrefix seat.old.seen seat.new.seen }
        ensures refused { IsErr result → seat.new ≡ record seat.old { seen = seat.new.seen } }
    {
        match self.get(rt, seat, &key) {
            Ok(Some(value)) => return Ok(Ok(value)),
            Ok(None) => {}
            Err(refusal) => return Err(refusal),
        }
        let value = match loader() {
            Ok(value) => value,
            Err(error) => return Ok(Err(error)),
        };
        let copy = match value.clone() {
            Ok(copy) => copy,
            Err(_) => return Err(Refusal::Memory),
        };
        let choose = move |found: Option<V>| -> Choice<V, V>
            ensures { KeepsOrInserts value found result }
        {
            match found {
                Some(first) => Choice::Keep(first),
                None => Choice::Insert(value),
            }
        };
        match self.entry(rt, seat, key, choose) {
            Ok(Entered::Kept(first)) => Ok(Ok(first)),
            Ok(Entered::Inserted) => Ok(Ok(copy)),
            Ok(Entered::Removed(_)) => unreachable!(),
            Err(refusal) => Err(refusal),
        }
    }
}
