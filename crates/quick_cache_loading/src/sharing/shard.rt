//! A shard, as those who load its keys use it while they hold its lock.
ghost use Rattle.std.specs.Prelude.{◌≡◌, ℕ, Bool, IfOk, IfErr, OnOk, OnErr, IfSome};
ghost use Rattle.quick_cache_model.specs.Hashing.{StandsForGiven};
ghost use Rattle.quick_cache_model.specs.declared.refusal.Refusal.{Refusal};
ghost use Rattle.quick_cache_loading.specs.Fitting.{ClonesFit, FitsQuery};
ghost use Rattle.quick_cache_loading.specs.Begins.{IfFound};
ghost use Rattle.quick_cache_loading.specs.Waiters.{IsLoadRefusal};

use crate::sharing::shared::SharedPlaceholder;
use crate::waiting::{Ended, Filled};
use quick_cache_model::{Equivalent, Lifecycle, Refusal, ToKey};
use std::alloc::Allocator;
use std::hash::Hash;

/// What a load begins with.
#[derive(Drop)]
pub enum Begun<V, P> {
    /// A clone of the value that is there.
    Found(V),
    /// The placeholder of the key, which was made or met.
    Loading(P),
}

/// A shard, as those who load its keys use it while they hold its lock.
pub trait LoadingShard<K: Eq + Hash + Drop, V: Clone, L: Lifecycle<K, V>, A: Allocator> {
    /// What becomes of a shard that takes the placeholder of this ticket out.
    ghost gives_up: { ℕ → Self → Self → Type 0 };

    /// What a fill may make of a request state: some shard put this value in under this key, for the
    /// placeholder of this ticket, and whether anyone waited for it.
    ghost fills: { ℕ → Bool → K → V → L.RequestState → L.RequestState → Type 0 };

    /// The shard has no placeholder of this ticket for an equal key.
    ghost lacks: { ℕ → K → Self → Type 0 };

    /// The shard has an item under such a key, and this is a clone of its value.
    ghost shows: { (K → Bool) → V → Self → Type 0 };

    /// The shard refuses so to load such a key.
    ghost refuses: { (K → Bool) → Refusal → Self → Type 0 };

    /// Looks the query's key up beside other readers, and gives a clone of its value. A find counts
    /// a hit and a touch of the item, and nothing else is counted.
    ///
    /// # Errors
    ///
    /// `Memory` where the clone failed.
    fn find<Q: Equivalent<K>>(&self, query: &Q) -> Result<Option<V>, Refusal>
        ensures fits { ClonesFit L.fits V.is_clone → IfOk result
            (λ found. IfSome found (λ value. FitsQuery L.fits (Q.equivalent query.now) value)) }
        ensures shows { IfOk result
            (λ found. IfSome found (λ value. shows (Q.equivalent query.now) value self.now)) }
        ensures refused { IfErr result (λ refusal. refusal ≡ Refusal.Memory) };

    /// Looks the query's key up. Where no item stands under it, a placeholder is made or met.
    ///
    /// # Errors
    ///
    /// `Memory` where a clone failed, and what refuses a placeholder. Nothing has changed then.
    fn begin_load<Q: ToKey<K>>(
        &mut self,
        query: &Q,
    ) -> Result<Begun<V, SharedPlaceholder<K, V, L, A>>, Refusal>
        requires stands { StandsForGiven (Q.to_key_gives query.now) (Q.equivalent query.now) }
        ensures fits { ClonesFit L.fits V.is_clone → IfOk result
            (λ begun. IfFound begun (λ value. FitsQuery L.fits (Q.equivalent query.now) value)) }
        ensures shows { IfOk result
            (λ begun. IfFound begun (λ value. shows (Q.equivalent query.now) value self.old)) }
        ensures refuses { IfErr result
            (λ refusal. refuses (Q.equivalent query.now) refusal self.old) }
        ensures refused { IfErr result IsLoadRefusal };

    /// Puts the value of a placeholder that was filled into its place. Its mark is whether anyone
    /// waited for it.
    ///
    /// # Errors
    ///
    /// The value, where the placeholder is not there, or for another key. Nothing has changed then.
    fn end_load(
        &mut self,
        placeholder: &SharedPlaceholder<K, V, L, A>,
        filled: &Filled,
        key: &K,
        value: V,
        state: &mut L::RequestState,
    ) -> Result<(), V>
        requires fits { L.fits key.now value }
        requires filled { filled.now.ticket ≡ placeholder.now.ticket }
        ensures back { IfErr result (λ back. back ≡ value) }
        ensures lacks { OnErr result (lacks filled.now.ticket key.now self.old) }
        ensures unchanged { OnErr result (state.new ≡ state.old) }
        ensures told { OnOk result
            (fills filled.now.ticket filled.now.waited key.now value state.old state.new) };

    /// Takes the placeholder out whose life has ended, if it is there.
    fn give_up_load(&mut self, placeholder: &SharedPlaceholder<K, V, L, A>, ended: &Ended)
        requires ended { ended.now.ticket ≡ placeholder.now.ticket }
        ensures gives_up { gives_up ended.now.ticket self.old self.new };
}
