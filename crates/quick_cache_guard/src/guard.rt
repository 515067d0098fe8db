//! The right to load a key.
ghost use Rattle.std.specs.Prelude.{◌≡◌, IfErr, OnOk, OnErr, Some, codes, is_some, true};
ghost use Rattle.quick_cache_loading.specs.Fitting.{ClonesFit};
ghost use Rattle.quick_cache_guard.specs.Fills.{FilledAlone, FilledBy, IfBack, IsGoneSo, back_of};

use quick_cache_loading::sharing::{LoadingShard, Placeholder, SharedPlaceholder};
use quick_cache_loading::waiting::Share;
use quick_cache_model::Lifecycle;
use std::alloc::{Allocator, Global};
use std::error::Error;
use std::fmt::{Debug, Display, Formatter, Write};
use std::hash::Hash;
use std::marker::Model;
use std::sync::{Arc, RwLock, Wait};

/// A load of a key in a shard, by its placeholder, with its own copy of the key.
#[derive(Drop)]
pub struct Load<
    'a,
    K: Eq + Hash + Drop,
    V: Clone,
    L: Lifecycle<K, V>,
    S: LoadingShard<K, V, L, A>,
    R: Wait,
    A: Allocator,
> {
    pub rt: &'a R,
    pub shard: &'a RwLock<S>,
    pub placeholder: Arc<Placeholder<K, V, L, A>, A>,
    pub key: K,
}

/// The right to fill the placeholder of a key. Dropped, it goes to the one who came last of those
/// who wait, or the placeholder is given up. Contracts see it as its own copy of the key.
pub struct PlaceholderGuard<
    'a,
    K: Eq + Hash + Drop,
    V: Clone,
    L: Lifecycle<K, V>,
    S: LoadingShard<K, V, L, A>,
    R: Wait,
    A: Allocator = Global,
> {
    pub(crate) load: Load<'a, K, V, L, S, R, A>,
    pub(crate) share: Share,
}

impl<
    'a,
    K: Eq + Hash + Drop,
    V: Clone,
    L: Lifecycle<K, V>,
    S: LoadingShard<K, V, L, A>,
    R: Wait,
    A: Allocator,
> Model for PlaceholderGuard<'a, K, V, L, S, R, A> {
    ghost use Rattle.std.specs.Prelude.{◌≡◌};
    ghost use Rattle.std.specs.Arc.{arc_value};

    ghost Value = { K };

    ghost view = { λ guard. guard.load.key };

    ghost invariant = { λ guard. guard.share ≡ (arc_value guard.load.placeholder).ticket };
}

/// Why a value did not stay, where `G` is the guard that was to put it in.
#[derive(Debug, Drop)]
pub enum FillError<V, G> {
    /// The placeholder had left its shard, which is unchanged. Who waited has a clone of the value.
    Gone(V),
    /// Memory was refused for the clone, and the guard stands.
    Memory(G, V),
}

impl<V, G> Display for FillError<V, G> {
    ghost use Rattle.quick_cache_guard.specs.Fills.{fill_error_text};

    ghost output = { λ error. Some (fill_error_text error) };

    fn fmt<W: Write>(&self, f: &mut Formatter<W>) -> std::fmt::Result {
        f.write_str(match self {
            FillError::Gone(_) => "the placeholder had left the cache",
            FillError::Memory(_, _) => "no memory for a clone of the value",
        })
    }
}

impl<V: Debug + Drop, G: Debug + Drop> Error for FillError<V, G> {}

impl<
    K: Eq + Hash + Drop,
    V: Clone,
    L: Lifecycle<K, V>,
    S: LoadingShard<K, V, L, A>,
    R: Wait,
    A: Allocator,
> Drop for PlaceholderGuard<'_, K, V, L, S, R, A> {
    fn drop(self) {
        let PlaceholderGuard { load, share } = self;
        if let Err(share) = load.placeholder.hand_on(load.rt, share) {
            load.placeholder
                .give_up(load.rt, &mut *load.shard.write(load.rt), share);
        }
    }
}

impl<
    'a,
    K: Eq + Hash + Drop,
    V: Clone,
    L: Lifecycle<K, V>,
    S: LoadingShard<K, V, L, A>,
    R: Wait,
    A: Allocator,
> PlaceholderGuard<'a, K, V, L, S, R, A> {
    /// The guard of a placeholder, by its share. It takes no lock.
    pub fn start_loading(
        rt: &'a R,
        shard: &'a RwLock<S>,
        placeholder: SharedPlaceholder<K, V, L, A>,
        key: K,
        share: Share,
    ) -> Self
        requires owned { is_some placeholder.placeholder ≡ true }
        requires share { share ≡ placeholder.ticket }
        ensures key { result ≡ key }
    {
        match placeholder.into_placeholder() {
            Some(placeholder) => {
                let load = Load {
                    rt,
                    shard,
                    placeholder,
                    key,
                };
                PlaceholderGuard { load, share }
            }
            None => unreachable!(),
        }
    }

    /// As `insert_with_lifecycle`, with a request state of its own. A value that is too heavy is told
    /// to the cold hook, and the answer is `Ok`.
    pub fn insert(self, value: V) -> Result<(), FillError<V, Self>>
    where
        L::RequestState: Drop,
        requires fits { L.fits self value }
        requires clones { ClonesFit L.fits V.is_clone }
        ensures back { IfErr result (λ error. back_of error ≡ value) }
        ensures gone { IfErr result (IsGoneSo S.lacks self.entry) }
        ensures told { OnOk result
            (FilledAlone L.RequestState.is_default S.fills self.entry value) }
    {
        let mut state = L::RequestState::default();
        self.insert_with_lifecycle(value, &mut state)
    }

    /// Makes a clone of the value and gives it to those who wait, under the lock of the placeholder's
    /// state. Then it takes the write lock of the shard and puts the value in, with this request
    /// state.
    ///
    /// # Errors
    ///
    /// The value, and why. Where the clone was refused nothing happened, and the guard comes back.
    /// Where the placeholder had left the shard, the shard is unchanged.
    pub fn insert_with_lifecycle(
        self,
        value: V,
        state: &mut L::RequestState,
    ) -> Result<(), FillError<V, Self>>
        requires fits { L.fits self value }
        requires clones { ClonesFit L.fits V.is_clone }
        ensures back { IfErr result (λ error. back_of error ≡ value) }
        ensures gone { IfErr result (IsGoneSo S.lacks self.entry) }
        // Where memory was refused the guard comes back, and wherever it fails no hook was called.
        ensures guard { IfErr result (λ error. IfBack error (λ guard. guard ≡ self.entry)) }
        ensures unchanged { OnErr result (state.new ≡ state.old) }
        ensures told { OnOk result (FilledBy S.fills self.entry value state.old state.new) }
    {
        let copy = match value.clone() {
            Ok(copy) => copy,
            Err(_) => return Err(FillError::Memory(self, value)),
        };
        let PlaceholderGuard { load, share } = self;
        let filled = match load.placeholder.fill(load.rt, &load.key, share, copy) {
            Ok(filled) => filled,
            Err((share, _)) => {
                drop(PlaceholderGuard { load, share });
                return Err(FillError::Gone(value));
            }
        };
        let named = SharedPlaceholder::named(&load.placeholder);
        let mut locked = load.shard.write(load.rt);
        let put = filled.settle(&mut *locked, &named, &load.key, value, state);
        drop(locked);
        match put {
            Ok(()) => Ok(()),
            Err(value) => Err(FillError::Gone(value)),
        }
    }

    /// Gives the guard to the one who came last of those who wait. Where nobody waits, it takes the
    /// placeholder out, under the shard's lock. A dropped guard does the same.
    pub fn abandon(self) {
        drop(self);
    }
}

impl<
    K: Eq + Hash + Drop,
    V: Clone,
    L: Lifecycle<K, V>,
    S: LoadingShard<K, V, L, A>,
    R: Wait,
    A: Allocator,
> Debug for PlaceholderGuard<'_, K, V, L, S, R, A> {
    ghost debug_output = { λ _. Some (codes "PlaceholderGuard { .. }") };

    fn fmt<W: Write>(&self, f: &mut Formatter<W>) -> std::fmt::Result {
        f.write_str("PlaceholderGuard { .. }")
    }
}
