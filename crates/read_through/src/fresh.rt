//! The lifecycle of what a loader gave.
ghost use Rattle.std.specs.Prelude.{◌≡◌, ⊤};
ghost use Rattle.std.proofs.Common.{sym, ◌∙◌};
ghost use Rattle.read_through.specs.Answers.{IsOf};

use crate::given::Source;
use quick_cache_expiring::Loaded;
use quick_cache_model::Lifecycle;
use std::alloc::AllocError;
use std::marker::PhantomData;

/// Pins nothing, and drops what leaves. A value fits a key where it is the source's, for an equal
/// key at the moment that it has.
#[derive(Drop)]
pub struct Fresh<S> {
    source: PhantomData<S>,
}

impl<S> Fresh<S> {
    /// The lifecycle; each one is like any other.
    pub fn new() -> Self {
        Fresh {
            source: PhantomData,
        }
    }
}

impl<S> Clone for Fresh<S> {
    ghost is_clone = { λ old new. new ≡ old };

    ghost is_infallible = { λ _. ⊤ };

    fn clone(&self) -> Result<Self, AllocError> {
        Ok(Fresh::new())
    }
}

impl<K: Eq + Drop, V: Drop, S: Source<K, V>> Lifecycle<K, Loaded<V>> for Fresh<S> {
    type RequestState = ();

    ghost fits = { λ key loaded. IsOf S.gives K.eq key loaded.moment loaded.value };

    ghost before_evict_gives = { λ _ old _ value new left. (new ≡ old) × (left ≡ value) };

    ghost on_evict_gives = { λ _ old _ _ new. new ≡ old };

    ghost on_evict_cold_gives = { λ _ old _ _ new. new ≡ old };

    ghost on_evict_hot_gives = { λ _ old _ _ new. new ≡ old };

    ghost keeps_fits = { λ _ _ _ _ _ _ same fits. rw same.1 fits };

    ghost same_fits = { λ first second _ equal fits. record {
      key = fits.key;
      same = sym (K.Eq.laws.congr first second fits.key equal) ∙ fits.same;
      gave = fits.gave;
    } };

    fn is_pinned(&self, _key: &K, _val: &Loaded<V>) -> bool {
        false
    }

    fn before_evict(&self, _state: &mut (), _key: &K, _val: &mut Loaded<V>) {}

    fn on_evict(&self, _state: &mut (), _key: K, _val: Loaded<V>) {}

    fn on_evict_cold(&self, _state: &mut (), _key: K, _val: Loaded<V>) {}

    fn on_evict_hot(&self, _state: &mut (), _key: K, _val: Loaded<V>) {}
}
