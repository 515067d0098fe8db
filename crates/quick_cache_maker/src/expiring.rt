//! Caches whose entries end are made.
ghost use Rattle.std.specs.Prelude.{◌≡◌, None, IfOk, IfErr, IsOk};
ghost use Rattle.quick_cache_model.specs.Sizes.{IsShardCount};
ghost use Rattle.quick_cache_options.specs.Options.{first_error, settings_of};
ghost use Rattle.quick_cache_shard.specs.Shard.{made_with};
ghost use Rattle.quick_cache_maker.specs.Made.{IsMakeError, made_state};

use crate::error::MakeError;
use crate::maker::{Maker, Named, Unnamed};
use quick_cache_expiring::{Expiring, Lasting};
use quick_cache_expiring_sync::SharedExpiring;
use quick_cache_model::Lifecycle;
use quick_cache_sync::DefaultLifecycle as SharedDefault;
use quick_cache_unsync::DefaultLifecycle;
use std::alloc::Allocator;
use std::hash::{BuildHasher, Hash};

impl<We: Drop, B: BuildHasher + Drop, L: Drop> Maker<We, B, Named<L>> {
    /// An empty cache for one thread whose entries end. It allocates nothing.
    ///
    /// # Errors
    ///
    /// The first fault of the options, or `Memory` where the allocator could not be cloned.
    pub fn make_expiring<K: Eq + Hash, V, A: Allocator + Clone>(
        self,
        alloc: A,
    ) -> Result<Expiring<K, V, We, B, L, A>, MakeError>
        ensures makes { IfOk result (λ made. made.cache ≡ made_with
            (made_state (settings_of self.options)) (record { weigher = self.weigher })
            self.builder self.lifecycle.life) }
        ensures none { IfOk result (λ made. made.expired ≡ 0) }
        ensures succeeds { A.is_infallible alloc → first_error self.options ≡ None → IsOk result }
        ensures error { IfErr result (IsMakeError self.options) }
    {
        match self.options.build() {
            Ok(options) => match Expiring::with_options(
                alloc,
                options,
                self.weigher,
                self.builder,
                self.lifecycle.life,
            ) {
                Ok(made) => Ok(made),
                Err(refusal) => Err(MakeError::Refused(refusal)),
            },
            Err(error) => Err(MakeError::Options(error)),
        }
    }
}

impl<We: Drop, B: BuildHasher + Drop> Maker<We, B, Unnamed> {
    /// An empty cache for one thread whose entries end, with the default lifecycle. It allocates
    /// nothing.
    ///
    /// # Errors
    ///
    /// The first fault of the options, or `Memory` where the allocator could not be cloned.
    pub fn make_expiring<K: Eq + Hash, V, A: Allocator + Clone>(
        self,
        alloc: A,
    ) -> Result<Expiring<K, V, We, B, DefaultLifecycle<K, Lasting<V>>, A>, MakeError>
        ensures makes { IfOk result (λ made. made.cache ≡ made_with
            (made_state (settings_of self.options)) (record { weigher = self.weigher })
            self.builder made.cache.lifecycle) }
        ensures none { IfOk result (λ made. made.expired ≡ 0) }
        ensures succeeds { A.is_infallible alloc → first_error self.options ≡ None → IsOk result }
        ensures error { IfErr result (IsMakeError self.options) }
    {
        self.lifecycle(DefaultLifecycle::new()).make_expiring(alloc)
    }
}

impl<We: Clone + Drop, B: BuildHasher + Clone + Drop, L: Clone + Drop> Maker<We, B, Named<L>> {
    /// An empty cache that threads share, whose entries end. It takes no lock, and allocates the list
    /// of its shards alone.
    ///
    /// # Errors
    ///
    /// The first fault of the options, or `Memory` where the list was refused, or a clone.
    pub fn make_shared_expiring<K: Eq + Hash + Drop, V: Drop, A: Allocator + Clone>(
        self,
        alloc: A,
    ) -> Result<SharedExpiring<K, V, We, B, L, A>, MakeError>
    where
        L: Lifecycle<K, Lasting<V>>,
        ensures shards { IfOk result (λ made. IsShardCount (settings_of self.options).shards
            (settings_of self.options).estimated_items_capacity made.shards) }
        ensures builder { IfOk result (λ made. made.builder ≡ self.builder) }
        ensures error { IfErr result (IsMakeError self.options) }
    {
        match self.options.build() {
            Ok(options) => match SharedExpiring::with_options(
                alloc,
                options,
                self.weigher,
                self.builder,
                self.lifecycle.life,
            ) {
                Ok(made) => Ok(made),
                Err(refusal) => Err(MakeError::Refused(refusal)),
            },
            Err(error) => Err(MakeError::Options(error)),
        }
    }
}

impl<We: Clone + Drop, B: BuildHasher + Clone + Drop> Maker<We, B, Unnamed> {
    /// An empty cache that threads share, whose entries end, with the default lifecycle. It takes no
    /// lock, and allocates the list of its shards alone.
    ///
    /// # Errors
    ///
    /// The first fault of the options, or `Memory` where the list was refused, or a clone.
    pub fn make_shared_expiring<K: Eq + Hash + Drop, V: Drop, A: Allocator + Clone>(
        self,
        alloc: A,
    ) -> Result<SharedExpiring<K, V, We, B, SharedDefault<K, Lasting<V>>, A>, MakeError>
        ensures shards { IfOk result (λ made. IsShardCount (settings_of self.options).shards
            (settings_of self.options).estimated_items_capacity made.shards) }
        ensures builder { IfOk result (λ made. made.builder ≡ self.builder) }
        ensures error { IfErr result (IsMakeError self.options) }
    {
        self.lifecycle(SharedDefault::new())
            .make_shared_expiring(alloc)
    }
}
