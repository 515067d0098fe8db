//! A cache that threads share is made.
ghost use Rattle.std.specs.Prelude.{◌≡◌, IfOk, IfErr};
ghost use Rattle.quick_cache_model.specs.Sizes.{IsShardCount};
ghost use Rattle.quick_cache_options.specs.Options.{settings_of};
ghost use Rattle.quick_cache_maker.specs.Made.{IsMakeError};

use crate::error::MakeError;
use crate::maker::{Maker, Named, Unnamed};
use quick_cache_model::Lifecycle;
use quick_cache_sync::{Cache, DefaultLifecycle};
use std::alloc::Allocator;
use std::hash::{BuildHasher, Hash};

impl<We: Clone + Drop, B: BuildHasher + Clone + Drop, L: Clone + Drop> Maker<We, B, Named<L>> {
    /// An empty cache that threads share. It takes no lock, and allocates the list of its shards
    /// alone.
    ///
    /// # Errors
    ///
    /// The first fault of the options, or `Memory` where the list was refused, or a clone.
    pub fn make_shared<K: Eq + Hash + Drop, V: Drop, A: Allocator + Clone>(
        self,
        alloc: A,
    ) -> Result<Cache<K, V, We, B, L, A>, MakeError>
    where
        L: Lifecycle<K, V>,
        ensures shards { IfOk result (λ cache. IsShardCount (settings_of self.options).shards
            (settings_of self.options).estimated_items_capacity cache.shards) }
        ensures builder { IfOk result (λ cache. cache.builder ≡ self.builder) }
        ensures error { IfErr result (IsMakeError self.options) }
    {
        match self.options.build() {
            Ok(options) => match Cache::with_options(
                alloc,
                options,
                self.weigher,
                self.builder,
                self.lifecycle.life,
            ) {
                Ok(cache) => Ok(cache),
                Err(refusal) => Err(MakeError::Refused(refusal)),
            },
            Err(error) => Err(MakeError::Options(error)),
        }
    }
}

impl<We: Clone + Drop, B: BuildHasher + Clone + Drop> Maker<We, B, Unnamed> {
    /// An empty cache that threads share, with the default lifecycle. It takes no lock, and
    /// allocates the list of its shards alone.
    ///
    /// # Errors
    ///
    /// The first fault of the options, or `Memory` where the list was refused, or a clone.
    pub fn make_shared<K: Eq + Hash + Drop, V: Drop, A: Allocator + Clone>(
        self,
        alloc: A,
    ) -> Result<Cache<K, V, We, B, DefaultLifecycle<K, V>, A>, MakeError>
        ensures shards { IfOk result (λ cache. IsShardCount (settings_of self.options).shards
            (settings_of self.options).estimated_items_capacity cache.shards) }
        ensures builder { IfOk result (λ cache. cache.builder ≡ self.builder) }
        ensures error { IfErr result (IsMakeError self.options) }
    {
        self.lifecycle(DefaultLifecycle::new()).make_shared(alloc)
    }
}
