//! A cache for one thread is made.
ghost use Rattle.std.specs.Prelude.{◌≡◌, None, IfOk, IfErr, IsOk};
ghost use Rattle.quick_cache_options.specs.Options.{first_error, settings_of};
ghost use Rattle.quick_cache_shard.specs.Shard.{made_with};
ghost use Rattle.quick_cache_maker.specs.Made.{IsMakeError, made_state};

use crate::error::MakeError;
use crate::maker::{Maker, Named, Unnamed};
use quick_cache_unsync::{Cache, DefaultLifecycle};
use std::alloc::Allocator;
use std::hash::{BuildHasher, Hash};

impl<We: Drop, B: BuildHasher + Drop, L: Drop> Maker<We, B, Named<L>> {
    /// An empty cache for one thread. It allocates nothing.
    ///
    /// # Errors
    ///
    /// The first fault of the options, or `Memory` where the allocator could not be cloned.
    pub fn make_unsync<K: Eq + Hash, V, A: Allocator + Clone>(
        self,
        alloc: A,
    ) -> Result<Cache<K, V, We, B, L, A>, MakeError>
        ensures makes { IfOk result (λ cache. cache ≡ made_with
            (made_state (settings_of self.options)) self.weigher self.builder self.lifecycle.life) }
        ensures succeeds { A.is_infallible alloc → first_error self.options ≡ None → IsOk result }
        ensures error { IfErr result (IsMakeError self.options) }
    {
        match self.options.build() {
            Ok(options) => match Cache::with_options(
                alloc,
                options,
                self.weigher,
                self.builder,
                self.lifecycle.life,
            ) {
                Ok(cache) => Ok(cache),
                Err(refusal) => Err(MakeError::Refused(refusal)),
            },
            Err(error) => Err(MakeError::Options(error)),
        }
    }
}

impl<We: Drop, B: BuildHasher + Drop> Maker<We, B, Unnamed> {
    /// An empty cache for one thread, with the default lifecycle. It allocates nothing.
    ///
    /// # Errors
    ///
    /// The first fault of the options, or `Memory` where the allocator could not be cloned.
    pub fn make_unsync<K: Eq + Hash, V, A: Allocator + Clone>(
        self,
        alloc: A,
    ) -> Result<Cache<K, V, We, B, DefaultLifecycle<K, V>, A>, MakeError>
        ensures makes { IfOk result (λ cache. cache ≡ made_with
            (made_state (settings_of self.options)) self.weigher self.builder cache.lifecycle) }
        ensures succeeds { A.is_infallible alloc → first_error self.options ≡ None → IsOk result }
        ensures error { IfErr result (IsMakeError self.options) }
    {
        self.lifecycle(DefaultLifecycle::new()).make_unsync(alloc)
    }
}
