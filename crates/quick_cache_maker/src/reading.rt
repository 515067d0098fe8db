//! A loader with its cache is made.
ghost use Rattle.std.specs.Prelude.{◌≡◌, IfOk, IfErr};
ghost use Rattle.quick_cache_model.specs.Sizes.{IsShardCount};
ghost use Rattle.quick_cache_options.specs.Options.{settings_of};
ghost use Rattle.read_through.specs.Reading.{begun};
ghost use Rattle.quick_cache_maker.specs.Made.{IsMakeError};

use crate::error::MakeError;
use crate::maker::{Maker, Unnamed};
use read_through::{ReadThrough, Source};
use std::alloc::Allocator;
use std::hash::{BuildHasher, Hash};

impl<We: Clone + Drop, B: BuildHasher + Clone + Drop> Maker<We, B, Unnamed> {
    /// A loader with an empty cache of its values, which live for as long as `lives` says: a number,
    /// or an impl of `Lives`. It takes no lock, and allocates the list of the cache's shards alone.
    ///
    /// # Errors
    ///
    /// The first fault of the options, or `Memory` where the list was refused, or a clone.
    pub fn make_read_through<
        K: Eq + Hash + Drop,
        V: Drop,
        F: Drop,
        S: Source<K, V>,
        A: Allocator + Clone,
        Li: Drop,
    >(
        self,
        alloc: A,
        lives: Li,
        loader: F,
    ) -> Result<ReadThrough<K, V, F, S, A, Li, We, B>, MakeError>
        ensures shards { IfOk result (λ made. IsShardCount (settings_of self.options).shards
            (settings_of self.options).estimated_items_capacity made.shards) }
        ensures made { IfOk result (λ made. made ≡ begun lives loader made.shards) }
        ensures error { IfErr result (IsMakeError self.options) }
    {
        match self.options.build() {
            Ok(options) => match ReadThrough::with_options(
                alloc,
                options,
                self.weigher,
                self.builder,
                lives,
                loader,
            ) {
                Ok(made) => Ok(made),
                Err(refusal) => Err(MakeError::Refused(refusal)),
            },
            Err(error) => Err(MakeError::Options(error)),
        }
    }
}
