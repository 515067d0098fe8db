//! The hasher that a cache takes by default, and the hash of a key.
ghost use Rattle.std.specs.Prelude.{◌≡◌, Some, codes};
ghost use Rattle.std.specs.Hash.FoldHasher.{initial};
ghost use Rattle.quick_cache_model.specs.Hashing.{hash_of};

use std::fmt::{Debug, Formatter, Write};
use std::hash::{BuildHasher, FoldHasher, Hash, Hasher};

/// Builds the kit's fast folding hasher, always with the same seed, so that equal programs see
/// equal hashes.
///
/// Who chooses the keys can choose such as collide: where keys come from a stranger, hand a cache a
/// builder with a seed drawn at random, as std's `RandomState`.
///
/// It takes no memory, since the seed is a constant.
#[derive(Clone, Drop)]
pub struct DefaultHashBuilder(());

impl DefaultHashBuilder {
    /// The builder; each one is like any other.
    pub fn new() -> Self
        ensures seed { ⟦<FoldHasher as Default>⟧.is_default
            (⟦<DefaultHashBuilder as BuildHasher>⟧.build_hasher result) }
    {
        DefaultHashBuilder(())
    }
}

impl Default for DefaultHashBuilder {
    ghost is_default = { λ builder. ⟦<FoldHasher as Default>⟧.is_default (⟦<DefaultHashBuilder as BuildHasher>⟧.build_hasher builder) };

    fn default() -> Self {
        DefaultHashBuilder::new()
    }
}

impl BuildHasher for DefaultHashBuilder {
    type Hasher = FoldHasher;

    ghost build_hasher = { λ _. initial };

    fn build_hasher(&self) -> FoldHasher {
        FoldHasher::default()
    }
}

impl Debug for DefaultHashBuilder {
    ghost debug_output = { λ _. Some (codes "DefaultHashBuilder { .. }") };

    fn fmt<W: Write>(&self, f: &mut Formatter<W>) -> std::fmt::Result {
        f.write_str("DefaultHashBuilder { .. }")
    }
}

/// The hash of a key or a query, as the builder's hashers make it. Each hash that the cache keeps
/// is this one.
pub fn hash_of<B: BuildHasher, Q: Hash>(builder: &B, query: &Q) -> u64
    ensures { result ≡ hash_of B.BuildHasher B.Hasher.Hasher builder.now (Q.hash_input query.now) }
{
    let mut state = builder.build_hasher();
    query.hash(&mut state);
    state.finish()
}
