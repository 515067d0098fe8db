//! Caches of such keys can be copied: a clone of each key is equal to it, which the search sees.
use quick_cache_unsync::{Cache, Refusal};

/// A colour by its name, or by its parts.
#[derive(PartialEq, Eq, Hash, Clone, Drop)]
pub enum Colour {
    Black,
    Mixed(u8, u8, u8),
}

/// A shape of a year.
#[derive(PartialEq, Eq, Hash, Clone, Drop)]
pub struct Shape {
    pub name: String,
    pub year: u64,
}

/// Pairs as keys.
pub fn copy_by_pairs<V: Clone + Drop>(
    cache: &Cache<(u64, String), V>,
) -> Result<Cache<(u64, String), V>, Refusal> {
    cache.try_clone()
}

/// Boxes.
pub fn copy_by_boxes<V: Clone + Drop>(
    cache: &Cache<Box<u64>, V>,
) -> Result<Cache<Box<u64>, V>, Refusal> {
    cache.try_clone()
}

/// Options.
pub fn copy_by_options<V: Clone + Drop>(
    cache: &Cache<Option<u64>, V>,
) -> Result<Cache<Option<u64>, V>, Refusal> {
    cache.try_clone()
}

/// Variants of an enum.
pub fn copy_by_variants<V: Clone + Drop>(
    cache: &Cache<Colour, V>,
) -> Result<Cache<Colour, V>, Refusal> {
    cache.try_clone()
}

/// A struct.
pub fn copy_by_structs<V: Clone + Drop>(
    cache: &Cache<Shape, V>,
) -> Result<Cache<Shape, V>, Refusal> {
    cache.try_clone()
}
