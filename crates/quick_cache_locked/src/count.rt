//! What a shard is asked of itself.

/// A number that each shard has.
#[derive(Clone, Copy)]
pub enum Count {
    /// How many items there are.
    Items,
    /// What they weigh.
    Weight,
    /// The weight that they are to keep within.
    Capacity,
    /// How many look-ups found an item.
    Hits,
    /// How many look-ups found none.
    Misses,
}
