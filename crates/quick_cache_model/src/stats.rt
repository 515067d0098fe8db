//! What a cache tells of its memory and of one item.
ghost use Rattle.std.specs.Prelude.{◌≡◌, ◌+◌, ◌-◌, ◌^◌, min};

/// How many bytes a cache uses.
#[derive(Debug, Clone, Copy)]
pub struct MemoryUsed {
    /// The bytes of the slots that hold the entries and of their order, with those of the room. What
    /// the keys and values own comes apart.
    pub entries: usize,
    /// The bytes of the index that finds a slot by its hash, with those of its room.
    pub map: usize,
}

impl MemoryUsed {
    /// All bytes together, at most the greatest `usize`.
    pub fn total(&self) -> usize
        ensures { result ≡ min (self.now.entries + self.now.map) (2 ^ 64 - 1) }
    {
        self.entries.saturating_add(self.map)
    }
}

/// What a cache tells of one item.
#[derive(Debug, Clone, Copy, PartialEq, Eq)]
pub struct ItemStats {
    /// How often the item was read since it was inserted.
    pub access_count: u64,
}
