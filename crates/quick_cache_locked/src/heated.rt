//! A pair with the ring and the mark that its item has.
ghost use Rattle.std.specs.Prelude.{◌≡◌};
ghost use Rattle.quick_cache_locked.specs.Hottest.{coolness};

use quick_cache_model::Queue;

/// A pair whose item stands in this ring with this mark.
#[derive(Drop)]
pub struct Heated<K, V> {
    pub queue: Queue,
    pub mark: u8,
    pub key: K,
    pub value: V,
}

impl<K, V> Heated<K, V> {
    /// How cool the item is: from 0 to 3 in the hot ring and from 4 to 7 in the cold one, by falling
    /// marks.
    pub fn coolness(&self) -> u8
        ensures { result ≡ coolness self.now }
    {
        match self.queue {
            Queue::Hot => 3u8.saturating_sub(self.mark),
            Queue::Cold => 7u8.saturating_sub(self.mark),
        }
    }
}
