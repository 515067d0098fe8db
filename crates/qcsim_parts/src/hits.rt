//! How many keys of a trace each cache of a capacity had.

/// The caches that are compared.
#[derive(Clone, Copy)]
pub enum Policy {
    /// This project's cache.
    Cache,
    /// What was used longest ago goes.
    Lru,
    /// What came first goes.
    Fifo,
    /// What came first goes, but what was used since is passed over once.
    Clock,
    /// A small queue, a main one and ghosts.
    S3Fifo,
    /// A window, and a main part that is hard to enter.
    TinyLfu,
    /// Two lists that shift room by what they dropped.
    Arc,
    /// All that comes is known.
    Best,
}

impl Policy {
    /// All of them, in the order in which they are shown.
    pub const ALL: [Policy; 8] = [
        Policy::Cache,
        Policy::Lru,
        Policy::Fifo,
        Policy::Clock,
        Policy::S3Fifo,
        Policy::TinyLfu,
        Policy::Arc,
        Policy::Best,
    ];

    /// What it is called.
    pub fn name(self) -> &'static str {
        match self {
            Policy::Cache => "this cache",
            Policy::Lru => "LRU",
            Policy::Fifo => "FIFO",
            Policy::Clock => "CLOCK",
            Policy::S3Fifo => "S3-FIFO",
            Policy::TinyLfu => "W-TinyLFU",
            Policy::Arc => "ARC",
            Policy::Best => "best possible",
        }
    }
}

/// The hits of each cache of a capacity.
#[derive(Clone, Copy)]
pub struct Hits {
    /// How many keys each cache may hold, or what they may weigh.
    pub capacity: u64,
    /// Of this project's cache.
    pub cache: u64,
    /// Of a cache that drops what was used longest ago.
    pub lru: u64,
    /// Of a cache that drops what came first.
    pub fifo: u64,
    /// Of CLOCK.
    pub clock: u64,
    /// Of S3-FIFO.
    pub s3_fifo: u64,
    /// Of W-TinyLFU.
    pub tiny_lfu: u64,
    /// Of ARC.
    pub arc: u64,
    /// The most that any cache can have; with weights, a bound of them.
    pub best: u64,
}

impl Hits {
    /// The hits of one cache.
    pub fn of(&self, policy: Policy) -> u64 {
        match policy {
            Policy::Cache => self.cache,
            Policy::Lru => self.lru,
            Policy::Fifo => self.fifo,
            Policy::Clock => self.clock,
            Policy::S3Fifo => self.s3_fifo,
            Policy::TinyLfu => self.tiny_lfu,
            Policy::Arc => self.arc,
            Policy::Best => self.best,
        }
    }
}

/// How many of ten thousand keys are hits, rounded down: hundredths of a percent. Of no keys none
/// is.
pub fn share(hits: u64, keys: usize) -> u64 {
    hits.saturating_mul(10_000)
        .checked_div(keys as u64)
        .unwrap_or(0)
}
