//! The two rings of the cache.

/// The ring that an entry belongs to. An entry of weight 0 stands in neither and keeps the name of
/// its ring.
#[derive(Debug, Clone, Copy, PartialEq, Eq)]
pub enum Queue {
    /// The entries that are used again and again.
    Hot,
    /// The newcomers, and what fell out of use.
    Cold,
}
