//! What readers count beside each other.
ghost use Rattle.std.specs.Prelude.{ℕ};

/// Counts what readers add to a mark and to reads, where they share the cache. A new one counts
/// nothing.
pub trait Touches: Default + Drop {
    /// What the count may be: anything where readers share it, and 0 where there is one thread.
    ghost may_count: { ℕ → Type 0 };

    /// There may be no touch at all.
    ghost none_counted: { may_count 0 };

    /// Whether anything is ever counted: where it is not, a walk over the counts is spared.
    fn counts() -> bool;

    /// Counts one more.
    fn add(&self);

    /// Counts so many more.
    fn add_all(&self, count: u64);

    /// The count so far, which stays.
    fn seen(&self) -> u64
        ensures { may_count result };

    /// The count so far, which begins anew.
    fn take(&mut self) -> u64
        ensures { may_count result };
}
