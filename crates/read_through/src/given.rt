//! What a loader gives, as contracts see it, and what is answered where it may fail.
ghost use Rattle.std.specs.Prelude.{ℕ};

/// Which values a loader may give for a key at a moment: a fact for contracts, of the type alone.
/// So it depends on nothing that a loader holds.
pub trait Source<K, V> {
    /// Whether it may give this value for the key at the moment.
    ghost gives: { K → ℕ → V → Type 0 };
}

/// May give anything: the source of a loader of which nothing is to be known.
pub struct AnySource;

impl<K, V> Source<K, V> for AnySource {
    ghost gives = { λ _ _ _. Unit {0} };
}

/// A value that lives, or an older one.
#[derive(Debug, PartialEq, Drop)]
pub enum Given<V, E> {
    /// One that lives.
    Fresh(V),
    /// An older one, beside the error of the load that failed.
    Stale { value: V, error: E },
    /// An older one whose loader was not asked: another call asks it, or has lately.
    Unasked(V),
}
