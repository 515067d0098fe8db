//! What a write does where nothing stands under its key, and how it counts where something does.
ghost use Rattle.std.specs.Prelude.{◌≡◌};
ghost use Rattle.quick_cache_model.specs.Writes.{mark_after};
ghost use Rattle.quick_cache_policy.specs.Writing.{strategy_of};

/// What a write does where nothing stands under its key, and how it counts where something does.
#[derive(Debug, Clone, Copy, PartialEq, Eq)]
pub enum InsertStrategy {
    /// Writes the pair in any case.
    Insert,
    /// Writes only over an item. A soft replace is no use of the item, and leaves its mark.
    Replace { soft: bool },
}

impl InsertStrategy {
    /// The mark of an item that is written over, by the greatest mark.
    pub(crate) fn mark_after(self, cut: u8, mark: u8) -> u8
        ensures { result ≡ mark_after cut (strategy_of self) mark }
    {
        match self {
            InsertStrategy::Insert => mark.saturating_add(1).min(cut),
            InsertStrategy::Replace { soft: false } => mark.saturating_add(1).min(cut),
            InsertStrategy::Replace { soft: true } => mark,
        }
    }
}
