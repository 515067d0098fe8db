//! Why a pair left, and what of a call's hooks tells it.
ghost use Rattle.std.specs.Prelude.{◌≡◌};
ghost use Rattle.quick_cache_listeners.specs.Causes.{cause_at};

use quick_cache_model::Queue;

/// Why a pair left.
///
/// The first four are what the order of the hooks shows. They are the truth for each victim, and for
/// all that a write tells whose pair is within the hot target or pinned. A pair that is heavier than
/// the hot target is first told by `before_evict`, as a victim is, so three things may be told
/// otherwise, of such writes alone: the pair that such a write replaces is told as `EvictedHot` or
/// `EvictedCold`, and the pair itself, where it is turned away and nothing stood under its key, as
/// `EvictedCold`.
///
/// The others no hook shows: who takes a pair out tells them, by [`TellsTaken`].
///
/// [`TellsTaken`]: crate::causes::taken::TellsTaken
#[derive(Debug, Clone, Copy, PartialEq, Eq)]
pub enum Cause {
    /// It left the hot ring to make room.
    EvictedHot,
    /// It left the cold ring to make room.
    EvictedCold,
    /// A write took its place.
    Replaced,
    /// It was too heavy to come in.
    TurnedAway,
    /// Its life was over.
    Expired,
    /// It was removed by its key.
    Removed,
    /// All were taken out together, by a drain.
    Cleared,
    /// A test of all did not retain it.
    Retained,
}

/// What the last hook of a call was.
#[derive(Debug, Clone, Copy, PartialEq, Eq)]
pub enum Stage {
    /// There was none.
    Fresh,
    /// It was `before_evict`.
    Armed,
    /// A pair was told.
    Told,
}

impl Stage {
    /// The cause of a pair that is told next, to the hook of this ring.
    pub fn cause(self, queue: Queue) -> Cause
        ensures { result ≡ cause_at self queue }
    {
        match (self, queue) {
            (Stage::Fresh, _) => Cause::Replaced,
            (Stage::Armed, Queue::Hot) => Cause::EvictedHot,
            (Stage::Armed, Queue::Cold) => Cause::EvictedCold,
            (Stage::Told, _) => Cause::TurnedAway,
        }
    }
}
