//! Laws of walks: the function does nothing, and its contract is a theorem about words of `specs/`.
ghost use Rattle.quick_cache_shard.specs.Copies.{ClonesAreEqual};
ghost use Rattle.quick_cache_locked.specs.WalkLaws.{LosingMovesNone, ShowsOnce, TakesOnce};

/// A whole walk over a shard shows a key that stays all along exactly once, and a whole drain takes
/// a key that stays until it is taken. Between their steps come any calls: none of them moves an
/// item that stays, which the calls of `LockedShard` promise as `places`. Those that promise only
/// to take items out move none either.
pub fn walk_law<K: Eq + Clone, V: Clone, We, B, L>()
    ensures shows { ClonesAreEqual K.eq K.is_clone
        → ShowsOnce K V We B L K.eq K.is_clone V.is_clone }
    ensures takes { TakesOnce K V We B L K.eq }
    ensures losing { LosingMovesNone K K.eq }
{}
