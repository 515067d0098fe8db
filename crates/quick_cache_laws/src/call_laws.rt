//! Laws of calls: each function does nothing, and its contract is a theorem about words of
//! `specs/`.
ghost use Rattle.quick_cache_laws.specs.CallLaws.{DoneFillsStayWithinCapacity, DoneInsertsAreResident, DoneWritesStayWithinCapacity};
ghost use Rattle.quick_cache_laws.specs.CallLaws.{RefusedCallsChangeNothing, RefusedInsertsChangeNothing, RunsAreSteps, RunsStayValid};
ghost use Rattle.quick_cache_laws.specs.CallLaws.{RunsStaySized, SecondRemovesGiveNothing, SecondRetainsRemoveNothing};
ghost use Rattle.quick_cache_laws.specs.Victims.{PinnedPairsAreNoVictims};

use crate::laws::{fill_law, removal_law, size_law, valid_law, write_law};
use quick_cache_model::Touches;
use std::alloc::Allocator;

/// After an insert or a replace that was done and whose pair passed its admission check, the items
/// that are not pinned weigh at most the capacity; so they do after a fill whose value passed it
/// with a weight above 0. A key of which nothing was found is resident after such an insert.
pub fn call_write_law<K: Eq + Clone, V: Clone, F, T: Touches, M: Allocator>()
    ensures writes { DoneWritesStayWithinCapacity K V F M K.eq K.is_clone V.is_clone T.may_count }
    ensures fills { DoneFillsStayWithinCapacity K V F M K.eq K.is_clone V.is_clone T.may_count }
    ensures resident { DoneInsertsAreResident K V F M K.eq K.is_clone V.is_clone T.may_count }
{
    write_law::<K, V, T>();
    fill_law::<K, V, T>();
    valid_law::<K, V, T>();
}

/// A second removal of a key gives nothing, and a second retain by the same predicate removes
/// nothing.
pub fn call_removal_law<K: Eq + Clone, V: Clone, F, T: Touches, M: Allocator>()
    ensures removes { SecondRemovesGiveNothing K V F M K.eq K.is_clone V.is_clone T.may_count }
    ensures retains { SecondRetainsRemoveNothing K V F M K.eq K.is_clone V.is_clone T.may_count }
{
    removal_law::<K, V>();
}

/// A call that is refused changes nothing and calls no hook. Beside an insert only looks, loads and
/// calls that make room are ever refused, and for want of memory alone but for loads.
pub fn call_refusal_law<K: Eq + Clone, V: Clone, F, T: Touches, M: Allocator>()
    ensures calls { RefusedCallsChangeNothing K V F M K.eq K.is_clone V.is_clone T.may_count }
    ensures inserts { RefusedInsertsChangeNothing K V F M K.eq K.is_clone V.is_clone T.may_count }
{}

/// A run of calls is a list of steps of the definitions. So it leads from a valid state to a valid
/// one, and keeps the sizes of a cache sound.
pub fn run_law<K: Eq + Clone, V: Clone, F, T: Touches, M: Allocator>()
    ensures steps { RunsAreSteps K V F M K.eq K.is_clone V.is_clone T.may_count }
    ensures valid { RunsStayValid K V F M K.eq K.is_clone V.is_clone T.may_count }
    ensures sized { RunsStaySized K V F M K.eq K.is_clone V.is_clone T.may_count }
{
    valid_law::<K, V, T>();
    size_law::<K, V, T>();
}

/// In no run of calls is a pinned pair a victim, or turned away for its weight: `before_evict` is
/// called on pairs alone that are not pinned.
pub fn victim_law<K: Eq + Clone, V: Clone, F, T: Touches, M: Allocator>()
    ensures { PinnedPairsAreNoVictims K V F M K.eq K.is_clone V.is_clone T.may_count }
{}
