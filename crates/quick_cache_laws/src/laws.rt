//! Laws of the definitions: each function does nothing, and its contract is a theorem about words
//! of `specs/`. What a count of touches may be is the type parameter's, so that a law speaks of
//! the very rules of a contract.
ghost use Rattle.quick_cache_laws.specs.Admitted.{FillsStayWithinCapacity, InsertedPairsAreKept, WritesStayWithinCapacity};
ghost use Rattle.quick_cache_laws.specs.Steps.{NewCachesAreSized, NewWeightsStayValid, StepsStaySized, StepsStayValid, TicketsNeverReturn};
ghost use Rattle.quick_cache_laws.specs.Steps.{StepsKeepTheCut};
ghost use Rattle.quick_cache_laws.specs.Laws.{AdvancesLowerTheMeasure, CapacitiesCanBeSet, CapacitiesStayValid, EmptiedCachesAreValid};
ghost use Rattle.quick_cache_laws.specs.Laws.{EntriesAreRefusedForMemory, EntriesAreRefusedForTickets, EntriesCanBeActedOn};
ghost use Rattle.quick_cache_laws.specs.Laws.{EntriesStayValid, EvictionBringsNoKey, EvictionEnds, EvictionIsDetermined, EvictionMakesRoom};
ghost use Rattle.quick_cache_laws.specs.Laws.{FillsStayValid, GiveUpsStayValid, LoneCapacitiesAreShared, LoneFillsAreShared};
ghost use Rattle.quick_cache_laws.specs.Laws.{LoneWritesAreShared, LooksShowTheSame, LookupsCanBeMade, LookupsStayValid, MeetingsStayValid};
ghost use Rattle.quick_cache_laws.specs.Laws.{NewCachesAreValid, OtherOrdersAreValid, PinnedPairsStay, PlaceholdersCanBeFilled};
ghost use Rattle.quick_cache_laws.specs.Laws.{PlaceholdersCanBeTaken, PlaceholdersStayValid, PresentCapacityChangesNothing};
ghost use Rattle.quick_cache_laws.specs.Laws.{PresentCapacityKeepsSizes, QueriesFindSomething, QueriesHaveOneEntry};
ghost use Rattle.quick_cache_laws.specs.Laws.{RemovalsByTestStayValid, RemovalsCanBeMade, RemovalsStayValid, RetainsStayValid};
ghost use Rattle.quick_cache_laws.specs.Laws.{SecondRemovalsFindNothing, SecondRetainsRemoveNothing, WeightlessItemsStay, WritesCanBeMade};
ghost use Rattle.quick_cache_laws.specs.Laws.{WritesStayValid};

use quick_cache_model::Touches;

/// Eviction frees enough room unless every item in the rings is pinned. It brings in no key, it
/// takes out no item of weight 0 and no pinned pair, and it ends. For one thread its outcome is
/// determined.
pub fn eviction_law<K, V, T: Touches>()
    ensures makes_room { EvictionMakesRoom K V T.may_count }
    ensures brings_no_key { EvictionBringsNoKey K V T.may_count }
    ensures weightless_stay { WeightlessItemsStay K V T.may_count }
    ensures pinned_stay { PinnedPairsStay K V T.may_count }
    // Each advance that answers yes lowers a number, so finitely many free the room.
    ensures measure { AdvancesLowerTheMeasure K V T.may_count }
    ensures ends { EvictionEnds K V T.may_count }
    ensures determined { EvictionIsDetermined K V T.may_count }
{}

/// After a write of a pair that passed its admission check, the items that are not pinned weigh
/// at most the capacity. An insert under a new key keeps such a pair.
pub fn write_law<K, V, T: Touches>()
    ensures within_capacity { WritesStayWithinCapacity K V T.may_count }
    ensures kept { InsertedPairsAreKept K V T.may_count }
{}

/// After a fill whose value passed its admission check with a weight above 0, the items that
/// are not pinned weigh at most the capacity.
pub fn fill_law<K: Eq, V, T: Touches>()
    ensures { FillsStayWithinCapacity K V K.eq T.may_count }
{}

/// A second removal by one query finds nothing, and a second retain by one test removes nothing,
/// in whatever order the first call left what has no order.
pub fn removal_law<K: Eq, V>()
    ensures again { SecondRemovalsFindNothing K V K.eq }
    ensures retains_again { SecondRetainsRemoveNothing K V }
{}

/// Setting the capacity to the present one changes no size, and nothing at all where there is
/// room.
pub fn capacity_law<K, V, T: Touches>()
    ensures sizes { PresentCapacityKeepsSizes K V T.may_count }
    ensures nothing { PresentCapacityChangesNothing K V T.may_count }
{}

/// Each call has an outcome in every state: no definition asks for what cannot be done.
pub fn call_law<K, V, T: Touches>()
    ensures writes { WritesCanBeMade K V T.may_count }
    ensures makes_or_meets { PlaceholdersCanBeTaken K V }
    ensures fills { PlaceholdersCanBeFilled K V T.may_count }
    ensures looks_up { LookupsCanBeMade K V }
    ensures removes { RemovalsCanBeMade K V }
    ensures acts { EntriesCanBeActedOn K V T.may_count }
    ensures sets_capacity { CapacitiesCanBeSet K V T.may_count }
{}

/// While there are tickets, an entry call is refused for want of memory alone. Once they are
/// spent, each replacing call is refused for that.
pub fn entry_law<K, V, T: Touches>()
    ensures memory { EntriesAreRefusedForMemory K V T.may_count }
    ensures tickets { EntriesAreRefusedForTickets K V T.may_count }
{}

/// Each step that a cache of one thread may make, a cache that readers share may make.
pub fn shared_law<K, V, Lone: Touches, Shared: Touches>()
    ensures writes { LoneWritesAreShared K V Lone.may_count Shared.may_count }
    ensures fills { LoneFillsAreShared K V Lone.may_count Shared.may_count }
    ensures sets_capacity { LoneCapacitiesAreShared K V Lone.may_count Shared.may_count }
{}

/// A query finds an item, a placeholder, a ghost or nothing.
pub fn finding_law<K, V>()
    ensures { QueriesFindSomething K V }
{}

/// In a valid state a query has at most one entry, so a peek and a look-up show the same value.
pub fn query_law<K: Eq, V>()
    ensures one_entry { QueriesHaveOneEntry K V K.eq }
    ensures same { LooksShowTheSame K V K.eq }
{}

/// Each call, and each list of calls, leads from a valid state to a valid one.
pub fn valid_law<K: Eq, V, T: Touches>()
    ensures starts { NewCachesAreValid K V K.eq }
    ensures orders { OtherOrdersAreValid K V K.eq }
    ensures writes { WritesStayValid K V K.eq T.may_count }
    ensures makes { PlaceholdersStayValid K V K.eq }
    ensures meets { MeetingsStayValid K V K.eq }
    ensures fills { FillsStayValid K V K.eq T.may_count }
    ensures gives_up { GiveUpsStayValid K V K.eq }
    ensures looks_up { LookupsStayValid K V K.eq }
    ensures removes { RemovalsStayValid K V K.eq }
    ensures removes_if { RemovalsByTestStayValid K V K.eq }
    ensures retains { RetainsStayValid K V K.eq }
    ensures empties { EmptiedCachesAreValid K V K.eq }
    ensures acts { EntriesStayValid K V K.eq T.may_count }
    ensures sets_capacity { CapacitiesStayValid K V K.eq T.may_count }
    ensures reweighs { NewWeightsStayValid K V K.eq T.may_count }
    ensures steps { StepsStayValid K V K.eq T.may_count }
{}

/// The hot target of a new cache is within its capacity and its ghost limit is what a count
/// holds, and each call keeps it so.
pub fn size_law<K: Eq, V, T: Touches>()
    ensures starts { NewCachesAreSized K V }
    ensures steps { StepsStaySized K V K.eq T.may_count }
{}

/// Once a placeholder is gone, no placeholder has its ticket again, whatever calls follow.
pub fn ticket_law<K: Eq, V, T: Touches>()
    ensures { TicketsNeverReturn K V K.eq T.may_count }
{}

/// No call changes the greatest mark.
pub fn mark_law<K: Eq, V, T: Touches>()
    ensures { StepsKeepTheCut K V K.eq T.may_count }
{}
