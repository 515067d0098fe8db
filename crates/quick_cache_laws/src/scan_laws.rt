//! Laws of scans: the function does nothing, and its contract is a theorem about words of `specs/`.
ghost use Rattle.quick_cache_laws.specs.ScanLaws.{FreshCallsAreScans, ScansKeepHot, ScansStayReady, ScansTakeFronts};

use std::alloc::Allocator;

/// A run of calls that are a scan takes no item out of the hot ring, however long it is. Each of
/// its inserts that is not refused takes out of the cold ring the shortest front that makes room,
/// and no other call of it takes out anything. It leaves the cache as the next scan needs it. Calls
/// whose hashes are fresh are a scan.
pub fn scan_law<K: Eq + Clone, V: Clone, F, M: Allocator>()
    ensures hot { ScansKeepHot K V F M K.eq K.is_clone V.is_clone }
    ensures cold { ScansTakeFronts K V F M K.eq K.is_clone V.is_clone }
    ensures ready { ScansStayReady K V F M K.eq K.is_clone V.is_clone }
    ensures fresh { FreshCallsAreScans K V F M K.eq K.is_clone V.is_clone }
{}
