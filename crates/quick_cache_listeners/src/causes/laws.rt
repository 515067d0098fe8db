//! Laws of the causes: each function does nothing, and its contract is a theorem.
ghost use Rattle.quick_cache_listeners.specs.CauseLaws.{VictimsAreTold, LightWritesAreTold, WritesAreToldNearly, RunsTell};

use crate::causes::listener::ListenerWhy;
use quick_cache_model::Touches;

/// The victims of an eviction are told as such, whatever was told before.
pub fn victim_law<K, V, T: Touches>()
    ensures { VictimsAreTold K V T.may_count }
{}

/// What a write tells is true where its pair is light enough or pinned. What another one tells is
/// true but for the confusions that `MayMean` lists.
pub fn write_law<K, V, T: Touches>()
    ensures light { LightWritesAreTold K V T.may_count }
    ensures nearly { WritesAreToldNearly K V T.may_count }
{}

/// A listener is told the pairs that the calls of the hooks name, in their order, with the causes
/// that their order shows.
pub fn tell_law<K, V, L: ListenerWhy<K, V>>()
    ensures { RunsTell L.tells }
{}
