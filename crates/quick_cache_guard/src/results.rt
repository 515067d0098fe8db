//! What the calls answer that may load a value.
use quick_cache_model::Refusal;

/// What a call gets that asks for a value, where `G` is the guard of its key.
#[derive(Debug, Drop)]
pub enum GuardResult<V, G> {
    /// The value, which was there or came.
    Value(V),
    /// The right to load it.
    Guard(G),
    /// The time was over before it came.
    Timeout,
    /// The call was refused, and loads nothing.
    Refused(Refusal),
}

/// What a call gets that acts on the entry of a key, where `G` is the guard of the key.
#[derive(Debug, Drop)]
pub enum EntryResult<T, K, V, G> {
    /// The entry stays, and this is what the callback gave.
    Retained(T),
    /// The entry went.
    Removed(K, V),
    /// The right to load another value, and the old one.
    Replaced(G, V),
    /// No entry was there: the right to load its value.
    Vacant(G),
    /// The time was over before another's load ended.
    Timeout,
    /// The call was refused. Where the callback had run, the entry is as it left it.
    Refused(Refusal),
}

/// A value, and whether this call loaded it.
#[derive(Debug, Drop)]
pub struct Fetched<V> {
    /// The value.
    pub value: V,
    /// Whether the loader of this call gave it. Else it was found, or another's load gave it.
    pub loaded: bool,
}
