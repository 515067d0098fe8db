//! What the callback of an entry call chooses, and what comes of the call.

/// What the callback of an entry call chose, once it had written the value.
#[derive(Drop)]
pub enum EntryAction<T> {
    Retain(T),
    Remove,
    ReplaceWithGuard,
}

/// What came of an entry call: what the callback told of an item that stays, the pair of one that
/// went, the value of one that gave its place to a placeholder, or a placeholder where there was no
/// item.
#[derive(Drop)]
pub enum EntryOrPlaceholder<K, V, P, T> {
    Kept(T),
    Removed(K, V),
    Replaced(P, V),
    ExistingPlaceholder(P),
    NewPlaceholder(P),
}
