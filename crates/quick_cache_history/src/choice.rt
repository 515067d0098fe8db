//! What a caller chooses of what stands under a key, and what came of it.

/// What the callback of an entry call chooses, once it was shown what stands under the key.
#[derive(Drop)]
pub enum Choice<V, T> {
    /// It stays as it is, and this is told.
    Keep(T),
    /// It goes.
    Remove,
    /// This value is put in, in its place.
    Insert(V),
}

/// What came of an entry call.
#[derive(Drop)]
pub enum Entered<K, V, T> {
    /// Nothing changed, and the callback told this.
    Kept(T),
    /// What stood there went: this pair, if any.
    Removed(Option<(K, V)>),
    /// The value was put in.
    Inserted,
}
