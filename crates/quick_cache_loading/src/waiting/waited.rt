//! What one who waits is told.
use crate::waiting::Share;
use quick_cache_model::Refusal;

/// What one who waits wants of a load.
#[derive(Clone, Copy)]
pub enum Wants {
    /// A clone of the value that comes.
    Value,
    /// To know that it has ended: one looks in the shard again, and no value is cloned.
    End,
}

/// What one who waits is told.
pub enum Waited<V> {
    /// A clone of the value that came.
    Value(V),
    /// The right to fill the placeholder, which was handed on.
    Guard(Share),
    /// Its time is over.
    Timeout,
    /// It has to look in the shard again.
    Again,
    /// Memory was refused for the clone.
    Refused(Refusal),
}
