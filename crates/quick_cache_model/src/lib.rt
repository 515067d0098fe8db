//! The vocabulary of the cache: what it asks of its keys, weigher and lifecycle, how it refuses,
//! and what it is, in definitions over three plain lists.
#![tactic(auto)]

pub mod calls;
pub mod keys;
mod placeholder;
pub mod queue;
pub mod refusal;
pub mod stats;
pub mod terms;
pub mod token;
pub mod touches;

pub use calls::call::Call;
pub use calls::entry::{EntryAction, EntryOrPlaceholder};
pub use calls::reply::Reply;
pub use keys::bytes::{Bytes, BytesIn};
pub use keys::equivalent::{Equivalent, ToKey};
pub use keys::hash_builder::{DefaultHashBuilder, hash_of};
pub use keys::text::{Text, TextIn};
pub use placeholder::{MakesPlaceholders, SharedPlaceholder};
pub use queue::Queue;
pub use refusal::Refusal;
pub use stats::{ItemStats, MemoryUsed};
pub use terms::lifecycle::Lifecycle;
pub use terms::weighter::{UnitWeighter, Weighter};
pub use token::Token;
pub use touches::Touches;
