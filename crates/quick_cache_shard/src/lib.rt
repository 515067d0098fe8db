//! One cache: each call is the step of its definition.
#![tactic(auto)]

mod by_token;
mod placeholders;
mod readers;
mod removing;
mod shard;
mod shared;
mod tested;
mod walking;
mod words;
mod writing;

pub use by_token::token_mut::TokenMut;
pub use placeholders::numbered::{NoTouches, Placeholder, Plainly};
pub use quick_cache_model::Token;
pub use quick_cache_policy::{
    EntryAction, EntryOrPlaceholder, InsertStrategy, MakesPlaceholders, Miss, SharedPlaceholder,
    Touches,
};
pub use quick_cache_store::lists::Meaning;
pub use removing::drain::Drain;
pub use shard::CacheShard;
pub use walking::saved::SavedIter;
pub use walking::walk::{GhostIter, Iter, RingIter};
pub use walking::walk_from::IterFrom;
pub use words::{Keyed, Ruled, Typed};
pub use writing::lending::RefMut;
