//! What a cache does: which entries leave, how room is made for others, and who is told.
//!
//! It works on the lists of `quick_cache_store` and names no slot and no link. A cache's numbers
//! and lists are its `Contents`, whose methods are the steps of a call; what the cache goes by is a
//! `Policy`.
#![tactic(auto)]

mod capacity;
mod contents;
mod copies;
mod evicting;
mod looking;
mod placeholders;
mod policy;
mod removing;
mod strategy;
mod writing;

pub use contents::Contents;
pub use looking::tested::Miss;
pub use policy::{Policy, Terms};
pub use quick_cache_model::{
    EntryAction, EntryOrPlaceholder, MakesPlaceholders, SharedPlaceholder, Touches,
};
pub use strategy::InsertStrategy;
