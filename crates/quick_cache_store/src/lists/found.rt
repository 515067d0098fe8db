//! What a query finds.
use quick_cache_model::Token;

/// What stands under a query.
#[derive(Clone, Copy)]
pub enum Found {
    Item(Token),
    Loading(Token),
    Ghost(Token),
    Nothing,
}
