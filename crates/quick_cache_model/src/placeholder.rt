//! What stands at a key that is being loaded.
ghost use Rattle.std.specs.Prelude.{◌≡◌, ℕ, IfOk, IfErr, IsOk, ◌==◌};
ghost use Rattle.std.specs.Int.NonZero.{non_zero_u32_get};

pub use crate::Touches;
use crate::{Refusal, ToKey, Token};
use std::hash::Hash;

/// What stands at a key that is being loaded: the cache and the guard that loads it share it.
pub trait SharedPlaceholder<K: Eq + Hash>: Drop {
    /// What readers count at a resident of such a cache.
    type Touch: Touches;

    /// What the slot of the key keeps of it: what neither the slot's hash nor its token tells.
    type Kept: Drop;

    /// The hash of the key.
    ghost hash_of: { Self → ℕ };

    /// The number of the slot's token.
    ghost idx_of: { Self → ℕ };

    /// The number by which it is told from each other placeholder of the cache.
    ghost own_ticket: { Self → ℕ };

    /// The ticket of the placeholder of which that is kept.
    ghost ticket_of: { Self.Kept → ℕ };

    /// Whether the two have one ticket.
    fn same_as(&self, other: &Self) -> bool
        ensures { result ≡ (own_ticket self.now == own_ticket other.now) };

    /// The hash that it was made with.
    fn hash(&self) -> u64
        ensures { result ≡ hash_of self.now };

    /// The token that it was made with.
    fn idx(&self) -> Token
        ensures { non_zero_u32_get result ≡ idx_of self.now };

    /// The same placeholder once more, which takes no memory.
    fn share(&self) -> Self
        ensures hash { hash_of result ≡ hash_of self.now }
        ensures idx { idx_of result ≡ idx_of self.now }
        ensures ticket { own_ticket result ≡ own_ticket self.now };

    /// What the slot of the key keeps of it, which takes no memory.
    fn keep(&self) -> Self::Kept
        ensures { ticket_of result ≡ own_ticket self.now };

    /// Whether that is kept of a placeholder with its ticket.
    fn keeps(&self, kept: &Self::Kept) -> bool
        ensures { result ≡ (own_ticket self.now == ticket_of kept.now) };

    /// The placeholder of which that is kept, by the hash and the token of its slot.
    fn met(kept: &Self::Kept, hash: u64, idx: Token) -> Self
        ensures hash { hash_of result ≡ hash }
        ensures idx { idx_of result ≡ non_zero_u32_get idx }
        ensures ticket { own_ticket result ≡ ticket_of kept.now };

    /// What is kept once more, for a copy of the slot, which takes no memory.
    fn keep_again(kept: &Self::Kept) -> Self::Kept
        ensures { ticket_of result ≡ ticket_of kept.now };
}

/// Makes placeholders of a type: it has what they take beside a query, as an allocator.
pub trait MakesPlaceholders<K: Eq + Hash, P: SharedPlaceholder<K>> {
    /// Whether it makes a placeholder without fail for a query that gives a key without fail.
    ghost is_infallible: { Self → Type 0 };

    /// A placeholder for the query's key, refused for want of memory alone.
    fn make<Q: ToKey<K>>(&self, hash: u64, idx: Token, ticket: u64, query: &Q) -> Result<P, Refusal>
        ensures hash { IfOk result (λ made. P.hash_of made ≡ hash) }
        ensures idx { IfOk result (λ made. P.idx_of made ≡ non_zero_u32_get idx) }
        ensures ticket { IfOk result (λ made. P.own_ticket made ≡ ticket) }
        ensures succeeds { is_infallible self.now → Q.to_key_is_infallible query.now → IsOk result }
        ensures refused { IfErr result (λ refusal. refusal ≡ Refusal.Memory) };
}
