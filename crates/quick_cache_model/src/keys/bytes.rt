//! Borrowed bytes that stand for each list of them.
ghost use Rattle.std.specs.Prelude.{◌≡◌, nat_eq};
ghost use Rattle.std.specs.Cmp.Lexicographic.{pointwise, nat_list_eq_equiv};
ghost use Rattle.std.specs.Cmp.Rules.{comparing, hashing};
ghost use Rattle.std.specs.Cmp;
ghost use Rattle.std.specs.Cmp.{on_equiv, on_per};
ghost use Rattle.std.specs.Hash as fed;
ghost use Rattle.std.proofs.Common.{rules};

use crate::keys::equivalent::{Equivalent, ToKey};
use crate::refusal::Refusal;
use std::alloc::Allocator;
use std::hash::{Hash, Hasher};

/// Borrowed bytes, which stand for each `Vec<u8>` of them, whatever its allocator.
#[derive(Debug, Clone, Copy, PartialEq, Eq, Hash)]
pub struct Bytes<'a>(pub &'a [u8]);

impl<'a, A: Allocator> Equivalent<Vec<u8, A>> for Bytes<'a> {
    ghost equivalent = { λ bytes key. pointwise nat_eq bytes.0.now key.items };

    ghost same_hash = { Prim.search (hashing, rules) };

    ghost same_key = { Prim.search (comparing, rules) };

    fn equivalent(&self, key: &Vec<u8, A>) -> bool {
        self.0 == key.as_slice()
    }
}

/// Borrowed bytes with an allocator. They stand for each `Vec<u8>` of them, and where there is none
/// they become one, out of a clone of the allocator.
#[derive(Clone, Copy, Drop)]
pub struct BytesIn<'a, A> {
    bytes: &'a [u8],
    alloc: A,
}

impl<'a, A> BytesIn<'a, A> {
    /// A query for the bytes, whose key would be made in the allocator.
    pub fn new(alloc: A, bytes: &'a [u8]) -> Self
        ensures bytes { result.bytes.now ≡ bytes.now }
        ensures alloc { result.alloc ≡ alloc }
    {
        BytesIn { bytes, alloc }
    }
}

impl<'a, A> PartialEq for BytesIn<'a, A> {
    ghost eq = { λ x y. pointwise nat_eq x.bytes.now y.bytes.now };

    ghost laws = { on_per (λ x. x.bytes.now) (Cmp.partial_equiv_from_equiv nat_list_eq_equiv) };

    fn eq(&self, other: &Self) -> bool {
        self.bytes == other.bytes
    }
}

impl<'a, A> Eq for BytesIn<'a, A> {
    ghost laws = { on_equiv (λ x. x.bytes.now) nat_list_eq_equiv };
}

impl<'a, A> Hash for BytesIn<'a, A> {
    ghost hash_input = { λ query. fed.slice fed.u8 query.bytes.now };

    ghost respects_eq = { Prim.search (hashing, rules) };

    fn hash<H: Hasher>(&self, state: &mut H) {
        self.bytes.hash(state);
    }
}

impl<'a, A: Allocator> Equivalent<Vec<u8, A>> for BytesIn<'a, A> {
    ghost equivalent = { λ query key. pointwise nat_eq query.bytes.now key.items };

    ghost same_hash = { Prim.search (hashing, rules) };

    ghost same_key = { Prim.search (comparing, rules) };

    fn equivalent(&self, key: &Vec<u8, A>) -> bool {
        self.bytes == key.as_slice()
    }
}

impl<'a, A: Allocator + Clone> ToKey<Vec<u8, A>> for BytesIn<'a, A> {
    ghost to_key_gives = { λ query key. key.items ≡ query.bytes.now };

    ghost to_key_is_infallible = { λ _. ⊥ };

    ghost same_given = { Prim.search (comparing, rules) };

    fn to_key(&self) -> Result<Vec<u8, A>, Refusal> {
        let Ok(alloc) = self.alloc.clone() else {
            return Err(Refusal::Memory);
        };
        match Vec::from_slice(alloc, self.bytes) {
            Ok(key) => Ok(key),
            Err(_) => Err(Refusal::Memory),
        }
    }
}
