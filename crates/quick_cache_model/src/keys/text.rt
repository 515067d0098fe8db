//! Borrowed texts that stand for each `String` of their bytes.
ghost use Rattle.std.specs.Prelude.{◌≡◌, nat_eq, string_bytes};
ghost use Rattle.std.specs.Cmp.Lexicographic.{pointwise, nat_list_eq_equiv};
ghost use Rattle.std.specs.Cmp.Rules.{comparing, hashing};
ghost use Rattle.std.specs.Cmp;
ghost use Rattle.std.specs.Cmp.{on_equiv, on_per};
ghost use Rattle.std.specs.Hash as fed;
ghost use Rattle.std.proofs.Common.{rules};

use crate::keys::equivalent::{Equivalent, ToKey};
use crate::refusal::Refusal;
use std::alloc::Allocator;
use std::hash::{Hash, Hasher};

/// A borrowed text, which stands for each `String` of its bytes, whatever its allocator.
#[derive(Debug, Clone, Copy, PartialEq, Eq, Hash)]
pub struct Text<'a>(pub &'a str);

impl<'a, A: Allocator> Equivalent<String<A>> for Text<'a> {
    ghost equivalent = { λ text key. pointwise nat_eq text.0.now (string_bytes key) };

    ghost same_hash = { Prim.search (hashing, rules) };

    ghost same_key = { Prim.search (comparing, rules) };

    fn equivalent(&self, key: &String<A>) -> bool {
        self.0 == key.as_str()
    }
}

/// A borrowed text with an allocator. It stands for each `String` of its bytes, and where there is
/// none it becomes one, out of a clone of the allocator.
#[derive(Clone, Copy, Drop)]
pub struct TextIn<'a, A> {
    text: &'a str,
    alloc: A,
}

impl<'a, A> TextIn<'a, A> {
    /// A query for the text, whose key would be made in the allocator.
    pub fn new(alloc: A, text: &'a str) -> Self
        ensures text { result.text.now ≡ text.now }
        ensures alloc { result.alloc ≡ alloc }
    {
        TextIn { text, alloc }
    }
}

impl<'a, A> PartialEq for TextIn<'a, A> {
    ghost eq = { λ x y. pointwise nat_eq x.text.now y.text.now };

    ghost laws = { on_per (λ x. x.text.now) (Cmp.partial_equiv_from_equiv nat_list_eq_equiv) };

    fn eq(&self, other: &Self) -> bool {
        self.text == other.text
    }
}

impl<'a, A> Eq for TextIn<'a, A> {
    ghost laws = { on_equiv (λ x. x.text.now) nat_list_eq_equiv };
}

impl<'a, A> Hash for TextIn<'a, A> {
    ghost hash_input = { λ query. fed.str query.text.now };

    ghost respects_eq = { Prim.search (hashing, rules) };

    fn hash<H: Hasher>(&self, state: &mut H) {
        self.text.hash(state);
    }
}

impl<'a, A: Allocator> Equivalent<String<A>> for TextIn<'a, A> {
    ghost equivalent = { λ query key. pointwise nat_eq query.text.now (string_bytes key) };

    ghost same_hash = { Prim.search (hashing, rules) };

    ghost same_key = { Prim.search (comparing, rules) };

    fn equivalent(&self, key: &String<A>) -> bool {
        self.text == key.as_str()
    }
}

impl<'a, A: Allocator + Clone> ToKey<String<A>> for TextIn<'a, A> {
    ghost to_key_gives = { λ query key. string_bytes key ≡ query.text.now };

    ghost to_key_is_infallible = { λ _. ⊥ };

    ghost same_given = { Prim.search (comparing, rules) };

    fn to_key(&self) -> Result<String<A>, Refusal> {
        let Ok(alloc) = self.alloc.clone() else {
            return Err(Refusal::Memory);
        };
        match String::from_str(alloc, self.text) {
            Ok(key) => Ok(key),
            Err(_) => Err(Refusal::Memory),
        }
    }
}
