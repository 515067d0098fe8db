//! Queries that stand for keys.
ghost use Rattle.std.specs.Prelude.{◌≡◌, Bool, IsTrue, IfOk, IfErr, IsOk};
ghost use Rattle.std.proofs.Common.{sym, ◌∙◌};

use crate::refusal::Refusal;
use std::hash::Hash;

/// A query that stands for a key, as two borrowed halves stand for a pair.
///
/// Each `K: Eq + Hash` stands for the keys that it is equal to.
pub trait Equivalent<K: Eq + Hash>: Hash {
    /// Whether the query stands for the key.
    ghost equivalent: { Self → K → Bool };

    /// Whether the query stands for the key.
    fn equivalent(&self, key: &K) -> bool
        ensures { result ≡ equivalent self.now key.now };

    /// A query and a key that it stands for have equal hashes: they write the same to a hasher.
    ghost same_hash: { (query : Self) (key : K) → IsTrue (equivalent query key)
        → Self.hash_input query ≡ K.hash_input key };

    /// Two keys that one query stands for are equal. It need not stand for each key that is equal
    /// to one of them.
    ghost same_key: { (query : Self) (first second : K) → IsTrue (equivalent query first)
        → IsTrue (equivalent query second) → IsTrue (K.eq first second) };
}

impl<K: Eq + Hash> Equivalent<K> for K {
    ghost equivalent = { K.eq };

    ghost same_hash = { K.respects_eq };

    ghost same_key = { λ query first second stands also.
        sym (K.Eq.laws.congr query first second stands) ∙ also };

    fn equivalent(&self, key: &K) -> bool {
        self == key
    }
}

/// A query of which a key can be made.
///
/// Each `K: Eq + Hash + Clone` gives its clone.
pub trait ToKey<K: Eq + Hash>: Equivalent<K> {
    /// The keys that the query may give. A call that takes one asks that the query stands for
    /// each of them.
    ghost to_key_gives: { Self → K → Type 0 };

    /// Whether the query gives a key without fail.
    ghost to_key_is_infallible: { Self → Type 0 };

    /// A key of its own, or `Memory` where there is none for it.
    fn to_key(&self) -> Result<K, Refusal>
        ensures gives { IfOk result (to_key_gives self.now) }
        ensures succeeds { to_key_is_infallible self.now → IsOk result }
        ensures refused { IfErr result (λ refusal. refusal ≡ Refusal.Memory) };

    /// A query that stands for a key that it gives stands for each key that is equal to that one.
    /// So a key that is made where the query found nothing is equal to none that is there.
    ghost same_given: { (query : Self) (given other : K) → to_key_gives query given
        → IsTrue (Self.equivalent query given) → IsTrue (K.eq given other)
        → IsTrue (Self.equivalent query other) };
}

impl<K: Eq + Hash + Clone> ToKey<K> for K {
    ghost to_key_gives = { K.is_clone };

    ghost same_given = { λ query given other _ stands equal.
        K.Eq.laws.congr query given other stands ∙ equal };

    ghost to_key_is_infallible = { K.is_infallible };

    fn to_key(&self) -> Result<K, Refusal> {
        match self.clone() {
            Ok(key) => Ok(key),
            Err(_) => Err(Refusal::Memory),
        }
    }
}
