//! A copy of the slots: clones of the keys and the values, under the same tokens.
ghost use Rattle.std.specs.Prelude.{◌≡◌, ℕ, ◌≤◌, [], length, IfOk, IfErr, OnErr};
ghost use Rattle.quick_cache_store.specs.Pool.{AreItemCopies, IsParted};
ghost use Rattle.quick_cache_store.specs.Asides.{besides_of, AreInStep};
ghost use Rattle.quick_cache_store.specs.Copies.{IsSlotCopy, IsStoredCopy, aside_copy, aside_copies};

use crate::pool::CopyItem;
use crate::slots::aside::Aside;
use crate::slots::asides::Asides;
use crate::slots::beside::Beside;
use crate::slots::slots::{Entries, Slots};
use crate::slots::stored::{Body, StoredEntry};
use quick_cache_model::{Refusal, Token, Touches};
use std::alloc::Allocator;

/// What a copy goes by: how it hashes its keys, and what stands in for a placeholder.
pub trait Copying<K, P> {
    /// The hash of a key of the copy.
    ghost hash_of: { Self → K → ℕ };

    /// The second placeholder stands in for the first.
    ghost shares: { Self → P → P → Type 0 };

    fn hash(&self, key: &K) -> u64
        ensures { result ≡ hash_of self.now key.now };

    /// The placeholder that the copy has for this one.
    fn share(&self, placeholder: &P) -> P
        ensures { shares self.now placeholder.now result };
}

/// How the entries are copied.
#[derive(Drop)]
struct Copier<'a, C> {
    by: &'a C,
}

// A clone. A refusal is for want of memory.
fn cloned<X: Clone>(x: &X) -> Result<X, Refusal>
    ensures clones { IfOk result (X.is_clone x.now) }
    ensures refused { OnErr result (result ≡ Err Refusal.Memory) }
{
    match x.clone() {
        Ok(copy) => Ok(copy),
        Err(_) => Err(Refusal::Memory),
    }
}

impl<'a, K: Clone + Drop, V: Clone + Drop, P: Drop, T: Touches, C: Copying<K, P>> CopyItem<
    StoredEntry<K, V, P, T>,
> for Copier<'a, C> {
    ghost is_copy = { λ copier. IsStoredCopy K.is_clone V.is_clone (C.shares copier.by.now) };

    fn copy(&self, stored: &StoredEntry<K, V, P, T>) -> Result<StoredEntry<K, V, P, T>, Refusal> {
        match stored {
            StoredEntry::Item(head, body) => {
                let key = cloned(&body.key)?;
                let value = cloned(&body.value)?;
                let touch = T::default();
                Ok(StoredEntry::Item(*head, Body { touch, key, value }))
            }
            StoredEntry::Loading(queue, key, placeholder) => {
                let key = cloned(key)?;
                Ok(StoredEntry::Loading(*queue, key, self.by.share(placeholder)))
            }
            StoredEntry::Ghost(note) => Ok(StoredEntry::Ghost(*note)),
        }
    }
}

impl<K, V, P, T> StoredEntry<K, V, P, T> {
    // What stands beside a copy of the entry: the hash of the copy's key, or that of a ghost.
    fn beside_by<C: Copying<K, P>>(&self, beside: &Beside, by: &C) -> Beside
        ensures { result ≡ aside_copy (C.hash_of by.now) self.now beside.now }
    {
        let hash = match self {
            StoredEntry::Item(_, body) => by.hash(&body.key),
            StoredEntry::Loading(_, key, _) => by.hash(key),
            StoredEntry::Ghost(_) => beside.aside.hash,
        };
        Beside {
            aside: Aside {
                hash,
                ..beside.aside
            },
            mark: beside.mark,
        }
    }
}

// What stands beside the slots of a copy, where this stood beside the slots that it is of.
fn copy_asides<K, V, P, T, A: Allocator, C: Copying<K, P>>(
    copy: &Entries<K, V, P, T, A>,
    asides: &Asides<A>,
    empty: Asides<A>,
    by: &C,
) -> Result<Asides<A>, Refusal>
    requires in_step { AreInStep asides.now }
    requires beside { length (besides_of asides.now) ≡ length copy.now.slots }
    requires few { length (besides_of asides.now) ≤ 4294967294 }
    requires empty { besides_of empty ≡ [] }
    requires empty_in_step { AreInStep empty }
    ensures copies { IfOk result (λ copies. besides_of copies
        ≡ aside_copies (C.hash_of by.now) copy.now.slots (besides_of asides.now)) }
    ensures in_step { IfOk result AreInStep }
    ensures refused { OnErr result (result ≡ Err Refusal.Memory) }
{
    let mut copies = empty;
    if copies.reserve(asides.len()).is_err() {
        return Err(Refusal::Memory);
    }
    let mut token = Token::MIN;
    for place in 0..asides.len() {
        let beside = asides.get(place);
        copies.push_reserved(match copy.get(token) {
            Some(entry) => entry.beside_by(&beside, by),
            None => beside,
        });
        token = token.saturating_add(1);
    }
    Ok(copies)
}

impl<K: Clone + Drop, V: Clone + Drop, P: Drop, T: Touches, A: Allocator> Slots<K, V, P, T, A> {
    /// A copy in memory of its own: clones of the keys and the values, with no touches, and shared
    /// placeholders. Each stands under its token, and under the hash that the copy gives its key; a
    /// ghost keeps its hash.
    ///
    /// A refusal is for want of memory, be it of a clone.
    pub fn try_copy<C: Copying<K, P>>(&self, alloc: A, by: &C) -> Result<Self, Refusal>
    where
        A: Clone,
        ensures copies { IfOk result (AreItemCopies (IsSlotCopy K.is_clone V.is_clone
            (C.hash_of by.now) (C.shares by.now)) self.now) }
        ensures parted { IfOk result IsParted }
        ensures refused { OnErr result (result ≡ Err Refusal.Memory) }
    {
        self.pool.facts();
        let Ok(for_free) = alloc.clone() else {
            return Err(Refusal::Memory);
        };
        let Ok(for_asides) = alloc.clone() else {
            return Err(Refusal::Memory);
        };
        let Ok(for_marks) = alloc.clone() else {
            return Err(Refusal::Memory);
        };
        let pool = self.pool.try_copy(alloc, for_free, &Copier { by })?;
        let empty = Asides::new(for_asides, for_marks);
        let asides = copy_asides(&pool, &self.asides, empty, by)?;
        Ok(Slots { pool, asides })
    }
}
