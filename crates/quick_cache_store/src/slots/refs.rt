//! Looks at what a slot has: at the whole of it, at an item, and at a key that is being loaded.
ghost use Rattle.std.specs.Prelude.{◌≡◌, Some, true};
ghost use Rattle.quick_cache_store.specs.Slots.{has_hash, stand_in, stand_of_item, is_under, is_item_under, is_ghost, is_item, weight_in};
ghost use Rattle.quick_cache_store.specs.Slots.{entry_item, entry_awaited};

use crate::slots::beside::BesideRef;
use crate::slots::entry::{Entry, Stand};
use crate::slots::stored::{Body, Head, StoredEntry};
use quick_cache_model::{Equivalent, Queue};
use std::hash::Hash;
use std::marker::Model;

/// An item, seen in its slot.
#[derive(Drop)]
pub struct ItemRef<'a, K, V, T> {
    pub(crate) head: &'a Head,
    pub(crate) body: &'a Body<K, V, T>,
    pub(crate) beside: BesideRef<'a>,
}

impl<'a, K, V, T> Model for ItemRef<'a, K, V, T> {
    ghost use Rattle.quick_cache_model.specs.CacheState.{Item};

    ghost Value = { Item K V };

    ghost use Rattle.quick_cache_store.specs.Asides.{seen};
    ghost use Rattle.quick_cache_store.specs.Stored.{item_of_body};

    ghost view = { λ i. item_of_body i.head.now i.body.now (seen i.beside) };
}

impl<'a, K, V, T> ItemRef<'a, K, V, T> {
    /// Its ring, also where it weighs nothing and stands beside the rings.
    pub fn queue(&self) -> Queue
        ensures { result ≡ self.now.queue }
    {
        self.head.queue
    }

    /// The weight that it counts for.
    pub fn weight(&self) -> u64
        ensures { result ≡ self.now.weight }
    {
        self.beside.aside.weight_by(self.head.weight)
    }

    /// How often it was used lately.
    pub fn mark(&self) -> u8
        ensures { result ≡ self.now.mark }
    {
        *self.beside.mark
    }

    /// Its key.
    pub fn key(&self) -> &'a K
        ensures { result.now ≡ self.now.key }
    {
        &self.body.key
    }

    /// Its value.
    pub fn value(&self) -> &'a V
        ensures { result.now ≡ self.now.value }
    {
        &self.body.value
    }

    /// The key and the value.
    pub fn pair(&self) -> (&'a K, &'a V)
        ensures key { result.0.now ≡ self.now.key }
        ensures value { result.1.now ≡ self.now.value }
    {
        (&self.body.key, &self.body.value)
    }

    /// What readers counted at it since the cache last took it in.
    pub fn touch(&self) -> &'a T {
        &self.body.touch
    }

    /// How often it was read, but for what `touch` tells.
    pub fn reads(&self) -> u64
        ensures { result ≡ self.now.reads }
    {
        self.beside.aside.reads_by(self.head.late)
    }

    /// The list that it stands in.
    #[inline(always)]
    pub fn stand(&self) -> Stand
        ensures { result ≡ stand_of_item self.now }
    {
        Stand::of_item(self.weight(), self.head.queue)
    }
}

/// A key that is being loaded, seen in its slot.
#[derive(Drop)]
pub struct AwaitedRef<'a, K, P> {
    pub(crate) queue: Queue,
    pub(crate) key: &'a K,
    pub(crate) placeholder: &'a P,
}

impl<'a, K, P> Model for AwaitedRef<'a, K, P> {
    ghost use Rattle.quick_cache_store.specs.declared.slots.entry.Awaited.{Awaited};

    ghost Value = { Awaited K P };

    ghost view = { λ a. record {
      key = a.key.now;
      queue = a.queue;
      placeholder = a.placeholder.now;
    } };
}

impl<'a, K, P> AwaitedRef<'a, K, P> {
    /// The ring that it is to come into.
    pub fn queue(&self) -> Queue
        ensures { result ≡ self.now.queue }
    {
        self.queue
    }

    /// The key that is being loaded.
    pub fn key(&self) -> &'a K
        ensures { result.now ≡ self.now.key }
    {
        self.key
    }

    /// Its placeholder.
    pub fn placeholder(&self) -> &'a P
        ensures { result.now ≡ self.now.placeholder }
    {
        self.placeholder
    }
}

/// A slot, seen where it stands: an entry and its hash.
#[derive(Drop)]
pub struct SlotRef<'a, K, V, P, T> {
    pub(crate) entry: &'a StoredEntry<K, V, P, T>,
    pub(crate) beside: BesideRef<'a>,
}

impl<'a, K, V, P, T> Model for SlotRef<'a, K, V, P, T> {
    ghost use Rattle.quick_cache_store.specs.declared.slots.entry.Slot.{Slot};

    ghost Value = { Slot K V P T };

    ghost use Rattle.quick_cache_store.specs.Asides.{seen};
    ghost use Rattle.quick_cache_store.specs.Stored.{slot_of};

    ghost view = { λ s. slot_of s.entry.now (seen s.beside) };
}

impl<'a, K, V, P, T> SlotRef<'a, K, V, P, T> {
    /// The hash under which it stands.
    pub fn hash(&self) -> u64
        ensures { result ≡ self.now.hash }
    {
        self.beside.aside.hash
    }

    /// What it weighs: only an item weighs something.
    pub fn weight(&self) -> u64
        ensures { result ≡ weight_in self.now.entry }
    {
        match self.entry {
            StoredEntry::Item(head, _) => self.beside.aside.weight_by(head.weight),
            StoredEntry::Loading(_, _, _) => 0,
            StoredEntry::Ghost(_) => 0,
        }
    }

    /// The list that it stands in.
    pub fn stand(&self) -> Stand
        ensures { result ≡ stand_in self.now.entry }
    {
        match self.entry {
            StoredEntry::Item(head, _) => {
                Stand::of_item(self.beside.aside.weight_by(head.weight), head.queue)
            }
            StoredEntry::Loading(_, _, _) => Stand::AmongLoading,
            StoredEntry::Ghost(_) => Stand::AmongGhosts,
        }
    }

    /// Whether it stands under that hash.
    #[inline(always)]
    pub fn is_of(&self, hash: u64) -> bool
        ensures { result ≡ has_hash hash (Some self.now) }
    {
        self.beside.aside.hash == hash
    }

    /// Whether the query stands for the key of an item or of a placeholder.
    pub fn is_under<Q: Equivalent<K>>(&self, query: &Q) -> bool
    where
        K: Eq + Hash,
        ensures { result ≡ is_under (Q.equivalent query.now) self.now }
    {
        match self.entry {
            StoredEntry::Item(_, body) => query.equivalent(&body.key),
            StoredEntry::Loading(_, key, _) => query.equivalent(key),
            StoredEntry::Ghost(_) => false,
        }
    }

    /// Whether it has an item for whose key the query stands.
    #[inline(always)]
    pub fn is_item_under<Q: Equivalent<K>>(&self, query: &Q) -> bool
    where
        K: Eq + Hash,
        ensures { result ≡ is_item_under (Q.equivalent query.now) self.now }
    {
        match self.entry {
            StoredEntry::Item(_, body) => query.equivalent(&body.key),
            StoredEntry::Loading(_, _, _) => false,
            StoredEntry::Ghost(_) => false,
        }
    }

    /// The item that it has.
    ///
    /// It does not look whether it has one: a shift too far has no value, and so tells the compiler
    /// what the proof says, that no one comes there.
    #[inline(always)]
    pub fn item(&self) -> ItemRef<'a, K, V, T>
        requires { is_item self.now ≡ true }
        ensures { self.now.entry ≡ Entry.Item result }
    {
        let too_far = usize::BITS;
        let heads: &[Head] = &[];
        let bodies: &[Body<K, V, T>] = &[];
        let (head, body) = match self.entry {
            StoredEntry::Item(head, body) => (head, body),
            _ => (&heads[1 << too_far], &bodies[1 << too_far]),
        };
        ItemRef {
            head,
            body,
            beside: self.beside,
        }
    }

    /// The item that it has, if it has one.
    pub fn as_item(&self) -> Option<ItemRef<'a, K, V, T>>
        ensures { result ≡ entry_item self.now.entry }
    {
        match self.entry {
            StoredEntry::Item(head, body) => Some(ItemRef {
                head,
                body,
                beside: self.beside,
            }),
            StoredEntry::Loading(_, _, _) => None,
            StoredEntry::Ghost(_) => None,
        }
    }

    /// The key that is being loaded, if it has one.
    pub fn as_awaited(&self) -> Option<AwaitedRef<'a, K, P>>
        ensures { result ≡ entry_awaited self.now.entry }
    {
        match self.entry {
            StoredEntry::Item(_, _) => None,
            StoredEntry::Loading(queue, key, placeholder) => Some(AwaitedRef {
                queue: *queue,
                key,
                placeholder,
            }),
            StoredEntry::Ghost(_) => None,
        }
    }

    /// Whether it has a ghost.
    pub fn is_ghost(&self) -> bool
        ensures { result ≡ is_ghost self.now }
    {
        match self.entry {
            StoredEntry::Ghost(_) => true,
            _ => false,
        }
    }

    /// Whether it has an item.
    pub fn is_item(&self) -> bool
        ensures { result ≡ is_item self.now }
    {
        match self.entry {
            StoredEntry::Item(_, _) => true,
            _ => false,
        }
    }
}
