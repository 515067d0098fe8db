//! An item as its slot has it, and the same with its mark, as it comes in and goes out.
ghost use Rattle.std.specs.Prelude.{◌≡◌};
ghost use Rattle.quick_cache_store.specs.Slots.{stand_of_item};

use crate::slots::entry::Stand;
use crate::slots::stored::Body;
use quick_cache_model::Queue;
use std::marker::Model;

/// An item without its mark: its pair, the weight that it counts for, how often it was read, and
/// its ring. It is what a slot has of an item, for the marks stand beside the slots.
#[derive(Drop)]
pub struct Resident<K, V, T> {
    pub(crate) queue: Queue,
    pub(crate) weight: u64,
    pub(crate) reads: u64,
    pub(crate) body: Body<K, V, T>,
}

/// An item and its mark, which says how often it was used lately.
#[derive(Drop)]
pub struct Marked<K, V, T> {
    pub(crate) mark: u8,
    pub(crate) resident: Resident<K, V, T>,
}

impl<K, V, T> Model for Marked<K, V, T> {
    ghost use Rattle.quick_cache_model.specs.CacheState.{Item};

    ghost Value = { Item K V };

    ghost use Rattle.quick_cache_store.specs.Residents.{marked_item};

    ghost view = { λ m. marked_item m.mark m.resident };
}

impl<K, V, T> Marked<K, V, T> {
    /// An item that was never read.
    pub fn new(key: K, value: V, weight: u64, mark: u8, queue: Queue, touch: T) -> Self
        ensures { result ≡ record {
          key = key;
          value = value;
          weight = weight;
          mark = mark;
          reads = 0;
          queue = queue;
        } }
    {
        let body = Body { touch, key, value };
        let resident = Resident {
            queue,
            weight,
            reads: 0,
            body,
        };
        Marked { mark, resident }
    }

    /// The same item with another count of reads.
    pub fn with_reads(self, reads: u64) -> Self
        ensures { result ≡ record self { reads = reads } }
    {
        Marked {
            mark: self.mark,
            resident: Resident {
                reads,
                ..self.resident
            },
        }
    }

    /// Its ring, also where it weighs nothing and stands beside the rings.
    pub fn queue(&self) -> Queue
        ensures { result ≡ self.now.queue }
    {
        self.resident.queue
    }

    /// The weight that it counts for.
    pub fn weight(&self) -> u64
        ensures { result ≡ self.now.weight }
    {
        self.resident.weight
    }

    /// How often it was used lately.
    pub fn mark(&self) -> u8
        ensures { result ≡ self.now.mark }
    {
        self.mark
    }

    /// Its key.
    pub fn key(&self) -> &K
        ensures { result.now ≡ self.now.key }
    {
        &self.resident.body.key
    }

    /// Its value.
    pub fn value(&self) -> &V
        ensures { result.now ≡ self.now.value }
    {
        &self.resident.body.value
    }

    /// The key and the value.
    pub fn pair(&self) -> (&K, &V)
        ensures key { result.0.now ≡ self.now.key }
        ensures value { result.1.now ≡ self.now.value }
    {
        (&self.resident.body.key, &self.resident.body.value)
    }

    /// The list that it stands in.
    #[inline(always)]
    pub fn stand(&self) -> Stand
        ensures { result ≡ stand_of_item self.now }
    {
        Stand::of_item(self.resident.weight, self.resident.queue)
    }

    /// How often it was read, but for what `touch` tells.
    pub fn reads(&self) -> u64
        ensures { result ≡ self.now.reads }
    {
        self.resident.reads
    }

    /// What readers counted at it since the cache last took it in.
    pub fn touch(&self) -> &T {
        &self.resident.body.touch
    }

    /// The pair, taken apart.
    pub fn into_pair(self) -> (K, V)
    where
        T: Drop,
        ensures { result ≡ (self.key, self.value) }
    {
        let Body {
            touch: _touch,
            key,
            value,
        } = self.resident.body;
        (key, value)
    }
}
