//! An entry as its slot stores it. What is small stands beside the tag of the entry, so that an item
//! takes 24 bytes where a key and a value take 8 each.
ghost use Rattle.quick_cache_store.specs.Shown.{HoldsOfItem, MayBeShown, ShowsStored};
ghost use Rattle.std.specs.Prelude.{◌≡◌, false};
ghost use Rattle.std.specs.Borrow.{sem};
ghost use Rattle.quick_cache_model.specs.Touches.{counted_up};
ghost use Rattle.quick_cache_store.specs.Items.{filled, read_once, requeued, with_counts, with_weight};
ghost use Rattle.quick_cache_store.specs.declared.slots.beside.Beside.{Beside};
ghost use Rattle.quick_cache_store.specs.Slots.{slot_changed, slot_filled, with_entry};
ghost use Rattle.quick_cache_store.specs.Stored.{resident_of, entry_of, slot_of, reads_by, entry_filled_by, is_counted_out, IsItem};
ghost use Rattle.quick_cache_store.specs.Stored.{IsAwaited};

use crate::pool::Blank;
use crate::slots::aside::Aside;
use crate::slots::beside::Beside;
use crate::slots::entry::{Awaited, Entry, Slot};
use crate::slots::resident::{Marked, Resident};
use core::mem::replace_with;
use quick_cache_model::{Queue, Touches};
use std::mem::{replace, swap};

/// What of an item is small.
#[derive(Clone, Copy)]
pub(crate) struct Head {
    pub(crate) queue: Queue,
    // What the item weighs, or that this stands beside the slot.
    pub(crate) weight: u16,
    // The reads that were not counted beside the slot yet.
    pub(crate) late: u16,
}

/// The rest of an item.
#[derive(Drop)]
pub(crate) struct Body<K, V, T> {
    // What readers counted since the cache last took it in.
    pub(crate) touch: T,
    pub(crate) key: K,
    pub(crate) value: V,
}

/// An entry: an item, a key that is being loaded by its queue, the key and the placeholder, or a
/// ghost. A ghost is also the blank of a free slot, where it notes a number for the pool.
#[derive(Drop)]
pub(crate) enum StoredEntry<K, V, P, T> {
    Item(Head, Body<K, V, T>),
    Loading(Queue, K, P),
    Ghost(u32),
}

impl<K, V, P, T> Blank for StoredEntry<K, V, P, T> {
    ghost use Rattle.quick_cache_store.specs.Stored.{IsBare, note_of};

    ghost is_blank = { IsBare };

    ghost note_of = { note_of };

    #[inline(always)]
    fn blank(note: u32) -> Self {
        StoredEntry::Ghost(note)
    }

    #[inline(always)]
    fn note(&self) -> u32 {
        match self {
            StoredEntry::Ghost(note) => *note,
            _ => u32::MAX,
        }
    }

    // It does not look, as `bury` does not.
    #[inline(always)]
    fn discard(self) {
        match self {
            StoredEntry::Ghost(_) => (),
            _ => {
                let too_far = usize::BITS;
                let mut none = [0u8; 0];
                none[1 << too_far] = 0;
                unreachable!()
            }
        }
    }
}

/// The item of a key that is being loaded, but for its key.
#[derive(Drop)]
struct Filling<V, T> {
    head: Head,
    value: V,
    touch: T,
}

impl Head {
    /// Of an item of no reads, whose weight is yet to be set.
    #[inline(always)]
    pub(crate) fn new(queue: Queue) -> Self
        ensures { result ≡ record { queue = queue; weight = 0; late = 0 } }
    {
        Head {
            queue,
            weight: 0,
            late: 0,
        }
    }
}

impl Head {
    /// Counts a read beside the slot, and those that the slot counted.
    #[cold]
    fn settle(&mut self, aside: &mut Aside)
        ensures reads { reads_by self.new.late aside.new
            ≡ counted_up 1 (reads_by self.old.late aside.old) }
        ensures head { self.new ≡ record self.old { late = self.new.late } }
        ensures aside { aside.new ≡ record aside.old { reads = aside.new.reads } }
    {
        aside.reads = aside.reads_by(self.late).saturating_add(1);
        self.late = 0;
    }
}

impl<K, V, T> Body<K, V, T> {
    ghost use Rattle.quick_cache_store.specs.Lent.{lends_body_value};

    /// The value, to write.
    fn value_mut(&mut self) -> &mut V
        ensures* writes_back { sem 𝓛 (lends_body_value K.row V.row T.row self.entry result) }
        ensures value { result.now ≡ self.old.value }
    {
        &mut self.value
    }
}

impl<K, V, T> Resident<K, V, T> {
    /// As a slot stores it, where its weight and its reads are kept beside the slot.
    #[inline(always)]
    fn into_stored(self, aside: &mut Aside) -> (Head, Body<K, V, T>)
        ensures stored { resident_of result.0 result.1 aside.new ≡ self }
        ensures hash { aside.new.hash ≡ aside.old.hash }
    {
        aside.reads = self.reads;
        let head = Head {
            queue: self.queue,
            weight: aside.keep_weight(self.weight),
            late: 0,
        };
        (head, self.body)
    }

    /// The item that is stored so.
    #[inline(always)]
    fn from_stored(head: Head, body: Body<K, V, T>, aside: &Aside) -> Self
        ensures { result ≡ resident_of head body aside.now }
    {
        Resident {
            queue: head.queue,
            weight: aside.weight_by(head.weight),
            reads: aside.reads_by(head.late),
            body,
        }
    }
}

/// An entry as a slot stores it, and what stands beside it.
#[inline(always)]
pub(crate) fn store<K, V, P, T>(slot: Slot<K, V, P, T>) -> (StoredEntry<K, V, P, T>, Beside)
    ensures { slot_of result.0 result.1 ≡ slot }
{
    let mut beside = Beside {
        aside: Aside::new(slot.hash),
        mark: 0,
    };
    let stored = StoredEntry::new(slot.entry, &mut beside);
    (stored, beside)
}

/// The entry and its hash.
#[inline(always)]
pub(crate) fn unstore<K, V, P, T>(
    stored: StoredEntry<K, V, P, T>,
    beside: &Beside,
) -> Slot<K, V, P, T>
    ensures { result ≡ slot_of stored beside.now }
{
    Slot {
        entry: stored.into_entry(beside),
        hash: beside.aside.hash,
    }
}

/// The item that a key that is being loaded becomes. It does not look, as `bury` does not.
#[inline(always)]
fn filled_by<K, V, P, T>(
    entry: StoredEntry<K, V, P, T>,
    by: Filling<V, T>,
) -> (StoredEntry<K, V, P, T>, ())
where
    K: Drop,
    V: Drop,
    P: Drop,
    T: Drop,
    requires { IsAwaited entry }
    ensures { result.0 ≡ entry_filled_by by.head by.value by.touch entry }
{
    match entry {
        StoredEntry::Loading(_, key, _) => {
            let body = Body {
                touch: by.touch,
                key,
                value: by.value,
            };
            (StoredEntry::Item(by.head, body), ())
        }
        _ => {
            let too_far = usize::BITS;
            let mut none = [0u8; 0];
            none[1 << too_far] = 0;
            unreachable!()
        }
    }
}

impl<K, V, P, T> StoredEntry<K, V, P, T> {
    ghost use Rattle.quick_cache_store.specs.Lent.{lends_entry_value, IsStoredValue};

    /// As a slot stores that entry, where the weight of an item and its reads are kept beside it.
    #[inline(always)]
    fn new(entry: Entry<K, V, P, T>, beside: &mut Beside) -> Self
        ensures entry { entry_of result beside.new ≡ entry }
        ensures hash { beside.new.aside.hash ≡ beside.old.aside.hash }
    {
        match entry {
            Entry::Item(item) => {
                beside.mark = item.mark;
                let (head, body) = item.resident.into_stored(&mut beside.aside);
                StoredEntry::Item(head, body)
            }
            Entry::Loading(awaited) => {
                StoredEntry::Loading(awaited.queue, awaited.key, awaited.placeholder)
            }
            Entry::Ghost => StoredEntry::Ghost(u32::MAX),
        }
    }

    /// The entry that is stored.
    #[inline(always)]
    fn into_entry(self, beside: &Beside) -> Entry<K, V, P, T>
        ensures { result ≡ entry_of self beside.now }
    {
        match self {
            StoredEntry::Item(head, body) => Entry::Item(Marked {
                mark: beside.mark,
                resident: Resident::from_stored(head, body, &beside.aside),
            }),
            StoredEntry::Loading(queue, key, placeholder) => Entry::Loading(Awaited {
                key,
                queue,
                placeholder,
            }),
            StoredEntry::Ghost(_) => Entry::Ghost,
        }
    }

    /// The value of an item, to write.
    pub(crate) fn value_mut(&mut self) -> &mut V
        requires { IsItem self.old }
        ensures* writes_back { sem 𝓛 (lends_entry_value K.row V.row P.row T.row self.entry
            result) }
        ensures value { IsStoredValue self.old result.now }
    {
        let StoredEntry::Item(_, body) = self else {
            unreachable!();
        };
        body.value_mut()
    }

    /// Shows the key of an item, and its value to write.
    #[inline]
    pub(crate) fn show<R, F: FnMut(&K, &mut V) -> R>(&mut self, callback: &mut F) -> R
        requires item { IsItem self.old }
        requires callable { HoldsOfItem self.old (MayBeShown F.FnMut callback.old) }
        ensures { ShowsStored F.FnMut callback.old self.old result callback.new self.new }
    {
        let StoredEntry::Item(_, body) = self else {
            unreachable!();
        };
        callback(&body.key, &mut body.value)
    }

    /// Whether an item is stored whose slot can count no more reads.
    #[inline(always)]
    pub(crate) fn is_counted_out(&self) -> bool
        ensures { result ≡ is_counted_out self.now }
    {
        match self {
            StoredEntry::Item(head, _) => head.late == u16::MAX,
            StoredEntry::Loading(_, _, _) => false,
            StoredEntry::Ghost(_) => false,
        }
    }

    /// Counts a read of an item in its slot alone.
    #[inline(always)]
    pub(crate) fn count_late(&mut self)
        requires item { IsItem self.old }
        requires room { is_counted_out self.old ≡ false }
        ensures { (beside : Beside) → slot_of self.new beside
            ≡ slot_changed read_once (slot_of self.old beside) }
    {
        let StoredEntry::Item(head, _) = self else {
            unreachable!();
        };
        head.late += 1;
    }

    /// Counts a read of an item beside its slot, and those that the slot counted.
    pub(crate) fn settle_read(&mut self, beside: &mut Beside)
        requires { IsItem self.old }
        ensures { slot_of self.new beside.new
            ≡ slot_changed read_once (slot_of self.old beside.old) }
    {
        let StoredEntry::Item(head, _) = self else {
            unreachable!();
        };
        head.settle(&mut beside.aside);
    }

    /// Gives an item another mark and another count of reads.
    pub(crate) fn set_counts(&mut self, beside: &mut Beside, mark: u8, reads: u64)
        requires { IsItem self.old }
        ensures { slot_of self.new beside.new
            ≡ slot_changed (with_counts mark reads) (slot_of self.old beside.old) }
    {
        let StoredEntry::Item(head, _) = self else {
            unreachable!();
        };
        beside.mark = mark;
        head.late = 0;
        beside.aside.reads = reads;
    }

    /// Gives an item another weight.
    pub(crate) fn set_weight(&mut self, beside: &mut Beside, weight: u64)
        requires { IsItem self.old }
        ensures { slot_of self.new beside.new
            ≡ slot_changed (with_weight weight) (slot_of self.old beside.old) }
    {
        let StoredEntry::Item(head, _) = self else {
            unreachable!();
        };
        head.weight = beside.aside.keep_weight(weight);
    }

    /// Gives an item another queue, mark and weight.
    pub(crate) fn requeue(&mut self, beside: &mut Beside, queue: Queue, mark: u8, weight: u64)
        requires { IsItem self.old }
        ensures { slot_of self.new beside.new
            ≡ slot_changed (requeued queue mark weight) (slot_of self.old beside.old) }
    {
        let StoredEntry::Item(head, _) = self else {
            unreachable!();
        };
        beside.mark = mark;
        head.queue = queue;
        head.weight = beside.aside.keep_weight(weight);
    }

    /// Takes another entry, and gives the old one back. An item in the place of an item goes on
    /// with its counter of touches.
    #[inline(always)]
    pub(crate) fn replace(
        &mut self,
        beside: &mut Beside,
        entry: Entry<K, V, P, T>,
    ) -> Entry<K, V, P, T>
        ensures new { slot_of self.new beside.new
            ≡ with_entry entry (slot_of self.old beside.old) }
        ensures old { result ≡ entry_of self.old beside.old }
    {
        let before = *beside;
        let mut stored = StoredEntry::new(entry, beside);
        if let StoredEntry::Item(_, body) = self {
            if let StoredEntry::Item(_, other) = &mut stored {
                swap(&mut body.touch, &mut other.touch);
            }
        }
        replace(self, stored).into_entry(&before)
    }

    /// Leaves a ghost in the place of the item that it has, and gives the item. It does not look
    /// whether it has one, as `SlotRef::item` does not.
    #[inline(always)]
    pub(crate) fn bury(&mut self, beside: &Beside) -> Marked<K, V, T>
        requires { IsItem self.old }
        ensures new { (beside : Beside) → slot_of self.new beside
            ≡ with_entry Entry.Ghost (slot_of self.old beside) }
        ensures old { entry_of self.old beside.now ≡ Entry.Item result }
    {
        match replace(self, StoredEntry::Ghost(u32::MAX)) {
            StoredEntry::Item(head, body) => Marked {
                mark: beside.mark,
                resident: Resident::from_stored(head, body, &beside.aside),
            },
            _ => {
                let too_far = usize::BITS;
                let mut none = [0u8; 0];
                none[1 << too_far] = 0;
                unreachable!()
            }
        }
    }

    /// Takes another item for the one that it has, and gives the old one back. The other goes on
    /// with the counter of touches.
    pub(crate) fn rewrite(&mut self, beside: &mut Beside, item: Marked<K, V, T>) -> Marked<K, V, T>
        requires { IsItem self.old }
        ensures new { slot_of self.new beside.new
            ≡ slot_changed (λ _. item) (slot_of self.old beside.old) }
        ensures old { entry_of self.old beside.old ≡ Entry.Item result }
    {
        let mut item = item;
        let StoredEntry::Item(head, body) = self else {
            unreachable!();
        };
        swap(&mut body.touch, &mut item.resident.body.touch);
        let before = *beside;
        beside.mark = item.mark;
        let (new_head, new_body) = item.resident.into_stored(&mut beside.aside);
        let old_head = replace(head, new_head);
        let old_body = replace(body, new_body);
        Marked {
            mark: before.mark,
            resident: Resident::from_stored(old_head, old_body, &before.aside),
        }
    }

    /// Takes the count of touches of an item, which begins anew.
    pub(crate) fn take_touch(&mut self) -> u64
    where
        T: Touches,
        requires { IsItem self.old }
        ensures counted { T.may_count result }
        ensures same { (beside : Beside) → slot_of self.new beside ≡ slot_of self.old beside }
    {
        match self {
            StoredEntry::Item(_, body) => body.touch.take(),
            _ => unreachable!(),
        }
    }

    /// Makes an item of a key that is being loaded.
    #[inline(always)]
    pub(crate) fn fill(
        &mut self,
        beside: &mut Beside,
        queue: Queue,
        mark: u8,
        weight: u64,
        value: V,
        touch: T,
    )
    where
        K: Drop,
        V: Drop,
        P: Drop,
        T: Drop,
        requires { IsAwaited self.old }
        ensures { slot_of self.new beside.new
            ≡ slot_filled (filled queue mark weight value) (slot_of self.old beside.old) }
    {
        beside.mark = mark;
        beside.aside.reads = 0;
        let mut head = Head::new(queue);
        head.weight = beside.aside.keep_weight(weight);
        // The entry is written once, and nothing stands in its place before.
        replace_with(self, Filling { head, value, touch }, filled_by)
    }
}
