//! What stands beside slots: in one list what a look-up seldom reads, in another the marks, which
//! the policy reads one after the other.
ghost use Rattle.std.specs.Prelude.{◌≡◌, ◌+◌, ◌*◌, ◌<◌, ◌≤◌, ◌↔◌, [], ◌∷◌, ◌++◌, length, max, IsTrue, slice_set, slice_index_or, IsOk};
ghost use Rattle.std.specs.Prelude.{IfErr, OnOk};
ghost use Rattle.quick_cache_store.specs.declared.slots.beside.Beside.{Beside};
ghost use Rattle.quick_cache_store.specs.Asides.{besides_of, room_of, AreInStep, seen};

use crate::pool::make_room;
use crate::slots::aside::Aside;
use crate::slots::beside::{Beside, BesideRef};
use quick_cache_model::Refusal;
use std::alloc::{Allocator, Global};
use std::marker::Model;
use std::mem::size_of;

/// For each slot what stands beside it, the mark of its item in a list of its own.
#[derive(Drop)]
pub(crate) struct Asides<A: Allocator = Global> {
    asides: Vec<Aside, A>,
    marks: Vec<u8, A>,
}

/// The two lists, to look at.
#[derive(Drop)]
pub(crate) struct AsideLists<'a> {
    asides: &'a [Aside],
    marks: &'a [u8],
}

impl<'a> Model for AsideLists<'a> {
    ghost use Rattle.std.specs.Prelude.{List};
    ghost use Rattle.quick_cache_store.specs.declared.slots.beside.Beside.{Beside};
    ghost use Rattle.quick_cache_store.specs.Asides.{besides};

    ghost Value = { List Beside };

    ghost view = { λ a. besides a.asides.now a.marks.now };
}

impl<'a> AsideLists<'a> {
    /// What stands beside the slot of this place.
    #[inline(always)]
    pub(crate) fn at(&self, place: usize) -> BesideRef<'a>
        requires { place < length self.now }
        ensures { seen result ≡ slice_index_or self.now place (seen result) }
    {
        let asides = self.asides;
        let marks = self.marks;
        BesideRef {
            aside: &asides[place],
            mark: &marks[place],
        }
    }
}

impl<A: Allocator> Asides<A> {
    /// Of no slots. It asks for no memory.
    pub(crate) fn new(for_asides: A, for_marks: A) -> Self
        ensures empty { besides_of result ≡ [] }
        ensures room { room_of result ≡ 0 }
        ensures in_step { AreInStep result }
    {
        Asides {
            asides: Vec::new(for_asides),
            marks: Vec::new(for_marks),
        }
    }

    /// Of how many slots.
    #[inline(always)]
    pub(crate) fn len(&self) -> usize
        requires { AreInStep self.now }
        ensures { result ≡ length (besides_of self.now) }
    {
        self.asides.len()
    }

    /// For how many more there is room.
    pub(crate) fn room(&self) -> usize
        ensures { result ≡ room_of self.now }
    {
        let asides = self.asides.capacity() - self.asides.len();
        let marks = self.marks.capacity() - self.marks.len();
        asides.min(marks)
    }

    /// Whether there is room for one more.
    #[inline(always)]
    pub(crate) fn has_room(&self) -> bool
        ensures { IsTrue result ↔ 0 < room_of self.now }
    {
        self.asides.len() < self.asides.capacity() && self.marks.len() < self.marks.capacity()
    }

    /// The two lists, to look at.
    #[inline(always)]
    pub(crate) fn lists(&self) -> AsideLists<'_>
        ensures { result ≡ besides_of self.now }
    {
        AsideLists {
            asides: self.asides.as_slice(),
            marks: self.marks.as_slice(),
        }
    }

    /// What stands beside the slot of this place.
    #[inline(always)]
    pub(crate) fn get(&self, place: usize) -> Beside
        requires { place < length (besides_of self.now) }
        ensures { result ≡ slice_index_or (besides_of self.now) place result }
    {
        Beside {
            aside: self.asides[place],
            mark: self.marks[place],
        }
    }

    /// Writes what stands beside the slot of this place.
    #[inline(always)]
    pub(crate) fn put(&mut self, place: usize, beside: Beside)
        requires within { place < length (besides_of self.old) }
        requires in_step { AreInStep self.old }
        ensures items { besides_of self.new ≡ slice_set (besides_of self.old) place beside }
        ensures room { room_of self.new ≡ room_of self.old }
        ensures in_step { AreInStep self.new }
    {
        self.asides[place] = beside.aside;
        self.marks[place] = beside.mark;
    }

    /// Writes the mark of the slot of this place, and nothing else.
    #[inline(always)]
    pub(crate) fn set_mark(&mut self, place: usize, mark: u8)
        requires within { place < length (besides_of self.old) }
        requires in_step { AreInStep self.old }
        ensures items { (was : Beside) → was ≡ slice_index_or (besides_of self.old) place was
            → besides_of self.new
            ≡ slice_set (besides_of self.old) place (record was { mark = mark }) }
        ensures room { room_of self.new ≡ room_of self.old }
        ensures in_step { AreInStep self.new }
    {
        self.marks[place] = mark;
    }

    /// Puts it last. It takes one of the room.
    #[inline(always)]
    pub(crate) fn push_reserved(&mut self, beside: Beside)
        requires room { 0 < room_of self.old }
        requires in_step { AreInStep self.old }
        ensures items { besides_of self.new ≡ besides_of self.old ++ beside ∷ [] }
        ensures room { room_of self.new + 1 ≡ room_of self.old }
        ensures in_step { AreInStep self.new }
    {
        self.asides.push_reserved(beside.aside);
        self.marks.push_reserved(beside.mark);
    }

    /// Makes room for so many more where there is less, as `make_room` does.
    ///
    /// A refusal is for want of memory: it may keep room that it got, and changes nothing else.
    pub(crate) fn reserve(&mut self, more: usize) -> Result<(), Refusal>
        requires { AreInStep self.old }
        ensures items { besides_of self.new ≡ besides_of self.old }
        ensures room { OnOk result (more ≤ room_of self.new) }
        ensures grows { room_of self.old ≤ room_of self.new }
        ensures at_most { length (besides_of self.old) + room_of self.new
            ≤ max (length (besides_of self.old) + room_of self.old)
            (2 * (length (besides_of self.old) + more) + 4) }
        ensures had_room { more ≤ room_of self.old
            → IsOk result × (room_of self.new ≡ room_of self.old) }
        ensures in_step { AreInStep self.new }
        ensures memory { IfErr result (λ refused. refused ≡ Refusal.Memory) }
    {
        if make_room(&mut self.asides, more).is_err() {
            return Err(Refusal::Memory);
        }
        if make_room(&mut self.marks, more).is_err() {
            return Err(Refusal::Memory);
        }
        Ok(())
    }

    /// Of no slots any more. It keeps the room.
    pub(crate) fn clear(&mut self)
        requires { AreInStep self.old }
        ensures items { besides_of self.new ≡ [] }
        ensures room { room_of self.new ≡ room_of self.old + length (besides_of self.old) }
        ensures in_step { AreInStep self.new }
    {
        self.asides.clear();
        self.marks.clear();
    }

    /// The bytes of what stands beside the slots, with those of the room.
    pub(crate) fn memory_used(&self) -> usize {
        let asides = self.asides.capacity().saturating_mul(size_of::<Aside>());
        asides.saturating_add(self.marks.capacity())
    }
}
