//! An allocator for tests: it hands out as many blocks as it was told to, and then refuses.
use std::alloc::{AllocError, Allocator};
use std::cell::Cell;

/// An allocator that hands out a ration of blocks of another one, and then refuses. A `&Rationed`
/// is an allocator that may be copied, so that a test can go on changing the ration. A collection
/// that grows takes a new block.
#[derive(Drop)]
pub struct Rationed<B: Allocator> {
    inner: B,
    left: Cell<u64>,
}

impl<B: Allocator> Rationed<B> {
    /// An allocator that hands out so many blocks.
    pub fn new(inner: B, blocks: u64) -> Rationed<B> {
        Rationed {
            inner,
            left: Cell::new(blocks),
        }
    }

    /// From now on so many blocks are handed out, whatever was left.
    pub fn allow(&self, blocks: u64) {
        self.left.set(blocks);
    }

    /// How many blocks it still hands out.
    pub fn left(&self) -> u64 {
        self.left.get()
    }

    /// Whether no block is left of the ration; else one of them is spent.
    fn refuses(&self) -> bool {
        match self.left.get().checked_sub(1) {
            Some(rest) => {
                self.left.set(rest);
                false
            }
            None => true,
        }
    }
}

unsafe impl<B: Allocator> Allocator for Rationed<B> {
    ghost dealloc_token = { λ heap ty ptr. B.dealloc_token heap.inner ty ptr };

    /// Spends a block of the ration, also where the inner allocator then refuses.
    fn allocate(&self, size: usize, align: usize) -> Result<*mut u8, AllocError> {
        if self.refuses() {
            return Err(AllocError);
        }
        self.inner.allocate(size, align)
    }

    unsafe fn deallocate(&self, ptr: *mut u8, size: usize, align: usize) {
        self.inner.deallocate(ptr, size, align);
    }
}
