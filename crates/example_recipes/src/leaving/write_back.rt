//! A block store that writes back: what was written in memory goes to the disk where it leaves.
use quick_cache_listeners::{ByBytes, Collect, Collected, OnLeave, Owed, Owing, PinHeld};
use quick_cache_sync::Cache;
use quick_cache_unsync::{DefaultHashBuilder, Refusal};
use std::alloc::Global;
use std::collections::BTreeMap;
use std::io;
use std::sync::{Arc, Mutex, Wait};

/// What a block has, and whether it is dirty: the disk has something else, or nothing. While
/// somebody holds a handle beside the cache's, the block stays in memory.
pub type Block = Arc<(Vec<u8>, bool)>;

/// What was written, by the numbers of the blocks.
type Disk = BTreeMap<u64, Vec<u8>>;

/// Blocks in memory by their numbers, above those on a disk. What comes in comes under the lock of
/// the disk, and the dirty blocks that leave for it are written before the lock is let go. So who
/// does not find a block in memory finds it on the disk as it was when it left.
///
/// What leaves is owed: a call that would forget it, as `insert`, does not compile.
#[derive(Drop)]
pub struct Blockstore {
    alloc: Global,
    blocks: Cache<u64, Block, ByBytes, DefaultHashBuilder, PinHeld<OnLeave<Owing<Collect>>>>,
    disk: Mutex<Disk>,
}

impl Blockstore {
    /// A store that keeps blocks of so many bytes in memory, with 80 more for each.
    pub fn new(alloc: Global, bytes: u64) -> io::Result<Self> {
        let (by, pins) = (ByBytes::with_overhead(80), PinHeld(OnLeave(Owing(Collect))));
        Ok(Blockstore {
            alloc,
            blocks: Cache::with(alloc, 100, bytes, by, DefaultHashBuilder::new(), pins)?,
            disk: Mutex::new(BTreeMap::new(alloc)),
        })
    }

    /// The block of this number, from memory or from the disk.
    pub fn read<R: Wait>(&self, rt: &R, number: u64) -> io::Result<Option<Block>> {
        if let Some(block) = self.blocks.get(rt, &number)? {
            return Ok(Some(block));
        }
        let mut disk = self.disk.lock(rt);
        // Another thread may have brought it here before this one had the lock.
        let block = match (self.blocks.peek(rt, &number)?, disk.get(&number)) {
            (None, Some(data)) => Arc::new(self.alloc, (data.clone()?, false))?,
            (found, _) => return Ok(found),
        };
        self.bring(rt, &mut disk, number, block.clone()?)?;
        Ok(Some(block))
    }

    /// Writes a block, in memory alone as long as it does not leave.
    pub fn write<R: Wait>(&self, rt: &R, number: u64, data: Vec<u8>) -> io::Result<()> {
        let block = Arc::new(self.alloc, (data, true))?;
        self.bring(rt, &mut *self.disk.lock(rt), number, block)
    }

    /// Takes all blocks out of memory, and writes those that are dirty.
    pub fn close<R: Wait>(&self, rt: &R) -> io::Result<()> {
        let mut disk = self.disk.lock(rt);
        let mut blocks = self.blocks.drain(rt);
        blocks.try_for_each(|(number, block)| save(&mut disk, number, &block))
    }

    // Takes a block into memory, and saves what leaves for it, by whatever cause: victims, an older
    // block of the number, or the block itself, where it is too heavy.
    fn bring(&self, rt: &impl Wait, disk: &mut Disk, key: u64, block: Block) -> io::Result<()> {
        let mut left = Owed(Collected::with(Vec::new(self.alloc)));
        let brought = self.blocks.insert_with_lifecycle(rt, key, block, &mut left);
        let Owed(left) = left;
        let mut is_whole = brought.is_ok() && left.lost() == 0;
        left.each(|number, block| is_whole &= save(disk, number, &block).is_ok());
        Ok(is_whole.then_some(()).ok_or(Refusal::Memory)?)
    }
}

// Writes a block to the disk, where it is dirty.
fn save(disk: &mut Disk, number: u64, block: &Block) -> io::Result<()> {
    if block.1 {
        disk.insert(number, block.0.clone()?)?;
    }
    Ok(())
}

#[cfg(test)]
mod tests {
    use super::*;
    use std::thread::map_indices;
    use test_tools::{expect_eq, expect_ok};

    /// The data of a block that was written at this turn.
    fn data(alloc: Global, turn: u8) -> io::Result<Vec<u8>> {
        let mut data = Vec::new(alloc);
        for _ in 0..40u8 {
            data.push(0u8)?;
        }
        data.push(turn)?;
        Ok(data)
    }

    /// Which turn wrote the block of this number last, by its data.
    fn turn_of<R: Wait>(rt: &R, store: &Blockstore, number: u64) -> io::Result<Option<u8>> {
        match store.read(rt, number)? {
            Some(block) => Ok(block.0.last().copied()),
            None => Ok(None),
        }
    }

    /// A thread writes ten blocks of its own a hundred times, and tells how often it then read what
    /// it had written, a block that it holds among them.
    fn use_ten<R: Wait>(rt: &R, store: &Blockstore, thread: u64) -> io::Result<u64> {
        let mut right = 0u64;
        let first = thread.wrapping_mul(10);
        for turn in 0..100u8 {
            let number = first.wrapping_add(u64::from(turn % 10));
            let older = first.wrapping_add(u64::from(turn.wrapping_add(1) % 10));
            store.write(rt, number, data(store.alloc, turn)?)?;
            let held = store.read(rt, number)?;
            let is_older = turn_of(rt, store, older)? == turn.checked_sub(9);
            let is_own = turn_of(rt, store, number)? == Some(turn);
            if is_older && is_own && held.is_some() {
                right = right.saturating_add(1);
            }
        }
        Ok(right)
    }

    #[test]
    fn eight_threads_lose_nothing_that_is_dirty(rt: HostRuntime) {
        let store = expect_ok!(rt; Blockstore::new(rt.alloc(), 2000));
        let used = expect_ok!(rt;
            map_indices(&rt, rt.alloc(), 8, &|thread| use_ten(&rt, &store, thread as u64)));
        for right in used {
            expect_eq!(rt; expect_ok!(rt; right), 100);
        }
        expect_ok!(rt; store.close(&rt));
        let disk = store.disk.lock(&rt);
        expect_eq!(rt; disk.len(), 80);
        for (number, data) in disk.iter() {
            let turn = 90u8.wrapping_add((number % 10) as u8);
            expect_eq!(rt; data.last().copied(), Some(turn));
        }
    }

    #[test]
    fn a_block_heavier_than_the_cache_goes_to_the_disk(rt: HostRuntime) {
        let store = expect_ok!(rt; Blockstore::new(rt.alloc(), 100));
        expect_ok!(rt; store.write(&rt, 1, expect_ok!(rt; data(rt.alloc(), 3))));
        expect_eq!(rt; store.blocks.len(&rt), 0);
        expect_eq!(rt; expect_ok!(rt; turn_of(&rt, &store, 1)), Some(3));
    }
}
