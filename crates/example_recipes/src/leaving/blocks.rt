//! A block cache: a block that someone still holds is pinned, and stays.
use quick_cache_listeners::PinHeld;
use quick_cache_unsync::{Cache, DefaultHashBuilder, DefaultLifecycle, Refusal, UnitWeighter};
use std::alloc::Global;
use std::rc::Rc;

/// The bytes of a block.
pub type Block = [u8; 16];

/// Pins each block to which a handle is out beside the cache's own.
pub type InUse = PinHeld<DefaultLifecycle<u64, Rc<Block>>>;

/// Blocks by their numbers.
pub type Blocks = Cache<u64, Rc<Block>, UnitWeighter, DefaultHashBuilder, InUse>;

/// A cache for so many blocks. Those in use may be more.
pub fn blocks(alloc: Global, count: usize) -> Result<Blocks, Refusal> {
    Cache::with(
        alloc,
        count,
        count as u64,
        UnitWeighter,
        DefaultHashBuilder::new(),
        PinHeld(DefaultLifecycle::new()),
    )
}

/// A handle to the block of this number, which pins it as long as it is held.
///
/// # Errors
///
/// `Memory` where the handle is refused.
pub fn hold(blocks: &mut Blocks, number: u64) -> Result<Option<Rc<Block>>, Refusal> {
    match blocks.get(&number) {
        None => Ok(None),
        Some(block) => match block.clone() {
            Ok(handle) => Ok(Some(handle)),
            Err(_) => Err(Refusal::Memory),
        },
    }
}

#[cfg(test)]
mod tests {
    use super::*;
    use std::ops::Range;
    use std::process::Abort;
    use test_tools::{expect, expect_eq, expect_ok};

    /// Reads a block in.
    fn read_in(rt: &impl Abort, alloc: Global, cache: &mut Blocks, number: u64) {
        let block = expect_ok!(rt; Rc::new(alloc, Block::default()));
        expect_eq!(rt; cache.put(number, block), Ok(()));
    }

    /// Reads other blocks in, and looks each up.
    fn use_others(rt: &impl Abort, alloc: Global, cache: &mut Blocks, numbers: Range<u64>) {
        for number in numbers {
            read_in(rt, alloc, cache, number);
            cache.get(&number);
        }
    }

    #[test]
    fn a_block_in_use_stays(rt: HostRuntime) {
        let mut cache = expect_ok!(rt; blocks(rt.alloc(), 2));
        for number in [1, 2] {
            read_in(&rt, rt.alloc(), &mut cache, number);
        }
        let held = expect_ok!(rt; hold(&mut cache, 2));
        use_others(&rt, rt.alloc(), &mut cache, 3..10);
        expect!(rt; cache.contains_key(&2));
        expect!(rt; held.is_some());
        drop(held);
        use_others(&rt, rt.alloc(), &mut cache, 10..20);
        expect_eq!(rt; (cache.contains_key(&2), cache.len()), (false, 2));
    }
}
