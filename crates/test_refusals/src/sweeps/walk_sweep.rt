//! Each request for memory of a walk refused in turn, while items come and go beside it.
use crate::sweeps::slip::{ByDigits, ByHundreds, Slip};
use crate::sweeps::stage::{AMPLE, SlipWalk, Slips, next_shown};
use quick_cache_model::Refusal;
use quick_cache_sync::Cache;
use std::alloc::Global;
use std::sync::Wait;
use test_parts::thousand::Thousand;
use test_tools::{Rationed, expect, expect_eq};

/// The key of a walk's next pair. A step that was refused is made again with ample memory.
fn next_key<R: Wait>(walk: &mut SlipWalk<'_, '_, R>, ration: &Rationed<Global>) -> Option<u64> {
    match next_shown(walk)? {
        Ok(shown) => Some(shown[0]),
        Err(_) => {
            ration.allow(AMPLE);
            match next_shown(walk)? {
                Ok(shown) => Some(shown[0]),
                Err(_) => None,
            }
        }
    }
}

/// The two of the keys 1 to 3 that are not this one.
fn others_than(key: Option<u64>) -> (u64, u64) {
    match key {
        Some(1) => (2, 3),
        Some(2) => (1, 3),
        _ => (1, 2),
    }
}

/// Whether a walk over three items shows what it should, with memory for so many blocks up to its
/// first refusal, where one item goes behind its first step and another one comes.
fn walks_on<R: Wait>(rt: &R, ration: &Rationed<Global>, blocks: u64) -> Result<bool, Refusal> {
    ration.allow(AMPLE);
    let cache: Slips<'_> = Cache::with(ration, 8, 8, ByDigits, Thousand, ByHundreds)?;
    for key in 1..4 {
        drop(cache.insert(rt, Slip::new(ration, key), Slip::new(ration, 401)));
    }
    ration.allow(blocks);
    let mut walk = cache.iter(rt);
    let (gone, stays) = others_than(next_key(&mut walk, ration));
    drop(cache.remove(rt, &Slip::new(ration, gone)));
    if let Err((key, value, _)) = cache.insert(rt, Slip::new(ration, 9), Slip::new(ration, 401)) {
        ration.allow(AMPLE);
        drop(cache.insert(rt, key, value));
    }
    let second = next_key(&mut walk, ration);
    let third = next_key(&mut walk, ration);
    let rest = [second, third, next_key(&mut walk, ration)];
    let (stays, comes) = (Some(stays), Some(9));
    Ok(rest == [stays, None, None] || rest == [stays, comes, None] || rest == [comes, stays, None])
}

#[test]
fn a_walk_goes_on_where_a_clone_was_refused(rt: HostRuntime) {
    let ration = Rationed::new(rt.alloc(), AMPLE);
    for blocks in 0..AMPLE {
        expect_eq!(rt; walks_on(&rt, &ration, blocks), Ok(true));
        // It was given more memory where it was refused some.
        if ration.left() <= blocks {
            expect!(rt; blocks > 0);
            break;
        }
    }
}
