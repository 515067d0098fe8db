//! A function that may fail, remembered: what was computed once is not computed again.
use quick_cache_unsync::{Cache, LoadError};

/// The number is no square.
#[derive(Debug, PartialEq, Drop)]
pub struct NoSquare;

/// The root of a square, by trying each number.
pub fn root_of(square: u64) -> Result<u64, NoSquare> {
    for root in 0..=square {
        if root.checked_mul(root) == Some(square) {
            return Ok(root);
        }
    }
    Err(NoSquare)
}

/// The root of a square, out of the cache where it is known. A number that is no square leaves
/// nothing there, and is tried again the next time.
pub fn remembered_root(
    roots: &mut Cache<u64, u64>,
    square: u64,
) -> Result<u64, LoadError<NoSquare>> {
    roots.get_or_load(&square, || root_of(square))
}

#[cfg(test)]
mod tests {
    use super::*;
    use test_tools::{expect, expect_eq, expect_ok};

    #[test]
    fn a_root_is_computed_once(rt: HostRuntime) {
        let mut roots: Cache<u64, u64> = expect_ok!(rt; Cache::new(rt.alloc(), 100));
        for _ in 0..3 {
            expect_eq!(rt; remembered_root(&mut roots, 49), Ok(7));
        }
        let failed = Err(LoadError::Failed(NoSquare));
        expect_eq!(rt; remembered_root(&mut roots, 50), failed);
        expect_eq!(rt; (roots.hits(), roots.misses(), roots.len()), (2, 2, 1));
    }

    #[test]
    fn a_root_is_answered_where_none_is_kept(rt: HostRuntime) {
        let mut none: Cache<u64, u64> = expect_ok!(rt; Cache::new(rt.alloc(), 0));
        expect_eq!(rt; remembered_root(&mut none, 49), Ok(7));
        expect!(rt; none.is_empty());
    }
}
