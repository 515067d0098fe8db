//! What a walk over a ring, and one over the ghosts, shows.
ghost use Rattle.std.specs.Iterator.{IsFinite};

use quick_cache_shard::{GhostIter, SharedPlaceholder};

/// Whether a walk over a ring shows exactly these keys, each with this mark.
pub fn shows<'a, W: Iterator<Item = (&'a u64, &'a u64, u8)> + Drop>(
    walk: W,
    want: &[(u64, u8)],
) -> bool
    requires { W.can_next walk × IsFinite (W.remaining walk) }
{
    let mut at = 0;
    for (key, _, mark) in walk {
        if at >= want.len() || want[at] != (*key, mark) {
            return false;
        }
        at += 1;
    }
    at == want.len()
}

/// Whether a walk over the ghosts shows exactly these hashes.
pub fn shows_ghosts<P: SharedPlaceholder<u64>>(
    walk: GhostIter<'_, u64, u64, P>,
    want: &[u64],
) -> bool {
    let mut at = 0;
    for hash in walk {
        if at >= want.len() || want[at] != hash {
            return false;
        }
        at += 1;
    }
    at == want.len()
}
