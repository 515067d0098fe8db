//! A store of sessions: each use is counted, and a session ends after so many uses.
use quick_cache::Refusal;
use quick_cache::shard::EntryAction;
use quick_cache::sync::Cache;
use quick_cache::sync_placeholder::EntryResult;
use std::sync::Wait;
use std::time::Clock;
use test_tools::expect_eq;

/// How often a session may be used.
const USES: u64 = 3;

/// Uses a session once, or begins it, all in one step on its shard. It gives how many uses are
/// left; nothing where that was the last one, by which the session leaves the store.
pub fn use_once<R: Wait + Clock>(
    rt: &R,
    sessions: &Cache<u64, u64>,
    id: u64,
) -> Result<Option<u64>, Refusal> {
    let spend = |_id: &u64, left: &mut u64| {
        if *left <= 1 {
            return EntryAction::Remove;
        }
        *left -= 1;
        EntryAction::Retain(*left)
    };
    match sessions.entry(rt, &id, None, spend) {
        EntryResult::Retained(left) => Ok(Some(left)),
        EntryResult::Removed(_, _) => Ok(None),
        EntryResult::Vacant(guard) => {
            let _ = guard.insert(USES);
            Ok(Some(USES))
        }
        EntryResult::Replaced(_, left) => Ok(Some(left)),
        EntryResult::Timeout => Ok(None),
        EntryResult::Refused(refusal) => Err(refusal),
    }
}

#[cfg(test)]
mod tests {
    use super::*;
    use std::test::Fail;

    #[test]
    fn a_session_ends_with_its_last_use(rt: HostRuntime) -> Result<(), Fail> {
        let sessions: Cache<u64, u64> = Cache::new(rt.alloc(), 100)?;
        for left in [Some(3), Some(2), Some(1), None, Some(3)] {
            expect_eq!(rt; use_once(&rt, &sessions, 5), Ok(left));
        }
        Ok(())
    }
}
