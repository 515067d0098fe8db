//! A list of calls, made in turn.
use quick_cache_runs::{Call, Reply, run};
use quick_cache_unsync::Cache;
use std::alloc::{AllocError, Global};

/// Five calls of a cache for five items, and their replies.
pub fn replies(alloc: Global) -> Result<Vec<Reply<u64, u64>>, AllocError> {
    let mut cache = Cache::new(alloc, 5).map_err(|_| AllocError)?;
    let calls = vec![in alloc;
        Call::Insert(1, 10),
        Call::Get(1),
        Call::Load(2, Some(20)),
        Call::Retain(|_: &u64, value: &u64| *value > 10),
        Call::Remove(1),
    ]?;
    run(alloc, &mut cache, calls, &mut ()).map_err(|_| AllocError)
}

#[cfg(test)]
mod tests {
    use super::*;
    use test_tools::{expect_eq, expect_ok};

    #[test]
    fn each_call_has_its_reply(rt: HostRuntime) {
        let replies = expect_ok!(rt; replies(rt.alloc()));
        let wanted = [
            Reply::Done,
            Reply::Value(Some(10)),
            Reply::Loaded(true),
            Reply::Done,
            Reply::Pair(None),
        ];
        expect_eq!(rt; replies.as_slice(), wanted.as_slice());
    }
}
