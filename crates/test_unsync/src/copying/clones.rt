//! A call that shows a value makes one clone of it.
ghost use Rattle.std.specs.Prelude.{⊤};

use quick_cache_runs::{Call, Reply, run};
use quick_cache_unsync::Cache;
use std::alloc::AllocError;
use std::cell::Cell;
use test_tools::{expect, expect_eq, expect_ok};

/// A value that can be cloned as often as is left.
#[derive(Drop)]
struct Scarce<'a> {
    left: &'a Cell<u64>,
}

impl Clone for Scarce<'_> {
    ghost is_clone = { λ _ _. ⊤ };

    fn clone(&self) -> Result<Self, AllocError> {
        let Some(left) = self.left.get().checked_sub(1) else {
            return Err(AllocError);
        };
        self.left.set(left);
        Ok(Scarce { left: self.left })
    }
}

#[test]
fn a_call_makes_one_clone_of_what_it_shows(rt: HostRuntime) {
    let alloc = rt.alloc();
    let left = Cell::new(7);
    let mut cache: Cache<u64, Scarce<'_>> = expect_ok!(rt; Cache::new(alloc, 2));
    expect!(rt; cache.insert(1, Scarce { left: &left }).is_ok());
    let calls = expect_ok!(rt; vec![in alloc;
        Call::Get(1),
        Call::Peek(1),
        Call::Load(1, None),
        Call::LoadMut(1, None, Scarce { left: &left }),
        Call::Guarded(1, None),
        Call::GuardedMut(1, None, Scarce { left: &left }),
        Call::Iter,
        Call::Retain(|_: &u64, _: &Scarce<'_>| true),
    ]);
    let replies = run(alloc, &mut cache, calls, &mut ()).ok();
    let replies = replies.expect(&rt, "there is memory");
    expect!(rt;
        !replies
            .iter()
            .any(|reply| matches!(reply, Reply::Refused(_)))
    );
    expect_eq!(rt; (replies.len(), left.get()), (8, 0));
}
