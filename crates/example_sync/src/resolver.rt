//! A resolver of names for tasks: one look-up a name, however many tasks ask.
use futures::Future;
use futures::executor::block_on;
use futures::task::{Context, Poll};
use quick_cache::sync::Cache;
use std::alloc::AllocGlobal;
use std::random::RandomSource;
use std::sync::Wait;
use std::sync::atomic::{AtomicU64, Ordering};
use test_tools::expect_eq;

/// A look-up of a name, which is counted. It has asked once it was polled, and has the address when
/// it is polled again.
#[derive(Drop)]
pub struct LookUp<'a> {
    name: &'static str,
    count: &'a AtomicU64,
    has_asked: bool,
}

impl<'a> LookUp<'a> {
    pub fn new(name: &'static str, count: &'a AtomicU64) -> Self {
        LookUp {
            name,
            count,
            has_asked: false,
        }
    }
}

impl Future for LookUp<'_> {
    type Output = Result<u64, ()>;

    fn poll(&mut self, cx: &mut Context<'_>) -> Poll<Result<u64, ()>> {
        if self.has_asked {
            return Poll::Ready(Ok(self.name.len() as u64));
        }
        self.has_asked = true;
        self.count.fetch_add(1, Ordering::SeqCst);
        cx.yield_now()
    }
}

/// The address of a name, for a task that this thread runs. One task looks it up; who asks meanwhile
/// is given what came of it.
pub fn resolve<R: Wait + RandomSource + AllocGlobal>(
    rt: &R,
    known: &Cache<&'static str, u64>,
    name: &'static str,
    count: &AtomicU64,
) -> Option<u64> {
    let resolving = known.get_or_insert_async(rt, &name, LookUp::new(name, count));
    match block_on(rt, resolving) {
        Ok(Ok(Ok(address))) => Some(address),
        Ok(Ok(Err(()))) => None,
        Ok(Err(_)) => None,
        Err(_) => None,
    }
}

#[cfg(test)]
mod tests {
    use super::*;
    use std::test::Fail;

    #[test]
    fn a_name_is_looked_up_once(rt: HostRuntime) -> Result<(), Fail> {
        let known: Cache<&'static str, u64> = Cache::new(rt.alloc(), 1000)?;
        let count = AtomicU64::new(0);
        for _ in 0..4 {
            expect_eq!(&rt; resolve(&rt, &known, "example.org", &count), Some(11));
        }
        expect_eq!(&rt; count.load(Ordering::SeqCst), 1);
        Ok(())
    }
}
