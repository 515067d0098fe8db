//! Who is signed in: a session ends an hour after its visitor was seen last. Threads share the store.
use quick_cache_expiring_sync::{Refusal, SharedExpiring, Text};
use quick_cache_timed::{Ticker, Timed};
use std::alloc::Global;
use std::sync::Wait;
use std::time::Duration;

/// Visitors by the name of their session, and a clock.
pub type SignedIn<T> = Timed<SharedExpiring<String, u64>, T>;

/// A store for so many sessions, each of which ends an hour after it was seen last.
pub fn signed_in<T>(alloc: Global, sessions: usize, ticker: T) -> Result<SignedIn<T>, Refusal>
where
    T: Drop,
{
    let sessions = SharedExpiring::new(alloc, sessions)?;
    Ok(Timed::time_to_idle(sessions, ticker, Duration::from_secs(3600)))
}

/// Whose session it is, which lasts an hour from now on. One that is over stays so.
pub fn seen<T: Ticker, R: Wait>(
    rt: &R,
    store: &SignedIn<T>,
    session: &str,
) -> Result<Option<u64>, Refusal> {
    store.get(rt, &Text(session))
}

#[cfg(test)]
mod tests {
    use super::*;
    use quick_cache_timed::SharedTicker;
    use std::test::Fail;
    use std::thread::map_indices;
    use test_tools::{expect, expect_eq};

    /// A session of each thread, which is seen again where the thread's number is even.
    fn visits<R: Wait>(
        rt: &R,
        alloc: Global,
        store: &SignedIn<&SharedTicker>,
        thread: u64,
    ) -> Option<u64> {
        let name = if thread % 2 == 0 { "anna" } else { "bert" };
        let session = String::from_str(alloc, name).ok()?;
        store.put(rt, session, thread % 2).ok()?;
        seen(rt, store, name).ok()?
    }

    #[test]
    fn sessions_last_while_their_visitors_are_seen(rt: HostRuntime) -> Result<(), Fail> {
        let ticker = SharedTicker::new(0);
        let store = signed_in(rt.alloc(), 4000, &ticker)?;
        let found = map_indices(
            &rt,
            rt.alloc(),
            4,
            &|thread| visits(&rt, rt.alloc(), &store, thread as u64),
        )?;
        expect!(rt; found.as_slice() == [Some(0), Some(1), Some(0), Some(1)].as_slice());
        ticker.advance(Duration::from_secs(1800));
        expect_eq!(rt; seen(&rt, &store, "anna"), Ok(Some(0)));
        // An hour after they were seen last.
        ticker.advance(Duration::from_secs(1800));
        expect_eq!(rt; seen(&rt, &store, "bert"), Ok(None));
        expect_eq!(rt; (store.purge(&rt), store.len(&rt)), (0, 1));
        expect_eq!(rt; seen(&rt, &store, "anna"), Ok(Some(0)));
        ticker.advance(Duration::from_secs(3600));
        expect_eq!(rt; (store.purge(&rt), store.len(&rt)), (1, 0));
        Ok(())
    }
}
