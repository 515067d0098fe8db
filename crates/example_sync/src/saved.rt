//! The items of a shared cache come into another one, as they stand.
use quick_cache::Refusal;
use quick_cache::sync::Cache;
use std::alloc::Global;
use std::sync::Wait;
use test_tools::expect_eq;

/// Puts a copy of each item of the first cache into the second, with its ring, its place and its
/// mark. What other threads put in or take out meanwhile may be among them or not.
pub fn copy<R: Wait>(
    rt: &R,
    alloc: Global,
    from: &Cache<u64, u64>,
    to: &Cache<u64, u64>,
) -> Result<(), Refusal> {
    for item in from.saved(rt, alloc)? {
        if let Err((_, _, Some(refusal))) = to.restore(
            rt, item.key, item.value, item.queue, item.mark,
        ) {
            return Err(refusal);
        }
    }
    Ok(())
}

#[cfg(test)]
mod tests {
    use super::*;
    use quick_cache::Queue;
    use std::test::Fail;

    #[test]
    fn a_cache_stands_as_another_does(rt: HostRuntime) -> Result<(), Fail> {
        let first: Cache<u64, u64> = Cache::new(rt.alloc(), 100)?;
        for key in 0..200 {
            first.put(&rt, key, key * 10)?;
            first.get(&rt, &(key - key % 3))?;
        }
        let second: Cache<u64, u64> = Cache::new(rt.alloc(), 100)?;
        copy(&rt, rt.alloc(), &first, &second)?;
        let wanted = first.saved(&rt, rt.alloc())?;
        let found = second.saved(&rt, rt.alloc())?;
        let (mut hot, mut marked, mut alike) = (0usize, 0usize, 0usize);
        for (one, other) in wanted.iter().zip(&found) {
            let same = (one.key, one.value) == (other.key, other.value)
                && (one.queue, one.mark) == (other.queue, other.mark);
            hot = hot.saturating_add(usize::from(one.queue == Queue::Hot));
            marked = marked.saturating_add(usize::from(one.mark > 0));
            alike = alike.saturating_add(usize::from(same));
        }
        expect_eq!(rt; (alike, found.len()), (first.len(&rt), wanted.len()));
        expect_eq!(rt; (hot > 0, hot < alike, marked > 0), (true, true, true));
        Ok(())
    }
}
