//! Counts of what left a cache, by its cause and with its weight.
use quick_cache_listeners::{
    ByLength, Cause, Counted, Counts, Ignore, OnLeave, Request, TellsTaken,
};
use quick_cache_unsync::{Cache, DefaultHashBuilder, Refusal};
use std::alloc::Global;

/// Counts what leaves, by the length of its text, and does nothing else.
const COUNTED: Counted<ByLength, OnLeave<Ignore>> = Counted(ByLength, OnLeave(Ignore));

/// Writes these texts into a cache for so many bytes, takes out what is there in the end, and counts
/// all that left.
pub fn write_and_count(
    alloc: Global,
    bytes: u64,
    texts: &[(u64, &'static str)],
) -> Result<Request<Counts<()>>, Refusal> {
    let mut cache = Cache::with(
        alloc,
        10,
        bytes,
        ByLength,
        DefaultHashBuilder::new(),
        COUNTED,
    )?;
    let mut told = Request::default();
    for (key, text) in texts {
        told.begin();
        if let Err((_, _, refusal)) = cache.insert_with_lifecycle(*key, *text, &mut told) {
            return Err(refusal);
        }
    }
    COUNTED.tell_each_taken(&mut told, cache.drain(), Cause::Cleared);
    Ok(told)
}

#[cfg(test)]
mod tests {
    use super::*;
    use test_tools::{expect_eq, expect_ok};

    #[test]
    fn what_leaves_is_counted_by_its_cause(rt: HostRuntime) {
        let list = [
            (1, "four"),
            (2, "five!"),
            (1, "six"),
            (3, "nine"),
            (4, "much too long"),
        ];
        let told = expect_ok!(rt; write_and_count(rt.alloc(), 10, &list));
        // The first text of key 1 was replaced, one text made room for the fourth, and the last was
        // too heavy: nothing stood under its key, so it is told as a cold victim.
        for (cause, pairs, weight) in [
            (Cause::Replaced, 1, 4),
            (Cause::TurnedAway, 0, 0),
            (Cause::EvictedHot, 1, 5),
            (Cause::EvictedCold, 1, 13),
            (Cause::Cleared, 2, 7),
        ] {
            let tally = told.state.tallies.of(cause);
            expect_eq!(rt; (tally.pairs, tally.weight), (pairs, weight));
        }
    }
}
