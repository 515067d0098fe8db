//! Names that are numbered as they come: each is looked up without a copy of its text.
use quick_cache_unsync::{Cache, LoadError, TextIn};
use std::alloc::Global;
use std::convert::Infallible;

/// The number of a name: the one that it has, or a new one. Only for a new name a text is made, and
/// a name that left the cache is new once more.
pub fn number_of(
    alloc: Global,
    known: &mut Cache<String, u64>,
    name: &str,
) -> Result<u64, LoadError<Infallible>> {
    let new = known.misses();
    known.get_or_load(&TextIn::new(alloc, name), || Ok(new))
}

#[cfg(test)]
mod tests {
    use super::*;
    use test_tools::{expect_eq, expect_ok};

    #[test]
    fn names_are_numbered_as_they_come(rt: HostRuntime) {
        let mut known = expect_ok!(rt; Cache::new(rt.alloc(), 100));
        for (name, number) in [("anna", 0), ("bert", 1), ("anna", 0), ("carl", 2)] {
            expect_eq!(rt; number_of(rt.alloc(), &mut known, name), Ok(number));
        }
        expect_eq!(rt; (known.hits(), known.misses(), known.len()), (1, 3, 3));
        known.clear();
        expect_eq!(rt; number_of(rt.alloc(), &mut known, "anna"), Ok(3));
    }
}
