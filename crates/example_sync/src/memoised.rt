//! A function that is computed once for each number, however many threads ask for it.
use crate::divisors::least_divisor;
use quick_cache::Refusal;
use quick_cache::sync::Cache;
use std::sync::Wait;
use test_tools::expect_eq;

/// The least divisor of a number above 1. One thread computes it; who asks meanwhile waits, and is
/// given what came of it.
pub fn divisor_once<R: Wait>(rt: &R, known: &Cache<u64, u64>, number: u64) -> Result<u64, Refusal> {
    let loaded: Result<u64, ()> = known.get_or_insert_with(
        rt,
        &number,
        || Ok(least_divisor(number)),
    )?;
    Ok(loaded.unwrap_or(number))
}

#[cfg(test)]
mod tests {
    use super::*;
    use std::test::Fail;
    use std::thread::map_indices;

    #[test]
    fn each_number_is_computed_once(rt: HostRuntime) -> Result<(), Fail> {
        let known: Cache<u64, u64> = Cache::new(rt.alloc(), 1000)?;
        let found = map_indices(&rt, rt.alloc(), 4, &|_| divisor_once(&rt, &known, 91))?;
        for divisor in found {
            expect_eq!(rt; divisor, Ok(7));
        }
        expect_eq!(rt; (known.len(&rt), known.misses(&rt)), (1, 1));
        Ok(())
    }
}
