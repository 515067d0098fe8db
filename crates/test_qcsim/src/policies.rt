//! What each policy has of traces that were worked by hand, that are known, or that were run through
//! models of the policies which stand outside this project.

use qcsim_parts::line::Asked;
use qcsim_parts::trace::Trace;
use qcsim_parts::{
    arc_hits, best_hits, clock_hits, fifo_hits, lru_hits, s3_fifo_hits, tiny_lfu_hits,
};
use std::alloc::{AllocError, Global};
use std::test::Fail;
use test_tools::{expect, expect_eq};

/// The hits of all policies: LRU, FIFO, CLOCK, S3-FIFO, W-TinyLFU, ARC and the best possible.
fn all_hits(alloc: Global, trace: &Trace, capacity: u64) -> Result<[u64; 7], AllocError> {
    Ok([
        lru_hits(alloc, trace, capacity)?,
        fifo_hits(alloc, trace, capacity)?,
        clock_hits(alloc, trace, capacity)?,
        s3_fifo_hits(alloc, trace, capacity)?,
        tiny_lfu_hits(alloc, trace, capacity)?,
        arc_hits(alloc, trace, capacity)?,
        best_hits(alloc, trace, capacity)?,
    ])
}

/// A trace of these keys, each of the weight that the key tells, or of none.
fn trace_of(alloc: Global, keys: &[u64], weighted: bool) -> Result<Trace, AllocError> {
    let mut trace = Trace::new(alloc);
    for key in keys {
        let asked = Asked {
            first: *key,
            count: 1,
            weight: if weighted { (*key % 5) as u32 + 1 } else { 1 },
        };
        trace.add(asked, weighted)?;
    }
    Ok(trace)
}

// Two strings of references from the textbooks. The first: of three places LRU has 8 hits and FIFO 5
// (A. Silberschatz, P. B. Galvin and G. Gagne, "Operating system concepts"); the best is one more than
// the 11 of a cache that has to put each key in. The second: FIFO has less hits of four places than
// of three (L. A. Belady, R. A. Nelson and G. S. Shedler, "An anomaly in space-time characteristics of
// certain programs running in a paging machine", 1969), LRU 2 and 4, and the best are 5 and 6.
//
// The third, by hand. CLOCK: 1 is passed over when 3 comes, and 2 goes. S3-FIFO: 1 was used once, which
// is too little, and goes. The fourth: ARC brings 2 back from the names of what was asked for once,
// and 1 from those of what was asked for again, and both keys that stay meanwhile are hits. The
// fifth: W-TinyLFU turns 3 and 4 away, until 3 was asked for more often than 1 was.
#[test]
fn textbooks_and_hands_agree(rt: HostRuntime) -> Result<(), Fail> {
    let rows: [(&[u64], u64, [u64; 7]); 6] = [
        (
            &[7, 0, 1, 2, 0, 3, 0, 4, 2, 3, 0, 3, 2, 1, 2, 0, 1, 7, 0, 1],
            3,
            [8, 5, 9, 6, 9, 7, 12],
        ),
        (
            &[1, 2, 3, 4, 1, 2, 5, 1, 2, 3, 4, 5],
            3,
            [2, 3, 2, 2, 4, 2, 5],
        ),
        (
            &[1, 2, 3, 4, 1, 2, 5, 1, 2, 3, 4, 5],
            4,
            [4, 2, 4, 2, 5, 5, 6],
        ),
        (&[1, 2, 1, 3, 2], 2, [1, 2, 1, 2, 1, 1, 2]),
        (&[1, 1, 2, 3, 1, 2, 3, 1, 3], 2, [2, 2, 3, 2, 4, 4, 5]),
        (&[1, 2, 3, 4, 3, 5, 3], 3, [2, 2, 2, 2, 1, 2, 2]),
    ];
    for (at, (keys, capacity, wanted)) in rows.into_iter().enumerate() {
        let trace = trace_of(rt.alloc(), keys, false)?;
        let found = all_hits(rt.alloc(), &trace, capacity)?;
        expect_eq!(rt; (at, found), (at, wanted));
    }
    Ok(())
}

/// A number below a bound, drawn by Lehmer's generator.
fn drawn(state: &mut u64, bound: u64) -> u64 {
    *state = state.wrapping_mul(16807) % 2147483647;
    *state % bound.max(1)
}

/// Three thousand keys below 50, the lower ones more often.
fn drawn_keys(alloc: Global) -> Result<Vec<u64>, AllocError> {
    let mut state = 20240229;
    let mut keys = Vec::new(alloc);
    for _ in 0..3000 {
        let one = drawn(&mut state, 50);
        let other = drawn(&mut state, 50);
        keys.push(one.wrapping_mul(other) / 50)?;
    }
    Ok(keys)
}

#[test]
fn models_of_the_policies_agree(rt: HostRuntime) -> Result<(), Fail> {
    let rows: [(bool, u64, [u64; 7]); 10] = [
        (false, 1, [117, 117, 117, 117, 117, 117, 531]),
        (false, 2, [264, 259, 268, 192, 332, 325, 854]),
        (false, 5, [599, 577, 630, 828, 835, 700, 1435]),
        (false, 10, [1143, 1089, 1168, 1403, 1489, 1216, 2008]),
        (false, 20, [2037, 1871, 2033, 2166, 2254, 2069, 2557]),
        (false, 40, [2895, 2798, 2889, 2899, 2907, 2901, 2936]),
        (true, 4, [204, 204, 203, 205, 340, 224, 1058]),
        (true, 15, [635, 609, 641, 899, 997, 748, 1801]),
        (true, 30, [1176, 1091, 1203, 1425, 1584, 1279, 2258]),
        (true, 60, [2063, 1880, 2067, 2206, 2316, 2074, 2698]),
    ];
    let keys = drawn_keys(rt.alloc())?;
    for (weighted, capacity, wanted) in rows {
        let trace = trace_of(rt.alloc(), &keys, weighted)?;
        let found = all_hits(rt.alloc(), &trace, capacity)?;
        expect_eq!(rt; (weighted, capacity, found), (weighted, capacity, wanted));
    }
    Ok(())
}

/// What was read twice, a scan of a thousand fresh keys, and the first ones again.
fn scan(alloc: Global) -> Result<Trace, AllocError> {
    let mut trace = Trace::new(alloc);
    for (first, count) in [(1000, 97), (1000, 97), (2000, 1000), (1000, 97)] {
        let asked = Asked {
            first,
            count,
            weight: 1,
        };
        trace.add(asked, false)?;
    }
    Ok(trace)
}

// Each of the 97 is the second read of a hot key before the scan. Of LRU, FIFO, CLOCK and S3-FIFO,
// which asks for two more uses, none comes behind it; ARC has all the 97 then, and W-TinyLFU those of
// its protected segment and some more.
#[test]
fn a_scan_takes_every_hot_key_from_a_plain_list(rt: HostRuntime) -> Result<(), Fail> {
    let trace = scan(rt.alloc())?;
    let found = all_hits(rt.alloc(), &trace, 100)?;
    expect!(rt; found == [97, 97, 97, 97, 183, 194, 194]);
    Ok(())
}
