//! What is written.

use qcsim_parts::{Hits, write_chart, write_counts, write_table};
use std::test::Fail;
use test_tools::expect;

/// Hits of a capacity of 3, of 8 keys.
const HITS: Hits = Hits {
    capacity: 3,
    cache: 4,
    lru: 3,
    fifo: 3,
    clock: 3,
    s3_fifo: 3,
    tiny_lfu: 3,
    arc: 3,
    best: 5,
};

#[test]
fn hits_are_listed(rt: HostRuntime) -> Result<(), Fail> {
    let mut table = Vec::new(rt.alloc());
    write_table(&mut table, 8, &[HITS])?;
    let wanted =
        b"  capacity this cache        LRU       FIFO      CLOCK    S3-FIFO  W-TinyLFU        ARC       best\n         3      50.00      37.50      37.50      37.50      37.50      37.50      37.50      62.50\n";
    expect!(rt; table.as_slice() == wanted.as_slice());
    let mut counts = Vec::new(rt.alloc());
    write_counts(&mut counts, &[HITS])?;
    let wanted =
        b"         3          4          3          3          3          3          3          3          5\n";
    expect!(rt; counts.ends_with(wanted));
    Ok(())
}

#[test]
fn hits_are_drawn(rt: HostRuntime) -> Result<(), Fail> {
    let mut chart = Vec::new(rt.alloc());
    write_chart(&mut chart, "a < b & c", 8, &[HITS])?;
    let chart = String::from_utf8(chart)?;
    expect!(rt; chart.starts_with("<svg ") && chart.ends_with("</svg>\n"));
    let parts = [
        "<title>a &lt; b &amp; c</title>",
        "<title>this cache, 3: 50.00</title>",
        "<title>best possible, 3: 62.50</title>",
        ">100</text>",
    ];
    for part in parts {
        assert!(rt; chart.contains(part), "{part}");
    }
    Ok(())
}
