//! The hits as a table, in percent of the keys or as counts.

use crate::hits::{Hits, Policy, share};
use std::io::{self, Write};

/// What stands above the column of a cache.
fn heading(policy: Policy) -> &'static str {
    match policy {
        Policy::Best => "best",
        _ => policy.name(),
    }
}

/// Writes what stands above the columns.
fn write_headings<W: Write>(writer: &mut W) -> io::Result<()> {
    write!(writer, "{:>10}", "capacity")?;
    for policy in Policy::ALL {
        write!(writer, " {:>10}", heading(policy))?;
    }
    writeln!(writer)
}

/// Writes the line of a capacity.
fn write_row<W: Write>(writer: &mut W, keys: usize, hits: &Hits) -> io::Result<()> {
    write!(writer, "{:>10}", hits.capacity)?;
    for policy in Policy::ALL {
        let share = share(hits.of(policy), keys);
        write!(writer, " {:>7}.{:02}", share / 100, share % 100)?;
    }
    writeln!(writer)
}

/// Writes a line for each capacity, with the hits of each cache in percent of the keys.
pub fn write_table<W: Write>(writer: &mut W, keys: usize, all: &[Hits]) -> io::Result<()> {
    write_headings(writer)?;
    for hits in all {
        write_row(writer, keys, hits)?;
    }
    Ok(())
}

/// Writes a line for each capacity, with how many hits each cache has.
pub fn write_counts<W: Write>(writer: &mut W, all: &[Hits]) -> io::Result<()> {
    write_headings(writer)?;
    for hits in all {
        write!(writer, "{:>10}", hits.capacity)?;
        for policy in Policy::ALL {
            write!(writer, " {:>10}", hits.of(policy))?;
        }
        writeln!(writer)?;
    }
    Ok(())
}
