//! Prints what became of a command.
ghost use Rattle.std.specs.Prelude.{◌++◌, OnOk, codes};
ghost use Rattle.std.specs.Io.KnownBytes.{Appends};
ghost use Rattle.qcrun_parts.specs.Printed.{counts_text, event_lines, events_text, ghosts_text, items_text, line_of, outcome_text};
ghost use Rattle.qcrun_parts.specs.Printed.{pairs_text, rings_text, shown_text};

use crate::events::{Event, Events};
use crate::numbers::NumberCache;
use crate::serving::session::{Outcome, Session};
use quick_cache_shard::{GhostIter, RingIter};
use quick_cache_unsync::Placeholder;
use std::alloc::Allocator;
use std::io::{self, Write};

/// Prints what became of a command.
///
/// # Errors
///
/// A write that failed.
pub fn print<A: Allocator + Copy, W: Write>(
    outcome: &Outcome<A>,
    session: &Session<A>,
    writer: &mut W,
) -> io::Result<()>
    ensures { OnOk result (Appends (W.contents writer.old) (W.contents writer.new)
        (outcome_text outcome.now session.now.cache)) }
{
    match (outcome, session.cache()) {
        (Outcome::Answered(events, answer), _) => {
            print_events(events, writer)?;
            writeln!(writer, "{answer}")
        }
        (Outcome::Shows(still), Some(cache)) => show(cache, still, writer),
        (Outcome::Shows(_), None) | (Outcome::NoCache, _) => Ok(()),
    }
}

/// Prints the events of a command, or that they are lost.
fn print_events<A: Allocator, W: Write>(events: &Events<A>, writer: &mut W) -> io::Result<()>
    ensures { OnOk result (Appends (W.contents writer.old) (W.contents writer.new)
        (events_text events.now)) }
{
    match events {
        Some(events) => print_each(events, writer),
        None => writeln!(writer, "events lost"),
    }
}

/// Prints each event in a line of its own.
fn print_each<W: Write>(events: &[Event], writer: &mut W) -> io::Result<()>
    ensures { OnOk result (Appends (W.contents writer.old) (W.contents writer.new)
        (event_lines events.now)) }
{
    for event in events {
        writeln!(writer, "{event}")?;
    }
    Ok(())
}

/// Prints what a cache holds: the rings from the head, the ghosts from the oldest, the items of
/// weight 0, and the counts.
fn show<A: Allocator, W: Write>(
    cache: &NumberCache<A>,
    still: &[(u64, u64)],
    writer: &mut W,
) -> io::Result<()>
    ensures { OnOk result (Appends (W.contents writer.old) (W.contents writer.new)
        (shown_text cache.now.state still.now)) }
{
    print_rings(cache, writer)?;
    print_ghosts(cache.shard().iter_ghosts(), writer)?;
    print_still(still, writer)?;
    print_counts(cache, writer)
}

/// Prints the lines of both rings.
fn print_rings<A: Allocator, W: Write>(cache: &NumberCache<A>, writer: &mut W) -> io::Result<()>
    ensures { OnOk result (Appends (W.contents writer.old) (W.contents writer.new)
        (rings_text cache.now.state)) }
{
    let shard = cache.shard();
    print_ring("hot", shard.iter_hot(), writer)?;
    print_ring("cold", shard.iter_cold(), writer)
}

/// Prints the line of the counts: how many items there are, their weight, the hot target and the
/// ghost limit.
fn print_counts<A: Allocator, W: Write>(cache: &NumberCache<A>, writer: &mut W) -> io::Result<()>
    ensures { OnOk result (Appends (W.contents writer.old) (W.contents writer.new)
        (line_of (counts_text cache.now.state))) }
{
    let shard = cache.shard();
    let (len, weight) = (shard.len(), shard.weight());
    let (target, limit) = (shard.hot_target(), shard.ghost_limit());
    writeln!(writer, "count {len} {weight} {target} {limit}")
}

/// Prints the line of a ring: its name and its items.
fn print_ring<A: Allocator, W: Write>(
    name: &str,
    items: RingIter<'_, u64, u64, Placeholder, A>,
    writer: &mut W,
) -> io::Result<()>
    ensures { OnOk result (Appends (W.contents writer.old) (W.contents writer.new)
        (line_of (name.now ++ items_text items.entry))) }
{
    write!(writer, "{name}")?;
    print_items(items, writer)?;
    writeln!(writer)
}

/// Prints the line of the ghosts.
fn print_ghosts<A: Allocator, W: Write>(
    hashes: GhostIter<'_, u64, u64, Placeholder, A>,
    writer: &mut W,
) -> io::Result<()>
    ensures { OnOk result (Appends (W.contents writer.old) (W.contents writer.new)
        (line_of (codes "ghosts" ++ ghosts_text hashes.entry))) }
{
    write!(writer, "ghosts")?;
    print_hashes(hashes, writer)?;
    writeln!(writer)
}

/// Prints the line of the items of weight 0.
fn print_still<W: Write>(still: &[(u64, u64)], writer: &mut W) -> io::Result<()>
    ensures { OnOk result (Appends (W.contents writer.old) (W.contents writer.new)
        (line_of (codes "still" ++ pairs_text still.now))) }
{
    write!(writer, "still")?;
    print_pairs(still, writer)?;
    writeln!(writer)
}

/// Prints pairs.
fn print_pairs<W: Write>(pairs: &[(u64, u64)], writer: &mut W) -> io::Result<()>
    ensures { OnOk result (Appends (W.contents writer.old) (W.contents writer.new)
        (pairs_text pairs.now)) }
{
    for (key, value) in pairs {
        write!(writer, " {key}:{value}")?;
    }
    Ok(())
}

/// Prints the items of a ring.
fn print_items<A: Allocator, W: Write>(
    items: RingIter<'_, u64, u64, Placeholder, A>,
    writer: &mut W,
) -> io::Result<()>
    ensures { OnOk result (Appends (W.contents writer.old) (W.contents writer.new)
        (items_text items.entry)) }
{
    for (key, value, mark) in items {
        write!(writer, " {key}:{value}:{mark}")?;
    }
    Ok(())
}

/// Prints hashes.
fn print_hashes<A: Allocator, W: Write>(
    hashes: GhostIter<'_, u64, u64, Placeholder, A>,
    writer: &mut W,
) -> io::Result<()>
    ensures { OnOk result (Appends (W.contents writer.old) (W.contents writer.new)
        (ghosts_text hashes.entry)) }
{
    for hash in hashes {
        write!(writer, " {hash}")?;
    }
    Ok(())
}
