//! The lines of a chart, what they stand for, and the figures at them.

use crate::chart::scale::{Scale, TOP};
use crate::hits::{Hits, Policy, share};
use std::io::{self, Write};

/// How the caches look, by their places in `Policy::ALL`: a colour, a thickness, and the strokes and
/// gaps of the line. Of two lines that meet, each shows in the gaps of the other.
const STYLE: &[u8] = b"<style>
polyline{fill:none;stroke-width:18}
.p0{stroke:#c0392b;stroke-width:30}
.p1{stroke:#2c6fbb;stroke-dasharray:150 50}
.p2{stroke:#7a7a7a;stroke-dasharray:50 50}
.p3{stroke:#8e6bbf;stroke-dasharray:100 100}
.p4{stroke:#1e8449;stroke-dasharray:200 40}
.p5{stroke:#d68910;stroke-dasharray:120 40 30 40}
.p6{stroke:#0e9aa7;stroke-dasharray:60 30}
.p7{stroke:#111;stroke-dasharray:25 60}
circle{stroke-width:50!important;stroke-dasharray:none!important;fill:none}
.figure{font-size:105px;text-anchor:middle}
</style>
";

/// Writes how the lines look.
pub fn write_style<W: Write>(writer: &mut W) -> io::Result<()> {
    writer.write_all(STYLE)
}

/// Where a point stands, from the left and from above. Each cache is a little to the right of the
/// one before, so that points of the same share do not hide each other.
fn point(scale: &Scale, hits: &Hits, policy: Policy, index: usize) -> (u64, u64) {
    let across = scale.across(hits.capacity).saturating_sub(105);
    let beside = (index as u64).saturating_mul(30);
    let down = scale.down(share(hits.of(policy), scale.keys));
    (across.saturating_add(beside), down)
}

/// Writes a share, in percent.
fn write_share<W: Write>(writer: &mut W, share: u64) -> io::Result<()> {
    write!(writer, "{}.{:02}", share / 100, share % 100)
}

/// Writes the dots of a cache. Each tells what it stands for where it is pointed at.
fn write_dots<W: Write>(
    writer: &mut W,
    scale: &Scale,
    all: &[Hits],
    policy: Policy,
    index: usize,
) -> io::Result<()> {
    for hits in all {
        let (across, down) = point(scale, hits, policy, index);
        write!(
            writer,
            "<circle class=\"p{index}\" cx=\"{across}\" cy=\"{down}\" r=\"8\"><title>"
        )?;
        write!(writer, "{}, {}: ", policy.name(), hits.capacity)?;
        write_share(writer, share(hits.of(policy), scale.keys))?;
        writeln!(writer, "</title></circle>")?;
    }
    Ok(())
}

/// Writes the line of one cache, with a dot at each capacity.
pub fn write_line<W: Write>(
    writer: &mut W,
    scale: &Scale,
    all: &[Hits],
    policy: Policy,
    index: usize,
) -> io::Result<()> {
    write!(writer, "<polyline class=\"p{index}\" points=\"")?;
    for hits in all {
        let (across, down) = point(scale, hits, policy, index);
        write!(writer, "{across},{down} ")?;
    }
    writeln!(writer, "\"/>")?;
    write_dots(writer, scale, all, policy, index)
}

/// Writes what a line stands for, beside the field.
pub fn write_legend<W: Write>(writer: &mut W, policy: Policy, index: usize) -> io::Result<()> {
    let down = (index as u64).saturating_mul(260).saturating_add(TOP + 150);
    writeln!(
        writer,
        "<polyline class=\"p{index}\" points=\"7050,{down} 7450,{down}\"/>"
    )?;
    let down = down.saturating_add(45);
    writeln!(
        writer,
        "<text x=\"7520\" y=\"{down}\">{}</text>",
        policy.name()
    )
}

/// Writes a figure at a point.
fn write_figure<W: Write>(writer: &mut W, across: u64, down: u64, share: u64) -> io::Result<()> {
    write!(
        writer,
        "<text class=\"figure\" x=\"{across}\" y=\"{down}\">"
    )?;
    write_share(writer, share)?;
    writeln!(writer, "</text>")
}

/// Writes the figures of the best possible line above it, and those of this cache below its line.
pub fn write_figures<W: Write>(writer: &mut W, scale: &Scale, all: &[Hits]) -> io::Result<()> {
    for hits in all {
        let across = scale.across(hits.capacity);
        let best = share(hits.best, scale.keys);
        write_figure(writer, across, scale.down(best).saturating_sub(70), best)?;
        let own = share(hits.cache, scale.keys);
        write_figure(writer, across, scale.down(own).saturating_add(160), own)?;
    }
    Ok(())
}
