//! The shares of hits as a line chart: an SVG picture, in tenths of a pixel.

mod lines;
mod scale;

use crate::hits::{Hits, Policy};
use lines::{write_figures, write_legend, write_line, write_style};
use scale::{LEFT, RIGHT, Scale};
use std::io::{self, Write};

/// Writes a text of the caller's, with what SVG has a meaning for written as it wants it.
fn write_escaped<W: Write>(writer: &mut W, text: &str) -> io::Result<()> {
    for letter in text.chars() {
        match letter {
            '<' => writer.write_all(b"&lt;")?,
            '>' => writer.write_all(b"&gt;")?,
            '&' => writer.write_all(b"&amp;")?,
            _ => write!(writer, "{letter}")?,
        }
    }
    Ok(())
}

/// Writes the title: above the field, and as the name of the picture.
fn write_title<W: Write>(writer: &mut W, title: &str) -> io::Result<()> {
    write!(writer, "<title>")?;
    write_escaped(writer, title)?;
    write!(
        writer,
        "</title>\n<text x=\"700\" y=\"250\" font-size=\"170\" font-weight=\"bold\">"
    )?;
    write_escaped(writer, title)?;
    writeln!(writer, "</text>")
}

/// Writes five lines across the field, each with its share in percent.
fn write_shares<W: Write>(writer: &mut W, scale: &Scale) -> io::Result<()> {
    for fifth in 0..6u64 {
        let share = scale.top.saturating_mul(fifth) / 5;
        let down = scale.down(share);
        writeln!(
            writer,
            "<path d=\"M{LEFT} {down}H{RIGHT}\" stroke=\"#ccc\" stroke-width=\"10\"/>"
        )?;
        let down = down.saturating_add(45);
        let share = share / 100;
        writeln!(
            writer,
            "<text x=\"620\" y=\"{down}\" text-anchor=\"end\">{share}</text>"
        )?;
    }
    writeln!(
        writer,
        "<text x=\"300\" y=\"480\">hits in percent of the keys</text>"
    )
}

/// Writes the capacities below the field, but those that would stand over one another.
fn write_capacities<W: Write>(writer: &mut W, scale: &Scale, all: &[Hits]) -> io::Result<()> {
    let mut free_from = 0u64;
    for hits in all {
        let across = scale.across(hits.capacity);
        if across >= free_from {
            let capacity = hits.capacity;
            writeln!(
                writer,
                "<text x=\"{across}\" y=\"4300\" text-anchor=\"middle\">{capacity}</text>"
            )?;
            free_from = across.saturating_add(550);
        }
    }
    writeln!(
        writer,
        "<text x=\"3800\" y=\"4500\" text-anchor=\"middle\">capacity, on a logarithmic scale</text>"
    )
}

/// Writes an SVG picture of 860 by 460 pixels: a line for each cache, over the capacities, which are
/// in ascending order.
pub fn write_chart<W: Write>(
    writer: &mut W,
    title: &str,
    keys: usize,
    all: &[Hits],
) -> io::Result<()> {
    let scale = Scale::of(keys, all);
    writeln!(
        writer,
        "<svg xmlns=\"http://www.w3.org/2000/svg\" width=\"860\" height=\"460\" viewBox=\"0 0 8600 4600\" font-family=\"sans-serif\" font-size=\"130\" fill=\"#333\">\n<rect width=\"8600\" height=\"4600\" fill=\"#fff\"/>"
    )?;
    write_style(writer)?;
    write_title(writer, title)?;
    write_shares(writer, &scale)?;
    write_capacities(writer, &scale, all)?;
    // The cache's line comes last, so that it stands above the others.
    for (index, policy) in Policy::ALL.into_iter().enumerate().rev() {
        write_line(writer, &scale, all, policy, index)?;
        write_legend(writer, policy, index)?;
    }
    write_figures(writer, &scale, all)?;
    writeln!(writer, "</svg>")
}
