//! Serves the commands that a reader gives, to a writer.
ghost use Rattle.std.specs.Io.KnownBytes.{Appends};
ghost use Rattle.std.specs.Prelude.{◌≡◌, ℕ, Bool, List, None, IfOk, OnOk};
ghost use Rattle.quick_cache_shard.specs.Steps.{rules_in};
ghost use Rattle.quick_cache_unsync.specs.Touches.{no_touches};
ghost use Rattle.qcrun_parts.specs.Runs.{PrintsLine, ServesKnown, ServesLine, bad_line, status_of};

pub mod help;
mod options;
mod print;
pub mod session;

use crate::command::command_of;
use crate::fault::{Fault, fault_of};
use crate::lines::{Line, read_line};
use crate::numbers::NumberCache;
use crate::serving::print::print;
use crate::serving::session::{Outcome, Session};
use quick_cache_shard::Ruled;
use std::alloc::Allocator;
use std::io::{self, BufReader, ErrorKind, Read, Write};

/// How serving came to its end.
#[derive(Debug, Clone, Copy, PartialEq, Eq)]
enum Ending {
    /// All lines were served.
    EndOfInput,
    /// A line was no command, or asked for a cache where none stood.
    BadLine,
}

/// What serves lines, one after another.
trait LineServer {
    /// What stood, a line, whether it could be served, what stands, and what is printed for it.
    ghost serves_line: { Self → List ℕ → Bool → Self → List ℕ → Type 0 };

    /// Serves a line, prints its reply, and tells whether it could be served.
    fn serve_line<W: Write>(&mut self, line: &[u8], writer: &mut W) -> io::Result<bool>
        ensures { IfOk result (λ served. PrintsLine (serves_line self.old line.now) served
            self.new (W.contents writer.old) (W.contents writer.new)) };
}

impl<A: Allocator + Copy> LineServer for Session<A> {
    ghost serves_line = { λ old line served new printed. ServesLine A
        (rules_in ⟦<NumberCache<A> as Ruled>⟧.goes no_touches)
        old.cache line served new.cache printed };

    fn serve_line<W: Write>(&mut self, line: &[u8], writer: &mut W) -> io::Result<bool> {
        // An empty line asks for nothing.
        if line.is_empty() {
            return Ok(true);
        }
        let Ok(command) = command_of(line) else {
            return Ok(false);
        };
        match self.serve(command) {
            Outcome::NoCache => Ok(false),
            outcome => {
                print(&outcome, self, writer)?;
                Ok(true)
            }
        }
    }
}

/// Serves the commands of a reader, one a line, writes their replies, and gives the status to end
/// with.
///
/// 0 at the end of the input; 1 where a read or a write failed, or where there was no memory to
/// read into, and then nothing more is written; 2 behind a line that could not be served, which is
/// told by its number. Why it is 1 or 2 is written to `reasons`, if that can be written to.
pub fn serve<A: Allocator + Copy, R: Read + Drop, W: Write, E: Write>(
    alloc: A,
    reader: R,
    writer: &mut W,
    reasons: &mut E,
) -> u8
    ensures { (result ≡ 1 → ⊥) → ServesKnown ⟦<Session<A> as LineServer>⟧.serves_line
        (record { alloc = alloc; cache = None }) (R.remaining reader) result
        (W.contents writer.old) (W.contents writer.new) }
{
    match serve_lines(alloc, Session::new(alloc), reader, writer, reasons) {
        Ok(Ending::EndOfInput) => 0,
        Ok(Ending::BadLine) => 2,
        Err(error) => {
            let _ = writeln!(reasons, "{error}");
            1
        }
    }
}

/// Serves the lines of a reader up to its end, or up to the first bad one.
fn serve_lines<A: Allocator + Copy, S: LineServer + Drop, R: Read + Drop, W: Write, E: Write>(
    alloc: A,
    mut server: S,
    reader: R,
    writer: &mut W,
    reasons: &mut E,
) -> io::Result<Ending>
    ensures { IfOk result (λ ending. ServesKnown S.serves_line server (R.remaining reader)
        (status_of ending) (W.contents writer.old) (W.contents writer.new)) }
{
    let mut reader = BufReader::new(alloc, reader)?;
    let mut line = Vec::new(alloc);
    for number in 1..u64::MAX {
        match read_line(&mut reader, &mut line)? {
            Line::End => return Ok(Ending::EndOfInput),
            Line::TooLong => return tell_bad_line(number, Fault::TooLong, writer, reasons),
            Line::Whole => {
                if !server.serve_line(&line, writer)? {
                    return tell_bad_line(number, fault_of(&line), writer, reasons);
                }
            }
        }
    }
    // There are more lines than can be counted.
    Err(io::Error::from(ErrorKind::OutOfMemory))
}

/// Tells which line is bad, and why.
fn tell_bad_line<W: Write, E: Write>(
    number: u64,
    fault: Fault<'_>,
    writer: &mut W,
    reasons: &mut E,
) -> io::Result<Ending>
    ensures ends { IfOk result (λ ending. ending ≡ Ending.BadLine) }
    ensures tells { OnOk result (Appends (W.contents writer.old) (W.contents writer.new)
        (bad_line number)) }
{
    writeln!(writer, "bad line {number}")?;
    // Who does not read the reasons gets the same lines and the same status.
    let _ = writeln!(reasons, "line {number}: {fault}");
    Ok(Ending::BadLine)
}
