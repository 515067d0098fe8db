//! Lines of bytes, of a bounded length.
ghost use Rattle.std.specs.Prelude.{IfOk};
ghost use Rattle.qcrun_parts.specs.Lines.{GivesByte, ReadsLine};

use std::alloc::Allocator;
use std::io::{self, ErrorKind, Read};

/// The most bytes that a line has, without its line feed.
const LONGEST: usize = 200;

/// What was read where a line was looked for.
#[derive(Debug, Clone, Copy, PartialEq, Eq)]
pub enum Line {
    /// The line is in the buffer.
    Whole,
    /// The line is longer than any that is served.
    TooLong,
    /// The input was at its end.
    End,
}

/// Reads the next line into the buffer, without its line feed, which the last line may lack. It
/// reads no more than a line of the greatest length has.
///
/// # Errors
///
/// A read that failed, or no memory for the line.
pub fn read_line<R: Read, A: Allocator>(reader: &mut R, line: &mut Vec<u8, A>) -> io::Result<Line>
    ensures { IfOk result
        (ReadsLine (R.remaining reader.old) line.new.items (R.remaining reader.new)) }
{
    line.clear();
    while line.len() <= LONGEST {
        match next_byte(reader)? {
            None if line.is_empty() => return Ok(Line::End),
            None | Some(b'\n') => return Ok(Line::Whole),
            Some(byte) => line.push(byte)?,
        }
    }
    Ok(Line::TooLong)
}

/// The next byte of a reader, or that it is at its end.
fn next_byte<R: Read>(reader: &mut R) -> io::Result<Option<u8>>
    ensures gives { IfOk result (GivesByte (R.remaining reader.old) (R.remaining reader.new)) }
{
    let mut byte = [0];
    for _ in 0..u64::MAX {
        match reader.read(&mut byte) {
            Ok(0) => return Ok(None),
            Ok(_) => return Ok(Some(byte[0])),
            Err(error) if error.kind() == ErrorKind::Interrupted => {}
            Err(error) => return Err(error),
        }
    }
    Err(io::Error::from(ErrorKind::Interrupted))
}
