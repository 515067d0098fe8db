//! The formats of a trace, and its bad lines.

use qcsim_parts::line::{Asked, Flaw, Format, read_line};
use qcsim_parts::trace::{BadTrace, Reading, Trace, read_trace};
use std::alloc::Global;
use std::io::{self, BufReader, ErrorKind, Read};
use std::test::Fail;
use test_tools::{expect, expect_eq};

const CSV: Format = Format::Csv {
    key: 2,
    weight: None,
};

const WEIGHED_CSV: Format = Format::Csv {
    key: 1,
    weight: Some(3),
};

#[test]
fn a_line_is_read_by_its_format_or_told_why_not(rt: HostRuntime) -> Result<(), Fail> {
    let rows: [(Format, bool, &[u8], Result<(u64, u64, u32), Flaw>); 25] = [
        (Format::Keys, false, b"7\n", Ok((7, 1, 1))),
        (
            Format::Keys,
            false,
            b"18446744073709551615\r\n",
            Ok((u64::MAX, 1, 1)),
        ),
        (
            Format::Keys,
            false,
            b"18446744073709551616\n",
            Err(Flaw::NotNumber),
        ),
        (Format::Keys, false, b"\n", Err(Flaw::NotNumber)),
        (Format::Keys, false, b"-1", Err(Flaw::NotNumber)),
        (Format::Keys, true, b"7 4096\r\n", Ok((7, 1, 4096))),
        (Format::Keys, true, b"7\n", Err(Flaw::NotWeight)),
        (Format::Keys, true, b"7 4294967296\n", Err(Flaw::NotWeight)),
        (Format::Keys, true, b"x 1\n", Err(Flaw::NotNumber)),
        (Format::Text, false, b"ab\xff\n", Err(Flaw::NotUtf8(3))),
        (Format::Text, true, b"a b c\n", Err(Flaw::NotWeight)),
        (Format::Arc, false, b"100 3 0 17\r\n", Ok((100, 3, 1))),
        (Format::Arc, false, b"100 0 0 17\n", Ok((100, 0, 1))),
        (Format::Arc, false, b"100 3 0\n", Err(Flaw::NotBlocks)),
        (
            Format::Arc,
            false,
            b"18446744073709551615 1 0 1\n",
            Ok((u64::MAX, 1, 1)),
        ),
        (
            Format::Arc,
            false,
            b"18446744073709551615 2 0 1\n",
            Err(Flaw::NotBlocks),
        ),
        (Format::Arc, false, b"0 1048576 0 0\n", Ok((0, 1048576, 1))),
        (
            Format::Arc,
            false,
            b"0 99999999999 0 0\n",
            Err(Flaw::TooManyBlocks),
        ),
        (CSV, false, b"a\n", Err(Flaw::NoColumn(2))),
        (CSV, false, b"a,\xc3\n", Err(Flaw::NotUtf8(3))),
        (WEIGHED_CSV, true, b"a,b\n", Err(Flaw::NoColumn(3))),
        (WEIGHED_CSV, true, b"a,b,c\n", Err(Flaw::NotWeight)),
        (WEIGHED_CSV, true, b"\"a,b\",7\n", Err(Flaw::NoColumn(3))),
        (Format::Keys, false, b"7\r", Ok((7, 1, 1))),
        (Format::Keys, false, b"7\r\r\n", Err(Flaw::NotNumber)),
    ];
    for (at, (format, weighted, line, wanted)) in rows.into_iter().enumerate() {
        let read = match read_line(format, weighted, line) {
            Ok(asked) => Ok((asked.first, asked.count, asked.weight)),
            Err(flaw) => Err(flaw),
        };
        expect_eq!(rt; (at, read == wanted), (at, true));
    }
    Ok(())
}

/// The key and the weight of a line, where it is one.
fn key_of(format: Format, line: &[u8]) -> Option<(u64, u32)> {
    match read_line(format, format == WEIGHED_CSV, line) {
        Ok(Asked { first, weight, .. }) => Some((first, weight)),
        Err(_) => None,
    }
}

#[test]
fn lines_of_the_same_text_are_the_same_key(rt: HostRuntime) -> Result<(), Fail> {
    let rows: [(Format, &[u8], &[u8], bool); 8] = [
        (Format::Text, b"/index.html\r\n", b"/index.html", true),
        (Format::Text, b"\n", b"\n", true),
        (Format::Text, b"a\n", b"b\n", false),
        (Format::Text, b"a \n", b"a\n", false),
        (CSV, b"1,a,x\n", b"2,\"a\"\n", true),
        (CSV, b"1,\"a,b\",x\n", b"\"1,2\",\"a,b\"\r\n", true),
        (CSV, b"a,b\n", b"b,a\n", false),
        (WEIGHED_CSV, b"a,,5\n", b"a,x,5,y\n", true),
    ];
    for (at, (format, one, other, same)) in rows.into_iter().enumerate() {
        let one = key_of(format, one);
        let is_same = one == key_of(format, other);
        expect_eq!(rt; (at, one.is_some(), is_same), (at, true, same));
    }
    Ok(())
}

/// What came of reading a trace: how many keys, the weight of the last one and how many lines were
/// passed over, or the number and the start of the bad line.
fn outcome(
    alloc: Global,
    rt: &HostRuntime,
    reading: Reading,
    trace: &[u8],
) -> Result<String, Fail> {
    match read_trace(alloc, rt, BufReader::new(alloc, trace)?, reading) {
        Ok(trace) => {
            let last = trace.weight(trace.keys().len().saturating_sub(1));
            Ok(format!(in alloc; "{} {last} {}", trace.keys().len(), trace.skipped())?)
        }
        Err(BadTrace::Line(bad)) => {
            Ok(format!(in alloc; "{} {} {}", bad.number, bad.start, bad.flaw)?)
        }
        Err(_) => Ok(String::new(alloc)),
    }
}

#[test]
fn a_bad_line_is_shown_or_passed_over(rt: HostRuntime) -> Result<(), Fail> {
    let long = b"1\n0123456789012345678901234567890123456789tail\n";
    let rows: [(Format, bool, &[u8], &str); 9] = [
        (Format::Keys, false, b"", "0 1 0"),
        (Format::Keys, false, b"1\n2", "2 1 0"),
        (Format::Arc, false, b"8 3 0 0\n9 2 0 1\n", "5 1 0"),
        (WEIGHED_CSV, false, b"a,b,3\nb,,9\n", "2 9 0"),
        (Format::Keys, true, b"1\nx\n2\n\n", "2 1 2"),
        (Format::Text, true, b"a\n\xff\nb\n", "2 1 1"),
        (
            Format::Keys,
            false,
            b"1\n\n2\n",
            "2  it is no number from 0 to 18446744073709551615",
        ),
        (
            Format::Text,
            false,
            b"a\nb\xff\n",
            "2 b\u{fffd} from byte 2 on it is no UTF-8",
        ),
        (
            Format::Keys,
            false,
            long,
            "2 0123456789012345678901234567890123456789 it is no number from 0 to 18446744073709551615",
        ),
    ];
    for (at, (format, skips_bad, trace, wanted)) in rows.into_iter().enumerate() {
        let reading = Reading {
            format,
            weighted: format == WEIGHED_CSV,
            skips_bad,
        };
        let read = outcome(rt.alloc(), &rt, reading, trace)?;
        expect_eq!(rt; (at, read.as_str()), (at, wanted));
    }
    Ok(())
}

#[test]
fn how_many_keys_a_capacity_holds_goes_by_their_mean_weight(rt: HostRuntime) -> Result<(), Fail> {
    let mut trace = Trace::new(rt.alloc());
    expect!(rt; trace.keys_within(10) == 0 && !trace.is_weighted());
    for weight in [10, 30, 20] {
        let asked = Asked {
            first: 1,
            count: 1,
            weight,
        };
        trace.add(asked, true)?;
    }
    expect!(rt; trace.keys_within(40) == 2 && trace.keys_within(1000) == 3);
    Ok(())
}

/// A reader that fails behind its bytes.
#[derive(Drop)]
struct Broken {
    bytes: &'static [u8],
}

impl Read for Broken {
    fn read(&mut self, buf: &mut [u8]) -> io::Result<usize> {
        if self.bytes.is_empty() {
            return Err(ErrorKind::Other.into());
        }
        self.bytes.read(buf)
    }
}

#[test]
fn a_reader_that_fails_is_no_end_of_a_trace(rt: HostRuntime) -> Result<(), Fail> {
    let reader = BufReader::new(rt.alloc(), Broken { bytes: b"1\n2\n" })?;
    let reading = Reading {
        format: Format::Keys,
        weighted: false,
        skips_bad: true,
    };
    let read = read_trace(rt.alloc(), &rt, reader, reading);
    expect!(rt; matches!(&read, Err(BadTrace::Read(_))));
    Ok(())
}
