//! Arguments that are understood, and that are not.

use qcsim_parts::arguments::{Form, read_arguments};
use qcsim_parts::line::Format;
use std::alloc::Global;
use std::test::Fail;
use test_tools::expect_eq;

/// What a row of arguments asks for, or the status that they end with.
fn read(alloc: Global, row: &[&str]) -> Result<Result<(Format, bool, Form, u64), i32>, Fail> {
    let mut words = Vec::new(alloc);
    for word in row {
        words.push(String::from_str(alloc, word)?)?;
    }
    match read_arguments(alloc, &words) {
        Ok(arguments) => {
            let least = arguments.capacities.first().copied().unwrap_or(0);
            let reading = arguments.reading;
            Ok(Ok((reading.format, reading.weighted, arguments.form, least)))
        }
        Err(error) => Ok(Err(error.exit_code())),
    }
}

#[test]
fn arguments_are_understood_or_end_with_a_status(rt: HostRuntime) -> Result<(), Fail> {
    let csv = Format::Csv {
        key: 2,
        weight: None,
    };
    let weighed = Format::Csv {
        key: 2,
        weight: Some(4),
    };
    let rows: [(&[&str], Result<(Format, bool, Form, u64), i32>); 22] = [
        (&["20", "10"], Ok((Format::Keys, false, Form::Table, 10))),
        (
            &["--svg", "4294967296"],
            Ok((Format::Keys, false, Form::Chart, 4294967296)),
        ),
        (
            &["--format", "text", "--weights", "7"],
            Ok((Format::Text, true, Form::Table, 7)),
        ),
        (
            &["--format=arc", "7"],
            Ok((Format::Arc, false, Form::Table, 7)),
        ),
        (
            &["7", "--format", "csv:2"],
            Ok((csv, false, Form::Table, 7)),
        ),
        (
            &["--format", "csv:2:4", "7"],
            Ok((weighed, true, Form::Table, 7)),
        ),
        (
            &["--hot", "0", "--ghosts", "1000000", "--mark-cut", "3", "7"],
            Ok((Format::Keys, false, Form::Table, 7)),
        ),
        (
            &["--counts", "7"],
            Ok((Format::Keys, false, Form::Counts, 7)),
        ),
        (&["--help"], Err(0)),
        (&["--version"], Err(0)),
        (&[], Err(2)),
        (&["--svg"], Err(2)),
        (&["0"], Err(2)),
        (&["ten"], Err(2)),
        (&["18446744073709551616"], Err(2)),
        (&["--format", "csv:0", "7"], Err(2)),
        (&["--format", "csv:1:x", "7"], Err(2)),
        (&["--format", "json", "7"], Err(2)),
        (&["--format", "arc", "--weights", "7"], Err(2)),
        (&["--format", "csv:2", "--weights", "7"], Err(2)),
        (&["--hot", "1000001", "7"], Err(2)),
        (&["--mark-cut", "4", "7"], Err(2)),
    ];
    for (at, (words, wanted)) in rows.into_iter().enumerate() {
        let read = read(rt.alloc(), words)?;
        expect_eq!(rt; (at, read == wanted), (at, true));
    }
    Ok(())
}
