//! What is printed for whole scripts, and the status at the end.
use qcrun_parts::{HELP, serve};
use std::alloc::Global;
use std::io::{self, ErrorKind, Read, Write};
use std::ops::RangeInclusive;
use std::process::Abort;
use std::test::Fail;
use test_tools::{expect, expect_eq};

/// Serves a script to its end, and checks what is written.
pub fn check(rt: &impl Abort, alloc: Global, script: &[u8], wanted: &str) {
    check_end(rt, alloc, script, wanted, 0, "");
}

/// Serves a script up to a bad line, and checks what is written and which reason is told.
pub fn check_bad(rt: &impl Abort, alloc: Global, script: &[u8], wanted: &str, reason: &str) {
    check_end(rt, alloc, script, wanted, 2, reason);
}

/// Serves a script, and checks what is written, the status and the reason.
fn check_end(
    rt: &impl Abort,
    alloc: Global,
    script: &[u8],
    wanted: &str,
    status: u8,
    reason: &str,
) {
    let (mut written, mut reasons) = (Vec::new(alloc), Vec::new(alloc));
    let ended = serve(alloc, script, &mut written, &mut reasons);
    expect_eq!(rt; (ended, reasons.as_slice()), (status, reason.as_bytes()));
    expect_eq!(rt; written.as_slice(), wanted.as_bytes());
}

#[test]
fn scripts_print_their_replies(rt: HostRuntime) {
    let scripts: [(&str, &str); 17] = [
        ("", ""),
        (
            "cache 2 2 970000 500000 1\ninsert 1 1\nget 1\ninsert 2 1\nget 2\nget 2\nget 2\n\
             insert 3 1\nshow\n",
            "ok\nok\nsome 1\nok\nsome 1\nsome 1\nsome 1\nbefore 2 1\nhot 2 1\nok\n\
             hot 1:1:0\ncold 3:1:0\nghosts\nstill\ncount 2 2 1 1\n",
        ),
        (
            "cache 2 2 970000 500000 2\ninsert 1 1\nget 1\ninsert 2 1\nget 2\nget 2\nget 2\n\
             insert 3 1\nshow\n",
            "ok\nok\nsome 1\nok\nsome 1\nsome 1\nsome 1\nbefore 1 1\nhot 1 1\nok\n\
             hot 2:1:0\ncold 3:1:0\nghosts\nstill\ncount 2 2 1 1\n",
        ),
        (
            "cache 2 2 970000 500000 3\ninsert 1 1\nget 1\ninsert 2 1\nget 2\nget 2\nget 2\n\
             insert 3 1\nshow\n",
            "ok\nok\nsome 1\nok\nsome 1\nsome 1\nsome 1\nbefore 1 1\nhot 1 1\nok\n\
             hot 2:1:1\ncold 3:1:0\nghosts\nstill\ncount 2 2 1 1\n",
        ),
        (
            "cache 2 2 970000 500000 4\n",
            "options: mark_cut is out of range\n",
        ),
        (
            "cache 1 1\ninsert 18446744073709551615 18446744073709551601\nget 18446744073709551615",
            "ok\nok\nsome 18446744073709551601\n",
        ),
        ("\n\ncache 1 1\n\nget 00000000000000000001", "ok\nnone\n"),
        (
            "cache 1 1\ninsert 1 1\nget 1\ninsert 2 401\nget 2\nget 1\nremove 2\nremove 2\n",
            "ok\nok\nsome 1\nbefore 1 1\nhot 1 1\nok\nsome 401\nnone\nsome 2 401\nnone\n",
        ),
        (
            "cache 0 0\ninsert 1 10\nget 1\nshow\n",
            "ok\nbefore 1 10\ncold 1 10\nok\nnone\nhot\ncold\nghosts\nstill\ncount 0 0 0 0\n",
        ),
        (
            "cache 0 0\ninsert 1 400\nget 1\nshow\n",
            "ok\nok\nsome 400\nhot\ncold\nghosts\nstill 1:400\ncount 1 0 0 0\n",
        ),
        (
            "cache 2 2\ninsert 1 1\ninsert 2 1\ninsert 3 1\ninsert 2 1\nshow\n",
            "ok\nok\nok\nbefore 2 1\ncold 2 1\nok\nbefore 3 1\ncold 3 1\nok\n\
             hot 1:1:0 2:1:0\ncold\nghosts 3\nstill\ncount 2 2 1 1\n",
        ),
        (
            "cache 2 2\ninsert 1 1\ninsert 5 1\ninsert 6 1\ninsert 1005 1\nshow\nget 5\n",
            "ok\nok\nok\nbefore 5 1\ncold 5 1\nok\nbefore 6 1\ncold 6 1\nok\n\
             hot 1:1:0 1005:1:0\ncold\nghosts 6\nstill\ncount 2 2 1 1\nnone\n",
        ),
        (
            "cache 2 2\ninsert 1 1\nget 1\ninsert 2 1\nget 2\ninsert 3 1\nshow\n",
            "ok\nok\nsome 1\nok\nsome 1\nbefore 2 1\nhot 2 1\nok\n\
             hot 1:1:0\ncold 3:1:0\nghosts\nstill\ncount 2 2 1 1\n",
        ),
        (
            "cache 2 2\ninsert 1 101\ninsert 2 101\ninsert 3 1\nshow\n",
            "ok\nok\nok\nok\nhot 1:101:0\ncold 2:101:0 3:1:0\nghosts\nstill\ncount 3 3 1 1\n",
        ),
        (
            "cache 4 4\ninsert 9 100\ninsert 7 0\ninsert 12 201\ninsert 3 1\ninsert 1 201\n\
             insert 2 1\ninsert 4 302\nget 12\nshow\n",
            "ok\nok\nok\nok\nok\nok\nok\nbefore 2 1\ncold 2 1\nbefore 12 201\nok\nsome 200\n\
             hot 3:1:0 1:201:0\ncold 4:302:0\nghosts 2\nstill 7:0 9:100 12:200\ncount 6 4 3 2\n",
        ),
        (
            "cache 9 9\ninsert 1 210\ninsert 2 310\ninsert 3 110\ninsert 4 10\nshow\n",
            "ok\nbefore 1 210\nok\nbefore 2 310\nok\nbefore 2 301\nhot 2 301\nok\n\
             before 4 10\ncold 4 10\nok\nhot\ncold 3:110:0\nghosts\nstill 1:200\ncount 2 10 8 4\n",
        ),
        (
            "cache 5 5\ninsert 1 18446744073709551615\nget 00000000000000000001\nshow\n",
            "ok\nbefore 1 18446744073709551615\ncold 1 18446744073709551615\nok\nnone\n\
             hot\ncold\nghosts\nstill\ncount 0 0 4 2\n",
        ),
    ];
    for (script, wanted) in scripts {
        check(&rt, rt.alloc(), script.as_bytes(), wanted);
    }
}

/// Serves scripts that end well, and checks what is written.
pub fn check_all(rt: &impl Abort, alloc: Global, scripts: &[(&str, &str)]) {
    for (script, wanted) in scripts {
        check(rt, alloc, script.as_bytes(), wanted);
    }
}

#[test]
fn a_replace_is_hard_or_soft(rt: HostRuntime) {
    let scripts: [(&str, &str); 3] = [
        (
            "cache 5 5\nreplace 1 1\nsoft 1 1\ninsert 1 1\nreplace 1 2\nsoft 1 3\nget 1\nshow\n",
            "ok\nnot admitted 1 1\nnot admitted 1 1\nok\nhot 1 1\nok\nhot 1 2\nok\nsome 3\n\
             hot 1:3:2\ncold\nghosts\nstill\ncount 1 3 4 2\n",
        ),
        (
            "cache 100 100\ninsert 1 10\nreplace 1 98\nget 1\n",
            "ok\nok\nbefore 1 98\nhot 1 10\nnot admitted 1 98\nnone\n",
        ),
        (
            "cache 100 100\ninsert 1 50\ninsert 2 47\nsoft 1 60\nget 1\n",
            "ok\nok\nok\nhot 1 50\nbefore 1 60\nhot 1 60\nok\nnone\n",
        ),
    ];
    check_all(&rt, rt.alloc(), &scripts);
}

#[test]
fn a_capacity_moves_the_target_and_the_limit(rt: HostRuntime) {
    let scripts: [(&str, &str); 2] = [
        (
            "cache 100 100\ncapacity 50\nshow\ncapacity 200\nshow\ncapacity 0\nshow\n\
             capacity 100\nshow\n",
            "ok\nok\nhot\ncold\nghosts\nstill\ncount 0 0 48 25\n\
             ok\nhot\ncold\nghosts\nstill\ncount 0 0 192 100\n\
             ok\nhot\ncold\nghosts\nstill\ncount 0 0 0 0\n\
             ok\nhot\ncold\nghosts\nstill\ncount 0 0 97 0\n",
        ),
        (
            "cache 5 5\ninsert 1 1\ninsert 2 1\nget 2\ninsert 3 101\ncapacity 2\nshow\n",
            "ok\nok\nok\nsome 1\nok\nbefore 1 1\nhot 1 1\nok\n\
             hot 2:1:1 3:101:0\ncold\nghosts\nstill\ncount 2 2 1 0\n",
        ),
    ];
    check_all(&rt, rt.alloc(), &scripts);
}

#[test]
fn values_are_written_through_references(rt: HostRuntime) {
    let scripts: [(&str, &str); 2] = [
        (
            "cache 100 100\ninsert 1 30\ninsert 2 30\ninsert 3 30\npoke 2 0\ninsert 4 30\n\
             insert 5 30\nshow\n",
            "ok\nok\nok\nok\nok\nok\nbefore 3 30\nhot 3 30\nok\n\
             hot 1:30:0 4:30:0\ncold 5:30:0\nghosts\nstill 2:0\ncount 4 90 97 50\n",
        ),
        (
            "cache 9 9\nset 1 1\npoke 1 1\ninsert 1 1\nset 1 2\npoke 1 13\npeek 1\npeek 2\n\
             stats 1\nhits\nshow\n",
            "ok\nnone\nnone\nok\nok\nok\nsome 13\nnone\nreads 1\nhits 1 misses 1\n\
             hot 1:13:1\ncold\nghosts\nstill\ncount 1 13 8 4\n",
        ),
    ];
    check_all(&rt, rt.alloc(), &scripts);
}

#[test]
fn look_ups_are_counted(rt: HostRuntime) {
    let scripts: [(&str, &str); 1] = [(
        "cache 4 4\nhits\nstats 1\ninsert 1 1\nget 1\nget 1\nget 1\npeek 1\nget 9\nstats 1\nhits\n",
        "ok\nhits 0 misses 0\nnone\nok\nsome 1\nsome 1\nsome 1\nsome 1\nnone\nreads 3\n\
         hits 3 misses 1\n",
    )];
    check_all(&rt, rt.alloc(), &scripts);
}

#[test]
fn items_are_removed_by_value_and_all_at_once(rt: HostRuntime) {
    let scripts: [(&str, &str); 2] = [
        (
            "cache 4 4\ninsert 1 1\nremoveif 1 2\nremoveif 1 1\nremoveif 1 1\nhits\nshow\n",
            "ok\nok\nnone\nsome 1 1\nnone\nhits 0 misses 0\n\
             hot\ncold\nghosts\nstill\ncount 0 0 3 2\n",
        ),
        (
            "cache 4 4\ninsert 1 1\ninsert 2 1\ninsert 3 1\ninsert 4 1\ninsert 5 1\ninsert 6 200\n\
             get 1\nclear\nclear\nhits\nshow\nget 1\n",
            "ok\nok\nok\nok\nok\nbefore 4 1\ncold 4 1\nok\nok\nsome 1\nok\nok\n\
             hits 1 misses 0\nhot\ncold\nghosts\nstill\ncount 0 0 3 2\nnone\n",
        ),
    ];
    check_all(&rt, rt.alloc(), &scripts);
}

#[test]
fn values_are_loaded(rt: HostRuntime) {
    let scripts: [(&str, &str); 1] = [(
        "cache 5 5\nfail 4\nload 4 4\nload 4 9\nguard 4 1\ndrop 9\nload 9 5\nguard 8 2\n\
         load 8 1\nhits\nstats 4\nstats 8\nshow\n",
        "ok\nerror\nloaded\nsome 4\nsome 4\ndropped\nbefore 9 5\ncold 9 5\nnot kept\n\
         before 8 2\ncold 8 2\nfilled\nloaded\nhits 2 misses 6\nreads 2\nreads 0\n\
         hot 4:4:2 8:1:0\ncold\nghosts\nstill\ncount 2 5 4 2\n",
    )];
    check_all(&rt, rt.alloc(), &scripts);
}

#[test]
fn a_bad_line_ends_the_script(rt: HostRuntime) {
    check_bad(
        &rt,
        rt.alloc(),
        b"get 1\n",
        "bad line 1\n",
        "line 1: no cache stands\n",
    );
    let lines: [(&str, &str); 22] = [
        ("get 1\r", "it ends with a carriage return"),
        ("\r", "it ends with a carriage return"),
        ("get  1", "`` is no number from 0 to 18446744073709551615"),
        ("get 1 ", "`` is no number from 0 to 18446744073709551615"),
        (" get 1", "unknown command ``"),
        ("get", "it is written `get KEY`"),
        ("gets 1", "unknown command `gets`"),
        (
            "get one",
            "`one` is no number from 0 to 18446744073709551615",
        ),
        ("get +1", "`+1` is no number from 0 to 18446744073709551615"),
        ("get -1", "`-1` is no number from 0 to 18446744073709551615"),
        (
            "get 000000000000000000001",
            "`000000000000000000001` is no number from 0 to 18446744073709551615",
        ),
        (
            "get 18446744073709551616",
            "`18446744073709551616` is no number from 0 to 18446744073709551615",
        ),
        (
            "show all",
            "`all` is no number from 0 to 18446744073709551615",
        ),
        (
            "cache 1 1 1",
            "it is written `cache ITEMS WEIGHT [HOT GHOST [MARK]]`",
        ),
        (
            "cache 1 1 1 1 1 1",
            "it is written `cache ITEMS WEIGHT [HOT GHOST [MARK]]`",
        ),
        (
            "cache 1 1 4294967296 1",
            "it is written `cache ITEMS WEIGHT [HOT GHOST [MARK]]`",
        ),
        ("insert 1 1 1 1", "it is written `insert KEY VALUE`"),
        ("replace 1", "it is written `replace KEY VALUE`"),
        ("removeif 1", "it is written `removeif KEY VALUE`"),
        ("stats", "it is written `stats KEY`"),
        ("clear 1", "it is written `clear`"),
        ("capacity 1 1", "it is written `capacity WEIGHT`"),
    ];
    for (line, reason) in lines {
        let (mut script, mut told) = (Vec::new(rt.alloc()), String::new(rt.alloc()));
        let made = write!(script, "cache 5 5\n{line}\nget 1\n");
        let also = writeln!(told, "line 2: {reason}");
        expect!(rt; made.is_ok() && also.is_ok());
        check_bad(
            &rt,
            rt.alloc(),
            script.as_slice(),
            "ok\nbad line 2\n",
            &told,
        );
    }
    check_bad(
        &rt,
        rt.alloc(),
        b"cache 1 1\n\nget \xff\n",
        "ok\nbad line 3\n",
        "line 3: it is no UTF-8\n",
    );
}

#[test]
fn each_command_of_the_help_is_served(rt: HostRuntime) -> Result<(), Fail> {
    let mut script = Vec::new(rt.alloc());
    for line in HELP.lines() {
        let Some((command, _)) = line.split_once(':') else {
            return Err(Fail::new("a line has a command and what it does"));
        };
        for (at, word) in command.split(' ').enumerate() {
            if at == 0 {
                write!(script, "{word}")?;
            } else {
                write!(script, " 1")?;
            }
        }
        writeln!(script)?;
    }
    let (mut written, mut reasons) = (Vec::new(rt.alloc()), Vec::new(rt.alloc()));
    let ended = serve(rt.alloc(), script.as_slice(), &mut written, &mut reasons);
    expect_eq!(rt; (ended, reasons.len()), (0, 0));
    Ok(())
}

/// Writes a command with each of the numbers, one a line; the second number of an insert is 1.
pub fn write_each(
    script: &mut Vec<u8>,
    name: &str,
    numbers: RangeInclusive<u64>,
    end: &str,
) -> io::Result<()> {
    for number in numbers {
        writeln!(script, "{name} {number}{end}")?;
    }
    Ok(())
}

#[test]
fn a_bad_line_is_told_by_its_number_behind_seventy_thousand(rt: HostRuntime) -> Result<(), Fail> {
    let mut script = Vec::new(rt.alloc());
    let mut wanted = Vec::new(rt.alloc());
    write!(script, "cache 200 200\n")?;
    write!(wanted, "ok\n")?;
    write_each(&mut script, "insert", 2..=150, " 1")?;
    for _ in 2..=150 {
        writeln!(wanted, "ok")?;
    }
    for _ in 0..70000 {
        writeln!(script, "get 2")?;
        writeln!(wanted, "some 1")?;
    }
    write!(script, "\nget\nget 2\n")?;
    writeln!(wanted, "bad line 70152")?;
    let mut written = Vec::new(rt.alloc());
    let ended = serve(
        rt.alloc(),
        script.as_slice(),
        &mut written,
        &mut Vec::new(rt.alloc()),
    );
    expect_eq!(rt; ended, 2);
    expect_eq!(rt; written.as_slice(), wanted.as_slice());
    Ok(())
}

/// Writes a cache and a hundred keys of one hash, each with a value of its own, and their replies.
fn write_inserts(script: &mut Vec<u8>, wanted: &mut Vec<u8>) -> io::Result<()> {
    writeln!(script, "cache 100 100")?;
    writeln!(wanted, "ok")?;
    for key in 1..=100 {
        writeln!(script, "insert {key}000 {key}01")?;
        writeln!(wanted, "ok")?;
    }
    Ok(())
}

/// Writes a look-up and two removals of each of them, and their replies.
fn write_removals(script: &mut Vec<u8>, wanted: &mut Vec<u8>) -> io::Result<()> {
    for key in 1..=100 {
        writeln!(script, "get {key}000\nremove {key}000\nremove {key}000")?;
        writeln!(wanted, "some {key}01\nsome {key}000 {key}01\nnone")?;
    }
    Ok(())
}

#[test]
fn a_hundred_keys_of_one_hash_are_found_and_go_once(rt: HostRuntime) -> Result<(), Fail> {
    let mut script = Vec::new(rt.alloc());
    let mut wanted = Vec::new(rt.alloc());
    write_inserts(&mut script, &mut wanted)?;
    write_removals(&mut script, &mut wanted)?;
    let mut written = Vec::new(rt.alloc());
    let ended = serve(
        rt.alloc(),
        script.as_slice(),
        &mut written,
        &mut Vec::new(rt.alloc()),
    );
    expect!(rt; ended == 0 && written.as_slice() == wanted.as_slice());
    Ok(())
}

#[test]
fn two_of_each_are_shown_in_order(rt: HostRuntime) -> Result<(), Fail> {
    let mut script = Vec::new(rt.alloc());
    write!(script, "cache 34 34\n")?;
    write_each(&mut script, "insert", 1..=36, " 1")?;
    write_each(&mut script, "remove", 1..=30, "")?;
    write!(script, "get 32\nget 36\nshow\n")?;
    let mut written = Vec::new(rt.alloc());
    let ended = serve(
        rt.alloc(),
        script.as_slice(),
        &mut written,
        &mut Vec::new(rt.alloc()),
    );
    expect_eq!(rt; ended, 0);
    let shown =
        "some 1\nsome 1\nhot 31:1:0 32:1:1\ncold 35:1:0 36:1:1\nghosts 33 34\nstill\ncount 4 4 32 17\n";
    expect!(rt; written.as_slice().ends_with(shown.as_bytes()));
    Ok(())
}

#[test]
fn a_long_line_is_bad_however_long(rt: HostRuntime) -> Result<(), Fail> {
    for length in [200, 201, 100000] {
        let (mut script, mut line) = (Vec::new(rt.alloc()), String::new(rt.alloc()));
        for _ in 0..length {
            line.push('1')?;
        }
        write!(script, "cache 5 5\n{line}\nget 1\n")?;
        let mut reason = String::new(rt.alloc());
        if length == 200 {
            writeln!(reason, "line 2: unknown command `{line}`")?;
        } else {
            writeln!(reason, "line 2: more than 200 bytes")?;
        }
        check_bad(
            &rt,
            rt.alloc(),
            script.as_slice(),
            "ok\nbad line 2\n",
            &reason,
        );
    }
    Ok(())
}

/// Gives a text once, and fails after that.
#[derive(Drop)]
struct BrokenReader {
    text: &'static [u8],
    is_read: bool,
}

impl Read for BrokenReader {
    fn read(&mut self, buf: &mut [u8]) -> io::Result<usize> {
        if self.is_read {
            return Err(io::Error::from(ErrorKind::BrokenPipe));
        }
        self.is_read = true;
        let mut text = self.text;
        text.read(buf)
    }
}

#[test]
fn a_failed_read_ends_it(rt: HostRuntime) {
    let (mut written, mut reasons) = (Vec::new(rt.alloc()), Vec::new(rt.alloc()));
    let reader = BrokenReader {
        text: b"cache 1 1\nget 1\nget",
        is_read: false,
    };
    let status = serve(rt.alloc(), reader, &mut written, &mut reasons);
    expect_eq!(rt; (status, reasons.is_empty()), (1, false));
    expect_eq!(rt; written.as_slice(), b"ok\nnone\n".as_slice());
}

/// Takes what is first written, and counts the writes.
#[derive(Drop)]
struct BrokenWriter {
    written: Vec<u8>,
    writes: u64,
}

impl Write for BrokenWriter {
    fn write(&mut self, buf: &[u8]) -> io::Result<usize> {
        self.writes = self.writes.saturating_add(1);
        if self.writes > 1 {
            return Err(io::Error::from(ErrorKind::BrokenPipe));
        }
        self.written.write(buf)
    }

    fn flush(&mut self) -> io::Result<()> {
        Ok(())
    }
}

#[test]
fn a_failed_write_ends_it(rt: HostRuntime) {
    let mut writer = BrokenWriter {
        written: Vec::new(rt.alloc()),
        writes: 0,
    };
    let status = serve(
        rt.alloc(),
        b"cache 1 1\nget 1\nget x\n".as_slice(),
        &mut writer,
        &mut Vec::new(rt.alloc()),
    );
    expect_eq!(rt; status, 1);
    expect_eq!(rt; writer.writes, 2);
}
