//! What is printed where memory is lacking.
use qcrun_parts::serve;
use std::alloc::Global;
use std::io::{self, Read};
use test_tools::{Rationed, expect_eq};

/// Gives a line at each read, and allows so many blocks from then on.
#[derive(Drop)]
struct RationedLines<'a> {
    ration: &'a Rationed<Global>,
    lines: &'a [(u64, &'static str)],
    next: usize,
}

impl Read for RationedLines<'_> {
    fn read(&mut self, buf: &mut [u8]) -> io::Result<usize> {
        let Some((blocks, line)) = self.lines.get(self.next) else {
            return Ok(0);
        };
        self.ration.allow(*blocks);
        self.next = self.next.saturating_add(1);
        let mut line = line.as_bytes();
        line.read(buf)
    }
}

#[test]
fn without_a_block_for_the_lines_the_status_is_1(rt: HostRuntime) {
    for (blocks, status, printed) in [(0, 1, ""), (1, 0, "ok\n")] {
        let ration = Rationed::new(rt.alloc(), blocks);
        let lines = [(100, "cache 55 55\n")];
        let reader = RationedLines {
            ration: &ration,
            lines: &lines,
            next: 0,
        };
        let mut written = Vec::new(rt.alloc());
        let told = serve(&ration, reader, &mut written, &mut Vec::new(rt.alloc()));
        expect_eq!(rt; (told, written.as_slice()), (status, printed.as_bytes()));
    }
}

#[test]
fn what_lacks_memory_is_told_and_leaves_the_cache(rt: HostRuntime) {
    let ration = Rationed::new(rt.alloc(), 1);
    let lines = [
        (100, "cache 55 55\n"),
        (0, "insert 1 1\n"),
        (100, "insert 1 1\n"),
        (0, "insert 1 2\n"),
        (0, "get 1\n"),
        (100, "insert 7 200\n"),
        (0, "show\n"),
        (100, "show\n"),
        (0, "cache 9 9\n"),
        (0, "get 1\n"),
    ];
    let reader = RationedLines {
        ration: &ration,
        lines: &lines,
        next: 0,
    };
    let mut written = Vec::new(rt.alloc());
    let status = serve(&ration, reader, &mut written, &mut Vec::new(rt.alloc()));
    expect_eq!(rt; status, 0);
    // A new cache takes no memory, so that its line is not refused.
    let wanted = "ok\nrefused memory\nok\nevents lost\nok\nsome 2\nok\nrefused memory\n\
         hot 1:2:2\ncold\nghosts\nstill 7:200\ncount 2 2 53 27\nok\nnone\n";
    expect_eq!(rt; written.as_slice(), wanted.as_bytes());
}
