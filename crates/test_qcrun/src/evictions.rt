//! Scripts that show which items leave, in which order, and which hooks are told.
use crate::scripts::{check_all, write_each};
use qcrun_parts::serve;
use std::io::Write;
use std::test::Fail;
use test_tools::{expect, expect_eq};

#[test]
fn items_leave_by_marks_pins_and_weights(rt: HostRuntime) {
    let scripts: [(&str, &str); 11] = [
        // Items leave for a smaller capacity, and ghosts for the smaller limit.
        (
            "cache 4 4\ninsert 1 1\ninsert 2 1\ninsert 3 1\ninsert 4 1\ninsert 5 1\n\
             insert 6 1\ninsert 7 1\ninsert 8 1\ncapacity 2\nshow\n",
            "ok\nok\nok\nok\nok\nbefore 4 1\ncold 4 1\nok\nbefore 5 1\ncold 5 1\nok\n\
             before 6 1\ncold 6 1\nok\nbefore 7 1\ncold 7 1\nok\nbefore 8 1\n\
             cold 8 1\nbefore 1 1\nhot 1 1\nok\nhot 2:1:0 3:1:0\ncold\nghosts 8\n\
             still\ncount 2 2 1 1\n",
        ),
        // A cold item that was used takes the place of a hot one that was not.
        (
            "cache 2 2\ninsert 1 1\ninsert 2 1\nget 2\ninsert 3 1\nshow\n",
            "ok\nok\nok\nsome 1\nbefore 1 1\nhot 1 1\nok\nhot 2:1:0\ncold 3:1:0\n\
             ghosts\nstill\ncount 2 2 1 1\n",
        ),
        // A pinned cold item that was passed stands last.
        (
            "cache 5 5 400000 500000\ninsert 1 1\ninsert 2 1\ninsert 3 101\n\
             insert 4 1\ninsert 5 1\nget 4\ninsert 6 1\nshow\n",
            "ok\nok\nok\nok\nok\nok\nsome 1\nbefore 1 1\nhot 1 1\nok\n\
             hot 2:1:0 4:1:0\ncold 5:1:0 3:101:0 6:1:0\nghosts\nstill\n\
             count 5 5 2 2\n",
        ),
        // An overwritten hot item is told to the hot hook, and marked.
        (
            "cache 2 2\ninsert 1 201\ninsert 1 1\nshow\n",
            "ok\nok\nhot 1 201\nok\nhot 1:1:1\ncold\nghosts\nstill\ncount 1 1 1 1\n",
        ),
        // An item that loses its weight before it leaves stays.
        (
            "cache 2 2\ninsert 1 201\ninsert 2 201\ninsert 3 1\nget 2\nshow\n",
            "ok\nok\nok\nbefore 2 201\nok\nsome 200\nhot 1:201:0\ncold 3:1:0\n\
             ghosts\nstill 2:200\ncount 3 2 1 1\n",
        ),
        // A pair that becomes light enough is taken.
        (
            "cache 10 40\ninsert 1 350\nget 1\nshow\n",
            "ok\nbefore 1 350\nok\nsome 301\nhot 1:301:1\ncold\nghosts\nstill\n\
             count 1 1 38 5\n",
        ),
        // An item of weight 0 outlives all others.
        (
            "cache 9 9\ninsert 7 0\ninsert 10 5\ninsert 11 5\ninsert 12 5\n\
             insert 13 5\nget 7\nshow\n",
            "ok\nok\nok\nbefore 10 5\nhot 10 5\nok\nbefore 11 5\ncold 11 5\nok\n\
             before 12 5\nhot 12 5\nok\nsome 0\nhot\ncold 13:5:0\nghosts 11\n\
             still 7:0\ncount 2 5 8 4\n",
        ),
        // A fill of no weight makes no room. An insert of none does.
        (
            "cache 100 100\ninsert 1 50\ninsert 2 47\npoke 1 60\nguard 3 0\nshow\n\
             insert 4 0\nshow\n",
            "ok\nok\nok\nok\nfilled\nhot 1:60:0 2:47:0\ncold\nghosts\nstill 3:0\n\
             count 3 107 97 50\nbefore 1 60\nhot 1 60\nok\nhot 2:47:0\ncold\nghosts\n\
             still 3:0 4:0\ncount 3 47 97 50\n",
        ),
        // A cache of one holds the last pair.
        (
            "cache 1 1\ninsert 1 1\nget 1\ninsert 2 1\nget 2\nget 1\nhits\n",
            "ok\nok\nsome 1\nbefore 1 1\nhot 1 1\nok\nsome 1\nnone\nhits 2 misses 1\n",
        ),
        // A look is no use, and a removal gives the pair.
        (
            "cache 4 4\ninsert 1 1\npeek 1\nshow\nremove 1\nremove 1\npeek 1\nhits\n",
            "ok\nok\nsome 1\nhot 1:1:0\ncold\nghosts\nstill\ncount 1 1 3 2\n\
             some 1 1\nnone\nnone\nhits 0 misses 0\n",
        ),
        // Eight keys of one hash.
        (
            "cache 4 4\ninsert 1000 1\ninsert 2000 1\ninsert 3000 1\ninsert 4000 1\n\
             insert 5000 1\ninsert 6000 1\ninsert 7000 1\ninsert 8000 1\nshow\n",
            "ok\nok\nok\nok\nok\nbefore 4000 1\ncold 4000 1\nok\nbefore 5000 1\n\
             cold 5000 1\nok\nbefore 1000 1\nhot 1000 1\nok\nbefore 2000 1\n\
             hot 2000 1\nok\nhot 3000:1:0 6000:1:0 7000:1:0\ncold 8000:1:0\nghosts\n\
             still\ncount 4 4 3 2\n",
        ),
    ];
    check_all(&rt, rt.alloc(), &scripts);
}

#[test]
fn a_scan_of_fresh_keys_takes_no_hot_one(rt: HostRuntime) -> Result<(), Fail> {
    let mut script = Vec::new(rt.alloc());
    write!(script, "cache 100 100\n")?;
    // A hot set that is read, a scan of a thousand fresh keys, and the hot set again.
    write_each(&mut script, "insert", 1000..=1096, " 1")?;
    write_each(&mut script, "get", 1000..=1096, "")?;
    write_each(&mut script, "insert", 2000..=2999, " 1")?;
    write_each(&mut script, "get", 1000..=1096, "")?;
    write!(script, "hits\n")?;
    let mut written = Vec::new(rt.alloc());
    let ended = serve(
        rt.alloc(),
        script.as_slice(),
        &mut written,
        &mut Vec::new(rt.alloc()),
    );
    expect_eq!(rt; ended, 0);
    let told = b"some 1\nsome 1\nsome 1\nhits 194 misses 0\n";
    expect!(rt; written.as_slice().ends_with(told.as_slice()));
    Ok(())
}
